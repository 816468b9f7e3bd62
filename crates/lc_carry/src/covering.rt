//! Whether there is a column in place of each that a term or a formula names.
ghost use Rattle.std.specs.Prelude.{◌≡◌};
ghost use Rattle.lc_carry.specs.Renaming.{column_for, covered};
ghost use Rattle.lc_term.specs.Places.{term_passes, column_passes, passes, all_pass};
ghost use Rattle.lc_term.specs.Syntax.{formulas};
ghost use Rattle.lc_term.specs.View.{term_of, column_of, formula_of, formulas_of};

use crate::mapping::has_column;
use lc_base::ColId;
use lc_term::{ColExpr, Formula, Term};

/// Whether there is a column in place of each that a term names.
#[cycle(is_term_covered)]
pub(crate) fn is_term_covered(columns: &[Option<ColId>], term: &Term) -> bool
    ensures { result ≡ term_passes (covered (column_for columns.now)) (term_of term.now) }
{
    match term {
        Term::Number(_) | Term::Variable(_) | Term::Bound(_) => true,
        Term::Add(left, right) | Term::Subtract(left, right) => {
            is_term_covered(columns, left) && is_term_covered(columns, right)
        }
        Term::Multiply(_, term) => is_term_covered(columns, term),
        Term::Read(column, index) => {
            is_column_covered(columns, column) && is_term_covered(columns, index)
        }
    }
}

/// Whether there is a column in place of each that a column expression names.
#[cycle(is_term_covered)]
pub(crate) fn is_column_covered(columns: &[Option<ColId>], column: &ColExpr) -> bool
    ensures { result ≡ column_passes (covered (column_for columns.now)) (column_of column.now) }
{
    let mut rest = column;
    'stores: loop {
        match rest {
            ColExpr::Base(column) => return has_column(columns, *column),
            ColExpr::Affine(..) => return true,
            ColExpr::Store(below, index, value) => {
                if !is_term_covered(columns, index) || !is_term_covered(columns, value) {
                    return false;
                }
                rest = below;
            }
        }
    }
}

/// Whether there is a column in place of each that a formula names.
#[cycle(is_formula_covered)]
pub(crate) fn is_formula_covered(columns: &[Option<ColId>], formula: &Formula) -> bool
    ensures { result ≡ passes (λ n. covered (column_for columns.now)) 0 (formula_of formula.now) }
{
    match formula {
        Formula::Le(left, right) | Formula::Eq(left, right) => {
            is_term_covered(columns, left) && is_term_covered(columns, right)
        }
        Formula::Not(formula) => is_formula_covered(columns, formula),
        Formula::And(parts) | Formula::Or(parts) => are_parts_covered(columns, parts),
        Formula::Implies(left, right) => {
            is_formula_covered(columns, left) && is_formula_covered(columns, right)
        }
        Formula::Forall(body) | Formula::Exists(body) => is_formula_covered(columns, body),
    }
}

#[cycle(is_formula_covered)]
fn are_parts_covered(columns: &[Option<ColId>], parts: &[Formula]) -> bool
    ensures { result ≡ all_pass (λ n. covered (column_for columns.now)) 0 (formulas (formulas_of parts.now)) }
{
    for part in parts {
        if !is_formula_covered(columns, part) {
            return false;
        }
    }
    true
}
