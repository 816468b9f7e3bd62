//! Whether the columns and variables of a term or a formula are below given counts.
ghost use Rattle.std.specs.Prelude.{◌≡◌};
ghost use Rattle.lc_term.specs.Places.{known, term_passes, column_passes, is_known, are_known};
ghost use Rattle.lc_term.specs.Syntax.{formulas};
ghost use Rattle.lc_term.specs.View.{term_of, column_of, formula_of, formulas_of};

use crate::formula::Formula;
use crate::term::{ColExpr, Term};

/// Whether columns and free variables of a term are below these counts, and no bound variable occurs in it.
#[cycle(term_is_known)]
pub fn term_is_known(term: &Term, columns: usize, variables: usize) -> bool
    ensures { result ≡ term_passes (known columns variables) (term_of term.now) }
{
    match term {
        Term::Number(_) => true,
        Term::Variable(number) => (*number as usize) < variables,
        Term::Bound(_) => false,
        Term::Add(left, right) | Term::Subtract(left, right) => {
            term_is_known(left, columns, variables) && term_is_known(right, columns, variables)
        }
        Term::Multiply(_, term) => term_is_known(term, columns, variables),
        Term::Read(column, index) => {
            column_is_known(column, columns, variables) && term_is_known(index, columns, variables)
        }
    }
}

#[cycle(term_is_known)]
fn column_is_known(column: &ColExpr, columns: usize, variables: usize) -> bool
    ensures { result ≡ column_passes (known columns variables) (column_of column.now) }
{
    let mut rest = column;
    'stores: loop {
        match rest {
            ColExpr::Base(column) => return (column.0 as usize) < columns,
            ColExpr::Affine(..) => return true,
            ColExpr::Store(below, index, value) => {
                if !term_is_known(index, columns, variables)
                    || !term_is_known(value, columns, variables)
                {
                    return false;
                }
                rest = below;
            }
        }
    }
}

/// Whether columns and free variables of a formula are below these counts, and no bound variable occurs in it.
#[cycle(formula_is_known)]
pub fn formula_is_known(formula: &Formula, columns: usize, variables: usize) -> bool
    ensures { result ≡ is_known columns variables (formula_of formula.now) }
{
    match formula {
        Formula::Le(left, right) | Formula::Eq(left, right) => {
            term_is_known(left, columns, variables) && term_is_known(right, columns, variables)
        }
        Formula::Not(formula) => formula_is_known(formula, columns, variables),
        Formula::And(parts) | Formula::Or(parts) => are_known(parts, columns, variables),
        Formula::Implies(left, right) => {
            formula_is_known(left, columns, variables)
                && formula_is_known(right, columns, variables)
        }
        Formula::Forall(body) | Formula::Exists(body) => {
            formula_is_known(body, columns, variables)
        }
    }
}

#[cycle(formula_is_known)]
fn are_known(parts: &[Formula], columns: usize, variables: usize) -> bool
    ensures { result ≡ are_known columns variables (formulas (formulas_of parts.now)) }
{
    for part in parts {
        if !formula_is_known(part, columns, variables) {
            return false;
        }
    }
    true
}
