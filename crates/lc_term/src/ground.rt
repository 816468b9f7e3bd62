//! Whether a quantifier occurs in a formula, and a bound variable in a term.
ghost use Rattle.std.specs.Prelude.{◌≡◌};
ghost use Rattle.lc_term.specs.Places.{no_bounds, is_closed, column_passes};
ghost use Rattle.lc_term.specs.Syntax.{formulas};
ghost use Rattle.lc_term.specs.Truth.{is_ground, are_ground};
ghost use Rattle.lc_term.specs.View.{term_of, column_of, formula_of, formulas_of};

use crate::formula::Formula;
use crate::term::{ColExpr, Term};

/// Whether no quantifier occurs in a formula.
#[cycle(is_ground)]
pub fn is_ground_of_quantifiers(formula: &Formula) -> bool
    ensures { result ≡ is_ground (formula_of formula.now) }
{
    match formula {
        Formula::Le(..) | Formula::Eq(..) => true,
        Formula::Not(formula) => is_ground_of_quantifiers(formula),
        Formula::And(parts) | Formula::Or(parts) => are_ground_of_quantifiers(parts),
        Formula::Implies(left, right) => {
            is_ground_of_quantifiers(left) && is_ground_of_quantifiers(right)
        }
        Formula::Forall(_) | Formula::Exists(_) => false,
    }
}

#[cycle(is_ground)]
fn are_ground_of_quantifiers(parts: &[Formula]) -> bool
    ensures { result ≡ are_ground (formulas (formulas_of parts.now)) }
{
    for part in parts {
        if !is_ground_of_quantifiers(part) {
            return false;
        }
    }
    true
}

/// Whether no bound variable occurs in a term. Such a term may be put in anywhere.
#[cycle(is_closed)]
pub fn is_closed(term: &Term) -> bool
    ensures { result ≡ is_closed (term_of term.now) }
{
    match term {
        Term::Number(_) | Term::Variable(_) => true,
        Term::Bound(_) => false,
        Term::Add(left, right) | Term::Subtract(left, right) => is_closed(left) && is_closed(right),
        Term::Multiply(_, term) => is_closed(term),
        Term::Read(column, index) => is_closed_column(column) && is_closed(index),
    }
}

#[cycle(is_closed)]
fn is_closed_column(column: &ColExpr) -> bool
    ensures { result ≡ column_passes no_bounds (column_of column.now) }
{
    let mut rest = column;
    'stores: loop {
        match rest {
            ColExpr::Base(_) | ColExpr::Affine(..) => return true,
            ColExpr::Store(below, index, value) => {
                if !is_closed(index) || !is_closed(value) {
                    return false;
                }
                rest = below;
            }
        }
    }
}
