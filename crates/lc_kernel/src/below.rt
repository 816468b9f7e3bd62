//! Whether the free variables of terms and formulas have numbers below a count.
ghost use Rattle.std.specs.Prelude.{◌≡◌};
ghost use Rattle.lc_kernel.specs.Below.{below, term_below, column_below, formula_below};
ghost use Rattle.lc_term.specs.Places.{all_pass};
ghost use Rattle.lc_term.specs.Syntax.{formulas};
ghost use Rattle.lc_term.specs.View.{term_of, column_of, formula_of, formulas_of};

use lc_term::{ColExpr, Formula, Term};

/// Whether each free variable of a term has a number below the count.
#[cycle(term_below)]
pub(crate) fn term_below(count: u32, term: &Term) -> bool
    ensures { result ≡ term_below count (term_of term.now) }
{
    match term {
        Term::Number(_) | Term::Bound(_) => true,
        Term::Variable(number) => *number < count,
        Term::Add(left, right) | Term::Subtract(left, right) => {
            term_below(count, left) && term_below(count, right)
        }
        Term::Multiply(_, term) => term_below(count, term),
        Term::Read(column, index) => column_below(count, column) && term_below(count, index),
    }
}

/// Whether each free variable of a column expression has a number below the count.
#[cycle(term_below)]
pub(crate) fn column_below(count: u32, column: &ColExpr) -> bool
    ensures { result ≡ column_below count (column_of column.now) }
{
    let mut rest = column;
    'stores: loop {
        match rest {
            ColExpr::Base(_) | ColExpr::Affine(..) => return true,
            ColExpr::Store(below, index, value) => {
                if !term_below(count, index) || !term_below(count, value) {
                    return false;
                }
                rest = below;
            }
        }
    }
}

/// Whether each free variable of a formula has a number below the count.
#[cycle(formula_below)]
pub(crate) fn formula_below(count: u32, formula: &Formula) -> bool
    ensures { result ≡ formula_below count (formula_of formula.now) }
{
    match formula {
        Formula::Le(left, right) | Formula::Eq(left, right) => {
            term_below(count, left) && term_below(count, right)
        }
        Formula::Not(formula) => formula_below(count, formula),
        Formula::And(parts) | Formula::Or(parts) => parts_below(count, parts),
        Formula::Implies(left, right) => formula_below(count, left) && formula_below(count, right),
        Formula::Forall(body) | Formula::Exists(body) => formula_below(count, body),
    }
}

#[cycle(formula_below)]
fn parts_below(count: u32, parts: &[Formula]) -> bool
    ensures { result ≡ all_pass (λ n. below count) 0 (formulas (formulas_of parts.now)) }
{
    for part in parts {
        if !formula_below(count, part) {
            return false;
        }
    }
    true
}
