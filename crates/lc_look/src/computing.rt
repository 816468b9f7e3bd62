//! The numbers of terms in 64 bits, where bound variables have numbers, too.
ghost use Rattle.std.specs.Prelude.{◌≡◌, ◌+ℤ◌, ◌-ℤ◌, ◌*ℤ◌, Some};
ghost use Rattle.lc_term.specs.State.{state_of, env_of};
ghost use Rattle.lc_term.specs.View.{term_of, column_of};
ghost use Rattle.lc_look.specs.Computing.{number, cell, in_64, both_in_64, bounds_of};

use lc_base::ColId;
use lc_term::{ColExpr, Env, State, Term};

/// The number in a cell of a state, if it fits; 0 where there is no such column.
#[tactic(auto, using(crate::proofs::Fitting::result_in_64, crate::proofs::Fitting::none_there))]
fn state_cell(state: &State, column: ColId, index: i64) -> Option<i64>
    ensures { result ≡ in_64 (state_of state.now column.0 index) }
{
    if (column.0 as usize) < state.column_count() {
        state.read(column, index).ok()
    } else {
        Some(0)
    }
}

#[tactic(auto, using(crate::proofs::Fitting::option_in_64))]
fn sum(left: Option<i64>, right: Option<i64>) -> Option<i64>
    ensures { result ≡ both_in_64 ◌+ℤ◌ left right }
{
    match (left, right) {
        (Some(left), Some(right)) => left.checked_add(right),
        (Some(_), None) | (None, _) => None,
    }
}

#[tactic(auto, using(crate::proofs::Fitting::option_in_64))]
pub(crate) fn difference(left: Option<i64>, right: Option<i64>) -> Option<i64>
    ensures { result ≡ both_in_64 ◌-ℤ◌ left right }
{
    match (left, right) {
        (Some(left), Some(right)) => left.checked_sub(right),
        (Some(_), None) | (None, _) => None,
    }
}

#[tactic(auto, using(crate::proofs::Fitting::option_in_64))]
fn product(factor: i64, right: Option<i64>) -> Option<i64>
    ensures { result ≡ both_in_64 ◌*ℤ◌ (Some factor) right }
{
    match right {
        Some(right) => factor.checked_mul(right),
        None => None,
    }
}

/// `slope * index + start`.
fn affine_cell(slope: i64, start: i64, index: i64) -> Option<i64>
    ensures { result ≡ both_in_64 ◌+ℤ◌ (both_in_64 ◌*ℤ◌ (Some slope) (Some index)) (Some start) }
{
    let sloped = product(slope, Some(index));
    sum(sloped, Some(start))
}

/// The number of a bound variable, counted from the innermost one; 0 where there is none.
fn bound_number(bounds: &[i64], number: u32) -> i64
    ensures { result ≡ bounds_of bounds.now number }
{
    bounds.get(number as usize).copied().unwrap_or(0)
}

/// The number of a free variable; 0 where there is none.
fn variable_number(env: &Env, number: u32) -> i64
    ensures { result ≡ env_of env.now number }
{
    env.values.get(number as usize).copied().unwrap_or(0)
}

/// The number of a term, if each number that is reached fits 64 bits.
#[cycle(number_of)]
pub(crate) fn number_of(term: &Term, state: &State, env: &Env, bounds: &[i64]) -> Option<i64>
    ensures { result ≡ number (state_of state.now) (env_of env.now) (bounds_of bounds.now) (term_of term.now) }
{
    match term {
        Term::Number(number) => Some(*number),
        Term::Variable(number) => Some(variable_number(env, *number)),
        Term::Bound(number) => Some(bound_number(bounds, *number)),
        Term::Add(left, right) => {
            let left = number_of(left, state, env, bounds);
            let right = number_of(right, state, env, bounds);
            sum(left, right)
        }
        Term::Subtract(left, right) => {
            let left = number_of(left, state, env, bounds);
            let right = number_of(right, state, env, bounds);
            difference(left, right)
        }
        Term::Multiply(factor, term) => {
            let number = number_of(term, state, env, bounds);
            product(*factor, number)
        }
        Term::Read(column, index) => match number_of(index, state, env, bounds) {
            Some(index) => cell_of(column, index, state, env, bounds),
            None => None,
        },
    }
}

// The number in a cell. Of a column that is stored to, the stored index is computed first, then the stored value
// where the index is this one, and else the cell of the column below.
#[cycle(number_of)]
fn cell_of(
    expression: &ColExpr,
    index: i64,
    state: &State,
    env: &Env,
    bounds: &[i64],
) -> Option<i64>
    ensures { result ≡ cell (state_of state.now) (env_of env.now) (bounds_of bounds.now) (column_of expression.now) index }
{
    let mut rest = expression;
    'stores: loop {
        match rest {
            ColExpr::Base(column) => return state_cell(state, *column, index),
            ColExpr::Store(below, stored_index, stored) => {
                match number_of(stored_index, state, env, bounds) {
                    Some(at) => {
                        if at == index {
                            return number_of(stored, state, env, bounds);
                        }
                    }
                    None => return None,
                }
                rest = below;
            }
            ColExpr::Affine(slope, start) => return affine_cell(*slope, *start, index),
        }
    }
}
