//! Looking at a formula.
ghost use Rattle.std.specs.Prelude.{◌≡◌, ◌∷◌, pos, IfOk, int_le};
ghost use Rattle.std.specs.Ordering.{int_eq};
ghost use Rattle.lc_term.specs.Meaning.{outside, push, Holds};
ghost use Rattle.lc_term.specs.State.{state_of, env_of};
ghost use Rattle.lc_term.specs.Syntax.{formulas};
ghost use Rattle.lc_term.specs.View.{term_of, formula_of, formulas_of};
ghost use Rattle.lc_look.specs.Computing.{bounds_of, number};
ghost use Rattle.lc_look.specs.Looking.{look, look_in, look_all, look_none, look_each, opposite, at_most_open, compared, Says};

use crate::computing::number_of;
use crate::range::{premise_range, range_of, tried};
use crate::seen::Seen;
use lc_base::OutOfMemory;
use lc_term::{Env, Formula, State, Term};
use std::alloc::Global;

/// Whether the number of a term is at most that of another.
fn is_at_most(left: &Term, right: &Term, state: &State, env: &Env, bounds: &[i64]) -> Seen
    ensures { result ≡ compared int_le (number (state_of state.now) (env_of env.now) (bounds_of bounds.now) (term_of left.now)) (number (state_of state.now) (env_of env.now) (bounds_of bounds.now) (term_of right.now)) }
{
    let left = number_of(left, state, env, bounds);
    let right = number_of(right, state, env, bounds);
    match (left, right) {
        (Some(left), Some(right)) => Seen::of(left <= right),
        (Some(_), None) | (None, _) => Seen::Open,
    }
}

/// Whether two terms have the same number.
fn is_equal(left: &Term, right: &Term, state: &State, env: &Env, bounds: &[i64]) -> Seen
    ensures { result ≡ compared int_eq (number (state_of state.now) (env_of env.now) (bounds_of bounds.now) (term_of left.now)) (number (state_of state.now) (env_of env.now) (bounds_of bounds.now) (term_of right.now)) }
{
    let left = number_of(left, state, env, bounds);
    let right = number_of(right, state, env, bounds);
    match (left, right) {
        (Some(left), Some(right)) => Seen::of(left == right),
        (Some(_), None) | (None, _) => Seen::Open,
    }
}

/// The numbers of bound variables below one more quantifier, whose variable has 0.
fn below_one_more(alloc: Global, bounds: &[i64]) -> Result<Vec<i64>, OutOfMemory>
    ensures { IfOk result (λ below. below.items ≡ pos 0 ∷ bounds.now) }
{
    let mut below = Vec::with_capacity(alloc, bounds.len() + 1)?;
    below.push(0)?;
    below.extend_from_slice(bounds)?;
    Ok(below)
}

#[cycle(look_in)]
fn look_in(
    alloc: Global,
    formula: &Formula,
    state: &State,
    env: &Env,
    bounds: &[i64],
    numbers: &[i64],
) -> Result<Seen, OutOfMemory>
    ensures { IfOk result (λ seen. seen ≡ look_in numbers.now (state_of state.now) (env_of env.now) (bounds_of bounds.now) (formula_of formula.now)) }
{
    match formula {
        Formula::Le(left, right) => Ok(is_at_most(left, right, state, env, bounds)),
        Formula::Eq(left, right) => Ok(is_equal(left, right, state, env, bounds)),
        Formula::Not(formula) => {
            let seen = look_in(alloc, formula, state, env, bounds, numbers)?;
            Ok(seen.opposite())
        }
        Formula::And(parts) => look_all(alloc, parts, state, env, bounds, numbers),
        Formula::Or(parts) => {
            let seen = look_none(alloc, parts, state, env, bounds, numbers)?;
            Ok(seen.opposite())
        }
        Formula::Implies(left, right) => {
            let left = look_in(alloc, left, state, env, bounds, numbers)?;
            if let Seen::No = left {
                return Ok(Seen::Yes);
            }
            let right = look_in(alloc, right, state, env, bounds, numbers)?;
            Ok(left.and(right.opposite()).opposite())
        }
        Formula::Forall(body) => {
            let body: &Formula = body;
            let range = premise_range(body, state, env).numbers(alloc)?;
            let these = tried(&range, numbers);
            let seen = look_each(alloc, body, state, env, bounds, these, numbers)?;
            Ok(seen.among(&range))
        }
        Formula::Exists(body) => {
            let body: &Formula = body;
            let range = range_of(body, state, env).numbers(alloc)?;
            let these = tried(&range, numbers);
            let seen = look_each_not(alloc, body, state, env, bounds, these, numbers)?;
            Ok(seen.among(&range).opposite())
        }
    }
}

#[cycle(look_in)]
fn look_all(
    alloc: Global,
    parts: &[Formula],
    state: &State,
    env: &Env,
    bounds: &[i64],
    numbers: &[i64],
) -> Result<Seen, OutOfMemory>
    ensures { IfOk result (λ seen. seen ≡ look_all numbers.now (state_of state.now) (env_of env.now) (bounds_of bounds.now) (formulas (formulas_of parts.now))) }
{
    let mut seen = Seen::Yes;
    for part in parts {
        let part = look_in(alloc, part, state, env, bounds, numbers)?;
        seen = seen.and(part);
        if let Seen::No = seen {
            return Ok(Seen::No);
        }
    }
    Ok(seen)
}

#[cycle(look_in)]
fn look_none(
    alloc: Global,
    parts: &[Formula],
    state: &State,
    env: &Env,
    bounds: &[i64],
    numbers: &[i64],
) -> Result<Seen, OutOfMemory>
    ensures { IfOk result (λ seen. seen ≡ look_none numbers.now (state_of state.now) (env_of env.now) (bounds_of bounds.now) (formulas (formulas_of parts.now))) }
{
    let mut seen = Seen::Yes;
    for part in parts {
        let part = look_in(alloc, part, state, env, bounds, numbers)?;
        seen = seen.and(part.opposite());
        if let Seen::No = seen {
            return Ok(Seen::No);
        }
    }
    Ok(seen)
}

// What is seen of the body at each of the numbers that are tried.
#[cycle(look_in)]
fn look_each(
    alloc: Global,
    body: &Formula,
    state: &State,
    env: &Env,
    bounds: &[i64],
    these: &[i64],
    numbers: &[i64],
) -> Result<Seen, OutOfMemory>
    ensures { IfOk result (λ seen. seen ≡ look_each (λ x. look_in numbers.now (state_of state.now) (env_of env.now) (push x (bounds_of bounds.now)) (formula_of body.now)) these.now) }
{
    let mut below = below_one_more(alloc, bounds)?;
    let mut seen = Seen::Yes;
    for number in these {
        below[0] = *number;
        let here = look_in(alloc, body, state, env, &below, numbers)?;
        seen = seen.and(here);
        if let Seen::No = seen {
            return Ok(Seen::No);
        }
    }
    Ok(seen)
}

// What is seen of its negation there.
#[cycle(look_in)]
fn look_each_not(
    alloc: Global,
    body: &Formula,
    state: &State,
    env: &Env,
    bounds: &[i64],
    these: &[i64],
    numbers: &[i64],
) -> Result<Seen, OutOfMemory>
    ensures { IfOk result (λ seen. seen ≡ look_each (λ x. opposite (look_in numbers.now (state_of state.now) (env_of env.now) (push x (bounds_of bounds.now)) (formula_of body.now))) these.now) }
{
    let mut below = below_one_more(alloc, bounds)?;
    let mut seen = Seen::Yes;
    for number in these {
        below[0] = *number;
        let here = look_in(alloc, body, state, env, &below, numbers)?;
        seen = seen.and(here.opposite());
        if let Seen::No = seen {
            return Ok(Seen::No);
        }
    }
    Ok(seen)
}

/// Looks at a formula in a state, where quantifiers are tried at these numbers. A comparison is left open where a number leaves 64
/// bits. A column or a variable that is not there has 0.
pub fn look(
    alloc: Global,
    formula: &Formula,
    state: &State,
    env: &Env,
    numbers: &[i64],
) -> Result<Seen, OutOfMemory>
    ensures seen { IfOk result (λ seen. seen ≡ look numbers.now (state_of state.now) (env_of env.now) (formula_of formula.now)) }
    ensures right { IfOk result (λ seen. Says seen (Holds (state_of state.now) (env_of env.now) outside (formula_of formula.now))) }
{
    look_in(alloc, formula, state, env, &[], numbers)
}
