//! The numbers between which a formula leaves the innermost bound variable.
ghost use Rattle.std.specs.Prelude.{◌≡◌, ◌-ℤ◌, ◌+ℤ◌, ◌≤ℤ◌, ◌<◌, ◌≤◌, ℤ, List, pos, IfOk, IfSome, Option, Some, None};
ghost use Rattle.lc_term.specs.State.{state_of, env_of};
ghost use Rattle.lc_term.specs.Syntax.{formulas};
ghost use Rattle.lc_term.specs.View.{term_of, formula_of, formulas_of};
ghost use Rattle.lc_look.specs.Ranges.{numbers_of, tried, is_own, numeral, beyond, closed, no_range, first_of, joined, range_of, ranges_of, premise_range, from, count_between, between, numbers_in};

use crate::computing::{difference, number_of};
use lc_base::OutOfMemory;
use lc_term::{Env, Formula, State, Term, is_closed};
use std::alloc::Global;

/// How many numbers of a range are tried at most.
const LIMIT: i128 = 1024;

/// The least and the greatest number that a variable can have, as far as they are known.
#[derive(Clone, Copy)]
pub(crate) struct Range {
    low: Option<i64>,
    high: Option<i64>,
}

/// Whether a term is the innermost bound variable.
fn is_own(term: &Term) -> bool
    ensures { result ≡ is_own (term_of term.now) }
{
    match term {
        Term::Bound(number) => *number == 0,
        Term::Number(_) | Term::Variable(_) | Term::Add(..) => false,
        Term::Subtract(..) | Term::Multiply(..) | Term::Read(..) => false,
    }
}

/// The number of a numeral.
fn numeral(term: &Term) -> Option<i64>
    ensures { result ≡ numeral (term_of term.now) }
{
    match term {
        Term::Number(number) => Some(*number),
        Term::Variable(_) | Term::Bound(_) | Term::Add(..) => None,
        Term::Subtract(..) | Term::Multiply(..) | Term::Read(..) => None,
    }
}

/// How much a term is more than the variable: 0 if it is the variable, and a numeral if that is added to it.
fn beyond(term: &Term) -> Option<i64>
    ensures { result ≡ beyond (term_of term.now) }
{
    match term {
        Term::Bound(_) => { if is_own(term) { Some(0) } else { None } }
        Term::Add(left, right) => { if is_own(left) { numeral(right) } else { None } }
        Term::Number(_) | Term::Variable(_) => None,
        Term::Subtract(..) | Term::Multiply(..) | Term::Read(..) => None,
    }
}

/// The number of a term without bound variables.
fn closed(term: &Term, state: &State, env: &Env) -> Option<i64>
    ensures { result ≡ closed (state_of state.now) (env_of env.now) (term_of term.now) }
{
    if is_closed(term) {
        number_of(term, state, env, &[])
    } else {
        None
    }
}

fn first_of(first: Option<i64>, second: Option<i64>) -> Option<i64>
    ensures { result ≡ first_of first second }
{
    match first {
        Some(number) => Some(number),
        None => second,
    }
}

impl Range {
    /// No bound.
    fn none() -> Range
        ensures { result ≡ no_range }
    {
        Range {
            low: None,
            high: None,
        }
    }

    /// What two leave: of two bounds of one side the first.
    fn and(self, other: Range) -> Range
        ensures { result ≡ joined self other }
    {
        Range {
            low: first_of(self.low, other.low),
            high: first_of(self.high, other.high),
        }
    }

    /// The numbers that it has, if it has both bounds and they are few.
    pub(crate) fn numbers(self, alloc: Global) -> Result<Option<Vec<i64>>, OutOfMemory>
        ensures { IfOk result (λ found. numbers_of found ≡ numbers_in self) }
    {
        match (self.low, self.high) {
            (Some(low), Some(high)) => numbers_between(alloc, low, high),
            (Some(_), None) | (None, _) => Ok(None),
        }
    }
}

/// How many numbers there are from one to another, if they are few.
fn count_between(low: i64, high: i64) -> Option<u16>
    ensures { result ≡ count_between low high }
{
    let width = i128::from(high) - i128::from(low) + 1;
    if width < 0 {
        return Some(0);
    }
    if width <= LIMIT {
        Some(width as u16)
    } else {
        None
    }
}

/// All numbers from one to another, if they are few.
fn numbers_between(alloc: Global, low: i64, high: i64) -> Result<Option<Vec<i64>>, OutOfMemory>
    ensures { IfOk result (λ found. numbers_of found ≡ between low high) }
{
    let Some(count) = count_between(low, high) else {
        return Ok(None);
    };
    let mut numbers = Vec::with_capacity(alloc, usize::from(count))?;
    for i in 0..count {
        numbers.push(low + i64::from(i))?;
    }
    Ok(Some(numbers))
}

/// The numbers at which a quantifier is tried: all of a range if there is one, else these.
pub(crate) fn tried<'a>(range: &'a Option<Vec<i64>>, numbers: &'a [i64]) -> &'a [i64]
    ensures { result.now ≡ tried numbers.now (numbers_of range.now) }
{
    match range {
        Some(range) => range,
        None => numbers,
    }
}

/// Where a formula holds, the variable is between these.
#[cycle(range_of)]
pub(crate) fn range_of(formula: &Formula, state: &State, env: &Env) -> Range
    ensures { result ≡ range_of (state_of state.now) (env_of env.now) (formula_of formula.now) }
{
    match formula {
        Formula::Le(left, right) => Range {
            low: difference(closed(left, state, env), beyond(right)),
            high: difference(closed(right, state, env), beyond(left)),
        },
        Formula::And(parts) => ranges_of(parts, state, env),
        Formula::Eq(..) | Formula::Not(_) | Formula::Or(_) => Range::none(),
        Formula::Implies(..) | Formula::Forall(_) | Formula::Exists(_) => Range::none(),
    }
}

#[cycle(range_of)]
fn ranges_of(parts: &[Formula], state: &State, env: &Env) -> Range
    ensures { result ≡ ranges_of (state_of state.now) (env_of env.now) (formulas (formulas_of parts.now)) }
{
    let mut range = Range::none();
    for part in parts {
        range = range.and(range_of(part, state, env));
    }
    range
}

/// Where the variable is not between these, the formula holds, since a premise does not.
#[cycle(premise_range)]
pub(crate) fn premise_range(formula: &Formula, state: &State, env: &Env) -> Range
    ensures { result ≡ premise_range (state_of state.now) (env_of env.now) (formula_of formula.now) }
{
    match formula {
        Formula::Implies(left, right) => {
            let right = premise_range(right, state, env);
            range_of(left, state, env).and(right)
        }
        Formula::Le(..) | Formula::Eq(..) | Formula::Not(_) | Formula::And(_) => Range::none(),
        Formula::Or(_) | Formula::Forall(_) | Formula::Exists(_) => Range::none(),
    }
}
