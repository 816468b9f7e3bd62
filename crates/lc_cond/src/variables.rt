//! Variables, as terms.
ghost use Rattle.std.specs.Prelude.{◌≡◌, ◌++◌, length, map, replicate, pos, true, ◌+◌, ◌^◌, ◌<◌, if◌then◌else◌, nat_lt, IfOk};
ghost use Rattle.lc_base.specs.Limits.{argument_limit};
ghost use Rattle.lc_term.specs.Said.{variables_from};
ghost use Rattle.lc_term.specs.Syntax.{Number, Variable};
ghost use Rattle.lc_term.specs.View.{term_of};
ghost use Rattle.lc_object.specs.View.{operation_of};
ghost use Rattle.lc_object.specs.WellFormed.{has_limits};
ghost use Rattle.lc_cond.specs.Conditions.{entry_variables, enter_variables};

use crate::lookup::entry_count;
use lc_base::{OpId, OutOfMemory};
use lc_object::Operation;
use lc_term::Term;
use std::alloc::Global;

/// The `count` variables from `first` on.
pub(crate) fn variables_from(
    alloc: Global,
    first: u32,
    count: u32,
) -> Result<Vec<Term>, OutOfMemory>
    requires { first + count < 2 ^ 32 }
    ensures { IfOk result (λ ts. map term_of ts.items ≡ variables_from first count) }
{
    let mut terms = Vec::with_capacity(alloc, count as usize)?;
    for place in 0..count {
        terms.push(Term::Variable(first + place))?;
    }
    Ok(terms)
}

// Terms, followed by `count` times 0.
fn with_zeros(mut terms: Vec<Term>, count: usize) -> Result<Vec<Term>, OutOfMemory>
    ensures { IfOk result (λ ts. map term_of ts.items ≡ map term_of terms.items ++ replicate count (Number (pos 0))) }
{
    terms.reserve(count)?;
    for place in 0..count {
        let _ = place;
        terms.push(Term::Number(0))?;
    }
    Ok(terms)
}

// How many locals an operation's code has.
fn local_count(body: &Operation) -> usize
    ensures { result ≡ length (operation_of body.now).locals }
{
    body.locals.len()
}

/// The variables when a call of this operation begins: the number of clients, the client and the arguments stay, and each
/// local is 0.
#[tactic(auto, using(crate::proofs::Few::arguments_few))]
pub(crate) fn entry_variables(alloc: Global, body: &Operation) -> Result<Vec<Term>, OutOfMemory>
    requires { has_limits (operation_of body.now) ≡ true }
    ensures { IfOk result (λ ts. map term_of ts.items ≡ entry_variables (operation_of body.now)) }
{
    let terms = variables_from(alloc, 0, entry_count(body))?;
    with_zeros(terms, local_count(body))
}

// The argument at this place, or 0 if there are no more than `count`.
fn argument_or_zero(count: usize, place: u32) -> Term
    requires { place < argument_limit }
    ensures { term_of result ≡ (if nat_lt place count then Variable (2 + place) else Number (pos 0)) }
{
    if (place as usize) < count {
        Term::Variable(2 + place)
    } else {
        Term::Number(0)
    }
}

/// The variables of `enter`, when a call of this operation with `count` arguments begins.
pub(crate) fn enter_variables(
    alloc: Global,
    operation: OpId,
    count: usize,
) -> Result<Vec<Term>, OutOfMemory>
    ensures { IfOk result (λ ts. map term_of ts.items ≡ enter_variables operation.0 count) }
{
    let mut terms = Vec::with_capacity(alloc, 6)?;
    terms.push(Term::Variable(0))?;
    terms.push(Term::Variable(1))?;
    terms.push(Term::Number(i64::from(operation.0)))?;
    terms.push(argument_or_zero(count, 0))?;
    terms.push(argument_or_zero(count, 1))?;
    terms.push(argument_or_zero(count, 2))?;
    Ok(terms)
}
