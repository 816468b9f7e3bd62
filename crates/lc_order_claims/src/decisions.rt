//! Whether an order linearizes a history.
ghost use Rattle.std.specs.Prelude.{◌≤◌, IfOk, length, take};
ghost use Rattle.lc_history.specs.Histories.{events_in};
ghost use Rattle.lc_history.specs.History.{Linearizes};
ghost use Rattle.lc_order.specs.Decided.{IsDecided};
ghost use Rattle.lc_order.specs.Refuted.{IsRefuted};

use lc_base::OutOfMemory;
use lc_history::{Done, History};
use lc_order::{Decision, Refutation, Searchable, decide, refute};
use std::alloc::Global;

/// An order that is answered linearizes the history; if it is answered that there is none, there is none, and none of the first
/// events whose number is answered.
pub fn deciding<S: Searchable>(
    alloc: Global,
    object: &S,
    history: &History,
    given: Vec<Done<S::Call, S::Choice, S::Reply>>,
    budget: u64,
) -> Result<Decision<S::Call, S::Choice, S::Reply>, OutOfMemory>
    ensures { IfOk result (IsDecided (S.step object.now) (S.start object.now) (events_in history.now) S.call_meant S.choice_meant S.numbers) }
{
    decide(alloc, object, history, given, budget)
}

/// If it is answered that no order linearizes the first events of a history, none does, and none linearizes the history.
pub fn refuting<S: Searchable>(
    alloc: Global,
    object: &S,
    history: &History,
    front: usize,
    budget: u64,
) -> Result<Refutation, OutOfMemory>
    requires { front ≤ length (events_in history.now) }
    ensures front { IfOk result (IsRefuted (Linearizes (S.step object.now) (S.start object.now) (take front (events_in history.now)))) }
    ensures whole { IfOk result (IsRefuted (Linearizes (S.step object.now) (S.start object.now) (events_in history.now))) }
{
    refute(alloc, object, history, front, budget)
}
