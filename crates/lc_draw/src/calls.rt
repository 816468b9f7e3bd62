//! The calls of a history, and the entries of an order that are theirs.
ghost use Rattle.std.specs.Prelude.{◌≡◌, [], IfOk, vec_len};
ghost use Rattle.lc_history.specs.View.{events_of, entries_view};
ghost use Rattle.lc_draw.specs.Counting.{IsUpTo, is_between, number_such, numbers_for};

use crate::counting::{next_turn, number_at, put_number, turns_of};
use crate::stretches::Stretch;
use indexmap::IndexMap;
use lc_base::{OpId, OutOfMemory};
use lc_history::{Done, Event};
use lc_seq::{Pick, TextCall};
use std::alloc::Global;

/// A call, with what it returned, and with its entry in the order, as far as it has these.
#[derive(Clone, Copy)]
pub(crate) struct Call<'a> {
    pub(crate) client: u32,
    pub(crate) op: OpId,
    pub(crate) numbers: &'a [i64],
    pub(crate) reply: Option<&'a [i64]>,
    /// At which place the events have its beginning, and its return, if it has returned.
    pub(crate) begins: usize,
    pub(crate) returns: Option<usize>,
    pub(crate) choice: Option<&'a Pick>,
    /// The place of its entry.
    pub(crate) place: Option<usize>,
}

/// The calls of a history, in the order of their beginnings.
pub(crate) struct Calls<'a> {
    pub(crate) calls: Vec<Call<'a>>,
    /// For each event the call that it begins or ends.
    pub(crate) call_of_event: Vec<usize>,
    /// How many calls each client made, in the order of their first ones.
    pub(crate) turns: IndexMap<u32, u64>,
    /// Which calls these are.
    numbers: IndexMap<(u32, u64), usize>,
}

impl Drop for Calls<'_> {
    fn drop(self) {
        let Calls {
            calls: _,
            call_of_event: _,
            turns: _,
            numbers: _,
        } = self;
    }
}

impl<'a> Calls<'a> {
    ghost use Rattle.std.specs.Prelude.{◌≡◌, ◌+◌, ◌<◌, ◌^◌, ◌++◌, ◌∷◌, [], List, OnOk, vec_len};
    ghost use Rattle.lc_seq.specs.Sequential as Q;
    ghost use Rattle.lc_history.specs.History as H;
    ghost use Rattle.lc_history.specs.View.{event_of};
    ghost use Rattle.lc_history.specs.WellFormed.{client_of};
    ghost use Rattle.lc_draw.specs.Counting.{IsUpTo, turns_of};

    fn new(alloc: Global) -> Calls<'a>
        ensures { IsUpTo [] (vec_len result.calls) result.turns.entries result.numbers.entries }
    {
        Calls {
            calls: Vec::new(alloc),
            call_of_event: Vec::new(alloc),
            turns: IndexMap::new(alloc),
            numbers: IndexMap::new(alloc),
        }
    }

    // A client calls an operation.
    fn begin(&mut self, client: u32, op: OpId, numbers: &'a [i64]) -> Result<(), OutOfMemory>
        requires { turns_of self.old.turns.entries client + 1 < 2 ^ 64 }
        ensures { OnOk result ((events : List H.Event) (call : Q.Call) → IsUpTo events (vec_len self.old.calls) self.old.turns.entries self.old.numbers.entries
            → IsUpTo (events ++ H.Called client call ∷ []) (vec_len self.new.calls) self.new.turns.entries self.new.numbers.entries) }
    {
        let number = self.calls.len();
        self.calls.push(Call {
            client,
            op,
            numbers,
            reply: None,
            begins: self.call_of_event.len(),
            returns: None,
            choice: None,
            place: None,
        })?;
        let turn = next_turn(&mut self.turns, client)?;
        put_number(&mut self.numbers, client, turn, number)?;
        self.call_of_event.push(number)?;
        Ok(())
    }

    // The last call of a client returns numbers.
    fn end(&mut self, client: u32, numbers: &'a [i64]) -> Result<(), OutOfMemory>
        ensures calls { vec_len self.new.calls ≡ vec_len self.old.calls }
        ensures turns { self.new.turns.entries ≡ self.old.turns.entries }
        ensures numbers { self.new.numbers.entries ≡ self.old.numbers.entries }
    {
        let last = turns_of(&self.turns, client).saturating_sub(1);
        let number = number_at(&self.numbers, client, last).unwrap_or(self.calls.len());
        if let Some(call) = self.calls.get_mut(number) {
            call.reply = Some(numbers);
            call.returns = Some(self.call_of_event.len());
        }
        self.call_of_event.push(number)?;
        Ok(())
    }

    // One event more.
    fn take(&mut self, event: &'a Event) -> Result<(), OutOfMemory>
        requires { turns_of self.old.turns.entries (client_of (event_of event.now)) + 1 < 2 ^ 64 }
        ensures { OnOk result ((events : List H.Event) → IsUpTo events (vec_len self.old.calls) self.old.turns.entries self.old.numbers.entries
            → IsUpTo (events ++ event_of event.now ∷ []) (vec_len self.new.calls) self.new.turns.entries self.new.numbers.entries) }
    {
        match event {
            Event::Invoke {
                client,
                op,
                numbers,
            } => self.begin(*client, *op, numbers),
            Event::Respond { client, numbers } => self.end(*client, numbers),
        }
    }
}

/// The calls of these events.
pub(crate) fn calls_of(alloc: Global, events: &[Event]) -> Result<Calls<'_>, OutOfMemory>
    ensures { IfOk result (λ calls. IsUpTo (events_of events.now) (vec_len calls.calls) calls.turns.entries calls.numbers.entries) }
{
    let mut calls = Calls::new(alloc);
    for event in events {
        calls.take(event)?;
    }
    Ok(calls)
}

/// The number of a client's call, if it lies in a stretch.
fn number_held(calls: &Calls<'_>, stretch: &Stretch, client: u32, turn: u64) -> Option<usize>
    ensures { result ≡ number_such (is_between stretch.now.begun.entries stretch.now.returned.entries) calls.now.numbers.entries client turn }
{
    if stretch.holds(client, turn) {
        number_at(&calls.numbers, client, turn)
    } else {
        None
    }
}

/// For each entry of an order its call, if it lies in a stretch.
pub(crate) fn numbers_of(
    alloc: Global,
    calls: &Calls<'_>,
    order: &[Done<TextCall, Pick, Vec<i64>>],
    stretch: &Stretch,
) -> Result<Vec<Option<usize>>, OutOfMemory>
    ensures { IfOk result (λ numbers. numbers.items ≡ numbers_for (is_between stretch.now.begun.entries stretch.now.returned.entries) calls.now.numbers.entries [] (entries_view order.now)) }
{
    let mut seen = IndexMap::new(alloc);
    let mut numbers = Vec::new(alloc);
    for done in order {
        let turn = next_turn(&mut seen, done.client)?;
        numbers.push(number_held(calls, stretch, done.client, turn))?;
    }
    Ok(numbers)
}

/// Notes at each call its entry, if it has one.
pub(crate) fn note_entries<'a>(
    calls: &mut [Call<'a>],
    order: &'a [Done<TextCall, Pick, Vec<i64>>],
    numbers: &[Option<usize>],
) {
    for (place, (done, number)) in order.iter().zip(numbers.iter()).enumerate() {
        if let Some(call) = number.and_then(|number| calls.get_mut(number)) {
            call.place = Some(place);
            call.choice = Some(&done.choice);
        }
    }
}
