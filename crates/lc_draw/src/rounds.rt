//! How many events are before the mark of an entry.
ghost use Rattle.std.specs.Prelude.{◌≡◌, ◌+◌, ◌<◌, ◌^◌, ℕ, suc, cond, IfOk, OnOk, length};
ghost use Rattle.lc_history.specs.History.{count, is_call, is_of, is_return};
ghost use Rattle.lc_history.specs.View.{entries_view, entry_view, event_of, events_of};
ghost use Rattle.lc_history.specs.WellFormed.{client_of};
ghost use Rattle.lc_draw.specs.Counting.{begun_such, has_turn, turns_of};
ghost use Rattle.lc_draw.specs.Stretches.{begins_such_at, events_to_mark, is_open_at, mark_at, up_to_last};

use crate::counting::{next_call, next_turn, turns_of};
use crate::stretches::calls_begun;
use indexmap::IndexMap;
use lc_base::OutOfMemory;
use lc_history::{Done, Event};
use lc_seq::{Pick, TextCall};
use std::alloc::Global;

/// How many entries each client has.
fn entries_of(
    alloc: Global,
    order: &[Done<TextCall, Pick, Vec<i64>>],
) -> Result<IndexMap<u32, u64>, OutOfMemory>
    ensures { IfOk result (λ turns. (c : ℕ) → turns_of turns.entries c ≡ count (is_of c) (entries_view order.now)) }
{
    let mut turns = IndexMap::new(alloc);
    for done in order {
        next_turn(&mut turns, done.client)?;
    }
    Ok(turns)
}

/// Whether an event begins one of each client's first calls, of which there are so many.
fn begins_one(
    turns: &mut IndexMap<u32, u64>,
    first: &IndexMap<u32, u64>,
    event: &Event,
) -> Result<bool, OutOfMemory>
    requires { turns_of turns.old.entries (client_of (event_of event.now)) + 1 < 2 ^ 64 }
    ensures begins { IfOk result (λ begins. begins ≡ begun_such (has_turn first.now.entries) (turns_of turns.old.entries) (event_of event.now)) }
    ensures more { OnOk result ((c : ℕ) → turns_of turns.new.entries c ≡ cond (is_call c (event_of event.now)) (suc (turns_of turns.old.entries c)) (turns_of turns.old.entries c)) }
{
    match next_call(turns, event)? {
        Some((client, turn)) => Ok(turn < turns_of(first, client)),
        None => Ok(false),
    }
}

/// How many events there are up to the last that begins one of these first calls.
fn begun_until(
    alloc: Global,
    events: &[Event],
    first: &IndexMap<u32, u64>,
) -> Result<usize, OutOfMemory>
    ensures { IfOk result (λ until. until ≡ up_to_last (begins_such_at (has_turn first.now.entries) (events_of events.now)) (length events.now)) }
{
    let mut turns = IndexMap::new(alloc);
    let mut until = 0;
    for (place, event) in events.iter().enumerate() {
        let begins = begins_one(&mut turns, first, event)?;
        if begins {
            until = place + 1;
        }
    }
    Ok(until)
}

/// Whether an event is a return of a client.
fn is_return(event: &Event, client: u32) -> bool
    ensures { result ≡ is_return client (event_of event.now) }
{
    !event.begins() && event.client() == client
}

/// How often a client has returned, with this event.
fn count_return(returned: u64, event: &Event, client: u32) -> u64
    requires { returned + 1 < 2 ^ 64 }
    ensures { result ≡ cond (is_return client (event_of event.now)) (suc returned) returned }
{
    if is_return(event, client) {
        returned + 1
    } else {
        returned
    }
}

/// How many events there are before the return of a client's call, counted from 0.
fn open_until(events: &[Event], client: u32, turn: u64) -> usize
    ensures { result ≡ up_to_last (is_open_at (events_of events.now) client turn) (length events.now) }
{
    let mut returned = 0;
    let mut until = 0;
    for (place, event) in events.iter().enumerate() {
        returned = count_return(returned, event, client);
        if returned <= turn {
            until = place + 1;
        }
    }
    until
}

/// How many events are before the mark of an entry behind these, if it has a call.
fn events_to_mark(
    alloc: Global,
    events: &[Event],
    before: &[Done<TextCall, Pick, Vec<i64>>],
    done: &Done<TextCall, Pick, Vec<i64>>,
) -> Result<Option<usize>, OutOfMemory>
    requires { length before.now + 1 < 2 ^ 64 }
    ensures { IfOk result (λ at. at ≡ events_to_mark (events_of events.now) (entries_view before.now) (entry_view done.now)) }
{
    let client = done.client;
    let mut entries = entries_of(alloc, before)?;
    let turn = next_turn(&mut entries, client)?;
    let calls = calls_begun(alloc, events)?;
    if turns_of(&calls, client) <= turn {
        return Ok(None);
    }
    let begun = begun_until(alloc, events, &entries)?;
    let open = open_until(events, client, turn);
    Ok(Some(begun.min(open)))
}

/// How many events are before the mark of the entry at a place, if there is one.
pub(crate) fn mark_at(
    alloc: Global,
    events: &[Event],
    order: &[Done<TextCall, Pick, Vec<i64>>],
    place: usize,
) -> Result<Option<usize>, OutOfMemory>
    ensures { IfOk result (λ at. at ≡ mark_at (events_of events.now) (entries_view order.now) place) }
{
    let Some(done) = order.get(place) else {
        return Ok(None);
    };
    let before = order.split_at(place).0;
    events_to_mark(alloc, events, before, done)
}
