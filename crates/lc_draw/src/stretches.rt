//! Stretches of events, and which calls lie in them.
ghost use Rattle.std.specs.Prelude.{◌≡◌, ◌+◌, ℕ, [], IfOk, take};
ghost use Rattle.lc_history.specs.History.{count, is_call, is_return};
ghost use Rattle.lc_history.specs.View.{events_of};
ghost use Rattle.lc_draw.specs.Counting.{AreTurns, is_between, turns_of};
ghost use Rattle.lc_draw.specs.Stretches.{such_calls};

use crate::counting::{next_call, note_return, turns_of};
use indexmap::IndexMap;
use lc_base::OutOfMemory;
use lc_history::Event;
use std::alloc::Global;

/// A stretch of events, from behind so many of them to behind so many, with how many calls each client began up to its end, and how
/// many returned up to its beginning.
#[derive(Drop)]
pub(crate) struct Stretch {
    pub(crate) from: usize,
    pub(crate) until: usize,
    pub(crate) begun: IndexMap<u32, u64>,
    pub(crate) returned: IndexMap<u32, u64>,
}

impl Stretch {
    ghost use Rattle.std.specs.Prelude.{◌≡◌};
    ghost use Rattle.lc_draw.specs.Counting.{is_between};

    /// Whether a call of a client lies in it, counted from 0.
    pub(crate) fn holds(&self, client: u32, turn: u64) -> bool
        ensures { result ≡ is_between self.now.begun.entries self.now.returned.entries client turn }
    {
        turn < turns_of(&self.begun, client) && turns_of(&self.returned, client) <= turn
    }
}

/// The first events, so many or all.
pub(crate) fn first_events(events: &[Event], count: usize) -> &[Event]
    ensures { result.now ≡ take count events.now }
{
    events.split_at(count.min(events.len())).0
}

/// Where a stretch ends that goes so many events farther; behind all it makes no difference where.
pub(crate) fn end_of(events: &[Event], at: usize, width: usize) -> usize
    ensures { take result events.now ≡ take (at + width) events.now }
{
    at.saturating_add(width)
}

/// How many calls each client begins.
pub(crate) fn calls_begun(
    alloc: Global,
    events: &[Event],
) -> Result<IndexMap<u32, u64>, OutOfMemory>
    ensures { IfOk result (λ turns. (c : ℕ) → turns_of turns.entries c ≡ count (is_call c) (events_of events.now)) }
{
    let mut turns = IndexMap::new(alloc);
    for event in events {
        next_call(&mut turns, event)?;
    }
    Ok(turns)
}

/// How often calls of each client return.
fn calls_returned(alloc: Global, events: &[Event]) -> Result<IndexMap<u32, u64>, OutOfMemory>
    ensures { IfOk result (λ turns. (c : ℕ) → turns_of turns.entries c ≡ count (is_return c) (events_of events.now)) }
{
    let mut turns = IndexMap::new(alloc);
    for event in events {
        note_return(&mut turns, event)?;
    }
    Ok(turns)
}

/// The stretch of events between these numbers of them.
pub(crate) fn stretch_between(
    alloc: Global,
    events: &[Event],
    from: usize,
    until: usize,
) -> Result<Stretch, OutOfMemory>
    ensures from { IfOk result (λ stretch. stretch.from ≡ from) }
    ensures until { IfOk result (λ stretch. stretch.until ≡ until) }
    ensures turns { IfOk result (λ stretch. AreTurns (take until (events_of events.now)) (take from (events_of events.now)) stretch.begun.entries stretch.returned.entries) }
{
    let begun = calls_begun(alloc, first_events(events, until))?;
    let returned = calls_returned(alloc, first_events(events, from))?;
    Ok(Stretch {
        from,
        until,
        begun,
        returned,
    })
}

/// For each call, in the order of their beginnings, whether it lies in a stretch.
pub(crate) fn calls_held(
    alloc: Global,
    events: &[Event],
    stretch: &Stretch,
) -> Result<Vec<bool>, OutOfMemory>
    ensures { IfOk result (λ held. held.items ≡ such_calls (is_between stretch.now.begun.entries stretch.now.returned.entries) [] (events_of events.now)) }
{
    let mut turns = IndexMap::new(alloc);
    let mut held = Vec::new(alloc);
    for event in events {
        if let Some((client, turn)) = next_call(&mut turns, event)? {
            held.push(stretch.holds(client, turn))?;
        }
    }
    Ok(held)
}
