//! The calls of a history, as an object has them.
ghost use Rattle.std.specs.Prelude.{◌≡◌, ◌<◌, ℕ, ℤ, List, Some, IsTrue, IfOk, IfSome, MatchOption, length, slice_get};
ghost use Rattle.lc_history.specs.History.{Event, Replied};
ghost use Rattle.lc_history.specs.View.{events_of};
ghost use Rattle.lc_order.specs.Expanded.{IsNoCall, IsAsked};
ghost use Rattle.lc_order.specs.Rosters.{IsSpan};

use crate::roster::Span;
use crate::searchable::Searchable;
use lc_base::OutOfMemory;
use lc_history::Event;
use std::alloc::Global;

/// A call of a history: whether it returned, and with which reply.
#[derive(Drop)]
pub(crate) struct Asked<C> {
    pub(crate) call: C,
    pub(crate) returned: bool,
    pub(crate) reply: Vec<i64>,
}

// What was returned at a place.
fn reply_at(
    alloc: Global,
    events: &[Event],
    place: Option<usize>,
) -> Result<Option<Vec<i64>>, OutOfMemory>
    ensures { IfOk result (λ found. IfSome found (λ reply. (i : ℕ) × (place ≡ Some i) × (c : ℕ) × (slice_get (events_of events.now) i ≡ Some (Replied c reply.items)))) }
{
    let Some(place) = place else { return Ok(None) };
    let Some(Event::Respond { numbers, .. }) = events.get(place) else {
        return Ok(None);
    };
    Ok(Some(Vec::from_slice(alloc, numbers)?))
}

/// The call that is there, if the object has it.
pub(crate) fn call_there<S: Searchable>(
    alloc: Global,
    object: &S,
    events: &[Event],
    span: Span,
) -> Result<Option<Asked<S::Call>>, OutOfMemory>
    ensures { IfOk result (λ found. (c k : ℕ) → IsSpan (events_of events.now) c k span →
        MatchOption found (IsNoCall (S.HasCall object.now) (events_of events.now) c k) (IsAsked S.call_meant (events_of events.now) c k)) }
{
    let Some(Event::Invoke { op, numbers, .. }) = events.get(span.called) else {
        return Ok(None);
    };
    let Some(call) = object.call_of(alloc, op.0, numbers)? else {
        return Ok(None);
    };
    match reply_at(alloc, events, span.returned)? {
        Some(reply) => Ok(Some(Asked {
            call,
            returned: true,
            reply,
        })),
        None => Ok(Some(Asked {
            call,
            returned: false,
            reply: Vec::new(alloc),
        })),
    }
}

/// By the place of a call whether it is known to only read. Nothing is promised of it: it spares a look at other calls.
pub(crate) fn reads_in<S: Searchable>(
    alloc: Global,
    object: &S,
    events: &[Event],
) -> Result<Vec<bool>, OutOfMemory> {
    let mut reads = Vec::with_capacity(alloc, events.len())?;
    for event in events {
        let mut is_read = false;
        if let Event::Invoke { op, numbers, .. } = event {
            if let Some(call) = object.call_of(alloc, op.0, numbers)? {
                is_read = object.only_reads(&call);
            }
        }
        reads.push(is_read)?;
    }
    Ok(reads)
}

/// Whether the call at a place is said to only read.
pub(crate) fn is_read(reads: &[bool], place: usize) -> bool {
    reads.get(place).copied().unwrap_or(false)
}
