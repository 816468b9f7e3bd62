//! Whether an order linearizes a history: its tests, in their order.
ghost use Rattle.std.specs.Prelude.{◌≡◌, ◌↔◌, IfOk, IsTrue, length};
ghost use Rattle.lc_history.specs.Checked.{IsWithin, IsNamed, IsReplied, IsTaken, IsChecked, AreNames, IsReplayed};
ghost use Rattle.lc_history.specs.Histories.{events_in};
ghost use Rattle.lc_history.specs.Judged.{IsJudged};
ghost use Rattle.lc_history.specs.View.{entry_of, entries_in, events_of};

use crate::event::{Done, Event};
use crate::history::History;
use crate::reason::Reason;
use crate::spans::{Span, are_complete, clients_of, preceded_places, spans_of};
use lc_base::OutOfMemory;
use lc_seq::{SeqFault, SeqObject};
use std::alloc::Global;
use thiserror::Error;

/// Why an order is not judged to linearize a history.
#[derive(Clone, Copy, Debug, PartialEq, Eq, Error)]
pub enum JudgeFault {
    /// It does not: the first test that it does not pass, by the place in the order, from 0, and the reason.
    #[error("place {place}: {reason}")]
    Order { place: u64, reason: Reason },
    /// A number that is reached at the first place whose tests are not passed leaves what the object computes with.
    #[error("overflow")]
    Overflow,
    /// An allocation was refused.
    #[error("out of memory")]
    OutOfMemory,
}

impl From<OutOfMemory> for JudgeFault {
    ghost use Rattle.std.specs.Prelude.{◌≡◌};
    ghost use Rattle.lc_history.specs.declared.judging.JudgeFault.TheVariants.{OutOfMemory};

    ghost from_gives = { λ _ fault. fault ≡ OutOfMemory };

    fn from(_: OutOfMemory) -> JudgeFault {
        JudgeFault::OutOfMemory
    }
}

impl From<SeqFault> for JudgeFault {
    ghost use Rattle.std.specs.Prelude.{◌≡◌};
    ghost use Rattle.lc_history.specs.Faults.{judge_fault};

    ghost from_gives = { λ cause fault. fault ≡ judge_fault cause };

    fn from(cause: SeqFault) -> JudgeFault {
        match cause {
            SeqFault::Overflow => JudgeFault::Overflow,
            SeqFault::OutOfMemory => JudgeFault::OutOfMemory,
        }
    }
}

/// Judges whether an order linearizes a history. `Ok` is returned only if it does, and `Order` only if it does
/// not, with the first test that is not passed. At each place from 0 these are, in turn, `OtherCall`, `OtherReply`,
/// `NoStep` and `Preceded`; after the last place it is `MissingCall`. Either is returned only if the numbers fit that
/// were reached up to there, and `Overflow` only if one does not; so an order has one answer, but for `OutOfMemory`.
pub fn judge<S: SeqObject>(
    alloc: Global,
    object: &S,
    history: &History,
    order: &[Done<S::Call, S::Choice, S::Reply>],
) -> Result<(), JudgeFault>
    ensures { IsJudged (S.step object.now) (S.Fits object.now) (S.start object.now) (events_in history.now) (entries_in S.call_meant S.choice_meant S.numbers order.now) result }
{
    let events = history.events();
    let mut clients = clients_of(alloc, events)?;
    let spans = spans_of::<S>(alloc, &mut clients, order)?;
    let preceded = preceded_places(alloc, &spans)?;
    replay(alloc, object, events, order, &spans, &preceded)?;
    if !are_complete(&clients) {
        return Err(JudgeFault::Order {
            place: order.len() as u64,
            reason: Reason::MissingCall,
        });
    }
    Ok(())
}

// The tests at each place, in order.
fn replay<S: SeqObject>(
    alloc: Global,
    object: &S,
    events: &[Event],
    order: &[Done<S::Call, S::Choice, S::Reply>],
    spans: &[Option<Span>],
    preceded: &[bool],
) -> Result<(), JudgeFault>
    requires { AreNames (events_of events.now) (entries_in S.call_meant S.choice_meant S.numbers order.now) spans.now preceded.now }
    ensures { IsReplayed (S.step object.now) (S.Fits object.now) (S.start object.now) (events_of events.now) (entries_in S.call_meant S.choice_meant S.numbers order.now) result }
{
    let mut state = object.initial(alloc)?;
    for (place, done) in order.iter().enumerate() {
        let failure = failure_of(
            alloc,
            object,
            events,
            spans[place],
            preceded[place],
            done,
            &mut state,
        )?;
        if let Some(reason) = failure {
            return Err(JudgeFault::Order {
                place: place as u64,
                reason,
            });
        }
    }
    Ok(())
}

// The first test that an entry does not pass. If it passes all, the state is the one after it.
fn failure_of<S: SeqObject>(
    alloc: Global,
    object: &S,
    events: &[Event],
    span: Option<Span>,
    is_preceded: bool,
    done: &Done<S::Call, S::Choice, S::Reply>,
    state: &mut S::State,
) -> Result<Option<Reason>, SeqFault>
    requires within { IsWithin (length events.now) span }
    requires state { S.HasState object.now state.old }
    ensures checked { IsChecked (S.step object.now) (S.Fits object.now) (events_of events.now) span is_preceded (entry_of S.call_meant S.choice_meant S.numbers done.now) (S.meaning state.old) (S.meaning state.new) result }
    ensures state { S.HasState object.now state.new }
{
    if !is_its_call(object, events, span, &done.call) {
        return Ok(Some(Reason::OtherCall));
    }
    if !has_its_reply(alloc, object, events, span, &done.reply)? {
        return Ok(Some(Reason::OtherReply));
    }
    if !takes_step(alloc, object, done, state)? {
        return Ok(Some(Reason::NoStep));
    }
    if is_preceded {
        return Ok(Some(Reason::Preceded));
    }
    Ok(None)
}

// Whether the call there is this call.
fn is_its_call<S: SeqObject>(
    object: &S,
    events: &[Event],
    span: Option<Span>,
    call: &S::Call,
) -> bool
    requires { IsWithin (length events.now) span }
    ensures { IsTrue result ↔ IsNamed (events_of events.now) span (S.call_meant call.now) }
{
    let Some(span) = span else {
        return false;
    };
    let Event::Invoke { op, numbers, .. } = &events[span.called] else {
        return false;
    };
    object.is_call(call, op.0, numbers)
}

// Whether the call there has not returned, or returned this reply.
fn has_its_reply<S: SeqObject>(
    alloc: Global,
    object: &S,
    events: &[Event],
    span: Option<Span>,
    reply: &S::Reply,
) -> Result<bool, OutOfMemory>
    requires { IsWithin (length events.now) span }
    ensures { IfOk result (λ answer. IsTrue answer ↔ IsReplied (events_of events.now) span (S.numbers reply.now)) }
{
    let Some(span) = span else { return Ok(true) };
    let Some(place) = span.returned else {
        return Ok(true);
    };
    let Event::Respond { numbers, .. } = &events[place] else {
        return Ok(true);
    };
    let given = object.numbers_of(alloc, reply)?;
    Ok(are_equal(&given, numbers))
}

fn are_equal(a: &[i64], b: &[i64]) -> bool
    ensures { IsTrue result ↔ (a.now ≡ b.now) }
{
    a == b
}

// Applies an entry's call, and returns whether this gives the entry's reply.
fn takes_step<S: SeqObject>(
    alloc: Global,
    object: &S,
    done: &Done<S::Call, S::Choice, S::Reply>,
    state: &mut S::State,
) -> Result<bool, SeqFault>
    requires { S.HasState object.now state.old }
    ensures taken { IsTaken (S.step object.now) (S.Fits object.now) (S.meaning state.old) (S.meaning state.new) (entry_of S.call_meant S.choice_meant S.numbers done.now) result }
    ensures state { S.HasState object.now state.new }
{
    match object.apply(alloc, state, done.client, &done.call, &done.choice)? {
        Some(reply) => Ok(reply == done.reply),
        None => Ok(false),
    }
}
