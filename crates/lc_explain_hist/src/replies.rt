//! What an object replies.
ghost use Rattle.std.specs.Prelude.{◌≡◌};

use lc_base::OutOfMemory;
use lc_history::Done;
use lc_seq::{SeqFault, SeqObject};
use std::alloc::Global;

/// What an object does at an entry.
#[derive(Drop)]
pub(crate) enum Reply {
    /// It replies these numbers.
    Numbers(Vec<i64>),
    /// It takes no step.
    NoStep,
    /// A number that is reached leaves what it computes with.
    Overflow,
}

/// What an object does with the call of an entry.
fn reply_of<S: SeqObject>(
    alloc: Global,
    object: &S,
    state: &mut S::State,
    done: &Done<S::Call, S::Choice, S::Reply>,
) -> Result<Reply, OutOfMemory>
    requires { S.HasState object.now state.old }
    ensures { S.HasState object.now state.new }
{
    match object.apply(alloc, state, done.client, &done.call, &done.choice) {
        Ok(Some(reply)) => Ok(Reply::Numbers(object.numbers_of(alloc, &reply)?)),
        Ok(None) => Ok(Reply::NoStep),
        Err(SeqFault::Overflow) => Ok(Reply::Overflow),
        Err(SeqFault::OutOfMemory) => Err(OutOfMemory),
    }
}

/// What an object does at the last of these entries, after the others.
pub(crate) fn last_reply<S: SeqObject>(
    alloc: Global,
    object: &S,
    order: &[Done<S::Call, S::Choice, S::Reply>],
) -> Result<Reply, OutOfMemory> {
    let mut state = object.initial(alloc)?;
    let mut last = Reply::NoStep;
    for done in order {
        last = reply_of(alloc, object, &mut state, done)?;
    }
    Ok(last)
}
