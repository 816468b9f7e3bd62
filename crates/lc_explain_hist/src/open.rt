//! Events that no order linearizes.
use crate::sentence::Sentence;
use crate::told::{Row, Told};
use indexmap::IndexMap;
use lc_base::{Fault, OutOfMemory};
use lc_explain::Label;
use lc_hist::recorded_from_json;
use lc_history::Event;
use lc_order::{Replies, next_replies};
use lc_seq::TextSpec;
use std::alloc::Global;

/// How many open calls are shown.
const SHOWN: usize = 64;

/// Of how many of these, beside the one that returns, it is searched what they could reply.
const SEARCHED: usize = 3;

/// How many replies of a call are searched.
const REPLIES: usize = 4;

/// Over how many nodes each of them is searched.
const BUDGET: u64 = 200_000;

/// The places of the calls that have not returned within these events, in their order.
fn open_calls(alloc: Global, events: &[Event]) -> Result<Vec<usize>, OutOfMemory> {
    let mut last = IndexMap::new(alloc);
    for (place, event) in events.iter().enumerate() {
        last.insert(event.client(), place)?;
    }
    let mut open = Vec::new(alloc);
    for (_, place) in last.iter() {
        if events.get(*place).is_some_and(|event| event.begins()) {
            open.push(*place)?;
        }
    }
    open.sort_unstable();
    Ok(open)
}

/// The numbers of a reply, as a history has them.
fn reply_text(alloc: Global, numbers: &[i64]) -> Result<String, OutOfMemory> {
    let mut text = String::new(alloc);
    text.push('[')?;
    for (place, number) in numbers.iter().enumerate() {
        if place > 0 {
            text.push(',')?;
        }
        write!(text, "{number}")?;
    }
    text.push(']')?;
    Ok(text)
}

/// What a call could reply, in words that end a sentence.
fn replies_text(alloc: Global, replies: &Replies) -> Result<String, OutOfMemory> {
    let mut text = String::new(alloc);
    if replies.numbers.is_empty() {
        text.push_str(if replies.all {
            ", and could not return yet"
        } else {
            ""
        })?;
        return Ok(text);
    }
    text.push_str(if replies.all {
        ", and could only return "
    } else {
        ", and could return "
    })?;
    for (place, numbers) in replies.numbers.iter().enumerate() {
        if place > 0 {
            text.push_str(" or ")?;
        }
        text.push_str(&reply_text(alloc, numbers)?)?;
    }
    if !replies.all {
        text.push_str(", or otherwise")?;
    }
    Ok(text)
}

/// Says of an open call that it is open before an event, or returns by it; and what it could reply, if that is searched.
fn say_call(
    alloc: Global,
    told: &mut Told<'_>,
    spec: &TextSpec,
    earlier: &[Event],
    place: usize,
    last_client: u32,
    is_searched: bool,
) -> Result<(), OutOfMemory> {
    let Some(call) = earlier.get(place) else {
        return Ok(());
    };
    let client = call.client();
    let could = if is_searched || client == last_client {
        let replies = next_replies(alloc, spec, earlier, client, REPLIES, BUDGET)?;
        replies_text(alloc, &replies)?
    } else {
        String::new(alloc)
    };
    let could = could.as_str();
    let sentence = if client == last_client {
        Sentence::ReturnedCall { client, could }
    } else {
        Sentence::OpenCall { client, could }
    };
    told.say(Row::Events, place, Label::Note, sentence)
}

/// Says at which event no order linearizes the events up to there, and which calls are open there.
fn say_open(
    alloc: Global,
    told: &mut Told<'_>,
    spec: &TextSpec,
    events: &[Event],
    last: usize,
) -> Result<(), OutOfMemory> {
    let (Some(event), Some(earlier)) = (events.get(last), events.get(..last)) else {
        return Ok(());
    };
    told.say(Row::Events, last, Label::Error, Sentence::Unordered)?;
    let open = open_calls(alloc, earlier)?;
    for (number, place) in open.iter().take(SHOWN).enumerate() {
        let is_searched = number < SEARCHED;
        say_call(
            alloc,
            told,
            spec,
            earlier,
            *place,
            event.client(),
            is_searched,
        )?;
    }
    Ok(())
}

/// Says of a recorded history that no order linearizes its first events, so many.
pub(crate) fn say_unordered(
    alloc: Global,
    told: &mut Told<'_>,
    spec: &TextSpec,
    bytes: &[u8],
    count: usize,
) -> Result<(), OutOfMemory> {
    let Some(last) = count.checked_sub(1) else {
        return Ok(());
    };
    match recorded_from_json(alloc, spec, bytes) {
        Ok((history, _)) => say_open(alloc, told, spec, history.events(), last),
        Err(Fault::OutOfMemory) => Err(OutOfMemory),
        Err(Fault::Refused(_)) => Ok(()),
    }
}
