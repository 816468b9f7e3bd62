//! How a history that is right is read from the tokens of its text, a row at a time.
ghost use Rattle.std.specs.Prelude.{◌≡◌, Some, IfOk, IfSome};
ghost use Rattle.lc_seq.specs.SpecView.{choice_of};
ghost use Rattle.lc_history.specs.Histories.{events_in};
ghost use Rattle.lc_hist.specs.JsonRecorded.{order_view};
ghost use Rattle.lc_hist.specs.JsonSeen.{all_of};
ghost use Rattle.lc_hist.specs.JsonTokens.{Says, SayDeed, SayPick, SayEvents, SayEntries, AreLast, AreMembers, AreSaid};
ghost use Rattle.lc_hist.specs.JsonValues.{event_in, entry_in, pick_in};
ghost use Rattle.lc_history.specs.View.{event_of, entry_view, entries_view};

use crate::cursor::Cursor;
use crate::json_reading::may_follow;
use crate::open_calls::{OpenCalls, opened};
use crate::operations::Operations;
use crate::tokens::{are_same, next_call, next_numbers};
use lc_base::{OpId, OutOfMemory};
use lc_history::{Done, Event, History};
use lc_seq::{Pick, TextCall};
use std::alloc::Global;
use std::str;

/// The rest of a client's event, after the client.
fn next_deed(
    alloc: Global,
    operations: &Operations<'_>,
    client: u32,
    reader: &mut Cursor<'_>,
) -> Result<Option<Event>, OutOfMemory>
    ensures { IfOk result (λ found. IfSome found (λ event. SayDeed (all_of operations.now) client reader.old (event_of event) reader.new)) }
{
    match reader.next_text() {
        Some(word) if are_same(word, b"call".as_slice()) => match next_call(
            alloc, operations, reader,
        )? {
            Some(call) => Ok(Some(Event::Invoke {
                client,
                op: call.op,
                numbers: call.numbers,
            })),
            None => Ok(None),
        },
        Some(word) if are_same(word, b"return".as_slice()) => match next_numbers(alloc, reader)? {
            Some(numbers) => Ok(Some(Event::Respond { client, numbers })),
            None => Ok(None),
        },
        _ => Ok(None),
    }
}

/// The next event.
fn next_event(
    alloc: Global,
    operations: &Operations<'_>,
    reader: &mut Cursor<'_>,
) -> Result<Option<Event>, OutOfMemory>
    ensures { IfOk result (λ found. IfSome found (λ event. Says 3 (event_in (all_of operations.now)) reader.old (event_of event) reader.new)) }
{
    if !reader.begins_array() {
        return Ok(None);
    }
    let Some(client) = reader.next_client() else {
        return Ok(None);
    };
    let Some(event) = next_deed(alloc, operations, client, reader)? else {
        return Ok(None);
    };
    if !reader.take_end_array() {
        return Ok(None);
    }
    Ok(Some(event))
}

/// The choice that an array names.
fn next_named_pick(
    alloc: Global,
    operations: &Operations<'_>,
    op: OpId,
    reader: &mut Cursor<'_>,
) -> Result<Option<Pick>, OutOfMemory>
    ensures { IfOk result (λ found. IfSome found (λ pick. Says 2 (λ d. pick_in (all_of operations.now) op.0 (Some d)) reader.old (choice_of pick) reader.new)) }
{
    if !reader.begins_array() {
        return Ok(None);
    }
    let Some(text) = reader.next_text() else {
        return Ok(None);
    };
    let Ok(text) = str::from_utf8(text) else {
        return Ok(None);
    };
    let Some(numbers) = next_numbers(alloc, reader)? else {
        return Ok(None);
    };
    let Some(name) = operations.choice(op, text, numbers.len()) else {
        return Ok(None);
    };
    if !reader.take_end_array() {
        return Ok(None);
    }
    Ok(Some(Pick::Named { name, numbers }))
}

/// The choice of a call, if one is said, and the end of its entry.
fn next_pick(
    alloc: Global,
    operations: &Operations<'_>,
    op: OpId,
    reader: &mut Cursor<'_>,
) -> Result<Option<Pick>, OutOfMemory>
    ensures { IfOk result (λ found. IfSome found (λ pick. SayPick (all_of operations.now) op.0 reader.old (choice_of pick) reader.new)) }
{
    if reader.take_end_array() {
        return Ok(operations.is_ordered(op).then_some(Pick::First));
    }
    let Some(pick) = next_named_pick(alloc, operations, op, reader)? else {
        return Ok(None);
    };
    if !reader.take_end_array() {
        return Ok(None);
    }
    Ok(Some(pick))
}

/// The next entry.
fn next_entry(
    alloc: Global,
    operations: &Operations<'_>,
    reader: &mut Cursor<'_>,
) -> Result<Option<Done<TextCall, Pick, Vec<i64>>>, OutOfMemory>
    ensures { IfOk result (λ found. IfSome found (λ entry. Says 3 (entry_in (all_of operations.now)) reader.old (entry_view entry) reader.new)) }
{
    if !reader.begins_array() {
        return Ok(None);
    }
    let Some(client) = reader.next_client() else {
        return Ok(None);
    };
    let Some(call) = next_call(alloc, operations, reader)? else {
        return Ok(None);
    };
    let Some(reply) = next_numbers(alloc, reader)? else {
        return Ok(None);
    };
    if !operations.has_replies(call.op, reply.len()) {
        return Ok(None);
    }
    let Some(choice) = next_pick(alloc, operations, call.op, reader)? else {
        return Ok(None);
    };
    Ok(Some(Done {
        client,
        call,
        choice,
        reply,
    }))
}

/// The history of the next events, if they are right.
fn next_history(
    alloc: Global,
    operations: &Operations<'_>,
    reader: &mut Cursor<'_>,
) -> Result<Option<History>, OutOfMemory>
    ensures { IfOk result (λ found. IfSome found (λ history. SayEvents (all_of operations.now) reader.old (events_in history) reader.new)) }
{
    if !reader.begins_array() {
        return Ok(None);
    }
    let mut events = Vec::new(alloc);
    let mut calls = OpenCalls::new(alloc);
    'events: while !reader.take_end_array() {
        let Some(event) = next_event(alloc, operations, reader)? else {
            return Ok(None);
        };
        let client = event.client();
        if !may_follow(operations, calls.of(client), &event) {
            return Ok(None);
        }
        calls.set(client, opened(&event))?;
        events.push(event)?;
    }
    Ok(Some(History::of_well_formed(events)))
}

/// The next entries, if they are right.
fn next_order(
    alloc: Global,
    operations: &Operations<'_>,
    reader: &mut Cursor<'_>,
) -> Result<Option<Vec<Done<TextCall, Pick, Vec<i64>>>>, OutOfMemory>
    ensures { IfOk result (λ found. IfSome found (λ order. SayEntries (all_of operations.now) reader.old (entries_view order.items) reader.new)) }
{
    if !reader.begins_array() {
        return Ok(None);
    }
    let mut order = Vec::new(alloc);
    'entries: while !reader.take_end_array() {
        let Some(done) = next_entry(alloc, operations, reader)? else {
            return Ok(None);
        };
        order.push(done)?;
    }
    Ok(Some(order))
}

/// The order under the key `order`, which must be the whole rest of the text.
fn next_last(
    alloc: Global,
    operations: &Operations<'_>,
    reader: &mut Cursor<'_>,
) -> Result<Option<Vec<Done<TextCall, Pick, Vec<i64>>>>, OutOfMemory>
    ensures { IfOk result (λ found. IfSome found (λ order. AreLast (all_of operations.now) reader.old (entries_view order.items))) }
{
    if !reader.takes_key(b"order".as_slice()) {
        return Ok(None);
    }
    let Some(order) = next_order(alloc, operations, reader)? else {
        return Ok(None);
    };
    if !reader.is_over() {
        return Ok(None);
    }
    Ok(Some(order))
}

/// The history under the key `events` and the order under the key `order`, if there is one, which must be the whole rest of the text.
fn next_parts(
    alloc: Global,
    operations: &Operations<'_>,
    reader: &mut Cursor<'_>,
) -> Result<Option<(History, Option<Vec<Done<TextCall, Pick, Vec<i64>>>>)>, OutOfMemory>
    ensures { IfOk result (λ found. IfSome found (λ answer. AreMembers (all_of operations.now) reader.old (events_in answer.0) (order_view answer.1))) }
{
    if !reader.takes_key(b"events".as_slice()) {
        return Ok(None);
    }
    let Some(history) = next_history(alloc, operations, reader)? else {
        return Ok(None);
    };
    if reader.is_over() {
        return Ok(Some((history, None)));
    }
    match next_last(alloc, operations, reader)? {
        Some(order) => Ok(Some((history, Some(order)))),
        None => Ok(None),
    }
}

/// The history that a text says, and its order, if it says one, provided it lists first the events and then the order, and all of
/// them are right. `None` says nothing about the text.
pub(crate) fn read_right(
    alloc: Global,
    operations: &Operations<'_>,
    text: &[u8],
) -> Result<Option<(History, Option<Vec<Done<TextCall, Pick, Vec<i64>>>>)>, OutOfMemory>
    ensures { IfOk result (λ found. IfSome found (λ answer. AreSaid (all_of operations.now) text.now (events_in answer.0) (order_view answer.1))) }
{
    let mut reader = Cursor::new(text);
    if !reader.begins_object() {
        return Ok(None);
    }
    next_parts(alloc, operations, &mut reader)
}
