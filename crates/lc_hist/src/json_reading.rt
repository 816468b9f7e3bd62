//! How the text of a history and its order is read: its bytes, and its two lists.
ghost use Rattle.std.specs.Prelude.{◌≡◌, ◌≤◌, ◌^◌, IfOk, IfSome, MatchResult};
ghost use Rattle.lc_seq.specs.TextView.{specification_of};
ghost use Rattle.lc_history.specs.Histories.{events_in};
ghost use Rattle.lc_hist.specs.JsonHistories.{Parts, IsRefusedAt, IsHistoryOf, AreEvents, AreEntries};
ghost use Rattle.lc_hist.specs.JsonItems.{values_at};
ghost use Rattle.lc_hist.specs.JsonRecorded.{IsRecordedOf, order_view};
ghost use Rattle.lc_hist.specs.JsonSeen.{all_of, order_values, may_follow, number_of, AreInText, AreInParts, IsWrongInParts, IsWrongEventItem, IsWrongEntryItem};
ghost use Rattle.lc_history.specs.View.{event_of, entries_view};

use crate::document::{Items, root, tokens_of};
use crate::json_values::{read_entry, read_event};
use crate::open_calls::{OpenCalls, opened};
use crate::operations::Operations;
use crate::token_rows::read_right;
use json::Scratch;
use lc_base::{FILE_LIMIT, Fault, OpId, OutOfMemory, Refusal};
use lc_history::{Done, Event, History};
use lc_seq::{Pick, TextCall, TextSpec};
use std::alloc::Global;

fn wrong(item: usize) -> Fault
    ensures { IsRefusedAt (λ at. at ≡ item) result }
{
    Fault::Refused(Refusal::HistoryShape(item as u64))
}

/// Whether an event is in turn if its client is in a call of this operation, or in none, and is a return with as
/// many numbers as the operation replies.
pub(crate) fn may_follow(operations: &Operations<'_>, current: Option<OpId>, event: &Event) -> bool
    ensures { result ≡ may_follow (all_of operations.now) (number_of current) (event_of event.now) }
{
    match (current, event) {
        (None, Event::Invoke { .. }) => true,
        (Some(op), Event::Respond { numbers, .. }) => operations.has_replies(op, numbers.len()),
        _ => false,
    }
}

/// The history of these events, else the first that is wrong.
fn read_events(
    alloc: Global,
    operations: &Operations<'_>,
    mut values: Items<'_, '_>,
) -> Result<History, Fault>
    ensures { MatchResult result
        (λ history. AreEvents (all_of operations.now) (values_at values.entry) (events_in history))
        (IsRefusedAt (IsWrongEventItem (all_of operations.now) (values_at values.entry))) }
{
    let mut events = Vec::new(alloc);
    let mut calls = OpenCalls::new(alloc);
    'values: while let Some(value) = values.next() {
        let item = 1 + events.len();
        let Some(event) = read_event(alloc, operations, &value)? else {
            return Err(wrong(item));
        };
        let client = event.client();
        if !may_follow(operations, calls.of(client), &event) {
            return Err(wrong(item));
        }
        calls.set(client, opened(&event))?;
        events.push(event)?;
    }
    Ok(History::of_well_formed(events))
}

/// These entries, else the first that is wrong. `before` items come before them.
fn read_order(
    alloc: Global,
    operations: &Operations<'_>,
    mut values: Items<'_, '_>,
    before: usize,
) -> Result<Vec<Done<TextCall, Pick, Vec<i64>>>, Fault>
    requires { before ≤ 2 ^ 63 }
    ensures { MatchResult result
        (λ order. AreEntries (all_of operations.now) (values_at values.entry) (entries_view order.items))
        (IsRefusedAt (IsWrongEntryItem (all_of operations.now) (values_at values.entry) before)) }
{
    let mut order = Vec::new(alloc);
    'values: while let Some(value) = values.next() {
        let Some(done) = read_entry(alloc, operations, &value)? else {
            return Err(wrong(before + order.len()));
        };
        order.push(done)?;
    }
    Ok(order)
}

/// The history that these bytes say, and the order, if they say one, provided all of it is right and in the usual order. `None`
/// says nothing about the bytes.
fn read_at_once(
    alloc: Global,
    operations: &Operations<'_>,
    bytes: &[u8],
) -> Result<Option<(History, Option<Vec<Done<TextCall, Pick, Vec<i64>>>>)>, OutOfMemory>
    ensures { IfOk result (λ found. IfSome found (λ answer. AreInText (all_of operations.now) bytes.now (events_in answer.0) (order_view answer.1))) }
{
    if bytes.len() as u64 > FILE_LIMIT || !simdutf8::is_utf8(bytes) {
        return Ok(None);
    }
    read_right(alloc, operations, bytes)
}

/// The history of these events, and these entries, none if there is no order; else the first item that is wrong.
fn read_lists(
    alloc: Global,
    operations: &Operations<'_>,
    events: Items<'_, '_>,
    order: Option<Items<'_, '_>>,
) -> Result<(History, Vec<Done<TextCall, Pick, Vec<i64>>>), Fault>
    ensures { let parts : Parts = record { events = values_at events.entry; order = order_values order.entry } in MatchResult result
        (λ answer. AreInParts (all_of operations.now) parts (events_in answer.0) (entries_view answer.1.items))
        (IsRefusedAt (IsWrongInParts (all_of operations.now) parts)) }
{
    let history = read_events(alloc, operations, events)?;
    match order {
        Some(order) => {
            let order = read_order(alloc, operations, order, 1 + history.events().len())?;
            Ok((history, order))
        }
        None => Ok((history, Vec::new(alloc))),
    }
}

/// The history and the order that these bytes say, by their values one after another; else the first item that is wrong.
fn read_values(
    alloc: Global,
    operations: &Operations<'_>,
    bytes: &[u8],
) -> Result<(History, Vec<Done<TextCall, Pick, Vec<i64>>>), Fault>
    ensures { IsHistoryOf (all_of operations.now) bytes.now result }
{
    let mut scratch = Scratch::new(alloc);
    let Some(tape) = tokens_of(alloc, bytes, &mut scratch)? else {
        return Err(wrong(0));
    };
    let Some(value) = root(&tape) else {
        return Err(wrong(0));
    };
    let Some(parts) = value.parts() else {
        return Err(wrong(0));
    };
    read_lists(alloc, operations, parts.events, Some(parts.order))
}

/// The same, if the order may be left out.
fn read_recorded(
    alloc: Global,
    operations: &Operations<'_>,
    bytes: &[u8],
) -> Result<(History, Vec<Done<TextCall, Pick, Vec<i64>>>), Fault>
    ensures { IsRecordedOf (all_of operations.now) bytes.now result }
{
    let mut scratch = Scratch::new(alloc);
    let Some(tape) = tokens_of(alloc, bytes, &mut scratch)? else {
        return Err(wrong(0));
    };
    let Some(value) = root(&tape) else {
        return Err(wrong(0));
    };
    let Some(parts) = value.recorded() else {
        return Err(wrong(0));
    };
    read_lists(alloc, operations, parts.events, parts.order)
}

/// The history and the order that a JSON text says, of calls of a specification:
/// `{"events":[E,..],"order":[D,..]}` without another key, where each E is `[CLIENT,"call",NAME,[NUMBER,..]]` or
/// `[CLIENT,"return",[NUMBER,..]]`, and each D is `[CLIENT,NAME,[NUMBER,..],[NUMBER,..]]`, with a fifth item
/// `["NAME",[NUMBER,..]]` exactly if the operation has choices.
///
/// Else `HistoryShape` has the first item that is wrong: 0 if the bytes are beyond the limit of a file, no JSON, or
/// no such object; then the events from 1, each wrong if it is not of the form, out of turn, or a return
/// with another count of numbers than its operation replies; then the entries. `OutOfMemory` says nothing about the text.
pub fn history_from_json(
    alloc: Global,
    spec: &TextSpec,
    bytes: &[u8],
) -> Result<(History, Vec<Done<TextCall, Pick, Vec<i64>>>), Fault>
    ensures { IsHistoryOf (specification_of spec.now).operations bytes.now result }
{
    let operations = Operations::new(alloc, spec.operations())?;
    if let Some((history, order)) = read_at_once(alloc, &operations, bytes)? {
        if let Some(order) = order {
            return Ok((history, order));
        }
    }
    read_values(alloc, &operations, bytes)
}

/// The history that a JSON text says, as it was recorded, and an order, if the text has one: as `history_from_json`, but that the key
/// `order` may be left out. Without it the order is empty.
pub fn recorded_from_json(
    alloc: Global,
    spec: &TextSpec,
    bytes: &[u8],
) -> Result<(History, Vec<Done<TextCall, Pick, Vec<i64>>>), Fault>
    ensures { IsRecordedOf (specification_of spec.now).operations bytes.now result }
{
    let operations = Operations::new(alloc, spec.operations())?;
    let Some((history, order)) = read_at_once(alloc, &operations, bytes)? else {
        return read_recorded(alloc, &operations, bytes);
    };
    match order {
        Some(order) => Ok((history, order)),
        None => Ok((history, Vec::new(alloc))),
    }
}
