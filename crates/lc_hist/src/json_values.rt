//! How the values of a text are read: clients, calls, returns, entries and choices.
ghost use Rattle.std.specs.Prelude.{◌≡◌, IfOk, option_map, option_and_then, codes};
ghost use Rattle.lc_seq.specs.SpecView.{text_call_of, choice_of};
ghost use Rattle.lc_hist.specs.JsonItems.{data_at, values_at};
ghost use Rattle.lc_hist.specs.JsonSeen.{all_of, said_in};
ghost use Rattle.lc_hist.specs.JsonValues.{number_in, numbers_in, client_in, is_word, call_in, invoke_from, respond_from, event_from, event_in, pick_in, choice_from, choice_with, done_from, entry_from, entry_in};
ghost use Rattle.lc_history.specs.View.{event_of, entry_view};

use crate::document::{Item, Items};
use crate::operations::Operations;
use lc_base::{OpId, OutOfMemory};
use lc_history::{CLIENT_LIMIT, Done, Event};
use lc_seq::{Pick, TextCall};
use std::alloc::Global;

/// The number that the value is, if it is one of 64 bits.
fn read_number(value: &Item<'_, '_>) -> Option<i64>
    ensures { result ≡ number_in (data_at value.now) }
{
    value.as_number()?.as_i64()
}

/// The numbers that the value lists, if it is a list of numbers.
fn read_numbers(alloc: Global, value: &Item<'_, '_>) -> Result<Option<Vec<i64>>, OutOfMemory>
    ensures { IfOk result (λ found. option_map (λ numbers. numbers.items) found ≡ numbers_in (data_at value.now)) }
{
    let Some(mut values) = value.items() else {
        return Ok(None);
    };
    let mut numbers = Vec::new(alloc);
    'values: while let Some(value) = values.next() {
        let Some(number) = read_number(&value) else {
            return Ok(None);
        };
        numbers.push(number)?;
    }
    Ok(Some(numbers))
}

/// The client that the value names.
fn read_client(value: &Item<'_, '_>) -> Option<u32>
    ensures { result ≡ client_in (data_at value.now) }
{
    match value.as_number()?.as_u64() {
        Some(client) if client <= u64::from(CLIENT_LIMIT) => Some(client as u32),
        _ => None,
    }
}

fn says_call(value: &Item<'_, '_>) -> bool
    ensures { result ≡ is_word (codes "call") (data_at value.now) }
{
    match value.as_str() {
        Some(word) => word == "call",
        None => false,
    }
}

fn says_return(value: &Item<'_, '_>) -> bool
    ensures { result ≡ is_word (codes "return") (data_at value.now) }
{
    match value.as_str() {
        Some(word) => word == "return",
        None => false,
    }
}

/// The call of the operation that a value names, with the numbers that another lists.
fn read_call(
    alloc: Global,
    operations: &Operations<'_>,
    name: &Item<'_, '_>,
    numbers: &Item<'_, '_>,
) -> Result<Option<TextCall>, OutOfMemory>
    ensures { IfOk result (λ found. option_map text_call_of found ≡ call_in (all_of operations.now) (data_at name.now) (data_at numbers.now)) }
{
    let Some(name) = name.as_str() else {
        return Ok(None);
    };
    let Some(op) = operations.named(name) else {
        return Ok(None);
    };
    let Some(numbers) = read_numbers(alloc, numbers)? else {
        return Ok(None);
    };
    if !operations.takes(op, numbers.len()) {
        return Ok(None);
    }
    Ok(Some(TextCall { op, numbers }))
}

/// The beginning of a call.
fn read_invoke(
    alloc: Global,
    operations: &Operations<'_>,
    client: &Item<'_, '_>,
    name: &Item<'_, '_>,
    numbers: &Item<'_, '_>,
) -> Result<Option<Event>, OutOfMemory>
    ensures { IfOk result (λ found. option_map event_of found ≡ invoke_from (all_of operations.now) (data_at client.now) (data_at name.now) (data_at numbers.now)) }
{
    let Some(client) = read_client(client) else {
        return Ok(None);
    };
    let Some(call) = read_call(alloc, operations, name, numbers)? else {
        return Ok(None);
    };
    Ok(Some(Event::Invoke {
        client,
        op: call.op,
        numbers: call.numbers,
    }))
}

/// The return of a call.
fn read_respond(
    alloc: Global,
    client: &Item<'_, '_>,
    numbers: &Item<'_, '_>,
) -> Result<Option<Event>, OutOfMemory>
    ensures { IfOk result (λ found. option_map event_of found ≡ respond_from (data_at client.now) (data_at numbers.now)) }
{
    let Some(client) = read_client(client) else {
        return Ok(None);
    };
    let Some(numbers) = read_numbers(alloc, numbers)? else {
        return Ok(None);
    };
    Ok(Some(Event::Respond { client, numbers }))
}

fn read_event_items(
    alloc: Global,
    operations: &Operations<'_>,
    mut items: Items<'_, '_>,
) -> Result<Option<Event>, OutOfMemory>
    ensures { IfOk result (λ found. option_map event_of found ≡ event_from (all_of operations.now) (values_at items.entry)) }
{
    let (Some(client), Some(word), Some(third)) = (items.next(), items.next(), items.next()) else {
        return Ok(None);
    };
    let Some(fourth) = items.next() else {
        if !says_return(&word) {
            return Ok(None);
        }
        return read_respond(alloc, &client, &third);
    };
    if items.next().is_some() || !says_call(&word) {
        return Ok(None);
    }
    read_invoke(alloc, operations, &client, &third, &fourth)
}

/// The event that the value is, whatever comes before it.
pub(crate) fn read_event(
    alloc: Global,
    operations: &Operations<'_>,
    value: &Item<'_, '_>,
) -> Result<Option<Event>, OutOfMemory>
    ensures { IfOk result (λ found. option_map event_of found ≡ event_in (all_of operations.now) (data_at value.now)) }
{
    match value.items() {
        Some(items) => read_event_items(alloc, operations, items),
        None => Ok(None),
    }
}

/// The choice of an operation that has the name that a value says, with the numbers that another lists.
fn read_named_pick(
    alloc: Global,
    operations: &Operations<'_>,
    op: OpId,
    mut items: Items<'_, '_>,
) -> Result<Option<Pick>, OutOfMemory>
    ensures { IfOk result (λ found. option_map choice_of found ≡ option_and_then (choice_with (all_of operations.now) op.0) (choice_from (values_at items.entry))) }
{
    let (Some(name), Some(numbers)) = (items.next(), items.next()) else {
        return Ok(None);
    };
    if items.next().is_some() {
        return Ok(None);
    }
    let Some(text) = name.as_str() else {
        return Ok(None);
    };
    let Some(numbers) = read_numbers(alloc, &numbers)? else {
        return Ok(None);
    };
    let Some(name) = operations.choice(op, text, numbers.len()) else {
        return Ok(None);
    };
    Ok(Some(Pick::Named { name, numbers }))
}

/// How the branch of a call of an operation is chosen, if a value says it, or none does.
fn read_pick(
    alloc: Global,
    operations: &Operations<'_>,
    op: OpId,
    said: Option<&Item<'_, '_>>,
) -> Result<Option<Pick>, OutOfMemory>
    ensures { IfOk result (λ found. option_map choice_of found ≡ pick_in (all_of operations.now) op.0 (said_in said.entry)) }
{
    let Some(value) = said else {
        return Ok(operations.is_ordered(op).then_some(Pick::First));
    };
    match value.items() {
        Some(items) => read_named_pick(alloc, operations, op, items),
        None => Ok(None),
    }
}

/// A call of a client, with its reply.
fn read_done(
    alloc: Global,
    operations: &Operations<'_>,
    client: &Item<'_, '_>,
    name: &Item<'_, '_>,
    numbers: &Item<'_, '_>,
    reply: &Item<'_, '_>,
    choice: Option<&Item<'_, '_>>,
) -> Result<Option<Done<TextCall, Pick, Vec<i64>>>, OutOfMemory>
    ensures { IfOk result (λ found. option_map entry_view found ≡ done_from (all_of operations.now) (data_at client.now) (data_at name.now) (data_at numbers.now) (data_at reply.now) (said_in choice.entry)) }
{
    let Some(client) = read_client(client) else {
        return Ok(None);
    };
    let Some(call) = read_call(alloc, operations, name, numbers)? else {
        return Ok(None);
    };
    let Some(choice) = read_pick(alloc, operations, call.op, choice)? else {
        return Ok(None);
    };
    let Some(reply) = read_numbers(alloc, reply)? else {
        return Ok(None);
    };
    if !operations.has_replies(call.op, reply.len()) {
        return Ok(None);
    }
    Ok(Some(Done {
        client,
        call,
        choice,
        reply,
    }))
}

fn read_entry_items(
    alloc: Global,
    operations: &Operations<'_>,
    mut items: Items<'_, '_>,
) -> Result<Option<Done<TextCall, Pick, Vec<i64>>>, OutOfMemory>
    ensures { IfOk result (λ found. option_map entry_view found ≡ entry_from (all_of operations.now) (values_at items.entry)) }
{
    let (Some(client), Some(name)) = (items.next(), items.next()) else {
        return Ok(None);
    };
    let (Some(numbers), Some(reply)) = (items.next(), items.next()) else {
        return Ok(None);
    };
    let choice = items.next();
    if choice.is_some() && items.next().is_some() {
        return Ok(None);
    }
    read_done(
        alloc,
        operations,
        &client,
        &name,
        &numbers,
        &reply,
        choice.as_ref(),
    )
}

/// The entry of an order that the value is.
pub(crate) fn read_entry(
    alloc: Global,
    operations: &Operations<'_>,
    value: &Item<'_, '_>,
) -> Result<Option<Done<TextCall, Pick, Vec<i64>>>, OutOfMemory>
    ensures { IfOk result (λ found. option_map entry_view found ≡ entry_in (all_of operations.now) (data_at value.now)) }
{
    match value.items() {
        Some(items) => read_entry_items(alloc, operations, items),
        None => Ok(None),
    }
}
