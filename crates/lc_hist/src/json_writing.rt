//! How a history and its order are written.
ghost use Rattle.std.specs.Prelude.{◌≡◌, [], ◌∷◌, Some, IfOk, codes, map};
ghost use Rattle.serde_json.specs.Data.{number, unsigned, string, object, member, no_members};
ghost use Rattle.serde_json.specs.View.{view};
ghost use Rattle.lc_seq.specs.SpecView.{operations_of};
ghost use Rattle.lc_seq.specs.TextView.{specification_of};
ghost use Rattle.lc_history.specs.Histories.{events_in};
ghost use Rattle.lc_hist.specs.JsonValues.{number_in};
ghost use Rattle.lc_hist.specs.JsonKept.{AreKept, IsKeptEvent, IsKeptEntry, Each};
ghost use Rattle.lc_hist.specs.JsonWritten.{list_data, number_data, numbers_data, name_data, event_data, entry_data, history_data, history_text, SaysOnly};
ghost use Rattle.lc_history.specs.View.{event_of, events_of, entry_view, entries_view};

use lc_base::{OpId, OutOfMemory};
use lc_history::{Done, Event, History};
use lc_seq::{Operation, Pick, TextCall, TextSpec};
use serde_json::{Value, json};
use std::alloc::{AllocError, Global};

fn number_value(n: i64) -> Value
    ensures value { view result ≡ number_data n }
    ensures kept { number_in (view result) ≡ Some n }
{
    Value::from(n)
}

/// `[NUMBER,..]`
fn numbers_value(alloc: Global, numbers: &[i64]) -> Result<Value, OutOfMemory>
    ensures value { IfOk result (λ value. view value ≡ numbers_data numbers.now) }
    ensures kept { IfOk result (λ value. AreKept numbers.now) }
{
    let mut values = Vec::with_capacity(alloc, numbers.len())?;
    for number in numbers {
        values.push(number_value(*number))?;
    }
    Ok(Value::from(values))
}

/// The name of an operation, and `null` if there is none.
fn name_value(alloc: Global, operations: &[Operation], op: OpId) -> Result<Value, OutOfMemory>
    ensures { IfOk result (λ value. view value ≡ name_data (operations_of operations.now) op.0) }
{
    match operations.get(op.0 as usize) {
        Some(operation) => Ok(Value::try_from_str(alloc, operation.name.as_str())?),
        None => Ok(Value::Null),
    }
}

/// `[CLIENT,"call",NAME,[NUMBER,..]]`
fn call_value(alloc: Global, client: u32, name: Value, numbers: Value) -> Result<Value, AllocError>
    ensures { IfOk result (λ value. view value ≡ list_data (number (unsigned client) ∷ string (codes "call") ∷ view name ∷ view numbers ∷ [])) }
{
    let word = Value::try_from_str(alloc, "call")?;
    let items = Vec::from_array(alloc, [Value::from(client), word, name, numbers])?;
    Ok(Value::from(items))
}

/// `[CLIENT,"return",[NUMBER,..]]`
fn return_value(alloc: Global, client: u32, numbers: Value) -> Result<Value, AllocError>
    ensures { IfOk result (λ value. view value ≡ list_data (number (unsigned client) ∷ string (codes "return") ∷ view numbers ∷ [])) }
{
    let word = Value::try_from_str(alloc, "return")?;
    let items = Vec::from_array(alloc, [Value::from(client), word, numbers])?;
    Ok(Value::from(items))
}

/// `[CLIENT,NAME,[NUMBER,..],[NUMBER,..]]`
fn done_value(
    alloc: Global,
    client: u32,
    name: Value,
    numbers: Value,
    reply: Value,
) -> Result<Value, AllocError>
    ensures { IfOk result (λ value. view value ≡ list_data (number (unsigned client) ∷ view name ∷ view numbers ∷ view reply ∷ [])) }
{
    let items = Vec::from_array(alloc, [Value::from(client), name, numbers, reply])?;
    Ok(Value::from(items))
}

/// `[CLIENT,NAME,[NUMBER,..],[NUMBER,..],CHOICE]`
fn chosen_value(
    alloc: Global,
    client: u32,
    name: Value,
    numbers: Value,
    reply: Value,
    choice: Value,
) -> Result<Value, AllocError>
    ensures { IfOk result (λ value. view value ≡ list_data (number (unsigned client) ∷ view name ∷ view numbers ∷ view reply ∷ view choice ∷ [])) }
{
    let items = Vec::from_array(alloc, [Value::from(client), name, numbers, reply, choice])?;
    Ok(Value::from(items))
}

/// `["NAME",[NUMBER,..]]`
fn choice_value(alloc: Global, name: &str, numbers: Value) -> Result<Value, AllocError>
    ensures { IfOk result (λ value. view value ≡ list_data (string name.now ∷ view numbers ∷ [])) }
{
    let name = Value::try_from_str(alloc, name)?;
    let items = Vec::from_array(alloc, [name, numbers])?;
    Ok(Value::from(items))
}

/// `{"events":[..],"order":[..]}`
fn history_value(alloc: Global, events: Value, order: Value) -> Result<Value, AllocError>
    ensures { IfOk result (λ value. view value ≡ object (member (codes "events") (view events) (member (codes "order") (view order) no_members))) }
{
    json!(in alloc; {"events": events, "order": order})
}

fn event_value(alloc: Global, operations: &[Operation], event: &Event) -> Result<Value, OutOfMemory>
    ensures value { IfOk result (λ value. view value ≡ event_data (operations_of operations.now) (event_of event.now)) }
    ensures kept { IfOk result (λ value. IsKeptEvent (event_of event.now)) }
{
    match event {
        Event::Invoke {
            client,
            op,
            numbers,
        } => {
            let name = name_value(alloc, operations, *op)?;
            let numbers = numbers_value(alloc, numbers)?;
            Ok(call_value(alloc, *client, name, numbers)?)
        }
        Event::Respond { client, numbers } => {
            let numbers = numbers_value(alloc, numbers)?;
            Ok(return_value(alloc, *client, numbers)?)
        }
    }
}

fn entry_value(
    alloc: Global,
    operations: &[Operation],
    done: &Done<TextCall, Pick, Vec<i64>>,
) -> Result<Value, OutOfMemory>
    ensures value { IfOk result (λ value. view value ≡ entry_data (operations_of operations.now) (entry_view done.now)) }
    ensures kept { IfOk result (λ value. IsKeptEntry (entry_view done.now)) }
{
    let name = name_value(alloc, operations, done.call.op)?;
    let numbers = numbers_value(alloc, &done.call.numbers)?;
    let reply = numbers_value(alloc, &done.reply)?;
    match &done.choice {
        Pick::First => Ok(done_value(alloc, done.client, name, numbers, reply)?),
        Pick::Named {
            name: chosen,
            numbers: given,
        } => {
            let given = numbers_value(alloc, given)?;
            let choice = choice_value(alloc, chosen.as_str(), given)?;
            Ok(chosen_value(alloc, done.client, name, numbers, reply, choice)?)
        }
    }
}

fn events_value(
    alloc: Global,
    operations: &[Operation],
    events: &[Event],
) -> Result<Value, OutOfMemory>
    ensures value { IfOk result (λ value. view value ≡ list_data (map (event_data (operations_of operations.now)) (events_of events.now))) }
    ensures kept { IfOk result (λ value. Each IsKeptEvent (events_of events.now)) }
{
    let mut values = Vec::with_capacity(alloc, events.len())?;
    for event in events {
        values.push(event_value(alloc, operations, event)?)?;
    }
    Ok(Value::from(values))
}

fn order_value(
    alloc: Global,
    operations: &[Operation],
    order: &[Done<TextCall, Pick, Vec<i64>>],
) -> Result<Value, OutOfMemory>
    ensures value { IfOk result (λ value. view value ≡ list_data (map (entry_data (operations_of operations.now)) (entries_view order.now))) }
    ensures kept { IfOk result (λ value. Each IsKeptEntry (entries_view order.now)) }
{
    let mut values = Vec::with_capacity(alloc, order.len())?;
    for done in order {
        values.push(entry_value(alloc, operations, done)?)?;
    }
    Ok(Value::from(values))
}

/// The JSON text of a history and an order, of calls of a specification: `{"events":[..],"order":[..]}` without a
/// space, as `history_from_json` reads it. `null` stands for the name of an operation that the specification does not
/// have, and is not read.
pub fn history_to_json(
    alloc: Global,
    spec: &TextSpec,
    history: &History,
    order: &[Done<TextCall, Pick, Vec<i64>>],
) -> Result<Vec<u8>, OutOfMemory>
    ensures text { IfOk result (λ bytes. bytes.items ≡ history_text (specification_of spec.now).operations (events_in history.now) (entries_view order.now)) }
    ensures reads_back { IfOk result (λ bytes. SaysOnly (specification_of spec.now).operations bytes.items (events_in history.now) (entries_view order.now)) }
{
    let operations = spec.operations();
    let events = events_value(alloc, operations, history.events())?;
    let order = order_value(alloc, operations, order)?;
    let value = history_value(alloc, events, order)?;
    Ok(value.to_vec(alloc)?)
}
