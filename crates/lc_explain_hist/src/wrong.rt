//! What is wrong with an event or an entry of a history.
use lc_history::CLIENT_LIMIT;
use lc_seq::{Operation, TextSpec};
use serde_json::Value;
use std::fmt;

/// What is wrong, with the words of the text.
#[derive(Clone, Copy)]
pub(crate) enum Wrong<'a> {
    NoEvent,
    NoEntry,
    NoClient,
    NoOperation(&'a str),
    NoNumbers,
    /// A count of numbers other than this one.
    OtherCount {
        kind: &'static str,
        operation: &'a str,
        due: usize,
        count: usize,
    },
    CallsAgain(u64),
    IsInNoCall(u64),
    HasNoChoices(&'a str),
    HasChoices(&'a str),
    NoChoice {
        operation: &'a str,
        choice: &'a str,
        count: usize,
    },
}

impl fmt::Display for Wrong<'_> {
    fn fmt<W: fmt::Write>(&self, f: &mut fmt::Formatter<W>) -> fmt::Result {
        match self {
            Wrong::NoEvent => f.write_str(
                "this is neither [CLIENT,\"call\",NAME,[NUMBER,..]] nor [CLIENT,\"return\",[NUMBER,..]]",
            ),
            Wrong::NoEntry => f.write_str(
                "this is no [CLIENT,NAME,[NUMBER,..],[NUMBER,..]], nor that with [CHOICE,[NUMBER,..]] at its end",
            ),
            Wrong::NoClient => write!(f, "the client is no integer from 0 to {CLIENT_LIMIT}"),
            Wrong::NoOperation(it) => write!(f, "the specification has no operation {it}"),
            Wrong::NoNumbers => f.write_str("the numbers are no array of integers of 64 bits"),
            Wrong::OtherCount {
                kind,
                operation,
                due,
                count,
            } => write!(
                f,
                "the count of numbers in a {kind} of {operation} is {due}, and here it is {count}"
            ),
            Wrong::CallsAgain(it) => write!(f, "client {it} has not returned from its call before"),
            Wrong::IsInNoCall(it) => write!(f, "client {it} is in no call"),
            Wrong::HasNoChoices(it) => write!(
                f,
                "{it} has no choices, so its entries end with the reply"
            ),
            Wrong::HasChoices(it) => write!(
                f,
                "{it} has choices, so behind the reply stands which one is taken: [CHOICE,[NUMBER,..]]"
            ),
            Wrong::NoChoice {
                operation,
                choice,
                count,
            } => write!(
                f,
                "{operation} has no choice {choice} with so many numbers: {count}"
            ),
        }
    }
}

/// The operation of a name.
fn operation_named<'a>(spec: &'a TextSpec, name: &str) -> Option<&'a Operation> {
    spec.operations()
        .iter()
        .find(|operation| operation.name.as_str() == name)
}

/// The client that a value names.
fn client_in(value: &Value) -> Option<u64> {
    match value.as_u64() {
        Some(client) if client <= u64::from(CLIENT_LIMIT) => Some(client),
        _ => None,
    }
}

/// The items of a value, none if it is no array.
fn items_of(value: &Value) -> &[Value] {
    match value.as_array() {
        Some(items) => items,
        None => &[],
    }
}

/// The text that an item is.
fn text_at(items: &[Value], place: usize) -> Option<&str> {
    items.get(place)?.as_str()
}

/// The operation in whose call a client is after these events.
fn open_call(events: &[Value], client: u64) -> Option<&str> {
    let mut open = None;
    for event in events {
        let items = items_of(event);
        if items.first().and_then(client_in) == Some(client) {
            open = match text_at(items, 1) {
                Some("call") => text_at(items, 2),
                _ => None,
            };
        }
    }
    open
}

/// What is wrong with the numbers of a call or a reply of an operation that has `count` of them.
fn wrong_numbers<'a>(
    value: &Value,
    kind: &'static str,
    operation: &'a str,
    due: usize,
) -> Option<Wrong<'a>> {
    let Some(numbers) = value.as_array() else {
        return Some(Wrong::NoNumbers);
    };
    if numbers.iter().any(|number| number.as_i64().is_none()) {
        return Some(Wrong::NoNumbers);
    }
    let count = numbers.len();
    if count == due {
        return None;
    }
    Some(Wrong::OtherCount {
        kind,
        operation,
        due,
        count,
    })
}

/// What is wrong with a call of a client.
fn wrong_call<'a>(spec: &TextSpec, client: u64, name: &'a Value, numbers: &'a Value) -> Wrong<'a> {
    let Some(name) = name.as_str() else {
        return Wrong::NoEvent;
    };
    let Some(operation) = operation_named(spec, name) else {
        return Wrong::NoOperation(name);
    };
    match wrong_numbers(numbers, "call", name, operation.arguments.len()) {
        Some(wrong) => wrong,
        None => Wrong::CallsAgain(client),
    }
}

/// What is wrong with a return of a client after these events.
fn wrong_return<'a>(
    spec: &TextSpec,
    earlier: &'a [Value],
    client: u64,
    numbers: &'a Value,
) -> Wrong<'a> {
    let Some(name) = open_call(earlier, client) else {
        return Wrong::IsInNoCall(client);
    };
    let due = match operation_named(spec, name) {
        Some(operation) => operation.replies as usize,
        None => 0,
    };
    match wrong_numbers(numbers, "reply", name, due) {
        Some(wrong) => wrong,
        None => Wrong::NoEvent,
    }
}

/// What is wrong with an event after others, which are right.
pub(crate) fn wrong_event<'a>(
    spec: &TextSpec,
    earlier: &'a [Value],
    event: &'a Value,
) -> Wrong<'a> {
    let items = items_of(event);
    let Some(client) = items.first().and_then(client_in) else {
        return if items.is_empty() {
            Wrong::NoEvent
        } else {
            Wrong::NoClient
        };
    };
    match (text_at(items, 1), items) {
        (Some("call"), [_, _, name, numbers]) => wrong_call(spec, client, name, numbers),
        (Some("return"), [_, _, numbers]) => wrong_return(spec, earlier, client, numbers),
        _ => Wrong::NoEvent,
    }
}

/// What is wrong with the choice of an entry of an operation.
fn wrong_choice<'a>(name: &'a str, operation: &Operation, choice: Option<&'a Value>) -> Wrong<'a> {
    let has_choices = operation
        .branches
        .first()
        .is_some_and(|branch| !branch.label.is_in_order());
    let Some(choice) = choice else {
        return if has_choices {
            Wrong::HasChoices(name)
        } else {
            Wrong::NoEntry
        };
    };
    if !has_choices {
        return Wrong::HasNoChoices(name);
    }
    match items_of(choice) {
        [text, numbers] => {
            if let Some(wrong) = wrong_numbers(numbers, "choice", name, items_of(numbers).len()) {
                return wrong;
            }
            Wrong::NoChoice {
                operation: name,
                choice: text.as_str().unwrap_or(""),
                count: items_of(numbers).len(),
            }
        }
        _ => Wrong::HasChoices(name),
    }
}

/// What is wrong with an entry whose items are these.
fn wrong_done<'a>(
    spec: &TextSpec,
    client: &Value,
    name: &'a Value,
    numbers: &'a Value,
    reply: &'a Value,
    choice: Option<&'a Value>,
) -> Wrong<'a> {
    if client_in(client).is_none() {
        return Wrong::NoClient;
    }
    let Some(name) = name.as_str() else {
        return Wrong::NoEntry;
    };
    let Some(operation) = operation_named(spec, name) else {
        return Wrong::NoOperation(name);
    };
    let arguments = operation.arguments.len();
    let replies = operation.replies as usize;
    if let Some(wrong) = wrong_numbers(numbers, "call", name, arguments) {
        return wrong;
    }
    match wrong_numbers(reply, "reply", name, replies) {
        Some(wrong) => wrong,
        None => wrong_choice(name, operation, choice),
    }
}

/// What is wrong with an entry.
pub(crate) fn wrong_entry<'a>(spec: &TextSpec, entry: &'a Value) -> Wrong<'a> {
    match items_of(entry) {
        [client, name, numbers, reply] => wrong_done(spec, client, name, numbers, reply, None),
        [client, name, numbers, reply, choice] => {
            wrong_done(spec, client, name, numbers, reply, Some(choice))
        }
        _ => Wrong::NoEntry,
    }
}
