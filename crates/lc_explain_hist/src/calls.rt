//! The calls and returns of clients, by their numbers.
use lc_history::{Done, Event};

/// How many of the entries before a place are of a client.
pub(crate) fn entries_before<C, H, R>(order: &[Done<C, H, R>], place: usize, client: u32) -> usize {
    order
        .iter()
        .take(place)
        .filter(|done| done.client == client)
        .count()
}

/// How many calls of a client there are.
pub(crate) fn calls_of(events: &[Event], client: u32) -> usize {
    events
        .iter()
        .filter(|event| event.client() == client && event.begins())
        .count()
}

/// The place of a client's call of this number, or of the return of that call.
pub(crate) fn place_of(
    events: &[Event],
    client: u32,
    begins: bool,
    number: usize,
) -> Option<usize> {
    let mut left = number;
    for (place, event) in events.iter().enumerate() {
        if event.client() == client && event.begins() == begins {
            if left == 0 {
                return Some(place);
            }
            left -= 1;
        }
    }
    None
}

/// The place of a client's entry of this number.
pub(crate) fn entry_of<C, H, R>(
    order: &[Done<C, H, R>],
    client: u32,
    number: usize,
) -> Option<usize> {
    let mut left = number;
    for (place, done) in order.iter().enumerate() {
        if done.client == client {
            if left == 0 {
                return Some(place);
            }
            left -= 1;
        }
    }
    None
}

/// What an event returns, if it is a return.
pub(crate) fn returned(event: &Event) -> Option<&[i64]> {
    match event {
        Event::Respond { numbers, .. } => Some(numbers),
        Event::Invoke { .. } => None,
    }
}
