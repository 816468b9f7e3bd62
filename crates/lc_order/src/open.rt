//! The replies that a call which has not returned may give. Nothing is promised of them: they say to a reader why no order was found.
use crate::finding::{Found, find_next};
use crate::roster::roster_of;
use crate::searchable::Searchable;
use lc_base::OutOfMemory;
use lc_history::{Done, Event};
use std::alloc::Global;

/// Replies of a call, and whether it was found that there are no others.
#[derive(Drop)]
pub struct Replies {
    pub numbers: Vec<Vec<i64>>,
    pub all: bool,
}

// The reply of the last call of a client in an order.
fn last_reply<S: Searchable>(
    alloc: Global,
    object: &S,
    order: &[Done<S::Call, S::Choice, S::Reply>],
    client: u32,
) -> Result<Option<Vec<i64>>, OutOfMemory> {
    for done in order.iter().rev() {
        if done.client == client {
            return Ok(Some(object.numbers_of(alloc, &done.reply)?));
        }
    }
    Ok(None)
}

/// Replies with which the open call of a client may return next, after these events: so that some order linearizes them. At most
/// `most` are searched, each over at most `budget` nodes.
pub fn next_replies<S: Searchable>(
    alloc: Global,
    object: &S,
    events: &[Event],
    client: u32,
    most: usize,
    budget: u64,
) -> Result<Replies, OutOfMemory> {
    let mut roster = roster_of(alloc, events)?;
    roster.end_call(client, events.len())?;
    let mut numbers: Vec<Vec<i64>> = Vec::new(alloc);
    for _ in 0..most {
        let found = find_next(alloc, object, events, &roster, client, &numbers, budget)?;
        let Found::Order(order) = found else {
            let all = matches!(found, Found::Nothing(_, _));
            return Ok(Replies { numbers, all });
        };
        let Some(reply) = last_reply(alloc, object, &order, client)? else {
            return Ok(Replies {
                numbers,
                all: false,
            });
        };
        numbers.push(reply)?;
    }
    Ok(Replies {
        numbers,
        all: false,
    })
}
