//! What is said of a history that is refused.
use crate::open::say_unordered;
use crate::order::Judged;
use crate::sentence::Sentence;
use crate::shape::say_shape;
use crate::told::Told;
use lc_base::{Fault, OutOfMemory, Refusal};
use lc_hist::history_from_json;
use lc_history::Reason;
use lc_seq::TextSpec;
use std::alloc::Global;

/// The reason of this number.
fn reason_of(code: u8) -> Option<Reason> {
    [
        Reason::OtherCall,
        Reason::OtherReply,
        Reason::MissingCall,
        Reason::NoStep,
        Reason::Preceded,
    ]
    .iter()
    .copied()
    .find(|reason| reason.code() == code)
}

/// Says why an order is no linearization.
fn say_order(
    alloc: Global,
    told: &mut Told<'_>,
    spec: &TextSpec,
    bytes: &[u8],
    place: u64,
    reason: Reason,
) -> Result<(), OutOfMemory> {
    match history_from_json(alloc, spec, bytes) {
        Ok((history, order)) => {
            let judged = Judged {
                spec,
                events: history.events(),
                order: &order,
            };
            judged.say(alloc, told, place as usize, reason)
        }
        Err(Fault::Refused(_)) => Ok(()),
        Err(Fault::OutOfMemory) => Err(OutOfMemory),
    }
}

/// Where and why a history, or its order, is refused that is read for a specification: sentences of events and entries, each with
/// its line. It is empty if the refusal says nothing about a history.
pub fn history_explanation(
    alloc: Global,
    path: &str,
    spec: &TextSpec,
    bytes: &[u8],
    refusal: &Refusal,
) -> Result<Vec<u8>, OutOfMemory> {
    let mut told = Told::new(alloc, path, bytes);
    match refusal {
        Refusal::HistoryShape(item) => {
            say_shape(alloc, &mut told, spec, bytes, *item, Sentence::NoHistory)?
        }
        Refusal::Order(place, code) => {
            if let Some(reason) = reason_of(*code) {
                say_order(alloc, &mut told, spec, bytes, *place, reason)?;
            }
        }
        _ => {}
    }
    Ok(told.into_text())
}

/// The same of a recorded history, whose order may be left out.
pub fn recorded_explanation(
    alloc: Global,
    path: &str,
    spec: &TextSpec,
    bytes: &[u8],
    refusal: &Refusal,
) -> Result<Vec<u8>, OutOfMemory> {
    let mut told = Told::new(alloc, path, bytes);
    if let Refusal::HistoryShape(item) = refusal {
        say_shape(alloc, &mut told, spec, bytes, *item, Sentence::NoRecord)?;
    }
    Ok(told.into_text())
}

/// At which event of a recorded history it is that no order linearizes the events up to there, so many, and which calls are open there.
/// It is empty if the text is no history for the specification.
pub fn unordered_explanation(
    alloc: Global,
    path: &str,
    spec: &TextSpec,
    bytes: &[u8],
    count: u64,
) -> Result<Vec<u8>, OutOfMemory> {
    let mut told = Told::new(alloc, path, bytes);
    say_unordered(alloc, &mut told, spec, bytes, count as usize)?;
    Ok(told.into_text())
}
