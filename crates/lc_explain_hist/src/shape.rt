//! Items of a text that is no history.
use crate::sentence::Sentence;
use crate::told::{Row, Told};
use crate::wrong::{wrong_entry, wrong_event};
use lc_base::OutOfMemory;
use lc_explain::{FileKind, Label, element_count, looks_like};
use lc_seq::TextSpec;
use serde_json::{Error, Value};
use std::alloc::Global;

/// The offset of a column of a line, both from 1, the column in bytes.
fn offset_of(bytes: &[u8], line: usize, column: usize) -> usize {
    let mut left = line;
    for (at, byte) in bytes.iter().enumerate() {
        if left <= 1 {
            return at.saturating_add(column.saturating_sub(1)).min(bytes.len());
        }
        if *byte == b'\n' {
            left -= 1;
        }
    }
    bytes.len()
}

/// Says where a text is no JSON.
fn say_no_json(told: &mut Told<'_>, bytes: &[u8], error: &Error) -> Result<(), OutOfMemory> {
    if error.is_memory() {
        return Err(OutOfMemory);
    }
    if error.is_eof() {
        return told.say_of_byte(bytes.len(), Sentence::EndsEarly);
    }
    let offset = offset_of(bytes, error.line(), error.column());
    told.say_of_byte(offset, Sentence::NoJson)
}

/// Says what is wrong with a text as a whole, with this sentence if it is JSON.
fn say_whole(
    alloc: Global,
    told: &mut Told<'_>,
    bytes: &[u8],
    other_json: Sentence<'_>,
) -> Result<(), OutOfMemory> {
    match looks_like(bytes) {
        Some(seen) if seen != FileKind::History => {
            told.say_of_byte(0, Sentence::OtherFile(seen.name()))
        }
        _ => match Value::from_slice(alloc, bytes) {
            Ok(_) => told.say_of_byte(0, other_json),
            Err(error) => say_no_json(told, bytes, &error),
        },
    }
}

/// The elements of the array under a key.
fn row_of<'a>(value: &'a Value, row: Row) -> &'a [Value] {
    match value.get(row.key()).and_then(Value::as_array) {
        Some(elements) => elements,
        None => &[],
    }
}

/// Says what is wrong with the event or the entry at a place.
fn say_element(
    told: &mut Told<'_>,
    spec: &TextSpec,
    value: &Value,
    row: Row,
    place: usize,
) -> Result<(), OutOfMemory> {
    let elements = row_of(value, row);
    let (Some(element), Some(earlier)) = (elements.get(place), elements.get(..place)) else {
        return Ok(());
    };
    let wrong = match row {
        Row::Events => wrong_event(spec, earlier, element),
        Row::Order => wrong_entry(spec, element),
    };
    told.say(row, place, Label::Error, Sentence::Wrong(wrong))
}

/// Says what is wrong with an item of a text that is no history for a specification: the whole text, an event from 1 on, or an entry
/// after the events. Of a whole text that is JSON a sentence is given.
pub(crate) fn say_shape(
    alloc: Global,
    told: &mut Told<'_>,
    spec: &TextSpec,
    bytes: &[u8],
    item: u64,
    other_json: Sentence<'_>,
) -> Result<(), OutOfMemory> {
    let Some(place) = (item as usize).checked_sub(1) else {
        return say_whole(alloc, told, bytes, other_json);
    };
    let value = match Value::from_slice(alloc, bytes) {
        Ok(value) => value,
        Err(error) => return say_no_json(told, bytes, &error),
    };
    match place.checked_sub(element_count(bytes, Row::Events.key())) {
        None => say_element(told, spec, &value, Row::Events, place),
        Some(entry) => say_element(told, spec, &value, Row::Order, entry),
    }
}
