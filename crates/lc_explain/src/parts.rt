//! Where the parts of a development are in its file.
use crate::lists::{List, Lists, place_from};
use lc_place::Place;

/// A part of a development, by names, and by numbers from 0.
#[derive(Clone, Copy)]
pub enum Part<'a> {
    /// A point, up to the end of its instruction.
    Point(&'a str),
    /// A conjunct of the assertion of a point.
    Assertion {
        point: &'a str,
        number: usize,
    },
    /// A conjunct of the invariant.
    Invariant(usize),
    /// A conjunct of what holds of idle clients.
    Idle(usize),
    /// An action, up to its name.
    Action(&'a str),
    /// The guard of an action.
    Guard(&'a str),
    /// What an action stores in a column.
    Update {
        action: &'a str,
        column: &'a str,
    },
    /// A rider of an edge of a point.
    Rider {
        point: &'a str,
        edge: &'a str,
        number: usize,
    },
}

/// The list of a word with this name that a file has first; of any name if this is empty.
fn list_named<'a>(bytes: &'a [u8], word: &str, name: &str) -> Option<List<'a>> {
    let mut lists = Lists::new(bytes);
    for _ in 0..bytes.len() {
        let list = lists.next()?;
        if list.is_named(word, name) {
            return Some(list);
        }
    }
    None
}

/// The part of a list that has `number` parts before it.
fn part_at<'a>(bytes: &'a [u8], list: List<'a>, number: usize) -> Option<Place> {
    let mut parts = list.parts(bytes);
    for _ in 0..number {
        parts.next()?;
    }
    place_from(bytes, parts.next()?.offset)
}

/// The first part of a list that begins with this word, and whose second item is this name, if one is given.
fn part_named<'a>(bytes: &'a [u8], list: List<'a>, word: &str, name: &str) -> Option<List<'a>> {
    let mut parts = list.parts(bytes);
    for _ in 0..bytes.len() {
        let part = List::at(bytes, parts.next()?.offset);
        if part.is_named(word, name) {
            return Some(part);
        }
    }
    None
}

/// The place from the beginning of a list to the end of one of its parts.
fn up_to<'a>(bytes: &'a [u8], list: List<'a>, number: usize) -> Option<Place> {
    let part = part_at(bytes, list, number)?;
    let begin = place_from(bytes, list.offset)?;
    let end = part.offset.checked_add(part.length)?;
    Some(Place {
        length: end.checked_sub(begin.offset)?,
        ..begin
    })
}

/// A conjunct of the assertion of a point.
fn assertion_place(bytes: &[u8], point: &str, number: usize) -> Option<Place> {
    let point = list_named(bytes, "point", point)?;
    let assertion = part_named(bytes, point, "assert", "")?;
    part_at(bytes, assertion, number.checked_add(1)?)
}

/// A conjunct of the invariant.
fn invariant_place(bytes: &[u8], number: usize) -> Option<Place> {
    let invariant = list_named(bytes, "invariant", "")?;
    let conjunct = part_at(bytes, invariant, number.checked_add(1)?)?;
    part_at(bytes, List::at(bytes, conjunct.offset), 1)
}

/// A rider of an edge of a point.
fn rider_place(bytes: &[u8], point: &str, edge: &str, number: usize) -> Option<Place> {
    let point = list_named(bytes, "point", point)?;
    let on = part_named(bytes, point, "on", edge)?;
    part_at(bytes, on, number.checked_add(3)?)
}

/// What an action stores in a column.
fn update_place(bytes: &[u8], action: &str, column: &str) -> Option<Place> {
    let action = list_named(bytes, "action", action)?;
    let update = part_named(bytes, action, column, "")?;
    place_from(bytes, update.offset)
}

/// The place of a part of a development in its file, if it is there.
pub fn part_place(bytes: &[u8], part: Part<'_>) -> Option<Place> {
    match part {
        Part::Point(name) => up_to(bytes, list_named(bytes, "point", name)?, 2),
        Part::Assertion { point, number } => assertion_place(bytes, point, number),
        Part::Invariant(number) => invariant_place(bytes, number),
        Part::Idle(number) => {
            part_at(
                bytes,
                list_named(bytes, "idle", "")?,
                number.checked_add(1)?,
            )
        }
        Part::Action(name) => up_to(bytes, list_named(bytes, "action", name)?, 1),
        Part::Guard(name) => part_at(bytes, list_named(bytes, "action", name)?, 3),
        Part::Update { action, column } => update_place(bytes, action, column),
        Part::Rider {
            point,
            edge,
            number,
        } => rider_place(bytes, point, edge, number),
    }
}
