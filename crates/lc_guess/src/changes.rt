//! How the cells of an object are changed by its instructions and its riders.
use crate::text::{
    each_item, each_numbered, first_text, items_within, later, nth_text, text_of, within_first,
};
use lc_base::OutOfMemory;
use lc_reading::{Part, behind_word};
use lc_sexp::{Cursor, Item};
use std::alloc::Global;

/// How the cells of a column are changed.
#[derive(Clone, Copy, PartialEq, Eq)]
pub(crate) enum Change {
    /// By no instruction.
    Never,
    /// Whatever stores in their array makes them greater.
    Growing,
    /// By `store` alone.
    Stored,
    /// From 0 alone.
    Filled,
    Other,
}

/// A column of an array.
#[derive(Clone, Copy)]
pub(crate) struct Column<'a> {
    pub(crate) array: &'a str,
    pub(crate) name: &'a str,
    pub(crate) change: Change,
}

/// How cells are changed that are changed in two ways.
fn joined(one: Change, other: Change) -> Change {
    match (one, other) {
        (Change::Never, change) | (change, Change::Never) => change,
        (one, other) if one == other => one,
        _ => Change::Other,
    }
}

/// Whether a term is this one and 1.
fn is_next(term: Part<'_>, name: &str) -> bool {
    let parts = items_within(term);
    first_text(parts) == "+"
        && !name.is_empty()
        && nth_text(parts, 1) == name
        && nth_text(parts, 2) == "1"
}

/// How a `cas` changes a cell, in which it expects one term and stores another.
fn swapped(expected: Part<'_>, new: Part<'_>) -> Change {
    let name = text_of(expected);
    if is_next(new, name) {
        Change::Growing
    } else if name == "0" {
        Change::Filled
    } else {
        Change::Other
    }
}

/// How a `faa` changes a cell, to which it adds a term.
fn added(term: Part<'_>) -> Change {
    match term.item() {
        Item::Atom(atom) => match atom.integer() {
            Ok(number) if number >= 1 => Change::Growing,
            _ => Change::Other,
        },
        Item::List(_) => Change::Other,
    }
}

/// How an instruction changes the cells of the columns of its array, in their order.
fn changes_by(alloc: Global, word: &str, code: Cursor<'_>) -> Result<Vec<Change>, OutOfMemory> {
    let first = within_first(later(later(code)));
    let second = within_first(later(later(later(code))));
    let mut changes = Vec::new(alloc);
    match word {
        "store" => {
            for _ in each_item(first) {
                changes.push(Change::Stored)?;
            }
        }
        "cas" => {
            for (expected, new) in each_item(first).zip(each_item(second)) {
                changes.push(swapped(expected, new))?;
            }
        }
        "faa" => {
            for term in each_item(second) {
                changes.push(added(term))?;
            }
        }
        _ => {}
    }
    Ok(changes)
}

/// Enters how an instruction changes cells.
fn enter_instruction(
    alloc: Global,
    columns: &mut [Column<'_>],
    instruction: Cursor<'_>,
) -> Result<(), OutOfMemory> {
    let code = later(instruction);
    let array = first_text(code);
    let changes = changes_by(alloc, first_text(instruction), code)?;
    let mut place = 0usize;
    for column in columns.iter_mut() {
        if column.array == array {
            if let Some(change) = changes.get(place) {
                column.change = joined(column.change, *change);
            }
            place = place.saturating_add(1);
        }
    }
    Ok(())
}

/// Appends the columns of an array with these parts.
fn push_array<'a>(columns: &mut Vec<Column<'a>>, parts: Cursor<'a>) -> Result<(), OutOfMemory> {
    for part in each_item(later(parts)) {
        columns.push(Column {
            array: first_text(parts),
            name: first_text(items_within(part)),
            change: Change::Never,
        })?;
    }
    Ok(())
}

/// The columns of the arrays of an object with these parts.
pub(crate) fn find_columns<'a>(
    alloc: Global,
    parts: Cursor<'a>,
) -> Result<Vec<Column<'a>>, OutOfMemory> {
    let mut columns = Vec::new(alloc);
    for part in each_item(parts) {
        if let Ok(array) = behind_word(part, "array") {
            push_array(&mut columns, array)?;
        }
    }
    for part in each_item(parts) {
        let Ok(body) = behind_word(part, "body") else {
            continue;
        };
        for point in each_item(later(later(body))) {
            if let Ok(behind) = behind_word(point, "point") {
                enter_instruction(alloc, &mut columns, within_first(later(behind)))?;
            }
        }
    }
    Ok(columns)
}

/// Whether a text is 0 or 1.
fn is_bit(text: &str) -> bool {
    matches!(text, "0" | "1")
}

/// Whether no rider of a point sets a cell of a column to anything but 0 and 1.
fn sets_bits(point: Cursor<'_>, name: &str) -> bool {
    for part in each_item(point) {
        let Ok(on) = behind_word(part, "on") else {
            continue;
        };
        for rider in each_item(later(on)) {
            let Ok(set) = behind_word(rider, "set") else {
                continue;
            };
            if first_text(set) == name && !is_bit(nth_text(set, 2)) {
                return false;
            }
        }
    }
    true
}

/// Whether each cell of a column is 0 or 1 at first.
fn begins_with_bits(aux: Cursor<'_>, name: &str) -> bool {
    for part in each_item(aux) {
        let parts = items_within(part);
        if first_text(parts) == name {
            return nth_text(parts, 1) == "0" && is_bit(nth_text(parts, 2));
        }
    }
    false
}

/// Whether each cell of a column is 0 or 1, in an object with these parts: it is an auxiliary column, and nothing else is set in it.
pub(crate) fn is_of_bits(parts: Cursor<'_>, name: &str) -> bool {
    let mut is_auxiliary = false;
    for part in each_item(parts) {
        if let Ok(aux) = behind_word(part, "aux") {
            is_auxiliary = begins_with_bits(aux, name);
        } else if let Ok(body) = behind_word(part, "body") {
            for point in each_item(later(later(body))) {
                if !sets_bits(items_within(point), name) {
                    return false;
                }
            }
        }
    }
    is_auxiliary
}

/// The place of a column in an array with these parts, if it is one of it and each cell is 0 or 1 at first.
fn place_of_bits(array: Cursor<'_>, name: &str) -> Option<usize> {
    for (place, part) in each_numbered(later(array)) {
        let parts = items_within(part);
        if first_text(parts) == name && nth_text(parts, 1) == "0" && is_bit(nth_text(parts, 2)) {
            return Some(place);
        }
    }
    None
}

/// Whether an instruction stores nothing but 0 and 1 in the column at a place of an array.
fn puts_bits(instruction: Cursor<'_>, array: &str, place: usize) -> bool {
    let code = later(instruction);
    if first_text(code) != array {
        return true;
    }
    match first_text(instruction) {
        "store" => is_bit(nth_text(within_first(later(later(code))), place)),
        "cas" => is_bit(nth_text(within_first(later(later(later(code)))), place)),
        "faa" => false,
        _ => true,
    }
}

/// Whether the points with these forms store nothing but 0 and 1 in the column at a place of an array.
fn all_put_bits(points: Cursor<'_>, array: &str, place: usize) -> bool {
    for point in each_item(points) {
        if !puts_bits(
            within_first(later(later(items_within(point)))),
            array,
            place,
        ) {
            return false;
        }
    }
    true
}

/// Whether each cell of a column of an array is 0 or 1, in an object with these parts: nothing else is stored in it.
pub(crate) fn stores_bits(parts: Cursor<'_>, name: &str) -> bool {
    let mut found = None;
    for part in each_item(parts) {
        if let Ok(array) = behind_word(part, "array")
            && let Some(place) = place_of_bits(array, name)
        {
            found = Some((first_text(array), place));
        }
    }
    let Some((array, place)) = found else {
        return false;
    };
    for part in each_item(parts) {
        if let Ok(body) = behind_word(part, "body")
            && !all_put_bits(later(later(body)), array, place)
        {
            return false;
        }
    }
    true
}

/// Whether an instruction stores a sum in the column at a place of an array.
fn puts_sum(instruction: Cursor<'_>, array: &str, place: usize) -> bool {
    let code = later(instruction);
    if first_text(code) != array {
        return false;
    }
    let values = match first_text(instruction) {
        "store" => within_first(later(later(code))),
        "cas" => within_first(later(later(later(code)))),
        _ => Cursor::empty(),
    };
    for (at, value) in each_numbered(values) {
        if at == place && first_text(items_within(value)) == "+" {
            return true;
        }
    }
    false
}

/// Whether a column of an array only grows, or a sum is stored in it, in an object with these parts.
pub(crate) fn may_grow(parts: Cursor<'_>, columns: &[Column<'_>], name: &str) -> bool {
    let mut place = 0usize;
    let mut array = "";
    for column in columns {
        place = if column.array == array {
            place.saturating_add(1)
        } else {
            0
        };
        array = column.array;
        if column.name == name {
            return column.change == Change::Growing || any_puts_sum(parts, array, place);
        }
    }
    false
}

/// Whether a sum is stored in the column at a place of an array, in an object with these parts.
fn any_puts_sum(parts: Cursor<'_>, array: &str, place: usize) -> bool {
    for part in each_item(parts) {
        let Ok(body) = behind_word(part, "body") else {
            continue;
        };
        for point in each_item(later(later(body))) {
            if puts_sum(
                within_first(later(later(items_within(point)))),
                array,
                place,
            ) {
                return true;
            }
        }
    }
    false
}
