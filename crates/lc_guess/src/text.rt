//! Parts of lists by their text.
ghost use Rattle.std.specs.Iterator.{at_most};
ghost use Rattle.lc_sexp.specs.Shown.{rest_of, part_count};

use lc_base::OutOfMemory;
use lc_reading::{Part, behind_word, next_part};
use lc_sexp::{Cursor, Item, print};
use std::alloc::Global;

/// The items left in a list, one after another.
#[derive(Drop)]
pub(crate) struct Items<'a> {
    rest: Cursor<'a>,
}

/// The items left in a list.
pub(crate) fn each_item(list: Cursor<'_>) -> Items<'_> {
    Items { rest: list }
}

impl<'a> Iterator for Items<'a> {
    type Item = Part<'a>;

    ghost remaining = { λ s. at_most (part_count (rest_of s.rest)) };

    fn next(&mut self) -> Option<Part<'a>> {
        next_part(&mut self.rest).ok()
    }
}

/// The items left in a list with their places, one after another.
#[derive(Drop)]
pub(crate) struct Numbered<'a> {
    rest: Cursor<'a>,
    place: usize,
}

/// The items left in a list with their places, from 0 on.
pub(crate) fn each_numbered(list: Cursor<'_>) -> Numbered<'_> {
    Numbered {
        rest: list,
        place: 0,
    }
}

impl<'a> Iterator for Numbered<'a> {
    type Item = (usize, Part<'a>);

    ghost remaining = { λ s. at_most (part_count (rest_of s.rest)) };

    fn next(&mut self) -> Option<(usize, Part<'a>)> {
        let part = next_part(&mut self.rest).ok()?;
        let place = self.place;
        self.place = place.saturating_add(1);
        Some((place, part))
    }
}

/// The cells of a row, one after another.
#[derive(Drop)]
pub(crate) struct Cells<'a> {
    columns: Cursor<'a>,
    terms: Cursor<'a>,
}

/// The cells of a row with these columns `(COLUMN A B) ..`: the name of the column, and the term that is read there, stored there or expected.
pub(crate) fn each_cell<'a>(columns: Cursor<'a>, terms: Cursor<'a>) -> Cells<'a> {
    Cells { columns, terms }
}

impl<'a> Iterator for Cells<'a> {
    type Item = (&'a str, Part<'a>);

    ghost remaining = { λ s. at_most (part_count (rest_of s.columns)) };

    fn next(&mut self) -> Option<(&'a str, Part<'a>)> {
        let column = next_part(&mut self.columns).ok()?;
        let term = next_part(&mut self.terms).ok()?;
        Some((first_text(items_within(column)), term))
    }
}

/// The first of these items, if there is one.
pub(crate) fn first_part(list: Cursor<'_>) -> Option<Part<'_>> {
    let mut ahead = list;
    next_part(&mut ahead).ok()
}

/// The text of a part that is an atom; else none.
pub(crate) fn text_of(part: Part<'_>) -> &str {
    match part.item() {
        Item::Atom(atom) => atom.text(),
        Item::List(_) => "",
    }
}

/// The items of a part that is a list; of an atom none.
pub(crate) fn items_within(part: Part<'_>) -> Cursor<'_> {
    part.item().parts()
}

/// The text of the next item, if it is an atom; else none.
pub(crate) fn first_text(list: Cursor<'_>) -> &str {
    let mut ahead = list;
    match ahead.atom() {
        Ok(atom) => atom.text(),
        Err(_) => "",
    }
}

/// The text of the item of this place, if it is an atom; else none.
pub(crate) fn nth_text(list: Cursor<'_>, place: usize) -> &str {
    let mut rest = list;
    for _ in 0..place {
        rest = later(rest);
    }
    first_text(rest)
}

/// The items after the first.
pub(crate) fn later(list: Cursor<'_>) -> Cursor<'_> {
    let mut ahead = list;
    match ahead.item() {
        Ok(_) => ahead,
        Err(_) => list,
    }
}

/// The items of the next item, if it is a list.
pub(crate) fn within_first(list: Cursor<'_>) -> Cursor<'_> {
    let mut ahead = list;
    match ahead.list() {
        Ok(inside) => inside,
        Err(_) => Cursor::empty(),
    }
}

/// Whether an atom of this text is in one of these items.
pub(crate) fn mentions(list: Cursor<'_>, name: &str) -> bool {
    let mut rest = list;
    'items: loop {
        let Ok(part) = next_part(&mut rest) else {
            return false;
        };
        let is_there = match part.item() {
            Item::Atom(atom) => atom.text() == name,
            Item::List(inside) => mentions(inside, name),
        };
        if is_there {
            return true;
        }
    }
}

/// The place of an atom among these items.
pub(crate) fn place_of(list: Cursor<'_>, name: &str) -> Option<usize> {
    for (place, part) in each_numbered(list) {
        if text_of(part) == name {
            return Some(place);
        }
    }
    None
}

/// Whether one of these items is this atom.
pub(crate) fn lists(list: Cursor<'_>, name: &str) -> bool {
    place_of(list, name).is_some()
}

/// An item as it stands.
pub(crate) fn printed(alloc: Global, part: Part<'_>) -> Result<String, OutOfMemory> {
    let item = part.item().to_sexp(alloc)?;
    let text = print(alloc, &[item])?;
    match str::from_utf8(&text) {
        Ok(text) => Ok(String::from_str(alloc, text.trim_end())?),
        Err(_) => Ok(String::new(alloc)),
    }
}

/// The first of these items as it stands; nothing if there is none.
pub(crate) fn printed_first(alloc: Global, list: Cursor<'_>) -> Result<String, OutOfMemory> {
    match first_part(list) {
        Some(part) => printed(alloc, part),
        None => Ok(String::new(alloc)),
    }
}

/// Appends the parts of a conjunction, or the formula if it is none.
pub(crate) fn push_parts(
    alloc: Global,
    texts: &mut Vec<String>,
    formula: Part<'_>,
) -> Result<(), OutOfMemory> {
    match behind_word(formula, "and") {
        Ok(parts) => push_each(alloc, texts, parts),
        Err(_) => {
            texts.push(printed(alloc, formula)?)?;
            Ok(())
        }
    }
}

/// Appends the texts of these items.
pub(crate) fn push_each(
    alloc: Global,
    texts: &mut Vec<String>,
    list: Cursor<'_>,
) -> Result<(), OutOfMemory> {
    for part in each_item(list) {
        texts.push(printed(alloc, part)?)?;
    }
    Ok(())
}
