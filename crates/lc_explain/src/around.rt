//! The words of a file, and the lists that they are in.
use crate::lists::Parts;
use lc_place::{Place, item_place, open_list_place};
use std::str;

/// The text of these bytes, if it is an atom.
fn word_of(bytes: &[u8]) -> Option<&str> {
    if bytes.first() == Some(&b'(') {
        return None;
    }
    str::from_utf8(bytes).ok()
}

/// The bytes of a place.
fn bytes_at(bytes: &[u8], place: Place) -> Option<&[u8]> {
    bytes.get(place.offset..)?.get(..place.length)
}

/// The atom at a place, if it fills the place.
pub(crate) fn word_at(bytes: &[u8], place: Place) -> Option<&str> {
    word_of(bytes_at(bytes, place)?)
}

/// The atom with which the list at a place begins.
fn word_in(bytes: &[u8], place: Place) -> Option<&str> {
    let list = bytes_at(bytes, place)?;
    word_at(list, item_place(list, 1)?)
}

/// The word with which the list at a place begins, which is empty if it begins with none.
pub(crate) fn first_word(bytes: &[u8], place: Place) -> &str {
    word_in(bytes, place).unwrap_or("")
}

/// The list that an item is in.
#[derive(Clone, Copy)]
pub(crate) struct Around<'a> {
    /// The word with which it begins, which is empty if it begins with none.
    pub word: &'a str,
    /// How many items are in it before the item.
    pub part: usize,
    /// Where it begins.
    pub offset: usize,
}

impl Around<'_> {
    /// What an item outside of all lists is in.
    pub(crate) const NONE: Around<'static> = Around {
        word: "",
        part: 0,
        offset: 0,
    };
}

/// How many items are in the list at a place.
pub(crate) fn list_count(bytes: &[u8], place: Place) -> usize {
    Parts::of(bytes, place.offset, place.length).count()
}

/// How many items come before an offset that is in no list.
pub(crate) fn top_count(bytes: &[u8], offset: usize) -> usize {
    Parts::new(bytes.get(..offset).unwrap_or(&[]), 0).count()
}

/// The innermost list that is open before an offset, at which an item begins.
pub(crate) fn list_around(bytes: &[u8], offset: usize) -> Option<Around<'_>> {
    let before = bytes.get(..offset)?;
    let list = open_list_place(before)?;
    Some(Around {
        word: first_word(before, list),
        part: Parts::new(before, list.offset.saturating_add(1)).count(),
        offset: list.offset,
    })
}
