//! The order of the forms of an object.
use crate::around::first_word;
use crate::lists::Parts;
use crate::table::{beside, text_beside};
use std::fmt;

/// The forms of an object, with their places in their order.
static RANKS: [(&str, usize); 6] = [
    ("array", 1),
    ("aux", 2),
    ("action", 3),
    ("invariant", 4),
    ("idle", 5),
    ("body", 6),
];

/// The form that has to come before another.
static DUE_BEFORE: [(&str, &str); 5] = [
    ("aux", "array"),
    ("action", "aux"),
    ("invariant", "aux"),
    ("idle", "invariant"),
    ("body", "idle"),
];

/// The place of a form of an object in their order, by its word; 0 if it is none.
fn rank_of(word: &str) -> usize {
    beside(&RANKS, word).unwrap_or(0)
}

/// Why a form of an object may not be where it is.
#[derive(Clone, Copy)]
pub(crate) enum Disorder<'a> {
    /// This form, which has to come before it, is missing.
    Missing(&'static str),
    /// This form, which has to come after it, comes before it.
    Before(&'a str),
}

impl fmt::Display for Disorder<'_> {
    fn fmt<W: fmt::Write>(&self, f: &mut fmt::Formatter<W>) -> fmt::Result {
        let (form, what) = match self {
            Disorder::Missing(form) => (*form, "is missing"),
            Disorder::Before(form) => (*form, "stands"),
        };
        write!(
            f,
            "({form} ..) {what} before it; the order is array, aux, action, invariant, idle, body"
        )
    }
}

/// The last of the forms in the order of an object among those that are in these bytes.
fn last_in<'a>(bytes: &'a [u8]) -> &'a str {
    let mut last = "";
    let mut parts = Parts::new(bytes, 0);
    for _ in 0..bytes.len() {
        let Some(part) = parts.next() else {
            break;
        };
        let word = first_word(bytes, part);
        if rank_of(word) > rank_of(last) {
            last = word;
        }
    }
    last
}

/// Why a form with this word may not come after the forms in these bytes.
pub(crate) fn disorder_of<'a>(before: &'a [u8], word: &str) -> Option<Disorder<'a>> {
    if rank_of(word) == 0 {
        return None;
    }
    let last = last_in(before);
    if rank_of(word) < rank_of(last) {
        return Some(Disorder::Before(last));
    }
    let due = text_beside(&DUE_BEFORE, word);
    if rank_of(last) < rank_of(due) {
        return Some(Disorder::Missing(due));
    }
    None
}
