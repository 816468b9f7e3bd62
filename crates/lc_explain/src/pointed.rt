//! The least wrong part of a point that does not fit.
use crate::declared::{Sort, seek};
use crate::lists::{List, Parts, place_from};
use crate::operators::comment_sign;
use crate::sentence::{Meant, OTHER_COMMENT, Sentence};
use crate::table::{is_among, text_beside};
use lc_place::{Place, byte_place};

/// What is wrong at a place.
#[derive(Clone, Copy)]
pub(crate) struct Pointed<'a> {
    pub place: Place,
    pub sentence: Sentence<'a>,
}

/// The edges at which instructions store.
static STORING_EDGES: [(&str, &str); 3] = [("store", "next"), ("faa", "next"), ("cas", "then")];

/// Whether an action of this name may be at an edge: it is declared, or each development has it.
fn is_action(bytes: &[u8], name: &str) -> bool {
    is_among(&["skip", "enter", "leave"], name)
        || seek(bytes, Sort::Action, name).declared().is_some()
}

/// The action of an `on`, if it is none that is declared.
fn wrong_action<'a>(bytes: &'a [u8], on: List<'a>) -> Option<Pointed<'a>> {
    let name = on.atom(4);
    if name.is_empty() || is_action(bytes, name) {
        return None;
    }
    let item = on.item(4)?;
    let place = place_from(bytes, on.offset.checked_add(item.offset)?)?;
    let meant = match seek(bytes, Sort::Action, name).nearest() {
        Some(near) => Meant::Near(near),
        None => Meant::Unknown,
    };
    let noun = Sort::Action.noun();
    Some(Pointed {
        place,
        sentence: Sentence::Undeclared { noun, name, meant },
    })
}

/// The instruction of a point, if it stores at one of its edges without an `on`.
fn without_on<'a>(bytes: &'a [u8], point: List<'a>, edge: &'static str) -> Option<Pointed<'a>> {
    let item = point.item(3)?;
    let place = place_from(bytes, point.offset.checked_add(item.offset)?)?;
    Some(Pointed {
        place,
        sentence: Sentence::NeedsOn(edge),
    })
}

/// The sign of a comment of another language with which the line of a byte begins that cannot be read, if it begins with one.
pub(crate) fn other_comment(bytes: &[u8], offset: usize) -> Option<Pointed<'_>> {
    if matches!(bytes.get(offset)?, b'(' | b')') {
        return None;
    }
    let sign = comment_sign(bytes, offset)?;
    let place = byte_place(bytes, sign.offset as u64)?;
    Some(Pointed {
        place: Place {
            length: sign.length,
            ..place
        },
        sentence: Sentence::Said(&OTHER_COMMENT, ""),
    })
}

/// The least wrong part of the list at a place, if that is a point, and the part is known: an action that is not declared, or an
/// instruction that stores without an `on`.
pub(crate) fn wrong_part(bytes: &[u8], place: Place) -> Option<Pointed<'_>> {
    let point = List::at(bytes, place.offset);
    if point.word != "point" {
        return None;
    }
    let instruction = point.item(3)?;
    let edge = text_beside(
        &STORING_EDGES,
        List::at(point.bytes, instruction.offset).word,
    );
    let mut has_on = edge.is_empty();
    let mut parts = Parts::of(bytes, place.offset, place.length);
    for _ in 0..place.length {
        let Some(part) = parts.next() else {
            break;
        };
        let list = List::at(bytes, part.offset);
        if list.word == "on" {
            if let Some(pointed) = wrong_action(bytes, list) {
                return Some(pointed);
            }
            has_on = has_on || list.atom(2) == edge;
        }
    }
    if has_on {
        return None;
    }
    without_on(bytes, point, edge)
}
