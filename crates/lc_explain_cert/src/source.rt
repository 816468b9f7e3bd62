//! Where in the file of the development is what a condition speaks of.
use crate::naming::{action_at_edge, action_name, next_name, point_name};
use lc_base::OutOfMemory;
use lc_cond::{Condition, Kind, Passage, Place as Standing, Which};
use lc_explain::{Label, Part, located, part_place};
use lc_outline::{Development, Parts, column_name, edge_word};
use lc_place::Place;
use std::alloc::Global;

/// The file of a development, by its path, and what was read of it.
#[derive(Clone, Copy)]
pub struct Source<'a> {
    pub path: &'a str,
    pub bytes: &'a [u8],
}

/// What a condition asks for, and where.
#[derive(Clone, Copy)]
pub(crate) struct About {
    pub kind: Kind,
    pub place: Standing,
}

impl About {
    /// What a condition asks for, and where.
    pub(crate) fn of(condition: &Condition) -> About {
        About {
            kind: condition.kind,
            place: condition.place,
        }
    }
}

/// The number of a conjunct or of a rider that a condition is about.
fn number_of(which: Which) -> usize {
    match which {
        Which::Numbered(number) => number,
        Which::Alone | Which::Column(_) => 0,
    }
}

/// The point of a condition; empty if it has none.
fn point_of<'a>(parts: &'a Parts, place: &Standing) -> &'a str {
    match place.point {
        Some(point) => point_name(parts, point),
        None => "",
    }
}

/// A conjunct of a point, or of idle clients if no point is named.
fn conjunct_of(point: &str, number: usize) -> Part<'_> {
    if point.is_empty() {
        Part::Idle(number)
    } else {
        Part::Assertion { point, number }
    }
}

/// The conjunct that is to hold at the point to which an edge leads.
fn next_conjunct<'a>(parts: &'a Parts, place: &Standing) -> Part<'a> {
    let number = number_of(place.which);
    match next_name(parts, place) {
        "idle" => Part::Idle(number),
        point => Part::Assertion { point, number },
    }
}

/// The update of an action of which a condition speaks.
fn update_of<'a>(parts: &'a Parts, action: &'a str, which: Which) -> Part<'a> {
    match which {
        Which::Column(column) => Part::Update {
            action,
            column: column_name(parts, column),
        },
        Which::Alone | Which::Numbered(_) => Part::Action(action),
    }
}

/// The rider of which a condition speaks.
fn rider_of<'a>(parts: &'a Parts, place: &Standing) -> Option<Part<'a>> {
    let Passage::Edge(edge) = place.passage else {
        return None;
    };
    Some(Part::Rider {
        point: point_of(parts, place),
        edge: edge_word(edge),
        number: number_of(place.which),
    })
}

/// The part of the file that is to hold by a condition.
fn claim_of<'a>(development: &'a Development, about: About) -> Option<Part<'a>> {
    let parts = development.parts();
    let place = &about.place;
    let number = number_of(place.which);
    let action = action_at_edge(development, place);
    match about.kind {
        Kind::Init | Kind::Entry | Kind::Invariant => Some(Part::Invariant(number)),
        Kind::InitIdle => Some(Part::Idle(number)),
        Kind::First | Kind::Stable => Some(conjunct_of(point_of(parts, place), number)),
        Kind::Owed(_) => rider_of(parts, place),
        Kind::Reply => None,
        Kind::Next => Some(next_conjunct(parts, place)),
        Kind::Guard => Some(Part::Guard(action)),
        Kind::Column => Some(update_of(parts, action, place.which)),
    }
}

/// The part of the file at which a condition is: a point, or the action of another client.
fn step_of<'a>(development: &'a Development, about: About) -> Option<Part<'a>> {
    let parts = development.parts();
    let place = &about.place;
    if let Passage::Action(action) = place.passage {
        return Some(Part::Action(action_name(parts, action)));
    }
    match place.point {
        Some(point) => Some(Part::Point(point_name(parts, point))),
        None => claim_of(development, about),
    }
}

/// The action to which an update is missing, if the claim is an update that the file does not have.
fn instead_of(part: Part<'_>) -> Part<'_> {
    match part {
        Part::Update { action, .. } => Part::Action(action),
        other => other,
    }
}

/// What is to hold by a condition, in a file.
#[derive(Clone, Copy)]
struct Claim {
    /// Its place, or that of the action which lacks it.
    place: Option<Place>,
    /// Whether it is there.
    is_there: bool,
}

/// The place in a file of what is to hold.
fn claim_in(source: Source<'_>, part: Part<'_>) -> Claim {
    let place = part_place(source.bytes, part);
    if place.is_some() {
        return Claim {
            place,
            is_there: true,
        };
    }
    Claim {
        place: part_place(source.bytes, instead_of(part)),
        is_there: false,
    }
}

/// The place in a file of what is to hold by a condition, if it is there.
pub(crate) fn claim_place(
    source: Source<'_>,
    development: &Development,
    about: About,
) -> Option<Place> {
    part_place(source.bytes, claim_of(development, about)?)
}

/// What is said of what is to hold, if it is there.
fn claim_words(kind: Kind) -> &'static str {
    match kind {
        Kind::Column => "the action stores this, and the step is to store the same",
        Kind::Guard => "this guard of the action is to hold before the step",
        Kind::Owed(_) => "this mark asks for it, after the marks before it",
        Kind::Stable => "this is to hold after the action of another client",
        Kind::First => {
            "this is to hold when a call begins; what is not said at idle is forgotten between calls"
        }
        Kind::Entry => "this is to hold when a call begins",
        _ => "this is to hold after the step",
    }
}

/// What is said of an action that lacks an update of the column that a condition is about.
fn lacking_words(alloc: Global, parts: &Parts, which: Which) -> Result<String, OutOfMemory> {
    let column = match which {
        Which::Column(column) => column_name(parts, column),
        Which::Alone | Which::Numbered(_) => "",
    };
    let text = format!(in alloc;
        "this action does not store in {column}, and the step does: add ({column} INDEX VALUE) to it"
    )?;
    Ok(text)
}

/// What is asked of a client whose call has its mark.
const MARKED: &[u8] = b"(= (rd pend self) 2)";

/// Whether a conjunct at a place says that the call of the client has its mark.
fn says_marked(bytes: &[u8], place: Option<Place>) -> bool {
    let Some(place) = place else {
        return false;
    };
    match bytes.get(place.offset..) {
        Some(rest) => rest.starts_with(MARKED),
        None => false,
    }
}

/// Appends to `text` a sentence of a place in the file, if there is one.
fn push_located(
    alloc: Global,
    text: &mut Vec<u8>,
    source: Source<'_>,
    place: Option<Place>,
    label: Label,
    sentence: &str,
) -> Result<(), OutOfMemory> {
    if let Some(place) = place {
        let said = located(alloc, source.path, source.bytes, place, label, sentence)?;
        text.extend_from_slice(&said)?;
    }
    Ok(())
}

/// Appends to `text` a note of a part of the file, if it is there.
pub(crate) fn push_part(
    alloc: Global,
    text: &mut Vec<u8>,
    source: Source<'_>,
    part: Part<'_>,
    sentence: &str,
) -> Result<(), OutOfMemory> {
    let place = part_place(source.bytes, part);
    push_located(alloc, text, source, place, Label::Note, sentence)
}

/// What is said of what is to hold by a condition, in the file with these bytes.
fn claim_sentence(
    alloc: Global,
    bytes: &[u8],
    development: &Development,
    about: About,
    claim: Claim,
) -> Result<String, OutOfMemory> {
    let kind = about.kind;
    if matches!(kind, Kind::Column) && !claim.is_there {
        return lacking_words(alloc, development.parts(), about.place.which);
    }
    let words = if matches!(kind, Kind::Next) && says_marked(bytes, claim.place) {
        "this is to hold after the step: pend is 2 after a mark, as (lin)"
    } else {
        claim_words(kind)
    };
    Ok(String::from_str(alloc, words)?)
}

/// Appends to `text` where a condition is in the file, with this sentence, and where that is which is to hold by it.
pub(crate) fn push_places(
    alloc: Global,
    text: &mut Vec<u8>,
    source: Source<'_>,
    development: &Development,
    about: About,
    label: Label,
    sentence: &str,
) -> Result<(), OutOfMemory> {
    let step = step_of(development, about).and_then(|part| part_place(source.bytes, part));
    push_located(alloc, text, source, step, label, sentence)?;
    if matches!(about.kind, Kind::Init | Kind::InitIdle) {
        return Ok(());
    }
    let Some(claim) = claim_of(development, about) else {
        return Ok(());
    };
    let claim = claim_in(source, claim);
    let sentence = claim_sentence(alloc, source.bytes, development, about, claim)?;
    push_located(alloc, text, source, claim.place, Label::Note, &sentence)
}
