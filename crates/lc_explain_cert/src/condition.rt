//! What a condition asks, in words.
use crate::naming::{action_at_edge, action_name, conjunct_name, next_name, point_name};
use crate::path::push_path;
use lc_base::OutOfMemory;
use lc_cond::{Condition, Kind, Passage, Place, Which};
use lc_outline::{Development, Parts, column_name, edge_word};
use lc_rider::Owing;
use std::alloc::Global;

/// The number by which a condition is reported, or 0 if there is none.
fn number_of(which: Which) -> usize {
    match which {
        Which::Numbered(number) => number,
        Which::Alone | Which::Column(_) => 0,
    }
}

/// The name of the column that a condition is about.
fn column_of(parts: &Parts, which: Which) -> &str {
    match which {
        Which::Column(column) => column_name(parts, column),
        Which::Alone | Which::Numbered(_) => "",
    }
}

/// What holds at a point, or of idle clients.
fn push_owner(text: &mut String, parts: &Parts, place: &Place) -> Result<(), OutOfMemory> {
    match place.point {
        Some(point) => text.push_str(point_name(parts, point))?,
        None => text.push_str("idle")?,
    }
    Ok(())
}

/// Which conjunct of the invariant it is.
fn push_conjunct(text: &mut String, parts: &Parts, place: &Place) -> Result<(), OutOfMemory> {
    let number = number_of(place.which);
    let name = conjunct_name(parts, number);
    write!(text, "conjunct {number} of the invariant, {name}")?;
    Ok(())
}

/// What a mark asks for.
fn duty(owing: Owing) -> &'static str {
    match owing {
        Owing::Pending => "the call that it marks is pending",
        Owing::Named => "the call that it marks is one of the operation that is named",
        Owing::Enabled => "the call that it marks can be done: a guard holds",
        Owing::Observing => "the branch by which it notes has no updates",
    }
}

/// What a condition asks.
fn push_claim(
    text: &mut String,
    development: &Development,
    kind: Kind,
    place: &Place,
) -> Result<(), OutOfMemory> {
    let parts = development.parts();
    let number = number_of(place.which);
    let column = column_of(parts, place.which);
    let action = action_at_edge(development, place);
    match kind {
        Kind::Init => {
            push_conjunct(text, parts, place)?;
            text.push_str(", holds at first")?;
        }
        Kind::InitIdle => write!(text, "conjunct {number} of idle holds at first")?,
        Kind::Entry => {
            push_conjunct(text, parts, place)?;
            text.push_str(", holds when a call has begun")?;
        }
        Kind::First => {
            write!(text, "conjunct {number} of ")?;
            push_owner(text, parts, place)?;
            text.push_str(" holds when a call has begun")?;
        }
        Kind::Owed(owing) => {
            let duty = duty(owing);
            write!(text, "of rider {number}: {duty}")?;
        }
        Kind::Reply => text.push_str("the reply is that of the mark, or the one noted")?,
        Kind::Invariant => {
            push_conjunct(text, parts, place)?;
            text.push_str(", holds after the step")?;
        }
        Kind::Next => {
            let next = next_name(parts, place);
            write!(text, "conjunct {number} of {next} holds after the step")?;
        }
        Kind::Guard => write!(text, "the guard of the action {action} holds")?,
        Kind::Column => write!(
            text,
            "the action {action} leaves in the column {column} what the step does"
        )?,
        Kind::Stable => {
            write!(text, "conjunct {number} of ")?;
            push_owner(text, parts, place)?;
            text.push_str(" stays")?;
        }
    }
    Ok(())
}

/// Where a condition is.
fn push_passage(text: &mut String, parts: &Parts, place: &Place) -> Result<(), OutOfMemory> {
    match place.passage {
        Passage::Nothing => {}
        Passage::Edge(edge) => {
            let edge = edge_word(edge);
            write!(text, ", edge {edge}")?;
        }
        Passage::Action(action) => {
            let action = action_name(parts, action);
            write!(text, " where another client does {action}")?;
        }
    }
    if let Some(path) = place.path {
        write!(text, ", path {path}")?;
    }
    Ok(())
}

/// What a condition asks, and where.
pub(crate) fn condition_words(
    alloc: Global,
    development: &Development,
    condition: &Condition,
) -> Result<String, OutOfMemory> {
    let parts = development.parts();
    let place = &condition.place;
    let mut text = String::new(alloc);
    if let Some(point) = place.point {
        let point = point_name(parts, point);
        write!(text, "at {point}")?;
    }
    push_passage(&mut text, parts, place)?;
    push_path(&mut text, development, place)?;
    if !text.is_empty() {
        text.push_str(": ")?;
    }
    push_claim(&mut text, development, condition.kind, place)?;
    Ok(text)
}
