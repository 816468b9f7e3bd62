//! A plan of guesses.
use crate::acting::{Standing, action_of};
use crate::code::{Edge, read_points};
use crate::known::{Known, Place};
use crate::object::Object;
use crate::placing::find_places;
use crate::seen::{Body, Reach};
use crate::signature::Operations;
use crate::text::{each_item, first_text, later, within_first};
use lc_base::OutOfMemory;
use lc_fill::{Plan, Planned};
use lc_reading::{NameTable, behind_word};
use lc_sexp::{Cursor, Forms};
use std::alloc::Global;

/// The forms of a text that was made here.
fn forms_of(alloc: Global, text: &str) -> Result<Forms, OutOfMemory> {
    match Forms::read(alloc, text.as_bytes()) {
        Ok(forms) => Ok(forms),
        Err(_) => Forms::of(alloc, &[]),
    }
}

/// What is guessed so far.
#[derive(Drop)]
struct Guesses {
    actions: String,
    calls: Vec<Planned>,
    asserts: Vec<Planned>,
}

/// Facts in a row.
fn joined(alloc: Global, facts: &[String]) -> Result<String, OutOfMemory> {
    let mut text = String::new(alloc);
    for fact in facts {
        text.push_str(fact)?;
        text.push_str(" ")?;
    }
    Ok(text)
}

/// Guesses what is asserted at a point.
fn guess_point(alloc: Global, guesses: &mut Guesses, at: Place<'_, '_>) -> Result<(), OutOfMemory> {
    let facts = at.asserted(alloc)?;
    let text = joined(alloc, &facts)?;
    guesses.asserts.push(Planned {
        place: at.point.place,
        items: forms_of(alloc, &text)?,
    })?;
    Ok(())
}

/// Guesses the action of an edge.
fn guess_edge<'a>(
    alloc: Global,
    guesses: &mut Guesses,
    at: Place<'a, '_>,
    edge: &Edge<'a>,
) -> Result<(), OutOfMemory> {
    let facts = at.guarding(alloc, edge)?;
    let standing = Standing {
        phase: at.phase(),
        facts: &facts,
        returned: at.returned_by(alloc, edge)?,
    };
    if let Some(guessed) = action_of(alloc, at.body, at.point, edge, standing)? {
        guesses.actions.push_str(&guessed.action)?;
        guesses.actions.push_str("\n")?;
        guesses.calls.push(Planned {
            place: edge.place,
            items: forms_of(alloc, &guessed.call)?,
        })?;
    }
    Ok(())
}

/// Guesses for the points of a body.
fn guess_body<'a>(
    alloc: Global,
    body: Body<'a, '_>,
    lacking: &[u64],
    guesses: &mut Guesses,
    parts: Cursor<'a>,
) -> Result<(), OutOfMemory> {
    let points = read_points(alloc, lacking, parts)?;
    let known = Known::new(alloc, body, points)?;
    for (place, point) in known.points.iter().enumerate() {
        let at = Place {
            body,
            known: &known,
            place,
            point,
        };
        guess_point(alloc, guesses, at)?;
        for edge in &point.edges {
            if edge.is_lacking {
                guess_edge(alloc, guesses, at, edge)?;
            }
        }
    }
    Ok(())
}

/// Guesses for the bodies of an object with these parts.
fn guess_object<'a>(
    alloc: Global,
    operations: &Operations<'a>,
    parts: Cursor<'a>,
    lacking: &[u64],
    reach: Reach,
    guesses: &mut Guesses,
) -> Result<(), OutOfMemory> {
    let object = Object::new(alloc, parts)?;
    let places = find_places(alloc, &object, operations)?;
    for part in each_item(parts) {
        let Ok(inside) = behind_word(part, "body") else {
            continue;
        };
        let Some(operation) = operations.named(first_text(inside)) else {
            continue;
        };
        let declared = within_first(later(inside));
        let locals = NameTable::new(alloc).enter_all(declared)?;
        let body = Body {
            operation,
            operations,
            declared,
            locals: &locals,
            object: &object,
            places: &places,
            reach,
        };
        guess_body(alloc, body, lacking, guesses, later(later(inside)))?;
    }
    Ok(())
}

/// What is guessed so far for a short development with these forms, in which these places lack the call of an action. Nothing is promised of it: what
/// is completed by it is a development, and whether its conditions are valid is for others to say.
pub fn guess(
    alloc: Global,
    forms: &Forms,
    lacking: &[u64],
    reach: Reach,
) -> Result<Plan, OutOfMemory> {
    let file = forms.cursor();
    let operations = Operations::new(alloc, later(within_first(file)))?;
    let object = later(within_first(later(file)));
    let mut guesses = Guesses {
        actions: String::new(alloc),
        calls: Vec::new(alloc),
        asserts: Vec::new(alloc),
    };
    guess_object(alloc, &operations, object, lacking, reach, &mut guesses)?;
    Ok(Plan {
        actions: forms_of(alloc, &guesses.actions)?,
        calls: guesses.calls,
        asserts: guesses.asserts,
        idle: Forms::of(alloc, &[])?,
    })
}
