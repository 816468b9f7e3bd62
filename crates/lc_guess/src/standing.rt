//! Facts that are tried, where no column tells the place of each thing: what the invariant says of all that is at places, said of a thing that was
//! read there; what is read, or stored by the client's own number; and what holds of idle clients, or does not. Whether others make
//! them false is not looked at: what does not hold is for lc_houdini to leave out.
use crate::fact::{Basis, Fact};
use crate::formula::{cell_at, has_word, holds, negated, other_side};
use crate::object::Object;
use crate::seen::{Body, Seen};
use crate::text::{
    each_cell, first_part, first_text, later, nth_text, printed, printed_first, push_parts,
    text_of, within_first,
};
use lc_base::OutOfMemory;
use lc_sexp::Cursor;
use std::alloc::Global;

/// The column in which the invariant finds the first cell of a column: the `OTHER` of `(= (rd COLUMN 0) (rd OTHER T))`, if it says it.
fn tied_column<'b>(
    alloc: Global,
    object: &'b Object<'_>,
    column: &str,
) -> Result<Option<&'b str>, OutOfMemory> {
    let cell = cell_at(alloc, column, "0")?;
    for claim in &object.claims {
        if let Some(other) = other_side(claim, &cell)
            && let Some(behind) = other.strip_prefix("(rd ")
            && let Some((name, _)) = behind.split_once(" ")
        {
            return Ok(Some(name));
        }
    }
    Ok(None)
}

/// Where what is said of a local is claimed: where the next test finds that it is not 0, if it is that test.
fn premise_for(alloc: Global, seen: Seen<'_, '_>, local: &str) -> Result<String, OutOfMemory> {
    if let Some(next) = seen.next()
        && next.word == "if"
    {
        let test = format!(in alloc; "(= {local} 0)")?;
        if printed_first(alloc, next.code)?.as_str() == test.as_str() {
            return Ok(format!(in alloc; "(not {test})")?);
        }
    }
    Ok(String::new(alloc))
}

/// Appends what a claim for all places, `V (=> BOUNDS F)`, says of what is there in a column, said of a local.
fn push_instance(
    alloc: Global,
    told: &mut Vec<Fact>,
    claim: Cursor<'_>,
    content: &str,
    premise: &str,
    local: &str,
) -> Result<(), OutOfMemory> {
    let variable = first_text(claim);
    let cell = cell_at(alloc, content, variable)?;
    let mut parts = Vec::new(alloc);
    if let Some(part) = first_part(later(later(within_first(later(claim))))) {
        push_parts(alloc, &mut parts, part)?;
    }
    for part in parts {
        let said = part.replace(alloc, cell.as_str(), local)?;
        if said.as_str() != part.as_str() && !has_word(&said, &[variable, "forall", "exists"]) {
            let premise = String::from_str(alloc, premise)?;
            told.push(Fact::under(alloc, premise, said, Basis::Stays))?;
        }
    }
    Ok(())
}

/// Appends what is claimed of the things that are read at an edge.
fn push_things(alloc: Global, told: &mut Vec<Fact>, seen: Seen<'_, '_>) -> Result<(), OutOfMemory> {
    let index = nth_text(seen.point.code, 1);
    for (column, local) in seen.cells_read() {
        let local = text_of(local);
        if seen.body.locals.contains(index) {
            let claim = holds(alloc, column, index, local)?;
            told.push(Fact::plain(alloc, claim))?;
        } else if let Some(content) = tied_column(alloc, seen.body.object, column)? {
            let premise = premise_for(alloc, seen, local)?;
            for claim in &seen.body.object.general {
                push_instance(alloc, told, *claim, content, &premise, local)?;
            }
        }
    }
    Ok(())
}

/// Appends that cells hold what the client stores in them by its own number.
fn push_signed(alloc: Global, told: &mut Vec<Fact>, seen: Seen<'_, '_>) -> Result<(), OutOfMemory> {
    let behind = later(seen.point.code);
    let values = match (seen.point.word, seen.edge.word) {
        ("store", _) => within_first(later(behind)),
        ("cas", "then") => within_first(later(later(behind))),
        _ => return Ok(()),
    };
    let index = seen.point.index(alloc)?;
    for (column, value) in each_cell(seen.columns(), values) {
        let value = printed(alloc, value)?;
        if has_word(&value, &["self"]) {
            told.push(Fact::plain(alloc, holds(alloc, column, &index, &value)?))?;
        }
    }
    Ok(())
}

/// Appends what holds of idle clients where something is stored that it speaks of, and that it does not hold.
fn push_idle(
    alloc: Global,
    told: &mut Vec<Fact>,
    seen: Seen<'_, '_>,
    stored: &[&str],
) -> Result<(), OutOfMemory> {
    for claim in &seen.body.object.idle {
        if has_word(claim, stored) {
            told.push(Fact::plain(alloc, claim.clone()?))?;
            told.push(Fact::plain(alloc, negated(alloc, claim)?))?;
        }
    }
    Ok(())
}

/// What is tried at the first point of a body: what holds of idle clients.
pub(crate) fn standing_first(alloc: Global, body: Body<'_, '_>) -> Result<Vec<Fact>, OutOfMemory> {
    let mut facts = Vec::new(alloc);
    if body.places.is_none() {
        for claim in &body.object.idle {
            facts.push(Fact::plain(alloc, claim.clone()?))?;
        }
    }
    Ok(facts)
}

/// Appends what is tried behind an edge at which something is stored in these columns.
pub(crate) fn push_standing(
    alloc: Global,
    told: &mut Vec<Fact>,
    seen: Seen<'_, '_>,
    stored: &[&str],
) -> Result<(), OutOfMemory> {
    if seen.body.places.is_some() {
        return Ok(());
    }
    if seen.point.word == "load" {
        push_things(alloc, told, seen)?;
    }
    push_signed(alloc, told, seen)?;
    push_idle(alloc, told, seen, stored)
}
