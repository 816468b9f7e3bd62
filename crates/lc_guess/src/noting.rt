//! What is noted of the own call at an edge, under a condition or under none.
use crate::fact::{Basis, Fact};
use crate::formula::{cell_at, holds, other_side};
use crate::marking::{branch_of, reply_column};
use crate::seen::Seen;
use crate::signature::Branch;
use crate::text::{
    each_item, each_numbered, first_text, items_within, later, lists, printed, printed_first,
    text_of, within_first,
};
use lc_base::OutOfMemory;
use lc_reading::{Part, behind_word};
use lc_sexp::{Cursor, Item};
use std::alloc::Global;

/// The condition of the rider that has one; empty if none has.
pub(crate) fn condition_of(alloc: Global, riders: Cursor<'_>) -> Result<String, OutOfMemory> {
    for rider in each_item(riders) {
        if let Ok(when) = behind_word(rider, "when") {
            return printed_first(alloc, when);
        }
    }
    Ok(String::new(alloc))
}

/// The term that the invariant ties to a cell, if it ties one.
pub(crate) fn tied_to<'b>(claims: &'b [String], cell: &str) -> Option<&'b str> {
    for claim in claims {
        let other = other_side(claim, cell);
        if other.is_some() {
            return other;
        }
    }
    None
}

/// The local that a cell is, by what is read, or by what is known where a condition holds.
fn local_of<'b>(
    alloc: Global,
    seen: Seen<'b, 'b>,
    condition: &str,
    cell: &str,
) -> Result<Option<&'b str>, OutOfMemory> {
    let index = seen.point.index(alloc)?;
    for (column, local) in seen.cells_read() {
        if cell_at(alloc, column, &index)?.as_str() == cell {
            return Ok(Some(text_of(local)));
        }
    }
    for fact in seen.known_facts() {
        let local = other_side(&fact.claim, cell);
        if fact.premise.as_str() == condition && local.is_some() {
            return Ok(local);
        }
    }
    Ok(None)
}

/// A reply that is noted, in words of locals, if it is known how to say it.
fn said_reply<'b>(
    alloc: Global,
    seen: Seen<'b, 'b>,
    condition: &str,
    reply: Part<'b>,
) -> Result<Option<&'b str>, OutOfMemory> {
    if let Item::Atom(atom) = reply.item() {
        let is_said = atom.integer().is_ok() || lists(seen.body.operation.arguments, atom.text());
        return Ok(if is_said { Some(atom.text()) } else { None });
    }
    let cell = printed(alloc, reply)?;
    match tied_to(&seen.body.object.claims, &cell) {
        Some(tied) => local_of(alloc, seen, condition, tied),
        None => Ok(None),
    }
}

/// Appends a fact of what is noted.
fn push_fact(
    alloc: Global,
    told: &mut Vec<Fact>,
    condition: &str,
    claim: String,
) -> Result<(), OutOfMemory> {
    let premise = String::from_str(alloc, condition)?;
    told.push(Fact::under(alloc, premise, claim, Basis::Noted))?;
    Ok(())
}

/// Appends that the replies of a branch are noted where a condition holds.
fn push_branch<'b>(
    alloc: Global,
    told: &mut Vec<Fact>,
    seen: Seen<'b, 'b>,
    condition: &str,
    branch: Branch<'b>,
) -> Result<(), OutOfMemory> {
    let noted = holds(alloc, "noted", "self", "1")?;
    push_fact(alloc, told, condition, noted)?;
    for (place, reply) in each_numbered(branch.replies) {
        if let Some(said) = said_reply(alloc, seen, condition, reply)? {
            let claim = holds(alloc, reply_column(place, true), "self", said)?;
            push_fact(alloc, told, condition, claim)?;
        }
    }
    Ok(())
}

/// Appends what a rider notes where a condition holds.
fn push_rider(
    alloc: Global,
    told: &mut Vec<Fact>,
    seen: Seen<'_, '_>,
    condition: &str,
    rider: Cursor<'_>,
    returned: Cursor<'_>,
) -> Result<(), OutOfMemory> {
    let choice = match first_text(rider) {
        "note" => None,
        "note-by" => Some(first_text(later(rider))),
        _ => return Ok(()),
    };
    match branch_of(seen.body.operation, choice, returned, seen.stores()) {
        Some(branch) => push_branch(alloc, told, seen, condition, branch),
        None => Ok(()),
    }
}

/// Appends what is noted at an edge.
pub(crate) fn push_noted(
    alloc: Global,
    told: &mut Vec<Fact>,
    seen: Seen<'_, '_>,
) -> Result<(), OutOfMemory> {
    let riders = seen.edge.riders;
    let condition = condition_of(alloc, riders)?;
    let returned = seen.ways.returned(alloc, seen.edge.next, &condition)?;
    for rider in each_item(riders) {
        match behind_word(rider, "when") {
            Ok(when) => {
                let inner = within_first(later(when));
                push_rider(alloc, told, seen, &condition, inner, returned)?;
            }
            Err(_) => push_rider(alloc, told, seen, "", items_within(rider), returned)?,
        }
    }
    Ok(())
}
