//! What is known of a local that is in a place for good, where the invariant tells the place of each thing, and the places only grow.
use crate::changes::Change;
use crate::fact::{Basis, Fact};
use crate::formula::{cell_at, holds, with_word};
use crate::object::Object;
use crate::seen::Seen;
use crate::signature::Operations;
use crate::switching::tied_index;
use crate::text::{
    each_cell, each_item, first_part, first_text, later, nth_text, printed, printed_first,
    push_parts, text_of, within_first,
};
use lc_base::OutOfMemory;
use lc_reading::{Part, behind_word};
use lc_sexp::Cursor;
use std::alloc::Global;

/// A place has at most this many bounds.
const BOUNDS: usize = 2;

/// What the invariant says of places: `(forall V (=> BOUNDS (= (rd COLUMN (rd CONTENT V)) V)))`.
#[derive(Drop)]
pub(crate) struct Places<'a> {
    variable: &'a str,
    column: &'a str,
    content: &'a str,
    bounds: Vec<String>,
}

/// Whether a bound of this variable is a number below it, or a column above it that only grows.
fn only_grows(
    object: &Object<'_>,
    operations: &Operations<'_>,
    bound: Part<'_>,
    variable: &str,
) -> bool {
    let Ok(sides) = behind_word(bound, "<=") else {
        return false;
    };
    if nth_text(sides, 1) == variable {
        return !first_text(sides).is_empty();
    }
    let cell = within_first(later(sides));
    let column = nth_text(cell, 1);
    first_text(sides) == variable
        && first_text(cell) == "rd"
        && (object.change(column) == Change::Growing || operations.grows(column))
}

/// The column and the content of `(= (rd COLUMN (rd CONTENT V)) V)`.
fn inverse_in<'a>(part: Part<'a>, variable: &str) -> Option<(&'a str, &'a str)> {
    let sides = behind_word(part, "=").ok()?;
    let cell = within_first(sides);
    let inner = within_first(later(later(cell)));
    if nth_text(sides, 1) == variable
        && first_text(cell) == "rd"
        && first_text(inner) == "rd"
        && nth_text(inner, 2) == variable
    {
        Some((nth_text(cell, 1), nth_text(inner, 1)))
    } else {
        None
    }
}

/// The parts of a conjunction, or the formula if it is none.
fn conjuncts(formula: Cursor<'_>) -> Cursor<'_> {
    let inside = within_first(formula);
    if first_text(inside) == "and" {
        later(inside)
    } else {
        formula
    }
}

/// The column and the content of a claim with these parts after `forall`: `V (=> .. (= (rd COLUMN (rd CONTENT V)) V))`.
pub(crate) fn inverse_of<'a>(claim: Cursor<'a>) -> Option<(&'a str, &'a str)> {
    let variable = first_text(claim);
    let implication = within_first(later(claim));
    for part in each_item(conjuncts(later(later(implication)))) {
        let inverse = inverse_in(part, variable);
        if inverse.is_some() {
            return inverse;
        }
    }
    None
}

/// What a claim with these parts after `forall` says of places.
fn places_in<'a>(
    alloc: Global,
    object: &Object<'a>,
    operations: &Operations<'a>,
    claim: Cursor<'a>,
) -> Result<Option<Places<'a>>, OutOfMemory> {
    let Some((column, content)) = inverse_of(claim) else {
        return Ok(None);
    };
    let variable = first_text(claim);
    let premise = later(within_first(later(claim)));
    let mut bounds = Vec::new(alloc);
    for bound in each_item(conjuncts(premise)).take(BOUNDS) {
        if !only_grows(object, operations, bound, variable) {
            return Ok(None);
        }
        bounds.push(printed(alloc, bound)?)?;
    }
    Ok(Some(Places {
        variable,
        column,
        content,
        bounds,
    }))
}

/// What the invariant of an object says of places, if it does.
pub(crate) fn find_places<'a>(
    alloc: Global,
    object: &Object<'a>,
    operations: &Operations<'a>,
) -> Result<Option<Places<'a>>, OutOfMemory> {
    for claim in &object.general {
        let places = places_in(alloc, object, operations, *claim)?;
        if places.is_some() {
            return Ok(places);
        }
    }
    Ok(None)
}

impl Places<'_> {
    /// That a local is in its place, as a formula.
    fn standing(&self, alloc: Global, local: &str) -> Result<String, OutOfMemory> {
        let place = cell_at(alloc, self.column, local)?;
        holds(alloc, self.content, &place, local)
    }

    /// Appends that a local is in a place, where a premise holds.
    fn push(
        &self,
        alloc: Global,
        told: &mut Vec<Fact>,
        premise: &str,
        local: &str,
    ) -> Result<(), OutOfMemory> {
        let place = cell_at(alloc, self.column, local)?;
        for bound in &self.bounds {
            let claim = with_word(alloc, bound, self.variable, &place)?;
            push_under(alloc, told, premise, claim)?;
        }
        let claim = self.standing(alloc, local)?;
        push_under(alloc, told, premise, claim)
    }

    /// Whether it is known that a local is in a place.
    fn is_known(
        &self,
        alloc: Global,
        seen: Seen<'_, '_>,
        local: &str,
    ) -> Result<bool, OutOfMemory> {
        let claim = self.standing(alloc, local)?;
        for fact in seen.known_facts() {
            if fact.premise.is_empty() && fact.claim.as_str() == claim.as_str() {
                return Ok(true);
            }
        }
        Ok(false)
    }
}

/// Appends that something is claimed where a premise holds.
fn push_under(
    alloc: Global,
    told: &mut Vec<Fact>,
    premise: &str,
    claim: String,
) -> Result<(), OutOfMemory> {
    let premise = String::from_str(alloc, premise)?;
    told.push(Fact::under(alloc, premise, claim, Basis::Stays))?;
    Ok(())
}

/// Appends what the invariant says of the place of a cell that was read, said of the local, and reports whether it says anything.
fn push_claimed(
    alloc: Global,
    told: &mut Vec<Fact>,
    object: &Object<'_>,
    places: &Places<'_>,
    cell: &str,
    local: &str,
) -> Result<bool, OutOfMemory> {
    let place = cell_at(alloc, places.column, cell)?;
    let mut is_told = false;
    for claim in &object.claims {
        if claim.split_once(place.as_str()).is_some() {
            let said = claim.replace(alloc, cell, local)?;
            push_under(alloc, told, "", said)?;
            is_told = true;
        }
    }
    Ok(is_told)
}

/// Appends that a local, which the first cell of a column was read into, is in a place up to the one at which the invariant finds that cell.
fn push_tied(
    alloc: Global,
    told: &mut Vec<Fact>,
    object: &Object<'_>,
    places: &Places<'_>,
    column: &str,
    local: &str,
) -> Result<(), OutOfMemory> {
    let Some(tied) = tied_index(alloc, object, column)? else {
        return Ok(());
    };
    places.push(alloc, told, "", local)?;
    let place = cell_at(alloc, places.column, local)?;
    push_under(alloc, told, "", format!(in alloc; "(<= {place} {tied})")?)
}

/// Appends what is known of the place of a local that a cell was read into, at an index of which it is known whether it is in a place.
fn push_cell(
    alloc: Global,
    told: &mut Vec<Fact>,
    object: &Object<'_>,
    places: &Places<'_>,
    at: (&str, &str, bool),
    local: &str,
) -> Result<(), OutOfMemory> {
    let (column, index, is_placed) = at;
    let cell = cell_at(alloc, column, index)?;
    let claim = format!(in alloc; "(= {cell} {local})")?;
    if object.change(column) == Change::Filled {
        let premise = format!(in alloc; "(not (= {local} 0))")?;
        push_under(alloc, told, &premise, claim)?;
        if is_placed {
            places.push(alloc, told, &premise, local)?;
        }
    } else if is_placed {
        push_under(alloc, told, "", claim)?;
    } else if !push_claimed(alloc, told, object, places, &cell, local)? {
        push_tied(alloc, told, object, places, column, local)?;
    }
    Ok(())
}

/// Appends what is known of the places of the locals that a row is read into.
fn push_read(
    alloc: Global,
    told: &mut Vec<Fact>,
    places: &Places<'_>,
    seen: Seen<'_, '_>,
) -> Result<(), OutOfMemory> {
    let index = seen.point.index(alloc)?;
    let is_placed = places.is_known(alloc, seen, &index)?;
    for (column, local) in seen.cells_read() {
        let at = (column, index.as_str(), is_placed);
        push_cell(alloc, told, seen.body.object, places, at, text_of(local))?;
    }
    Ok(())
}

/// Appends that locals are in the places that riders give them.
fn push_given(
    alloc: Global,
    told: &mut Vec<Fact>,
    places: &Places<'_>,
    seen: Seen<'_, '_>,
) -> Result<(), OutOfMemory> {
    for rider in each_item(seen.edge.riders) {
        let Ok(set) = behind_word(rider, "set") else {
            continue;
        };
        let local = nth_text(set, 2);
        if first_text(set) == places.content && !local.is_empty() {
            places.push(alloc, told, "", local)?;
        }
    }
    Ok(())
}

/// Appends what the invariant says of all numbers that a column has not reached, said of one that was taken from it.
fn push_unreached(
    alloc: Global,
    told: &mut Vec<Fact>,
    seen: Seen<'_, '_>,
    reached: &str,
    taken: &str,
    stored: &[&str],
) -> Result<(), OutOfMemory> {
    for claim in &seen.body.object.general {
        let variable = first_text(*claim);
        let premise = later(within_first(later(*claim)));
        let begin = format!(in alloc; "(<= {reached} {variable})")?;
        if printed_first(alloc, premise)?.as_str() != begin.as_str() {
            continue;
        }
        let mut parts = Vec::new(alloc);
        if let Some(part) = first_part(later(premise)) {
            push_parts(alloc, &mut parts, part)?;
        }
        for part in parts {
            let claim = with_word(alloc, &part, variable, taken)?;
            let fact = Fact::own(alloc, taken, claim, Basis::Owned)?;
            if !fact.speaks_of(stored) {
                told.push(fact)?;
            }
        }
    }
    Ok(())
}

/// Appends what was known of numbers that are taken at an edge, where a cell of them becomes the client's own.
pub(crate) fn push_taken(
    alloc: Global,
    told: &mut Vec<Fact>,
    seen: Seen<'_, '_>,
    stored: &[&str],
) -> Result<(), OutOfMemory> {
    if !matches!(
        (seen.point.word, seen.edge.word),
        ("cas", "then") | ("faa", _)
    ) {
        return Ok(());
    }
    let taken = within_first(later(later(seen.point.code)));
    let index = seen.point.index(alloc)?;
    for (column, number) in each_cell(seen.columns(), taken) {
        let number = text_of(number);
        if !number.is_empty() && seen.body.object.change(column) == Change::Growing {
            let reached = cell_at(alloc, column, &index)?;
            push_unreached(alloc, told, seen, &reached, number, stored)?;
        }
    }
    Ok(())
}

/// Appends what is known of places at an edge.
pub(crate) fn push_places(
    alloc: Global,
    told: &mut Vec<Fact>,
    seen: Seen<'_, '_>,
) -> Result<(), OutOfMemory> {
    let Some(places) = seen.body.places else {
        return Ok(());
    };
    if seen.point.word == "load" {
        push_read(alloc, told, places, seen)?;
    }
    push_given(alloc, told, places, seen)
}
