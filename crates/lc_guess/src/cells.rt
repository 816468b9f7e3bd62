//! Facts of cells that other clients do not make false: of what only grows, of what is the client's own, and of what a row says while it stays.
use crate::changes::Change;
use crate::code::Point;
use crate::fact::{Basis, Fact};
use crate::formula::{cell_at, has_word, holds, negated};
use crate::seen::Seen;
use crate::switching::bit_in;
use crate::text::{
    each_cell, each_item, first_part, first_text, items_within, later, mentions, nth_text, printed,
    printed_first, text_of, within_first,
};
use lc_base::OutOfMemory;
use lc_reading::{Part, behind_word};
use lc_sexp::Cursor;
use std::alloc::Global;

/// A column of a row that only grows, with the local that it is read into.
fn version_of<'a>(seen: Seen<'a, '_>) -> Option<(&'a str, &'a str)> {
    for (column, local) in seen.cells_read() {
        if seen.body.object.change(column) == Change::Growing {
            return Some((column, text_of(local)));
        }
    }
    None
}

/// Whether it is looked at what a row says while it stays: whether one of these locals is an index of what is read, or riders read this column.
fn is_followed(points: &[Point<'_>], locals: Cursor<'_>, version: &str, number: &str) -> bool {
    for point in points {
        if point.word == "load" {
            let index = nth_text(point.code, 1);
            for local in each_item(locals) {
                if text_of(local) == index {
                    return true;
                }
            }
        }
        for edge in &point.edges {
            if has_condition_on(edge.riders, version, number) {
                return true;
            }
        }
    }
    false
}

/// Whether a rider is done under a condition on this column and this local.
fn has_condition_on(riders: Cursor<'_>, column: &str, local: &str) -> bool {
    for rider in each_item(riders) {
        if let Ok(when) = behind_word(rider, "when")
            && mentions(within_first(when), column)
            && mentions(within_first(when), local)
        {
            return true;
        }
    }
    false
}

/// Appends what a column of bits says of a number that was read from a growing column, once that has another one.
fn push_passed_bits(
    alloc: Global,
    told: &mut Vec<Fact>,
    seen: Seen<'_, '_>,
    version: &str,
    number: &str,
) -> Result<(), OutOfMemory> {
    for claim in &seen.body.object.claims {
        if let Some(bit) = bit_in(seen.body.object, claim)
            && bit.index == version
        {
            let other = if bit.is_one { "0" } else { "1" };
            let premise = format!(in alloc; "(not (= {version} {number}))")?;
            let claim = holds(alloc, bit.column, number, other)?;
            told.push(Fact::under(alloc, premise, claim, Basis::Stays))?;
        }
    }
    Ok(())
}

/// Appends what a row says while it stays: where its growing column is what was read, the others are too.
fn push_version(
    alloc: Global,
    told: &mut Vec<Fact>,
    seen: Seen<'_, '_>,
) -> Result<(), OutOfMemory> {
    let Some((version, number)) = version_of(seen) else {
        return Ok(());
    };
    let targets = seen.point.targets();
    if targets.len() < 2 || !is_followed(seen.ways.points, targets, version, number) {
        return Ok(());
    }
    let index = seen.point.index(alloc)?;
    let cell = cell_at(alloc, version, &index)?;
    let grown = format!(in alloc; "(<= {number} {cell})")?;
    told.push(Fact::plain(alloc, grown))?;
    push_passed_bits(alloc, told, seen, &cell, number)?;
    for (column, local) in seen.cells_read() {
        if column != version {
            let premise = holds(alloc, version, &index, number)?;
            let claim = holds(alloc, column, &index, text_of(local))?;
            told.push(Fact::under(alloc, premise, claim, Basis::Stays))?;
        }
    }
    Ok(())
}

/// What a claim says that a cell is, if it says nothing else.
fn value_in(claim: &str) -> Option<&str> {
    let (_, value) = claim.strip_prefix("(= (rd ")?.split_once(") ")?;
    value.strip_suffix(")")
}

/// Whether a fact says of a cell of a row, while that stays, that it is this.
fn is_of_row(fact: &Fact, index: &str) -> bool {
    !fact.premise.is_empty() && fact.basis == Basis::Stays && value_in(&fact.claim) == Some(index)
}

/// Appends what is read at an index that a row says, while that stays.
fn push_followed(
    alloc: Global,
    told: &mut Vec<Fact>,
    seen: Seen<'_, '_>,
) -> Result<(), OutOfMemory> {
    let index = nth_text(seen.point.code, 1);
    if index.is_empty() {
        return Ok(());
    }
    for fact in seen.known_facts() {
        if !is_of_row(fact, index) {
            continue;
        }
        for (column, local) in seen.cells_read() {
            let premise = fact.premise.clone()?;
            let claim = holds(alloc, column, index, text_of(local))?;
            told.push(Fact::under(alloc, premise, claim, Basis::Stays))?;
        }
    }
    Ok(())
}

/// Whether all columns of the array of the instruction are changed by `store` alone.
fn is_stored_alone(seen: Seen<'_, '_>) -> bool {
    for column in each_item(seen.columns()) {
        if seen.body.object.change(first_text(items_within(column))) != Change::Stored {
            return false;
        }
    }
    true
}

/// Whether an instruction of these points that is neither a load nor a test speaks of a local.
fn is_used(points: &[Point<'_>], local: &str) -> bool {
    for point in points {
        if point.word != "load" && point.word != "if" && mentions(point.code, local) {
            return true;
        }
    }
    false
}

/// Appends what a row says if a test finds a number of the client's own in it.
fn push_tested_row(
    alloc: Global,
    told: &mut Vec<Fact>,
    seen: Seen<'_, '_>,
    test: Part<'_>,
    tested: &str,
    own: &str,
) -> Result<(), OutOfMemory> {
    let test = printed(alloc, test)?;
    let index = seen.point.index(alloc)?;
    for (column, local) in seen.cells_read() {
        let local = text_of(local);
        let is_tested = local == tested;
        if !is_tested && !is_used(seen.ways.points, local) {
            continue;
        }
        let value = if is_tested { own } else { local };
        let claim = holds(alloc, column, &index, value)?;
        if is_tested && has_word(own, &["self"]) {
            let premise = negated(alloc, &test)?;
            let claim = negated(alloc, &claim)?;
            told.push(Fact::under(alloc, premise, claim, Basis::Stays))?;
        }
        told.push(Fact::under(alloc, test.clone()?, claim, Basis::Stays))?;
    }
    Ok(())
}

/// Appends what a row says if the next test finds a number of the client's own in it, where only who finds that stores there.
fn push_found(alloc: Global, told: &mut Vec<Fact>, seen: Seen<'_, '_>) -> Result<(), OutOfMemory> {
    let Some(next) = seen.next() else {
        return Ok(());
    };
    if next.word != "if" || !is_stored_alone(seen) {
        return Ok(());
    }
    let Some(test) = first_part(next.code) else {
        return Ok(());
    };
    let Ok(sides) = behind_word(test, "=") else {
        return Ok(());
    };
    let tested = first_text(sides);
    let own = printed_first(alloc, later(sides))?;
    let is_own = has_word(&own, &["self"]) || seen.is_owned(&own);
    if is_own && seen.point.sets.contains(&tested) {
        push_tested_row(alloc, told, seen, test, tested, &own)?;
    }
    Ok(())
}

/// Whether riders set a cell at an index.
fn set_at(riders: Cursor<'_>, index: &str) -> bool {
    for rider in each_item(riders) {
        if let Ok(set) = behind_word(rider, "set")
            && nth_text(set, 1) == index
        {
            return true;
        }
    }
    false
}

/// Appends that a growing column has passed a number that was taken from it, and at which something is set.
fn push_passed(alloc: Global, told: &mut Vec<Fact>, seen: Seen<'_, '_>) -> Result<(), OutOfMemory> {
    let taken = within_first(later(later(seen.point.code)));
    let index = seen.point.index(alloc)?;
    for (column, number) in each_cell(seen.columns(), taken) {
        let number = text_of(number);
        if !number.is_empty()
            && seen.body.object.change(column) == Change::Growing
            && set_at(seen.edge.riders, number)
        {
            let claim = format!(in alloc; "(<= (+ {number} 1) (rd {column} {index}))")?;
            told.push(Fact::plain(alloc, claim))?;
        }
    }
    Ok(())
}

/// How often riders set a cell of a column.
fn times_set(riders: Cursor<'_>, column: &str) -> usize {
    let mut count = 0usize;
    for rider in each_item(riders) {
        if let Ok(set) = behind_word(rider, "set")
            && first_text(set) == column
        {
            count = count.saturating_add(1);
        }
    }
    count
}

/// Appends that cells hold numbers of the client's own that riders set.
fn push_owners(alloc: Global, told: &mut Vec<Fact>, seen: Seen<'_, '_>) -> Result<(), OutOfMemory> {
    let riders = seen.edge.riders;
    for rider in each_item(riders) {
        let Ok(set) = behind_word(rider, "set") else {
            continue;
        };
        let column = first_text(set);
        let index = nth_text(set, 1);
        let value = printed_first(alloc, later(later(set)))?;
        if !index.is_empty() && times_set(riders, column) == 1 && has_word(&value, &["self"]) {
            let claim = holds(alloc, column, index, &value)?;
            told.push(Fact::own(alloc, index, claim, Basis::Owner)?)?;
        }
    }
    Ok(())
}

/// Appends that cells hold what was stored where the client owns something.
fn push_stored(alloc: Global, told: &mut Vec<Fact>, seen: Seen<'_, '_>) -> Result<(), OutOfMemory> {
    let index = nth_text(seen.point.code, 1);
    if index.is_empty() || !seen.is_owned(index) {
        return Ok(());
    }
    let values = within_first(later(later(seen.point.code)));
    for (column, value) in each_cell(seen.columns(), values) {
        let value = printed(alloc, value)?;
        let claim = holds(alloc, column, index, &value)?;
        told.push(Fact::own(alloc, index, claim, Basis::Owned)?)?;
    }
    Ok(())
}

/// Appends what is known of cells at an edge that was not known before.
pub(crate) fn push_cells(
    alloc: Global,
    told: &mut Vec<Fact>,
    seen: Seen<'_, '_>,
) -> Result<(), OutOfMemory> {
    match (seen.point.word, seen.edge.word) {
        ("load", _) => {
            push_version(alloc, told, seen)?;
            push_followed(alloc, told, seen)?;
            push_found(alloc, told, seen)?;
        }
        ("cas", "then") | ("faa", _) => push_passed(alloc, told, seen)?,
        ("store", _) => push_stored(alloc, told, seen)?,
        _ => {}
    }
    push_owners(alloc, told, seen)
}

/// The columns in which something is stored at an edge.
pub(crate) fn stored_at<'a>(
    alloc: Global,
    seen: Seen<'a, '_>,
) -> Result<Vec<&'a str>, OutOfMemory> {
    let mut stored = Vec::new(alloc);
    if matches!(
        (seen.point.word, seen.edge.word),
        ("store", _) | ("faa", _) | ("cas", "then")
    ) {
        for column in each_item(seen.columns()) {
            stored.push(first_text(items_within(column)))?;
        }
    }
    for rider in each_item(seen.edge.riders) {
        let parts = items_within(rider);
        match first_text(parts) {
            "set" => stored.push(nth_text(parts, 1))?,
            "note" | "note-by" | "when" => stored.push("noted")?,
            _ => {}
        }
    }
    Ok(stored)
}
