//! Facts that are tried where those that the text tells do not suffice. Whether others make them false is not looked at: what does not hold is for
//! lc_houdini to leave out.
use crate::code::Point;
use crate::fact::{Basis, Fact};
use crate::formula::{cell_at, has_word, holds, negated, other_side};
use crate::marking::{branch_of, reply_column};
use crate::seen::{Body, Seen};
use crate::text::{
    each_cell, each_item, each_numbered, first_text, items_within, later, mentions, printed,
    printed_first, text_of, within_first,
};
use lc_base::OutOfMemory;
use lc_reading::behind_word;
use lc_sexp::Cursor;
use std::alloc::Global;

/// A cell in which something is stored, with what is, as they stand in the file.
#[derive(Drop)]
struct Put<'a> {
    column: &'a str,
    index: String,
    value: String,
}

/// The values that an instruction of this word may store, beside those that it adds.
fn values_of<'a>(word: &str, code: Cursor<'a>) -> Cursor<'a> {
    match word {
        "store" => within_first(later(later(code))),
        "cas" => within_first(later(later(later(code)))),
        _ => Cursor::empty(),
    }
}

/// The values that an instruction stores at an edge, beside those that it adds.
fn values<'a>(seen: Seen<'a, '_>) -> Cursor<'a> {
    if seen.edge.word == "else" {
        return Cursor::empty();
    }
    values_of(seen.point.word, seen.point.code)
}

/// Appends what an update `(COLUMN INDEX VALUE)` with these items stores.
fn push_update<'a>(
    alloc: Global,
    puts: &mut Vec<Put<'a>>,
    update: Cursor<'a>,
) -> Result<(), OutOfMemory> {
    puts.push(Put {
        column: first_text(update),
        index: printed_first(alloc, later(update))?,
        value: printed_first(alloc, later(later(update)))?,
    })?;
    Ok(())
}

/// Appends what a mark of the own call stores, if its branch is known.
fn push_marked<'a>(
    alloc: Global,
    puts: &mut Vec<Put<'a>>,
    seen: Seen<'a, '_>,
    rider: Cursor<'a>,
) -> Result<(), OutOfMemory> {
    let choice = match first_text(rider) {
        "lin" => None,
        "lin-by" => Some(first_text(later(rider))),
        _ => return Ok(()),
    };
    let returned = seen.ways.returned(alloc, seen.edge.next, "")?;
    if let Some(branch) = branch_of(seen.body.operation, choice, returned, seen.stores()) {
        for update in each_item(branch.updates) {
            push_update(alloc, puts, items_within(update))?;
        }
    }
    Ok(())
}

/// Appends the updates of marks of the own call at an edge.
fn push_marks<'a>(
    alloc: Global,
    puts: &mut Vec<Put<'a>>,
    seen: Seen<'a, '_>,
) -> Result<(), OutOfMemory> {
    for rider in each_item(seen.edge.riders) {
        push_marked(alloc, puts, seen, items_within(rider))?;
    }
    Ok(())
}

/// A text of the state before these updates, in which terms are said that they store, said of the state after them.
fn said_behind(alloc: Global, text: &str, marked: &[Put<'_>]) -> Result<String, OutOfMemory> {
    let mut said = String::from_str(alloc, text)?;
    for put in marked {
        if put.value.starts_with("(") {
            let cell = cell_at(alloc, put.column, &put.index)?;
            said = said.replace(alloc, put.value.as_str(), cell.as_str())?;
        }
    }
    Ok(said)
}

/// What is stored at an edge: by the instruction, by riders, and by marks of the own call.
fn put_at<'a>(alloc: Global, seen: Seen<'a, '_>) -> Result<Vec<Put<'a>>, OutOfMemory> {
    let mut puts = Vec::new(alloc);
    for (column, value) in each_cell(seen.columns(), values(seen)) {
        puts.push(Put {
            column,
            index: seen.point.index(alloc)?,
            value: printed(alloc, value)?,
        })?;
    }
    for rider in each_item(seen.edge.riders) {
        if let Ok(set) = behind_word(rider, "set") {
            push_update(alloc, &mut puts, set)?;
        }
    }
    push_marks(alloc, &mut puts, seen)?;
    Ok(puts)
}

/// Whether a fact is of a cell in which something is stored at an edge.
pub(crate) fn is_stored_in(
    alloc: Global,
    seen: Seen<'_, '_>,
    fact: &Fact,
) -> Result<bool, OutOfMemory> {
    for put in &put_at(alloc, seen)? {
        let cell = cell_at(alloc, put.column, &put.index)?;
        if fact.claim.contains(cell.as_str()) || fact.premise.contains(cell.as_str()) {
            return Ok(true);
        }
    }
    Ok(false)
}

/// Whether a text is a number other than 0.
fn is_not_zero(text: &str) -> bool {
    text != "0" && !text.is_empty() && text.chars().all(|letter| letter.is_ascii_digit())
}

/// Appends that a cell holds what was stored in it; of a number other than 0, also that it is not 0.
fn push_held(
    alloc: Global,
    told: &mut Vec<Fact>,
    column: &str,
    index: &str,
    value: &str,
) -> Result<(), OutOfMemory> {
    told.push(Fact::plain(alloc, holds(alloc, column, index, value)?))?;
    if is_not_zero(value) {
        let zero = holds(alloc, column, index, "0")?;
        told.push(Fact::plain(alloc, negated(alloc, &zero)?))?;
    }
    Ok(())
}

/// Appends that a column that may only grow is not below a number of this text.
fn push_grown(
    alloc: Global,
    told: &mut Vec<Fact>,
    seen: Seen<'_, '_>,
    column: &str,
    index: &str,
    number: &str,
) -> Result<(), OutOfMemory> {
    if seen.body.object.may_grow(column) {
        let claim = format!(in alloc; "(<= {number} (rd {column} {index}))")?;
        told.push(Fact::plain(alloc, claim))?;
    }
    Ok(())
}

/// Whether items mention one of these names.
fn mentions_any(list: Cursor<'_>, names: &[&str]) -> bool {
    for name in names {
        if mentions(list, name) {
            return true;
        }
    }
    false
}

/// Whether a row that a `cas` expects is of cells that are not read at an edge, and of locals that are not set there.
fn is_apart(seen: Seen<'_, '_>, cas: &Point<'_>) -> bool {
    first_text(cas.code) != first_text(seen.point.code) && !mentions_any(cas.code, &seen.point.sets)
}

/// That a row is as a `cas` expects it.
fn expected_row(alloc: Global, body: Body<'_, '_>, cas: &Point<'_>) -> Result<String, OutOfMemory> {
    let index = cas.index(alloc)?;
    let expected = within_first(later(later(cas.code)));
    let mut premise = String::from_str(alloc, "(and")?;
    for (column, term) in each_cell(body.object.columns_of(first_text(cas.code)), expected) {
        let term = printed(alloc, term)?;
        premise.push_str(" ")?;
        premise.push_str(&holds(alloc, column, &index, &term)?)?;
    }
    premise.push_str(")")?;
    Ok(premise)
}

/// Appends that what is read stays while a row is as a later `cas` expects it.
fn push_while(
    alloc: Global,
    told: &mut Vec<Fact>,
    seen: Seen<'_, '_>,
    claim: &str,
) -> Result<(), OutOfMemory> {
    for cas in seen.ways.points.iter() {
        if cas.word == "cas" && is_apart(seen, cas) {
            let premise = expected_row(alloc, seen.body, cas)?;
            let claim = String::from_str(alloc, claim)?;
            told.push(Fact::under(alloc, premise, claim, Basis::Stays))?;
        }
    }
    Ok(())
}

/// Appends what the invariant finds a cell to be equal to, said of the local that it is read into.
fn push_equal(
    alloc: Global,
    told: &mut Vec<Fact>,
    seen: Seen<'_, '_>,
    cell: &str,
    local: &str,
) -> Result<(), OutOfMemory> {
    for equation in &seen.body.object.equations {
        if let Some(other) = other_side(equation, cell)
            && has_word(other, &["rd"])
        {
            told.push(Fact::plain(alloc, format!(in alloc; "(= {other} {local})")?))?;
        }
    }
    Ok(())
}

/// Appends what is read at an edge.
fn push_loaded(alloc: Global, told: &mut Vec<Fact>, seen: Seen<'_, '_>) -> Result<(), OutOfMemory> {
    let index = seen.point.index(alloc)?;
    if seen.point.changes(&index) {
        return Ok(());
    }
    for (column, local) in seen.cells_read() {
        let local = text_of(local);
        let cell = cell_at(alloc, column, &index)?;
        let claim = holds(alloc, column, &index, local)?;
        push_while(alloc, told, seen, &claim)?;
        told.push(Fact::plain(alloc, claim))?;
        push_grown(alloc, told, seen, column, &index, local)?;
        push_equal(alloc, told, seen, &cell, local)?;
    }
    Ok(())
}

/// Appends what is stored at an edge, and what holds of idle clients, or does not, of these columns.
fn push_stored(alloc: Global, told: &mut Vec<Fact>, seen: Seen<'_, '_>) -> Result<(), OutOfMemory> {
    let mut marked = Vec::new(alloc);
    push_marks(alloc, &mut marked, seen)?;
    for put in &put_at(alloc, seen)? {
        let index = said_behind(alloc, &put.index, &marked)?;
        let value = said_behind(alloc, &put.value, &marked)?;
        if value.as_str() != cell_at(alloc, put.column, &index)?.as_str() {
            push_held(alloc, told, put.column, &index, &value)?;
        }
        push_grown(alloc, told, seen, put.column, &put.index, &put.value)?;
        for atom in &seen.body.object.idle_atoms {
            if has_word(atom, &[put.column]) {
                told.push(Fact::plain(alloc, atom.clone()?))?;
            }
        }
    }
    Ok(())
}

/// Appends what a test may tell of what holds of idle clients.
fn push_split(alloc: Global, told: &mut Vec<Fact>, seen: Seen<'_, '_>) -> Result<(), OutOfMemory> {
    for atom in &seen.body.object.idle_atoms {
        told.push(Fact::plain(alloc, atom.clone()?))?;
    }
    Ok(())
}

/// Appends that a cell still holds what was read, where the next test, or that it does not hold, shows it.
fn push_shown(
    alloc: Global,
    told: &mut Vec<Fact>,
    test: &str,
    cell: &str,
    local: &str,
) -> Result<(), OutOfMemory> {
    let held = format!(in alloc; "(= {cell} {local})")?;
    let failed = negated(alloc, test)?;
    told.push(Fact::under(alloc, failed, held.clone()?, Basis::Stays))?;
    let premise = String::from_str(alloc, test)?;
    told.push(Fact::under(alloc, premise, held, Basis::Stays))?;
    if let Some(other) = other_side(test, local) {
        let premise = String::from_str(alloc, test)?;
        let held = format!(in alloc; "(= {cell} {other})")?;
        told.push(Fact::under(alloc, premise, held, Basis::Stays))?;
    }
    Ok(())
}

/// Appends what the next test shows of what is read at an edge.
fn push_tested(alloc: Global, told: &mut Vec<Fact>, seen: Seen<'_, '_>) -> Result<(), OutOfMemory> {
    let Some(next) = seen.next() else {
        return Ok(());
    };
    let index = seen.point.index(alloc)?;
    if next.word != "if" || seen.point.changes(&index) {
        return Ok(());
    }
    let test = printed_first(alloc, next.code)?;
    for (column, local) in seen.cells_read() {
        if has_word(&test, &[text_of(local)]) {
            let cell = cell_at(alloc, column, &index)?;
            push_shown(alloc, told, &test, &cell, text_of(local))?;
        }
    }
    Ok(())
}

/// Appends whether the own call is marked, where a condition holds under which it is, and where it does not.
fn push_marked_when(
    alloc: Global,
    told: &mut Vec<Fact>,
    seen: Seen<'_, '_>,
) -> Result<(), OutOfMemory> {
    for rider in each_item(seen.edge.riders) {
        let Ok(when) = behind_word(rider, "when") else {
            continue;
        };
        let inner = within_first(later(when));
        let condition = printed_first(alloc, when)?;
        if !matches!(first_text(inner), "lin" | "lin-by") {
            continue;
        }
        let failed = negated(alloc, &condition)?;
        let pending = holds(alloc, "pend", "self", "1")?;
        told.push(Fact::under(alloc, failed, pending, Basis::Stays))?;
        push_replied(alloc, told, seen, &condition)?;
    }
    Ok(())
}

/// Appends that the own call is marked, and its replies, where a condition holds.
fn push_replied(
    alloc: Global,
    told: &mut Vec<Fact>,
    seen: Seen<'_, '_>,
    condition: &str,
) -> Result<(), OutOfMemory> {
    let premise = String::from_str(alloc, condition)?;
    let marked = holds(alloc, "pend", "self", "2")?;
    told.push(Fact::under(alloc, premise, marked, Basis::Stays))?;
    let returned = seen.ways.returned(alloc, seen.edge.next, condition)?;
    for (place, term) in each_numbered(returned) {
        let premise = String::from_str(alloc, condition)?;
        let reply = reply_column(place, false);
        let claim = holds(alloc, reply, "self", &printed(alloc, term)?)?;
        told.push(Fact::under(alloc, premise, claim, Basis::Stays))?;
    }
    Ok(())
}

/// Appends that a column has grown by what was added to a number that was read.
fn push_added(alloc: Global, told: &mut Vec<Fact>, seen: Seen<'_, '_>) -> Result<(), OutOfMemory> {
    let index = seen.point.index(alloc)?;
    for (column, local) in seen.cells_read() {
        let number = format!(in alloc; "(+ {} 1)", text_of(local))?;
        push_grown(alloc, told, seen, column, &index, &number)?;
    }
    Ok(())
}

/// Appends what the invariant claims of the cells in which an instruction stores a local that is set at an edge, said of that local.
fn push_intended_at(
    alloc: Global,
    told: &mut Vec<Fact>,
    seen: Seen<'_, '_>,
    point: &Point<'_>,
) -> Result<(), OutOfMemory> {
    let values = values_of(point.word, point.code);
    let index = point.index(alloc)?;
    for (column, value) in each_cell(seen.body.object.columns_of(first_text(point.code)), values) {
        let local = text_of(value);
        if !seen.point.sets.contains(&local) {
            continue;
        }
        let cell = cell_at(alloc, column, &index)?;
        for claim in &seen.body.object.claims {
            let said = claim.replace(alloc, cell.as_str(), local)?;
            if said.as_str() != claim.as_str() && !has_word(&said, &["forall", "exists"]) {
                told.push(Fact::plain(alloc, said))?;
            }
        }
    }
    Ok(())
}

/// Appends what the invariant claims of cells in which a local is stored later that is set at an edge, said of that local.
fn push_intended(
    alloc: Global,
    told: &mut Vec<Fact>,
    seen: Seen<'_, '_>,
) -> Result<(), OutOfMemory> {
    for point in seen.ways.points {
        push_intended_at(alloc, told, seen, point)?;
    }
    Ok(())
}

/// Appends what the invariant claims where something holds that a `cas` may have made.
fn push_implied(
    alloc: Global,
    told: &mut Vec<Fact>,
    seen: Seen<'_, '_>,
) -> Result<(), OutOfMemory> {
    for implied in &seen.body.object.implied {
        for column in each_item(seen.columns()) {
            if has_word(&implied.premise, &[first_text(items_within(column))]) {
                for claim in &implied.claims {
                    told.push(Fact::plain(alloc, claim.clone()?))?;
                }
            }
        }
    }
    Ok(())
}

/// Appends what is tried behind an edge.
pub(crate) fn push_tried(
    alloc: Global,
    told: &mut Vec<Fact>,
    seen: Seen<'_, '_>,
) -> Result<(), OutOfMemory> {
    match seen.point.word {
        "load" => {
            push_loaded(alloc, told, seen)?;
            push_tested(alloc, told, seen)?;
        }
        "faa" => push_added(alloc, told, seen)?,
        "if" => push_split(alloc, told, seen)?,
        "cas" if seen.edge.word == "then" => push_implied(alloc, told, seen)?,
        _ => {}
    }
    push_intended(alloc, told, seen)?;
    push_marked_when(alloc, told, seen)?;
    push_stored(alloc, told, seen)
}

/// Appends that a cell does not hold the client's own number, or that what the invariant says of it does not matter.
fn push_not_own(
    alloc: Global,
    told: &mut Vec<Fact>,
    body: Body<'_, '_>,
    cell: &str,
    own: &str,
) -> Result<(), OutOfMemory> {
    let other = format!(in alloc; "(not (= {cell} {own}))")?;
    for choice in &body.object.choices {
        if choice.text.contains(cell) && !choice.first.contains(cell) {
            let first = &choice.first;
            let text = format!(in alloc; "(or {first} {other})")?;
            told.push(Fact::plain(alloc, text))?;
        }
    }
    told.push(Fact::plain(alloc, other))?;
    Ok(())
}

/// Whether a text is the client's own number, or that and another number.
fn is_own(text: &str) -> bool {
    text == "self" || text.starts_with("(+ self ")
}

/// Appends what is tried of the cells in which an instruction stores the client's own number.
fn push_apart_at(
    alloc: Global,
    told: &mut Vec<Fact>,
    body: Body<'_, '_>,
    instruction: Cursor<'_>,
) -> Result<(), OutOfMemory> {
    let code = later(instruction);
    let values = values_of(first_text(instruction), code);
    let index = first_text(later(code));
    if index.is_empty() || has_word(index, &["self"]) {
        return Ok(());
    }
    for (column, value) in each_cell(body.object.columns_of(first_text(code)), values) {
        let value = printed(alloc, value)?;
        if is_own(&value) {
            let cell = cell_at(alloc, column, index)?;
            push_not_own(alloc, told, body, &cell, &value)?;
        }
    }
    Ok(())
}

/// Appends what is tried at the first point of a body: that the client's own number stands in no cell in which it is stored.
pub(crate) fn push_apart(
    alloc: Global,
    told: &mut Vec<Fact>,
    body: Body<'_, '_>,
) -> Result<(), OutOfMemory> {
    for part in each_item(body.object.parts) {
        let Ok(inside) = behind_word(part, "body") else {
            continue;
        };
        for point in each_item(later(later(inside))) {
            let instruction = within_first(later(later(items_within(point))));
            push_apart_at(alloc, told, body, instruction)?;
        }
    }
    Ok(())
}
