//! Facts that other clients do not make false, along the edges: of locals, by what tests told, what was set, and what the invariant says of a row
//! that was read; of cells, and of what is noted.
use crate::cells::{push_cells, stored_at};
use crate::code::{Edge, PASSES, Point};
use crate::ends::Ways;
use crate::fact::{Basis, Fact, each_known, is_owned};
use crate::formula::{MARKS, cell_at, negated};
use crate::helping::{push_posted, unposted};
use crate::noting::{condition_of, push_noted};
use crate::placing::{push_places, push_taken};
use crate::seen::{Body, Seen};
use crate::standing::{push_standing, standing_first};
use crate::text::{
    each_cell, each_item, first_part, first_text, items_within, later, printed, push_each,
    push_parts, text_of, within_first,
};
use crate::trying::{is_stored_in, push_apart, push_tried};
use lc_base::OutOfMemory;
use lc_reading::{Part, behind_word};
use lc_sexp::Cursor;
use std::alloc::Global;

/// Facts of a body at most: code that has more is not looked into.
const MOST_FACTS: usize = 64;

/// Where facts are tried.
const MOST_TRIED: usize = 256;

/// The facts of a body, and the numbers of those that are known at each point, if a way leads there.
#[derive(Drop)]
pub(crate) struct Told {
    pub(crate) facts: Vec<Fact>,
    pub(crate) known: Vec<Option<Vec<usize>>>,
}

/// The number of a fact, which is entered if it is new; none if there are too many.
fn number_of(facts: &mut Vec<Fact>, fact: Fact, most: usize) -> Result<Option<usize>, OutOfMemory> {
    for (number, other) in facts.iter().enumerate() {
        if other.is_same(&fact) {
            return Ok(Some(number));
        }
    }
    let number = facts.len();
    if number >= most {
        return Ok(None);
    }
    facts.push(fact)?;
    Ok(Some(number))
}

/// Appends what a test tells at an edge.
fn push_tested(
    alloc: Global,
    told: &mut Vec<String>,
    test: Part<'_>,
    edge: &str,
) -> Result<(), OutOfMemory> {
    if edge != "else" {
        return push_parts(alloc, told, test);
    }
    if let Ok(inside) = behind_word(test, "not") {
        return push_each(alloc, told, inside);
    }
    let text = printed(alloc, test)?;
    told.push(negated(alloc, &text)?)?;
    Ok(())
}

/// Appends that locals have the numbers that were set, where these are of other locals.
fn push_set(alloc: Global, told: &mut Vec<String>, point: &Point<'_>) -> Result<(), OutOfMemory> {
    for pair in each_item(within_first(point.code)) {
        let parts = items_within(pair);
        for term in each_item(later(parts)) {
            let text = printed(alloc, term)?;
            if !point.changes(&text) {
                let local = first_text(parts);
                told.push(format!(in alloc; "(= {local} {text})")?)?;
            }
        }
    }
    Ok(())
}

/// A text with the locals of a row for its cells.
fn with_row(
    alloc: Global,
    text: &str,
    columns: Cursor<'_>,
    index: &str,
    targets: Cursor<'_>,
) -> Result<String, OutOfMemory> {
    let mut said = String::from_str(alloc, text)?;
    for (column, local) in each_cell(columns, targets) {
        if !text_of(local).is_empty() {
            let cell = cell_at(alloc, column, index)?;
            said = said.replace(alloc, cell.as_str(), text_of(local))?;
        }
    }
    Ok(said)
}

/// Whether a text speaks of locals alone.
fn is_of_locals(text: &str) -> bool {
    for word in text.split(MARKS) {
        if matches!(word, "rd" | "forall" | "exists") {
            return false;
        }
    }
    true
}

/// Appends what the invariant claims of a row that was read.
fn push_read(alloc: Global, told: &mut Vec<String>, seen: Seen<'_, '_>) -> Result<(), OutOfMemory> {
    let index = seen.point.index(alloc)?;
    if seen.point.changes(&index) {
        return Ok(());
    }
    for claim in &seen.body.object.claims {
        let said = with_row(alloc, claim, seen.columns(), &index, seen.point.targets())?;
        let is_looked_at = seen.body.is_tried() || is_of_locals(&said);
        if said.as_str() != claim.as_str() && is_looked_at {
            told.push(said)?;
        }
    }
    Ok(())
}

/// What a test tells at an edge.
pub(crate) fn tested_at(
    alloc: Global,
    point: &Point<'_>,
    edge: &Edge<'_>,
) -> Result<Vec<String>, OutOfMemory> {
    let mut told = Vec::new(alloc);
    if point.word == "if" {
        if let Some(test) = first_part(point.code) {
            push_tested(alloc, &mut told, test, edge.word)?;
        }
    }
    Ok(told)
}

/// Appends facts that claim these.
fn push_plain(
    alloc: Global,
    facts: &mut Vec<Fact>,
    claims: Vec<String>,
) -> Result<(), OutOfMemory> {
    for claim in claims {
        facts.push(Fact::plain(alloc, claim))?;
    }
    Ok(())
}

/// Whether one formula is the other one with a `not`.
fn is_negation(alloc: Global, one: &str, other: &str) -> Result<bool, OutOfMemory> {
    Ok(negated(alloc, one)?.as_str() == other)
}

/// Whether it was told that a premise does not hold.
fn is_refuted(alloc: Global, premise: &str, told: &[String]) -> Result<bool, OutOfMemory> {
    for formula in told {
        if is_negation(alloc, premise, formula)? || is_negation(alloc, formula, premise)? {
            return Ok(true);
        }
    }
    Ok(false)
}

/// Whether it was told that a premise holds.
fn is_told(premise: &str, told: &[String]) -> bool {
    for formula in told {
        if formula.as_str() == premise {
            return true;
        }
    }
    false
}

/// Appends what is known after a test of facts that are claimed where a premise holds that it told.
fn push_settled(
    alloc: Global,
    new: &mut Vec<Fact>,
    seen: Seen<'_, '_>,
    told: &[String],
) -> Result<(), OutOfMemory> {
    for fact in seen.known_facts() {
        if is_told(&fact.premise, told) {
            let mut settled = fact.copy()?;
            settled.premise = String::new(alloc);
            new.push(settled)?;
        }
    }
    Ok(())
}

/// A fact, with the locals for the cells that are read, or found by a `cas`.
fn reread(alloc: Global, seen: Seen<'_, '_>, fact: &Fact) -> Result<Fact, OutOfMemory> {
    let columns = seen.columns();
    let targets = match seen.point.word {
        "cas" => within_first(later(later(seen.point.code))),
        _ => seen.point.targets(),
    };
    let index = seen.point.index(alloc)?;
    let mut said = fact.copy()?;
    said.premise = with_row(alloc, &fact.premise, columns, &index, targets)?;
    said.claim = with_row(alloc, &fact.claim, columns, &index, targets)?;
    Ok(said)
}

/// Appends what is known of the own call, said of the locals that cells were read into.
fn push_reread(alloc: Global, new: &mut Vec<Fact>, seen: Seen<'_, '_>) -> Result<(), OutOfMemory> {
    for fact in seen.known_facts() {
        let is_own = matches!(fact.basis, Basis::Noted | Basis::Posted);
        if is_own && !fact.speaks_of(&seen.point.sets) {
            let said = reread(alloc, seen, fact)?;
            if !said.is_same(fact) {
                new.push(said)?;
            }
        }
    }
    Ok(())
}

/// Whether a fact was for a mark under this condition, which is passed at an edge.
fn is_passed(alloc: Global, condition: &str, fact: &Fact) -> Result<bool, OutOfMemory> {
    if condition.is_empty() || fact.basis != Basis::Stays {
        return Ok(false);
    }
    Ok(fact.premise.as_str() == condition || is_negation(alloc, condition, &fact.premise)?)
}

/// Whether a fact of what is noted is said of locals that are read at a load.
fn is_reread(alloc: Global, seen: Seen<'_, '_>, fact: &Fact) -> Result<bool, OutOfMemory> {
    if fact.basis != Basis::Noted || seen.point.word != "load" {
        return Ok(false);
    }
    let said = reread(alloc, seen, fact)?;
    Ok(!said.is_same(fact))
}

/// What is known at an edge that was not known before.
fn new_at(
    alloc: Global,
    seen: Seen<'_, '_>,
    tested: Vec<String>,
    stored: &[&str],
) -> Result<Vec<Fact>, OutOfMemory> {
    let mut new = Vec::new(alloc);
    let mut claims = Vec::new(alloc);
    push_settled(alloc, &mut new, seen, &tested)?;
    match seen.point.word {
        "set" => push_set(alloc, &mut claims, seen.point)?,
        "load" | "faa" => {
            push_read(alloc, &mut claims, seen)?;
            push_reread(alloc, &mut new, seen)?;
        }
        "cas" if seen.edge.word == "then" => push_reread(alloc, &mut new, seen)?,
        _ => {}
    }
    push_plain(alloc, &mut new, tested)?;
    push_plain(alloc, &mut new, claims)?;
    push_cells(alloc, &mut new, seen)?;
    push_taken(alloc, &mut new, seen, stored)?;
    push_places(alloc, &mut new, seen)?;
    push_standing(alloc, &mut new, seen, stored)?;
    push_noted(alloc, &mut new, seen)?;
    push_posted(alloc, &mut new, seen)?;
    if seen.body.is_tried() {
        push_tried(alloc, &mut new, seen)?;
    }
    Ok(new)
}

/// The numbers of facts that stay behind an edge, where a test told this.
fn staying(
    alloc: Global,
    seen: Seen<'_, '_>,
    tested: &[String],
    stored: &[&str],
) -> Result<Vec<usize>, OutOfMemory> {
    let condition = condition_of(alloc, seen.edge.riders)?;
    let mut numbers = Vec::new(alloc);
    for number in seen.known {
        let Some(fact) = seen.facts.get(*number) else {
            continue;
        };
        let is_settled = is_told(&fact.premise, tested)
            || is_refuted(alloc, &fact.premise, tested)?
            || is_passed(alloc, &condition, fact)?
            || is_reread(alloc, seen, fact)?;
        let is_stored = if seen.body.is_tried() {
            is_stored_in(alloc, seen, fact)?
        } else {
            fact.speaks_of(stored)
        };
        if !is_settled && !fact.speaks_of(&seen.point.sets) && !is_stored {
            numbers.push(*number)?;
        }
    }
    Ok(numbers)
}

/// Whether a fact of this number rests on none of what the client owns, or on what is owned by one of these.
fn is_founded(facts: &[Fact], numbers: &[usize], number: usize) -> bool {
    let Some(fact) = facts.get(number) else {
        return false;
    };
    fact.basis != Basis::Owned || is_owned(each_known(facts, numbers), &fact.index)
}

/// The numbers of these facts that rest on what is still owned.
fn founded(alloc: Global, facts: &[Fact], numbers: &[usize]) -> Result<Vec<usize>, OutOfMemory> {
    let mut left = Vec::new(alloc);
    for number in numbers {
        if is_founded(facts, numbers, *number) {
            left.push(*number)?;
        }
    }
    Ok(left)
}

/// The numbers of facts that are known behind an edge: those that stay, and the new ones.
fn behind(
    alloc: Global,
    body: Body<'_, '_>,
    facts: &mut Vec<Fact>,
    mut numbers: Vec<usize>,
    new: Vec<Fact>,
) -> Result<Vec<usize>, OutOfMemory> {
    let most = if body.is_tried() {
        MOST_TRIED
    } else {
        MOST_FACTS
    };
    for fact in new {
        if let Some(number) = number_of(facts, fact, most)? {
            if !numbers.contains(&number) {
                numbers.push(number)?;
            }
        }
    }
    if body.is_tried() {
        return Ok(numbers);
    }
    founded(alloc, facts, &numbers)
}

/// Adds what is known behind an edge to what is tried where it leads, and reports whether that is more than it was.
fn add(there: &mut Vec<usize>, numbers: &[usize]) -> Result<bool, OutOfMemory> {
    let count = there.len();
    for number in numbers {
        if !there.contains(number) {
            there.push(*number)?;
        }
    }
    Ok(there.len() != count)
}

/// Joins what is known behind an edge to what is known where it leads, and reports whether that is another than it was: less, or more if it is tried.
fn join(
    known: &mut [Option<Vec<usize>>],
    next: usize,
    numbers: Vec<usize>,
    is_tried: bool,
) -> Result<bool, OutOfMemory> {
    let Some(there) = known.get_mut(next) else {
        return Ok(false);
    };
    Ok(match there {
        None => {
            *there = Some(numbers);
            true
        }
        Some(before) if is_tried => add(before, &numbers)?,
        Some(before) => {
            let count = before.len();
            before.retain(|number| numbers.contains(number));
            before.len() != count
        }
    })
}

/// The numbers of facts that are known behind an edge of a point, by those that are known at the point.
fn pass_edge<'a>(
    alloc: Global,
    body: Body<'a, '_>,
    ways: Ways<'a, '_>,
    facts: &mut Vec<Fact>,
    at: (&Point<'a>, &Edge<'a>),
    known: &[usize],
) -> Result<Vec<usize>, OutOfMemory> {
    let (point, edge) = at;
    let tested = tested_at(alloc, point, edge)?;
    let seen = Seen {
        body,
        ways,
        point,
        edge,
        facts: &*facts,
        known,
    };
    let stored = stored_at(alloc, seen)?;
    let numbers = staying(alloc, seen, &tested, &stored)?;
    let new = new_at(alloc, seen, tested, &stored)?;
    behind(alloc, body, facts, numbers, new)
}

/// Goes once along all edges, and reports whether anything else is known then.
fn pass<'a>(
    alloc: Global,
    body: Body<'a, '_>,
    ways: Ways<'a, '_>,
    told: &mut Told,
) -> Result<bool, OutOfMemory> {
    let mut is_changed = false;
    for (place, point) in ways.points.iter().enumerate() {
        let Some(Some(known)) = told.known.get(place) else {
            continue;
        };
        let known = Vec::from_slice(alloc, known)?;
        for edge in &point.edges {
            if let Some(next) = edge.next {
                let at = (point, edge);
                let numbers = pass_edge(alloc, body, ways, &mut told.facts, at, &known)?;
                let is_other = join(&mut told.known, next, numbers, body.is_tried())?;
                is_changed = is_other || is_changed;
            }
        }
    }
    Ok(is_changed)
}

/// The facts that are known at each point of a body.
pub(crate) fn tell<'a>(
    alloc: Global,
    body: Body<'a, '_>,
    ways: Ways<'a, '_>,
) -> Result<Told, OutOfMemory> {
    let mut told = Told {
        facts: Vec::new(alloc),
        known: Vec::new(alloc),
    };
    let mut first = unposted(alloc, body, ways.points)?;
    first.append(&mut standing_first(alloc, body)?)?;
    if body.is_tried() {
        push_apart(alloc, &mut first, body)?;
    }
    let first = behind(alloc, body, &mut told.facts, Vec::new(alloc), first)?;
    told.known.push(Some(first))?;
    for _ in 1..ways.points.len() {
        told.known.push(None)?;
    }
    for _ in 0..PASSES {
        if !pass(alloc, body, ways, &mut told)? {
            return Ok(told);
        }
    }
    told.facts.clear();
    Ok(told)
}
