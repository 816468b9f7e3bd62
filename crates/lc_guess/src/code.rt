//! Points with their edges.
use crate::formula::MARKS;
use crate::text::{
    each_item, first_text, items_within, later, mentions, printed_first, text_of, within_first,
};
use lc_base::OutOfMemory;
use lc_reading::{NameTable, Part, behind_word};
use lc_sexp::Cursor;
use std::alloc::Global;

/// How often it is gone along all edges at most. Code that goes back and forth so often is not looked into.
pub(crate) const PASSES: usize = 64;

/// An edge of a point.
#[derive(Clone, Copy)]
pub(crate) struct Edge<'a> {
    /// `next`, `then` or `else`.
    pub(crate) word: &'static str,
    /// The name of the point to which it leads; none if the call returns.
    pub(crate) label: &'a str,
    /// The place of that point among those of its body.
    pub(crate) next: Option<usize>,
    /// The place at which the call of its action is put in.
    pub(crate) place: u64,
    /// Whether it lacks that call.
    pub(crate) is_lacking: bool,
    pub(crate) riders: Cursor<'a>,
}

impl Edge<'_> {
    /// Whether the instruction of its point stores something here other than what it expects.
    pub(crate) fn is_storing(&self, point: &Point<'_>) -> bool {
        if point.word == "cas" {
            let expected = later(later(point.code));
            return self.word == "then"
                && !is_same_row(within_first(expected), within_first(later(expected)));
        }
        stores(point.word, self.word)
    }
}

/// Whether these are the same names and numbers.
fn is_same_row(one: Cursor<'_>, other: Cursor<'_>) -> bool {
    for (left, right) in each_item(one).zip(each_item(other)) {
        if text_of(left).is_empty() || text_of(left) != text_of(right) {
            return false;
        }
    }
    true
}

/// A point.
#[derive(Drop)]
pub(crate) struct Point<'a> {
    pub(crate) name: &'a str,
    /// The word of its instruction, and what comes after the word.
    pub(crate) word: &'a str,
    pub(crate) code: Cursor<'a>,
    /// The locals that it sets.
    pub(crate) sets: Vec<&'a str>,
    /// The place before which what is asserted is put in.
    pub(crate) place: u64,
    pub(crate) asserted: Cursor<'a>,
    pub(crate) edges: Vec<Edge<'a>>,
}

/// The text of an item; empty if there is none.
fn text_if(part: Option<Part<'_>>) -> &str {
    match part {
        Some(part) => text_of(part),
        None => "",
    }
}

/// The texts of the last two of these items.
fn last_two(list: Cursor<'_>) -> (&str, &str) {
    let mut before = None;
    let mut last = None;
    for part in each_item(list) {
        before = last;
        last = Some(part);
    }
    (text_if(before), text_if(last))
}

/// An edge of which nothing is said.
fn bare<'a>(word: &'static str, label: &'a str) -> Edge<'a> {
    Edge {
        word,
        label,
        next: None,
        place: 0,
        is_lacking: false,
        riders: Cursor::empty(),
    }
}

/// The edges of an instruction.
fn edges_of<'a>(alloc: Global, word: &str, code: Cursor<'a>) -> Result<Vec<Edge<'a>>, OutOfMemory> {
    let (before, last) = last_two(code);
    let mut edges = Vec::new(alloc);
    match word {
        "cas" | "if" => {
            edges.push(bare("then", before))?;
            edges.push(bare("else", last))?;
        }
        "return" => edges.push(bare("next", ""))?,
        _ => edges.push(bare("next", last))?,
    }
    Ok(edges)
}

/// Enters what an `on` says of its edge, where the calls at these places lack.
fn enter_on<'a>(edges: &mut [Edge<'a>], lacking: &[u64], on: Cursor<'a>) {
    let word = first_text(on);
    let behind = later(on);
    let place = behind.number();
    let is_lacking = lacking.contains(&place);
    for edge in edges.iter_mut() {
        if edge.word == word {
            edge.place = place;
            edge.is_lacking = is_lacking;
            edge.riders = if is_lacking { behind } else { later(behind) };
        }
    }
}

/// Whether an instruction of this word stores at this edge.
fn stores(word: &str, edge: &str) -> bool {
    match word {
        "store" | "faa" => edge == "next",
        "cas" => edge == "then",
        _ => false,
    }
}

/// The number of what comes after these items.
fn number_behind(list: Cursor<'_>) -> u64 {
    let mut rest = list;
    for _ in each_item(list) {
        rest = later(rest);
    }
    rest.number()
}

/// The edges of an instruction, with what is said of them by these items, where the calls at these places lack.
fn edges_with<'a>(
    alloc: Global,
    lacking: &[u64],
    word: &str,
    code: Cursor<'a>,
    ons: Cursor<'a>,
) -> Result<Vec<Edge<'a>>, OutOfMemory> {
    let mut edges = edges_of(alloc, word, code)?;
    for part in each_item(ons) {
        if let Ok(on) = behind_word(part, "on") {
            enter_on(&mut edges, lacking, on);
        }
    }
    let end = number_behind(ons);
    for edge in edges.iter_mut() {
        if edge.place == 0 && stores(word, edge.word) {
            edge.place = end;
            edge.is_lacking = lacking.contains(&end);
        }
    }
    Ok(edges)
}

/// The locals that a row is read into by an instruction.
fn targets<'a>(word: &str, code: Cursor<'a>) -> Cursor<'a> {
    match word {
        "load" | "faa" => within_first(later(later(code))),
        _ => Cursor::empty(),
    }
}

/// The locals that an instruction sets.
fn sets_of<'a>(alloc: Global, word: &str, code: Cursor<'a>) -> Result<Vec<&'a str>, OutOfMemory> {
    let mut names = Vec::new(alloc);
    for target in each_item(targets(word, code)) {
        names.push(text_of(target))?;
    }
    if word == "set" {
        for pair in each_item(within_first(code)) {
            names.push(first_text(items_within(pair)))?;
        }
    }
    Ok(names)
}

/// What is asserted in the first of these items, if that asserts anything.
fn asserted_first(parts: Cursor<'_>) -> Cursor<'_> {
    if parts.is_at_form("assert") {
        later(within_first(parts))
    } else {
        Cursor::empty()
    }
}

/// The items after what is asserted.
fn after_asserted(parts: Cursor<'_>) -> Cursor<'_> {
    if parts.is_at_form("assert") {
        later(parts)
    } else {
        parts
    }
}

/// The point that an item is.
fn read_point<'a>(
    alloc: Global,
    lacking: &[u64],
    part: Part<'a>,
) -> Result<Option<Point<'a>>, OutOfMemory> {
    let Ok(parts) = behind_word(part, "point") else {
        return Ok(None);
    };
    let name = first_text(parts);
    let instruction = within_first(later(parts));
    let word = first_text(instruction);
    let code = later(instruction);
    let rest = later(later(parts));
    let place = rest.number();
    let asserted = asserted_first(rest);
    let edges = edges_with(alloc, lacking, word, code, after_asserted(rest))?;
    Ok(Some(Point {
        name,
        word,
        code,
        sets: sets_of(alloc, word, code)?,
        place,
        asserted,
        edges,
    }))
}

/// The names of points, by their places.
fn names_of<'a>(alloc: Global, points: &[Point<'a>]) -> Result<NameTable<'a>, OutOfMemory> {
    let mut names = NameTable::new(alloc);
    for point in points {
        names = names.enter(point.name)?;
    }
    Ok(names)
}

/// The points of a body, whose parts after its locals these are.
pub(crate) fn read_points<'a>(
    alloc: Global,
    lacking: &[u64],
    parts: Cursor<'a>,
) -> Result<Vec<Point<'a>>, OutOfMemory> {
    let mut points = Vec::new(alloc);
    for part in each_item(parts) {
        if let Some(point) = read_point(alloc, lacking, part)? {
            points.push(point)?;
        }
    }
    let names = names_of(alloc, &points)?;
    for point in points.iter_mut() {
        for edge in point.edges.iter_mut() {
            edge.next = names.place(edge.label);
        }
    }
    Ok(points)
}

impl<'a> Point<'a> {
    /// The locals that a row is read into.
    pub(crate) fn targets(&self) -> Cursor<'a> {
        targets(self.word, self.code)
    }

    /// Whether a text speaks of a local that its instruction sets.
    pub(crate) fn changes(&self, text: &str) -> bool {
        for word in text.split(MARKS) {
            if self.sets.contains(&word) {
                return true;
            }
        }
        false
    }

    /// The index of its instruction.
    pub(crate) fn index(&self, alloc: Global) -> Result<String, OutOfMemory> {
        printed_first(alloc, later(self.code))
    }

    /// Whether it stores the number of the client at an edge.
    pub(crate) fn posts(&self, edge: &Edge<'_>) -> bool {
        stores(self.word, edge.word) && mentions(self.code, "self")
    }
}
