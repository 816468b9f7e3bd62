//! What is returned if a call goes on from a point.
use crate::code::{PASSES, Point};
use crate::text::{each_numbered, items_within, mentions, printed_first, text_of};
use lc_base::OutOfMemory;
use lc_reading::Part;
use lc_sexp::Cursor;
use std::alloc::Global;

/// At which return a call ends, by its place, and which of the terms there have the same numbers before.
#[derive(Clone, Copy, PartialEq, Eq)]
pub(crate) struct End {
    pub(crate) place: usize,
    pub(crate) stays: [bool; 3],
}

/// How a call may go on from a point.
#[derive(Clone, Copy, PartialEq, Eq)]
pub(crate) enum Ahead {
    /// No way to a return is known so far.
    Unseen,
    End(End),
    /// To several returns.
    Several,
}

/// How it may go on where there are two ways.
fn joined(one: Ahead, other: Ahead) -> Ahead {
    match (one, other) {
        (Ahead::Unseen, ahead) | (ahead, Ahead::Unseen) => ahead,
        (Ahead::End(one), Ahead::End(other)) if one.place == other.place => {
            let [a, b, c] = one.stays;
            let [x, y, z] = other.stays;
            Ahead::End(End {
                place: one.place,
                stays: [a && x, b && y, c && z],
            })
        }
        _ => Ahead::Several,
    }
}

/// Whether a point sets a local of a term.
fn changes(point: &Point<'_>, term: Part<'_>) -> bool {
    for name in &point.sets {
        if text_of(term) == *name || mentions(items_within(term), name) {
            return true;
        }
    }
    false
}

/// What stays before the instruction of a point.
fn before(points: &[Point<'_>], point: &Point<'_>, end: End) -> End {
    let Some(last) = points.get(end.place) else {
        return end;
    };
    let mut stays = end.stays;
    for (place, term) in each_numbered(last.code) {
        if changes(point, term)
            && let Some(stay) = stays.get_mut(place)
        {
            *stay = false;
        }
    }
    End { stays, ..end }
}

/// How a call goes on from a point, by how it goes on after it.
fn ahead_of(points: &[Point<'_>], found: &[Ahead], point: &Point<'_>) -> Ahead {
    let mut ahead = Ahead::Unseen;
    for edge in &point.edges {
        if let Some(there) = edge.next.and_then(|next| found.get(next)) {
            ahead = joined(ahead, *there);
        }
    }
    match ahead {
        Ahead::End(end) => Ahead::End(before(points, point, end)),
        other => other,
    }
}

/// Goes once back along all edges, and reports whether anything else is known then.
fn pass(points: &[Point<'_>], found: &mut [Ahead]) -> bool {
    let mut is_changed = false;
    for (place, point) in points.iter().enumerate().rev() {
        if point.word == "return" {
            continue;
        }
        let ahead = ahead_of(points, found, point);
        if let Some(there) = found.get_mut(place) {
            is_changed = is_changed || ahead != *there;
            *there = ahead;
        }
    }
    is_changed
}

/// How a call goes on from each of these points of a body.
pub(crate) fn find_ends(alloc: Global, points: &[Point<'_>]) -> Result<Vec<Ahead>, OutOfMemory> {
    let mut found = Vec::new(alloc);
    for (place, point) in points.iter().enumerate() {
        found.push(if point.word == "return" {
            Ahead::End(End {
                place,
                stays: [true; 3],
            })
        } else {
            Ahead::Unseen
        })?;
    }
    for _ in 0..PASSES {
        if !pass(points, &mut found) {
            return Ok(found);
        }
    }
    found.fill(Ahead::Several);
    Ok(found)
}

/// How a call goes on.
#[derive(Clone, Copy)]
pub(crate) struct Ways<'a, 'b> {
    pub(crate) points: &'b [Point<'a>],
    pub(crate) ends: &'b [Ahead],
}

/// The point after one, where this condition holds, if there is only one.
fn after<'a>(
    alloc: Global,
    point: &Point<'a>,
    condition: &str,
) -> Result<Option<usize>, OutOfMemory> {
    let is_decided = point.word == "if" && printed_first(alloc, point.code)?.as_str() == condition;
    match (point.edges.first(), point.edges.len()) {
        (Some(edge), 1) => Ok(edge.next),
        (Some(edge), _) if is_decided => Ok(edge.next),
        _ => Ok(None),
    }
}

impl<'a> Ways<'a, '_> {
    /// The terms that are returned from a point on, where this condition holds; none if it may be at several returns.
    pub(crate) fn returned(
        self,
        alloc: Global,
        start: Option<usize>,
        condition: &str,
    ) -> Result<Cursor<'a>, OutOfMemory> {
        let mut next = start;
        for _ in 0..PASSES {
            let Some(place) = next else {
                return Ok(Cursor::empty());
            };
            if let Some(Ahead::End(end)) = self.ends.get(place)
                && let Some(last) = self.points.get(end.place)
            {
                return Ok(last.code);
            }
            next = match self.points.get(place) {
                Some(point) => after(alloc, point, condition)?,
                None => None,
            };
        }
        Ok(Cursor::empty())
    }
}
