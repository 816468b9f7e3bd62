//! At which points a client's call is marked.
use crate::code::{PASSES, Point};
use crate::text::{each_item, first_text, items_within, later, within_first};
use lc_base::OutOfMemory;
use lc_sexp::Cursor;
use std::alloc::Global;

/// What is known of the own call at a point.
#[derive(Clone, Copy, PartialEq, Eq)]
pub(crate) enum Phase {
    /// No way leads there so far.
    Unseen,
    Called,
    Marked,
    Either,
}

/// What is known where two ways meet.
fn joined(one: Phase, other: Phase) -> Phase {
    match (one, other) {
        (Phase::Unseen, phase) | (phase, Phase::Unseen) => phase,
        (Phase::Called, Phase::Called) => Phase::Called,
        (Phase::Marked, Phase::Marked) => Phase::Marked,
        _ => Phase::Either,
    }
}

/// Whether this is the word of a mark of the own call.
fn marks_own(word: &str) -> bool {
    matches!(word, "lin" | "lin-by")
}

/// What is known after these riders.
fn behind(before: Phase, riders: Cursor<'_>) -> Phase {
    let mut phase = before;
    for part in each_item(riders) {
        let parts = items_within(part);
        let word = first_text(parts);
        if marks_own(word) {
            phase = Phase::Marked;
        } else if word == "when" && marks_own(first_text(within_first(later(later(parts))))) {
            phase = joined(phase, Phase::Marked);
        }
    }
    phase
}

/// Goes along the edges of a point, and reports whether anything else is known then.
fn pass_point(phases: &mut [Phase], phase: Phase, point: &Point<'_>, is_helped: bool) -> bool {
    let mut is_changed = false;
    for edge in &point.edges {
        let before = if is_helped && point.posts(edge) {
            joined(phase, Phase::Marked)
        } else {
            phase
        };
        let Some(next) = edge.next else {
            continue;
        };
        if let Some(there) = phases.get_mut(next) {
            let now = joined(*there, behind(before, edge.riders));
            is_changed = is_changed || now != *there;
            *there = now;
        }
    }
    is_changed
}

/// Goes once along all edges, and reports whether anything else is known then.
fn pass(points: &[Point<'_>], phases: &mut [Phase], is_helped: bool) -> bool {
    let mut is_changed = false;
    for (place, point) in points.iter().enumerate() {
        let phase = match phases.get(place) {
            Some(phase) => *phase,
            None => Phase::Unseen,
        };
        if phase != Phase::Unseen && pass_point(phases, phase, point, is_helped) {
            is_changed = true;
        }
    }
    is_changed
}

/// What is known of the own call at each of these points. If other clients may mark it, it is not known that it is not marked once the client has
/// stored its number.
pub(crate) fn find_phases(
    alloc: Global,
    points: &[Point<'_>],
    is_helped: bool,
) -> Result<Vec<Phase>, OutOfMemory> {
    let mut phases = Vec::new(alloc);
    for place in 0..points.len() {
        phases.push(if place == 0 {
            Phase::Called
        } else {
            Phase::Unseen
        })?;
    }
    for _ in 0..PASSES {
        if !pass(points, &mut phases, is_helped) {
            return Ok(phases);
        }
    }
    phases.fill(Phase::Either);
    Ok(phases)
}
