//! Which locals may still be looked at from a point on.
use crate::code::{PASSES, Point};
use crate::formula::MARKS;
use crate::seen::Body;
use crate::text::{each_item, items_within, later, printed, within_first};
use lc_base::OutOfMemory;
use lc_reading::Part;
use std::alloc::Global;

/// How many items of a `load` are looked at: its array and its index.
const LOAD_INDEX: usize = 2;

/// The locals that may be looked at from each point of a body on; none if it is not known which.
#[derive(Drop)]
pub(crate) struct Living<'a> {
    known: Option<Vec<Vec<&'a str>>>,
}

/// Appends a name, if it is not there.
fn push_name<'a>(names: &mut Vec<&'a str>, name: &'a str) -> Result<bool, OutOfMemory> {
    if names.contains(&name) {
        return Ok(false);
    }
    names.push(name)?;
    Ok(true)
}

/// Appends the locals of a body that an item mentions.
fn push_mentioned<'a>(
    alloc: Global,
    names: &mut Vec<&'a str>,
    body: Body<'a, '_>,
    part: Part<'_>,
) -> Result<(), OutOfMemory> {
    let text = printed(alloc, part)?;
    for word in text.split(MARKS) {
        if let Some(name) = body.local(word) {
            push_name(names, name)?;
        }
    }
    Ok(())
}

/// Appends the locals that an instruction looks at.
fn push_looked_at<'a>(
    alloc: Global,
    names: &mut Vec<&'a str>,
    body: Body<'a, '_>,
    point: &Point<'a>,
) -> Result<(), OutOfMemory> {
    if point.word == "set" {
        for pair in each_item(within_first(point.code)) {
            for term in each_item(later(items_within(pair))) {
                push_mentioned(alloc, names, body, term)?;
            }
        }
        return Ok(());
    }
    let count = if point.word == "load" {
        LOAD_INDEX
    } else {
        point.code.len()
    };
    for part in each_item(point.code).take(count) {
        push_mentioned(alloc, names, body, part)?;
    }
    Ok(())
}

/// The locals that a point looks at, and its riders, but for those that it sets.
fn used_at<'a>(
    alloc: Global,
    body: Body<'a, '_>,
    point: &Point<'a>,
) -> Result<Vec<&'a str>, OutOfMemory> {
    let mut names = Vec::new(alloc);
    for edge in &point.edges {
        for rider in each_item(edge.riders) {
            push_mentioned(alloc, &mut names, body, rider)?;
        }
    }
    names.retain(|name| !point.sets.contains(name));
    push_looked_at(alloc, &mut names, body, point)?;
    Ok(names)
}

/// Joins the locals that are looked at behind a point to those that are from it on, and reports whether these become more.
fn join_behind<'a>(
    alloc: Global,
    all: &mut [Vec<&'a str>],
    place: usize,
    point: &Point<'a>,
) -> Result<bool, OutOfMemory> {
    let mut more = Vec::new(alloc);
    for edge in &point.edges {
        if let Some(there) = edge.next.and_then(|next| all.get(next)) {
            for name in there {
                if !point.sets.contains(name) {
                    more.push(*name)?;
                }
            }
        }
    }
    let mut is_changed = false;
    if let Some(here) = all.get_mut(place) {
        for name in more {
            is_changed = push_name(here, name)? || is_changed;
        }
    }
    Ok(is_changed)
}

/// Goes once back along all edges, and reports whether any more are looked at.
fn pass<'a>(
    alloc: Global,
    all: &mut [Vec<&'a str>],
    points: &[Point<'a>],
) -> Result<bool, OutOfMemory> {
    let mut is_changed = false;
    for (place, point) in points.iter().enumerate().rev() {
        is_changed = join_behind(alloc, all, place, point)? || is_changed;
    }
    Ok(is_changed)
}

/// The locals that may be looked at from each of these points on.
pub(crate) fn find_living<'a>(
    alloc: Global,
    body: Body<'a, '_>,
    points: &[Point<'a>],
) -> Result<Living<'a>, OutOfMemory> {
    let mut all = Vec::new(alloc);
    for point in points {
        all.push(used_at(alloc, body, point)?)?;
    }
    for _ in 0..PASSES {
        if !pass(alloc, &mut all, points)? {
            return Ok(Living { known: Some(all) });
        }
    }
    Ok(Living { known: None })
}

impl Living<'_> {
    /// Whether all locals of a body that a text speaks of may be looked at from a point on.
    pub(crate) fn has_all(&self, body: Body<'_, '_>, place: usize, text: &str) -> bool {
        let Some(names) = self.known.as_ref().and_then(|all| all.get(place)) else {
            return true;
        };
        for word in text.split(MARKS) {
            if body.locals.contains(word) && !names.contains(&word) {
                return false;
            }
        }
        true
    }
}
