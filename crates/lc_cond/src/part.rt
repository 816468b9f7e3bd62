//! The parts of the list, each can be made by itself: the start, a call that begins, an edge, a point, and idle.
ghost use Rattle.std.specs.Prelude.{◌≡◌, ◌+◌, ◌++◌, ◌∷◌, [], length, map, option_map, slice_get, IfOk, OnOk};
ghost use Rattle.lc_term.specs.Lists.{numbered};
ghost use Rattle.lc_table.specs.Tables.{Keeps};
ghost use Rattle.lc_object.specs.EdgeView.{edge_of};
ghost use Rattle.lc_object.specs.View.{point_of};
ghost use Rattle.lc_outline.specs.DevelopmentView.{development_view};
ghost use Rattle.lc_cond.specs.Adding.{Adds};
ghost use Rattle.lc_cond.specs.Conditions as S;
ghost use Rattle.lc_cond.specs.Conditions.{conditions_in, point_stability, idle_stability};
ghost use Rattle.lc_cond.specs.Numbering.{AddsWith};
ghost use Rattle.lc_cond.specs.PartView.{part_of, parts_along, HasLimits};

use crate::condition::Condition;
use crate::entries::push_entry;
use crate::list::{
    operations_of, points_of, push_idle, push_idle_stretch, push_point, push_point_stretch,
};
use crate::lookup::{asserts_at, idle_of};
use crate::paths::push_edge;
use crate::start::push_start;
use crate::stretch::stretch_with;
use lc_base::{OpId, OutOfMemory, PointId};
use lc_object::{Edge, Operation, Point};
use lc_outline::Development;
use lc_table::Terms;
use std::alloc::Global;

/// A part of the list.
#[derive(Clone, Copy)]
pub(crate) enum Part<'a> {
    Start,
    Begin(OpId, &'a Operation),
    Pass(&'a Edge),
    Stay(PointId, &'a Point),
    StayIdle,
}

// The part at this place from the first point on: a point, or idle after the points.
fn point_part(development: &Development, place: usize) -> Option<Part<'_>>
    ensures { let d = development_view development.now in
        option_map part_of result ≡ slice_get (numbered S.Stay 0 d.object.points ++ S.StayIdle ∷ []) place }
{
    let points = points_of(development);
    if place < points.len() {
        return Some(Part::Stay(PointId(place as u32), &points[place]));
    }
    if place == points.len() {
        return Some(Part::StayIdle);
    }
    None
}

// The part at this place from the first edge on.
fn edge_part<'a>(development: &'a Development, edges: &'a [Edge], place: usize) -> Option<Part<'a>>
    ensures { let d = development_view development.now in
        option_map part_of result ≡ slice_get (map S.Pass (map edge_of edges.now) ++ (numbered S.Stay 0 d.object.points ++ S.StayIdle ∷ [])) place }
{
    if place < edges.len() {
        return Some(Part::Pass(&edges[place]));
    }
    point_part(development, place - edges.len())
}

// The part at this place from the first operation on.
fn entry_part<'a>(development: &'a Development, edges: &'a [Edge], place: usize) -> Option<Part<'a>>
    ensures { let d = development_view development.now in
        option_map part_of result
        ≡ slice_get (numbered S.Begin 0 d.object.operations ++ (map S.Pass (map edge_of edges.now) ++ (numbered S.Stay 0 d.object.points ++ S.StayIdle ∷ []))) place }
{
    let operations = operations_of(development);
    if place < operations.len() {
        return Some(Part::Begin(OpId(place as u32), &operations[place]));
    }
    edge_part(development, edges, place - operations.len())
}

/// The part at this place, if there is one, with these as the edges.
pub(crate) fn part_at<'a>(
    development: &'a Development,
    edges: &'a [Edge],
    place: usize,
) -> Option<Part<'a>>
    ensures { option_map part_of result ≡ slice_get (parts_along (development_view development.now) (map edge_of edges.now)) place }
{
    if place == 0 {
        return Some(Part::Start);
    }
    entry_part(development, edges, place - 1)
}

/// The conditions of a part.
pub(crate) fn push_part(
    alloc: Global,
    terms: &mut Terms,
    development: &Development,
    part: Part<'_>,
    conditions: &mut Vec<Condition>,
) -> Result<(), OutOfMemory>
    requires { HasLimits part }
    ensures list { OnOk result (Adds conditions.old.items terms.new conditions.new.items (conditions_in (development_view development.now) (part_of part.entry))) }
    ensures kept { Keeps terms.old terms.new }
{
    match part {
        Part::Start => push_start(alloc, terms, development, conditions),
        Part::Begin(number, body) => {
            push_entry(alloc, terms, development, number, body, conditions)
        }
        Part::Pass(edge) => push_edge(alloc, terms, development, edge, conditions),
        Part::Stay(number, point) => {
            push_point(alloc, terms, development, number, point, conditions)
        }
        Part::StayIdle => push_idle(alloc, terms, development, conditions),
    }
}

/// Under how many actions of another client it is asked that a conjunct stays: those that are declared, and that a call begins or
/// ends.
pub(crate) fn action_count(development: &Development) -> usize
    ensures { result ≡ length (development_view development.now).actions + 2 }
{
    development.parts().actions.len() + 2
}

/// Which condition of a part is wanted: the one at this place of the part, with `all` conditions in all.
#[derive(Clone, Copy)]
pub(crate) struct Wanted {
    pub place: u64,
    pub all: u64,
}

// The stretch of the conjuncts at a point that has the condition that is wanted; answers the place of the first.
fn push_point_with(
    alloc: Global,
    terms: &mut Terms,
    development: &Development,
    number: PointId,
    point: &Point,
    wanted: Wanted,
    conditions: &mut Vec<Condition>,
) -> Result<u64, OutOfMemory>
    ensures with { IfOk result (λ first. AddsWith conditions.old.items terms.new conditions.new.items (point_stability (development_view development.now) number.0 (point_of point.now)) wanted.place first) }
    ensures kept { Keeps terms.old terms.new }
{
    let each = action_count(development);
    let count = asserts_at(development, number).len();
    let asked = stretch_with(count, each, wanted.all, wanted.place);
    push_point_stretch(alloc, terms, development, number, point, asked, conditions)?;
    Ok((asked.from * each) as u64)
}

// The same for the conjuncts that hold of idle clients.
fn push_idle_with(
    alloc: Global,
    terms: &mut Terms,
    development: &Development,
    wanted: Wanted,
    conditions: &mut Vec<Condition>,
) -> Result<u64, OutOfMemory>
    ensures with { IfOk result (λ first. AddsWith conditions.old.items terms.new conditions.new.items (idle_stability (development_view development.now)) wanted.place first) }
    ensures kept { Keeps terms.old terms.new }
{
    let each = action_count(development);
    let count = idle_of(development).len();
    let asked = stretch_with(count, each, wanted.all, wanted.place);
    push_idle_stretch(alloc, terms, development, asked, conditions)?;
    Ok((asked.from * each) as u64)
}

/// Consecutive conditions of a part, with the one that is wanted, if there is one; returns the place of the
/// first. Of a point with many conjuncts they are those of a stretch, so that workers can divide what is made; of another part
/// they are all.
pub(crate) fn push_with(
    alloc: Global,
    terms: &mut Terms,
    development: &Development,
    part: Part<'_>,
    wanted: Wanted,
    conditions: &mut Vec<Condition>,
) -> Result<u64, OutOfMemory>
    requires { HasLimits part }
    ensures with { IfOk result (λ first. AddsWith conditions.old.items terms.new conditions.new.items (conditions_in (development_view development.now) (part_of part.entry)) wanted.place first) }
    ensures kept { Keeps terms.old terms.new }
{
    match part {
        Part::Stay(number, point) => {
            push_point_with(alloc, terms, development, number, point, wanted, conditions)
        }
        Part::StayIdle => push_idle_with(alloc, terms, development, wanted, conditions),
        _ => {
            push_part(alloc, terms, development, part, conditions)?;
            Ok(0)
        }
    }
}
