//! Which steps of a body store in a column that a claim reads, where the step before the claim does not.
use crate::naming::{has_edge, point_at, point_name, target_of};
use crate::reach::Reached;
use crate::source::{Source, push_part};
use lc_base::{ColId, OutOfMemory, PointId};
use lc_cond::{Condition, Kind, Passage, on_at};
use lc_explain::Part;
use lc_object::{ArrayId, EdgeKind, Instr};
use lc_outline::{Development, Parts, column_names};
use lc_place::Place;
use lc_rider::Rider;
use std::alloc::Global;

/// Every kind of edge.
const EDGES: [EdgeKind; 3] = [EdgeKind::Next, EdgeKind::Then, EdgeKind::Else];

/// How a term begins that reads a column.
const READ: &[u8] = b"(rd ";

/// Whether a row of an array has this column.
fn has_column(parts: &Parts, array: ArrayId, column: ColId) -> bool {
    let Some(array) = parts.object.parts().arrays.get(array.0 as usize) else {
        return false;
    };
    for other in &array.columns {
        if other.0 == column.0 {
            return true;
        }
    }
    false
}

/// Whether an instruction stores in a column, going by this edge.
fn instruction_stores(parts: &Parts, instruction: &Instr, edge: EdgeKind, column: ColId) -> bool {
    match (instruction, edge) {
        (Instr::Store { array, .. } | Instr::Faa { array, .. }, EdgeKind::Next)
        | (Instr::Cas { array, .. }, EdgeKind::Then) => has_column(parts, *array, column),
        _ => false,
    }
}

/// Whether one of these riders sets a column.
fn riders_set(riders: &[Rider], column: ColId) -> bool {
    for rider in riders {
        if let Rider::Assign { update, .. } = rider
            && update.column.0 == column.0
        {
            return true;
        }
    }
    false
}

/// Whether the step by an edge of a point stores in a column.
fn step_stores(development: &Development, point: PointId, edge: EdgeKind, column: ColId) -> bool {
    let parts = development.parts();
    let by_code = match point_at(parts, point) {
        Some(found) => instruction_stores(parts, &found.instruction, edge, column),
        None => false,
    };
    let by_riders = match on_at(development, point, edge) {
        Some(on) => riders_set(&on.riders, column),
        None => false,
    };
    by_code || by_riders
}

/// Whether a way leads from a point to another.
fn leads_to(
    alloc: Global,
    development: &Development,
    first: PointId,
    last: PointId,
) -> Result<bool, OutOfMemory> {
    let count = development.parts().object.parts().points.len();
    let mut reached = Reached::new(alloc, count, first)?;
    for _ in 0..count {
        let Some(point) = reached.next() else {
            break;
        };
        let Some(found) = point_at(development.parts(), point) else {
            continue;
        };
        for edge in EDGES {
            if has_edge(&found.instruction, edge)
                && let Some(next) = target_of(&found.instruction, edge)
            {
                reached.reach(next)?;
            }
        }
    }
    Ok(reached.has(last))
}

/// A point whose step stores in a column, on a way to `last`, if there is one.
fn storing_point(
    alloc: Global,
    development: &Development,
    column: ColId,
    last: PointId,
) -> Result<Option<PointId>, OutOfMemory> {
    let points = &development.parts().object.parts().points;
    for (number, found) in points.iter().enumerate() {
        let point = PointId(u32::try_from(number).unwrap_or(0));
        for edge in EDGES {
            if !has_edge(&found.instruction, edge)
                || !step_stores(development, point, edge, column)
            {
                continue;
            }
            if let Some(next) = target_of(&found.instruction, edge)
                && leads_to(alloc, development, next, last)?
            {
                return Ok(Some(point));
            }
        }
    }
    Ok(None)
}

/// Whether a text reads a column of this name.
fn reads_column(text: &[u8], name: &str) -> bool {
    for place in 0..text.len() {
        let Some(rest) = text.get(place..) else {
            return false;
        };
        if let Some(rest) = rest.strip_prefix(READ)
            && let Some(rest) = rest.strip_prefix(name.as_bytes())
            && rest.first() == Some(&b' ')
        {
            return true;
        }
    }
    false
}

/// The first column after those of the specification that a text reads, and its name.
fn column_read<'a>(
    alloc: Global,
    parts: &'a Parts,
    text: &[u8],
) -> Result<Option<(ColId, &'a str)>, OutOfMemory> {
    let abstracts = parts.specification.columns().len();
    let own = parts
        .object
        .parts()
        .concretes
        .len()
        .saturating_add(parts.auxiliaries.len());
    let names = column_names(alloc, parts)?;
    for (number, name) in names.iter().enumerate().skip(abstracts).take(own) {
        if reads_column(text, name) {
            return Ok(Some((ColId(u32::try_from(number).unwrap_or(0)), *name)));
        }
    }
    Ok(None)
}

/// Appends to `text` which step before a point stores in the column that a claim behind it reads, or that none does, if the step to the
/// claim does not.
fn push_storing(
    alloc: Global,
    text: &mut Vec<u8>,
    source: Source<'_>,
    development: &Development,
    point: PointId,
    edge: EdgeKind,
    claim: &[u8],
) -> Result<(), OutOfMemory> {
    let parts = development.parts();
    let Some((column, name)) = column_read(alloc, parts, claim)? else {
        return Ok(());
    };
    if step_stores(development, point, edge, column) {
        return Ok(());
    }
    let here = point_name(parts, point);
    match storing_point(alloc, development, column, point)? {
        Some(storing) => {
            let sentence = format!(in alloc;
                "this stores in {name}: what holds of it then is to be asserted at each point from there to {here}"
            )?;
            let part = Part::Point(point_name(parts, storing));
            push_part(alloc, text, source, part, &sentence)
        }
        None => {
            let sentence = format!(in alloc;
                "neither this step nor one before it in the call stores in {name}"
            )?;
            push_part(alloc, text, source, Part::Point(here), &sentence)
        }
    }
}

/// Appends to `text` where the column is stored that a condition's claim at this place reads first, if the condition is that a claim holds
/// after a step.
pub(crate) fn push_stores(
    alloc: Global,
    text: &mut Vec<u8>,
    source: Source<'_>,
    development: &Development,
    condition: &Condition,
    claim: Option<Place>,
) -> Result<(), OutOfMemory> {
    let (Kind::Next, Some(point), Passage::Edge(edge), Some(place)) = (
        condition.kind,
        condition.place.point,
        condition.place.passage,
        claim,
    ) else {
        return Ok(());
    };
    let Some(rest) = source.bytes.get(place.offset..) else {
        return Ok(());
    };
    match rest.get(..place.length) {
        Some(claim) => push_storing(alloc, text, source, development, point, edge, claim),
        None => Ok(()),
    }
}
