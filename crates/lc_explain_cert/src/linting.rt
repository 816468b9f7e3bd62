//! What is seldom meant in a development: a call that may return without a mark, an action that no edge names, and a guard that serves
//! nothing.
use crate::naming::{action_name, has_edge, operation_name, point_at, point_name, target_of};
use crate::reach::Reached;
use crate::source::{Source, push_part};
use crate::unseen::push_unseen;
use lc_base::{OpId, OutOfMemory, PointId};
use lc_cond::on_at;
use lc_explain::Part;
use lc_object::EdgeKind;
use lc_outline::{Development, On};
use lc_rider::Rider;
use std::alloc::Global;

/// Whether a rider at an edge of a client may mark this client's own call, or note what it replies.
fn may_mark(rider: &Rider) -> bool {
    matches!(rider, Rider::LinSelf { .. } | Rider::Note { .. })
}

/// Whether one of these riders does.
fn may_mark_one(riders: &[Rider]) -> bool {
    for rider in riders {
        if may_mark(rider) {
            return true;
        }
    }
    false
}

/// Whether nothing at the edge of a point marks the client's own call.
fn is_unmarked(development: &Development, point: PointId, edge: EdgeKind) -> bool {
    match on_at(development, point, edge) {
        Some(on) => !may_mark_one(&on.riders),
        None => true,
    }
}

/// Whether a rider marks a call of an operation by another client.
fn marks_other(rider: &Rider, operation: OpId) -> bool {
    match rider {
        Rider::LinOther {
            operation: other,
            ..
        } => other.0 == operation.0,
        Rider::Assign { .. } | Rider::LinSelf { .. } | Rider::Note { .. } => false,
    }
}

/// Whether a rider at one of these edges marks a call of an operation by another client.
fn mark_other(ons: &[On], operation: OpId) -> bool {
    for on in ons {
        for rider in &on.riders {
            if marks_other(rider, operation) {
                return true;
            }
        }
    }
    false
}

/// Whether another client may mark a call of an operation.
fn is_helped(development: &Development, operation: OpId) -> bool {
    for outline in &development.parts().outlines {
        if mark_other(&outline.ons, operation) {
            return true;
        }
    }
    false
}

/// Follows the edges of a point that have no mark, and returns whether one of them is a return.
fn follow(
    reached: &mut Reached,
    development: &Development,
    point: PointId,
) -> Result<bool, OutOfMemory> {
    let Some(found) = point_at(development.parts(), point) else {
        return Ok(false);
    };
    for edge in [EdgeKind::Next, EdgeKind::Then, EdgeKind::Else] {
        if !has_edge(&found.instruction, edge) || !is_unmarked(development, point, edge) {
            continue;
        }
        match target_of(&found.instruction, edge) {
            Some(next) => reached.reach(next)?,
            None => return Ok(true),
        }
    }
    Ok(false)
}

/// The point at which a call that begins at a first one may return without a mark, if one is found.
fn unmarked_return(
    alloc: Global,
    development: &Development,
    first: PointId,
) -> Result<Option<PointId>, OutOfMemory> {
    let count = development.parts().object.parts().points.len();
    let mut reached = Reached::new(alloc, count, first)?;
    for _ in 0..count {
        let Some(point) = reached.next() else {
            return Ok(None);
        };
        if follow(&mut reached, development, point)? {
            return Ok(Some(point));
        }
    }
    Ok(None)
}

/// Appends for each operation where its call may return without a mark.
fn push_unmarked(
    alloc: Global,
    text: &mut Vec<u8>,
    source: Source<'_>,
    development: &Development,
) -> Result<(), OutOfMemory> {
    let parts = development.parts();
    for (number, operation) in parts.object.parts().operations.iter().enumerate() {
        let id = OpId(u32::try_from(number).unwrap_or(0));
        if is_helped(development, id) {
            continue;
        }
        if let Some(point) = unmarked_return(alloc, development, operation.entry)? {
            let name = operation_name(parts, id);
            let sentence = format!(in alloc;
                "a call of {name} may return here without a mark: each way to it needs one edge with (lin)"
            )?;
            let part = Part::Point(point_name(parts, point));
            push_part(alloc, text, source, part, &sentence)?;
        }
    }
    Ok(())
}

/// Whether an edge names the action at a place.
fn is_named(development: &Development, place: usize) -> bool {
    for outline in &development.parts().outlines {
        for on in &outline.ons {
            if on.action.0 as usize == place {
                return true;
            }
        }
    }
    false
}

/// Appends for each action that no edge names it, if none does.
fn push_unnamed(
    alloc: Global,
    text: &mut Vec<u8>,
    source: Source<'_>,
    development: &Development,
) -> Result<(), OutOfMemory> {
    let parts = development.parts();
    for place in 0..parts.actions.len() {
        if is_named(development, place) {
            continue;
        }
        let part = Part::Action(action_name(parts, place));
        push_part(alloc, text, source, part, "no edge names this action")?;
    }
    Ok(())
}

/// What is seldom meant in a development, with the places in its file: calls that may return without a mark, actions that no edge
/// names, and guards of actions of which no other client can see what they store.
pub fn lints(
    alloc: Global,
    source: Source<'_>,
    development: &Development,
) -> Result<Vec<u8>, OutOfMemory> {
    let mut text = Vec::new(alloc);
    push_unmarked(alloc, &mut text, source, development)?;
    push_unnamed(alloc, &mut text, source, development)?;
    push_unseen(alloc, &mut text, source, development)?;
    Ok(text)
}
