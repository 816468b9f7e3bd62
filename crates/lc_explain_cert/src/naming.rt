//! The names by which conditions are reported.
use lc_base::{OpId, PointId};
use lc_cond::{Passage, Place, on_at};
use lc_object::{EdgeKind, Instr, Point};
use lc_outline::{Development, Parts};

/// The point of a number.
pub(crate) fn point_at(parts: &Parts, point: PointId) -> Option<&Point> {
    parts.object.parts().points.get(point.0 as usize)
}

/// The name of a point.
pub(crate) fn point_name(parts: &Parts, point: PointId) -> &str {
    match point_at(parts, point) {
        Some(point) => point.name.as_str(),
        None => "",
    }
}

/// The name of an operation.
pub(crate) fn operation_name(parts: &Parts, operation: OpId) -> &str {
    match parts.object.parts().operations.get(operation.0 as usize) {
        Some(operation) => operation.name.as_str(),
        None => "",
    }
}

/// The name of an action; `enter` and `leave` come after the declared ones.
pub(crate) fn action_name(parts: &Parts, place: usize) -> &str {
    if let Some(action) = parts.actions.get(place) {
        return action.name.as_str();
    }
    match place.checked_sub(parts.actions.len()) {
        Some(0) => "enter",
        _ => "leave",
    }
}

/// The name of a conjunct of the invariant.
pub(crate) fn conjunct_name(parts: &Parts, place: usize) -> &str {
    match parts.tie.conjuncts().get(place) {
        Some(conjunct) => conjunct.name.as_str(),
        None => "",
    }
}

/// Whether an instruction has an edge of this kind.
pub(crate) fn has_edge(instruction: &Instr, edge: EdgeKind) -> bool {
    let is_branching = matches!(instruction, Instr::Cas { .. } | Instr::If { .. });
    match edge {
        EdgeKind::Next => !is_branching,
        EdgeKind::Then | EdgeKind::Else => is_branching,
    }
}

/// The point to which an instruction goes by an edge; none if the call returns.
pub(crate) fn target_of(instruction: &Instr, edge: EdgeKind) -> Option<PointId> {
    match (instruction, edge) {
        (Instr::Load { next, .. } | Instr::Store { next, .. }, _) => Some(*next),
        (Instr::Set { next, .. } | Instr::Faa { next, .. }, _) => Some(*next),
        (Instr::Cas { equal, .. }, EdgeKind::Then) => Some(*equal),
        (Instr::Cas { different, .. }, _) => Some(*different),
        (Instr::If { holds, .. }, EdgeKind::Then) => Some(*holds),
        (Instr::If { fails, .. }, _) => Some(*fails),
        (Instr::Return { .. }, _) => None,
    }
}

/// The name of the point that the edge of a condition leads to; `idle` if the call returns.
pub(crate) fn next_name<'a>(parts: &'a Parts, place: &Place) -> &'a str {
    let (Some(point), Passage::Edge(edge)) = (place.point, place.passage) else {
        return "idle";
    };
    match point_at(parts, point).and_then(|point| target_of(&point.instruction, edge)) {
        Some(next) => point_name(parts, next),
        None => "idle",
    }
}

/// The name of the action that is written at the edge of a condition.
pub(crate) fn action_at_edge<'a>(development: &'a Development, place: &Place) -> &'a str {
    let (Some(point), Passage::Edge(edge)) = (place.point, place.passage) else {
        return "";
    };
    match on_at(development, point, edge) {
        Some(on) => action_name(development.parts(), on.action.0 as usize),
        None => "",
    }
}
