//! What is asserted stays, at points and of idle clients; and what parts of the list of conditions there are.
ghost use Rattle.std.specs.Prelude.{◌≡◌, true, length, map, Some, None, IfOk, OnOk};
ghost use Rattle.lc_table.specs.Tables.{Keeps};
ghost use Rattle.lc_object.specs.EdgeView.{edge_of};
ghost use Rattle.lc_object.specs.Edges.{edges};
ghost use Rattle.lc_object.specs.View.{operation_of, point_of};
ghost use Rattle.lc_object.specs.WellFormed.{has_limits, variable_count};
ghost use Rattle.lc_outline.specs.Development.{asserts_at, first_system};
ghost use Rattle.lc_outline.specs.DevelopmentView.{development_view};
ghost use Rattle.lc_cond.specs.Adding.{Adds};
ghost use Rattle.lc_cond.specs.Conditions.{body_frame, point_stability, idle_stability};
ghost use Rattle.lc_cond.specs.Stretches.{IsWithin, stable_stretch, point_stretch, idle_stretch};

use crate::condition::Condition;
use crate::known::{body_frame, idle_frame};
use crate::lookup::{
    argument_count, asserts_at, idle_of, operation_at, system_columns, variable_count,
};
use crate::stability::{Asserted, push_stable};
use crate::stretch::{Stretch, all_of};
use lc_base::{OpId, OutOfMemory, PointId};
use lc_object::{Edge, Operation, Point, edges};
use lc_outline::Development;
use lc_table::Terms;
use std::alloc::Global;

/// The operations of the object.
pub(crate) fn operations_of(development: &Development) -> &[Operation]
    ensures { map operation_of result.now ≡ (development_view development.now).object.operations }
{
    &development.parts().object.parts().operations
}

/// The points of the object.
pub(crate) fn points_of(development: &Development) -> &[Point]
    ensures { map point_of result.now ≡ (development_view development.now).object.points }
{
    &development.parts().object.parts().points
}

/// The edges of the object.
pub(crate) fn edges_of(alloc: Global, development: &Development) -> Result<Vec<Edge>, OutOfMemory>
    ensures { IfOk result (λ es. map edge_of es.items ≡ edges (development_view development.now).object) }
{
    edges(alloc, &development.parts().object)
}

// The conjuncts at a point of this operation's body stay which are asked about.
#[tactic(auto, using(lc_table::proofs::Later::kept_on))]
fn push_stay(
    alloc: Global,
    terms: &mut Terms,
    development: &Development,
    number: PointId,
    operation: OpId,
    body: &Operation,
    asked: Stretch,
    conditions: &mut Vec<Condition>,
) -> Result<(), OutOfMemory>
    requires limits { has_limits (operation_of body.now) ≡ true }
    requires asked { IsWithin (length (asserts_at (development_view development.now) number.0)) asked }
    ensures list { let d = development_view development.now in
        let o = operation_of body.now in
        OnOk result (Adds conditions.old.items terms.new conditions.new.items
        (stable_stretch d (Some number.0) (variable_count o) (body_frame (first_system d) operation.0 (length o.arguments)) (asserts_at d number.0) asked)) }
    ensures kept { Keeps terms.old terms.new }
{
    let system = system_columns(development);
    let count = variable_count(body);
    let frame = body_frame(alloc, terms, system, operation, argument_count(body))?;
    let asserted = Asserted {
        conjuncts: asserts_at(development, number),
        asked,
    };
    push_stable(
        alloc,
        terms,
        development,
        Some(number),
        count,
        &frame,
        asserted,
        conditions,
    )
}

/// The conjuncts at a point stay which are asked about.
pub(crate) fn push_point_stretch(
    alloc: Global,
    terms: &mut Terms,
    development: &Development,
    number: PointId,
    point: &Point,
    asked: Stretch,
    conditions: &mut Vec<Condition>,
) -> Result<(), OutOfMemory>
    requires { IsWithin (length (asserts_at (development_view development.now) number.0)) asked }
    ensures list { OnOk result (Adds conditions.old.items terms.new conditions.new.items (point_stretch (development_view development.now) number.0 (point_of point.now) asked)) }
    ensures kept { Keeps terms.old terms.new }
{
    let Some(body) = operation_at(development, point.operation) else {
        return Ok(());
    };
    push_stay(
        alloc,
        terms,
        development,
        number,
        point.operation,
        body,
        asked,
        conditions,
    )
}

/// The assertions at a point stay.
pub(crate) fn push_point(
    alloc: Global,
    terms: &mut Terms,
    development: &Development,
    number: PointId,
    point: &Point,
    conditions: &mut Vec<Condition>,
) -> Result<(), OutOfMemory>
    ensures list { OnOk result (Adds conditions.old.items terms.new conditions.new.items (point_stability (development_view development.now) number.0 (point_of point.now))) }
    ensures kept { Keeps terms.old terms.new }
{
    let all = all_of(asserts_at(development, number).len());
    push_point_stretch(alloc, terms, development, number, point, all, conditions)
}

/// The conjuncts that hold of idle clients stay which are asked about.
#[tactic(auto, using(lc_table::proofs::Later::kept_on))]
pub(crate) fn push_idle_stretch(
    alloc: Global,
    terms: &mut Terms,
    development: &Development,
    asked: Stretch,
    conditions: &mut Vec<Condition>,
) -> Result<(), OutOfMemory>
    requires { IsWithin (length (development_view development.now).idle) asked }
    ensures list { OnOk result (Adds conditions.old.items terms.new conditions.new.items (idle_stretch (development_view development.now) asked)) }
    ensures kept { Keeps terms.old terms.new }
{
    let system = system_columns(development);
    let frame = idle_frame(alloc, terms, system)?;
    let asserted = Asserted {
        conjuncts: idle_of(development),
        asked,
    };
    push_stable(
        alloc,
        terms,
        development,
        None,
        2,
        &frame,
        asserted,
        conditions,
    )
}

/// What holds of idle clients stays.
pub(crate) fn push_idle(
    alloc: Global,
    terms: &mut Terms,
    development: &Development,
    conditions: &mut Vec<Condition>,
) -> Result<(), OutOfMemory>
    ensures list { OnOk result (Adds conditions.old.items terms.new conditions.new.items (idle_stability (development_view development.now))) }
    ensures kept { Keeps terms.old terms.new }
{
    let all = all_of(idle_of(development).len());
    push_idle_stretch(alloc, terms, development, all, conditions)
}
