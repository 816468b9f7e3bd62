//! What a development has at a place.
ghost use Rattle.std.specs.Prelude.{◌≡◌, length, map, option_map, slice_get, true, ◌+◌};
ghost use Rattle.lc_term.specs.View.{formulas_of};
ghost use Rattle.lc_action.specs.ActionView.{action_of, first_of};
ghost use Rattle.lc_rider.specs.RiderView.{riders_of};
ghost use Rattle.lc_object.specs.View.{operation_of};
ghost use Rattle.lc_object.specs.WellFormed.{has_limits, variable_count};
ghost use Rattle.lc_outline.specs.Development.{same_kind, on_for, on_at, asserts_at, riders_in, first_system, asserts_to};
ghost use Rattle.lc_outline.specs.DevelopmentView.{development_view, on_of};

use lc_action::{Action, SystemColumns};
use lc_base::{ColId, OpId, PointId};
use lc_object::{EdgeKind, Operation};
use lc_outline::{ActionId, Development, On};
use lc_rider::Rider;
use lc_term::Formula;

/// The system columns, after the columns that are declared.
#[tactic(auto, using(crate::proofs::Few::columns_few))]
pub(crate) fn system_columns(development: &Development) -> SystemColumns
    ensures { first_of result ≡ first_system (development_view development.now) }
{
    let parts = development.parts();
    let concretes = parts.object.parts().concretes.len();
    let declared = parts.specification.columns().len() + concretes + parts.auxiliaries.len();
    SystemColumns::new(ColId(declared as u32)).unwrap()
}

/// The assertions at a point.
pub(crate) fn asserts_at(development: &Development, point: PointId) -> &[Formula]
    ensures { formulas_of result.now ≡ asserts_at (development_view development.now) point.0 }
{
    match development.parts().outlines.get(point.0 as usize) {
        None => &[],
        Some(outline) => &outline.asserts,
    }
}

/// The assertions at the point that is reached, or what holds of idle clients if none is.
pub(crate) fn asserts_to(development: &Development, next: Option<PointId>) -> &[Formula]
    ensures { formulas_of result.now ≡ asserts_to (development_view development.now) (option_map (λ p. p.0) next) }
{
    match next {
        None => &development.parts().idle,
        Some(point) => asserts_at(development, point),
    }
}

// Whether the kinds are the same.
fn is_same_kind(left: EdgeKind, right: EdgeKind) -> bool
    ensures { result ≡ same_kind left right }
{
    match left {
        EdgeKind::Next => matches!(right, EdgeKind::Next),
        EdgeKind::Then => matches!(right, EdgeKind::Then),
        EdgeKind::Else => matches!(right, EdgeKind::Else),
    }
}

// What is done at an edge of this kind, if anything is.
fn on_for(ons: &[On], kind: EdgeKind) -> Option<&On>
    ensures { option_map (λ o. on_of o.now) result ≡ on_for (map on_of ons.now) kind }
{
    for on in ons {
        if is_same_kind(on.edge, kind) {
            return Some(on);
        }
    }
    None
}

/// What is done at the edge of this kind of a point, if anything is.
pub fn on_at(development: &Development, point: PointId, kind: EdgeKind) -> Option<&On>
    ensures { option_map (λ o. on_of o.now) result ≡ on_at (development_view development.now) point.0 kind }
{
    match development.parts().outlines.get(point.0 as usize) {
        None => None,
        Some(outline) => on_for(&outline.ons, kind),
    }
}

/// The riders at this edge.
pub(crate) fn riders_in(on: Option<&On>) -> &[Rider]
    ensures { riders_of result.now ≡ riders_in (option_map (λ o. on_of o.now) on.entry) }
{
    match on {
        None => &[],
        Some(on) => &on.riders,
    }
}

/// A declared action by its number, if there is one.
pub(crate) fn action_at(development: &Development, action: ActionId) -> Option<&Action>
    ensures { option_map (λ a. action_of a.now) result ≡ slice_get (development_view development.now).actions action.0 }
{
    development.parts().actions.get(action.0 as usize)
}

/// The operation of this number, whose body a point may be in, if there is one.
pub(crate) fn operation_at(development: &Development, operation: OpId) -> Option<&Operation>
    ensures { option_map (λ o. operation_of o.now) result ≡ slice_get (development_view development.now).object.operations operation.0 }
{
    development
        .parts()
        .object
        .parts()
        .operations
        .get(operation.0 as usize)
}

/// The operation whose body a point is in, if there is such a point.
pub(crate) fn body_at(development: &Development, point: PointId) -> Option<OpId>
    ensures { option_map (λ o. o.0) result ≡ option_map (λ p. p.operation) (slice_get (development_view development.now).object.points point.0) }
{
    let point = development
        .parts()
        .object
        .parts()
        .points
        .get(point.0 as usize)?;
    Some(point.operation)
}

/// What holds of clients that have no call.
pub(crate) fn idle_of(development: &Development) -> &[Formula]
    ensures { formulas_of result.now ≡ (development_view development.now).idle }
{
    &development.parts().idle
}

/// How many arguments an operation takes.
pub(crate) fn argument_count(body: &Operation) -> usize
    ensures { result ≡ length (operation_of body.now).arguments }
{
    body.arguments.len()
}

/// How many variables there are when a call of an operation begins: the number of clients, the client and the arguments.
#[tactic(auto, using(crate::proofs::Few::arguments_few))]
pub(crate) fn entry_count(body: &Operation) -> u32
    requires { has_limits (operation_of body.now) ≡ true }
    ensures { result ≡ 2 + length (operation_of body.now).arguments }
{
    2 + body.arguments.len() as u32
}

/// How many variables there are in an operation's code: the locals too.
#[tactic(auto, using(crate::proofs::Few::arguments_few, crate::proofs::Few::locals_few))]
pub(crate) fn variable_count(body: &Operation) -> u32
    requires { has_limits (operation_of body.now) ≡ true }
    ensures { result ≡ variable_count (operation_of body.now) }
{
    entry_count(body) + body.locals.len() as u32
}
