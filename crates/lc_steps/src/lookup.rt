//! What a development and a list of clients have at a place.
ghost use Rattle.std.specs.Prelude.{◌≡◌, ◌≤◌, length, map, option_map, slice_get, Some, IfOk, IfSome, MatchOption};
ghost use Rattle.lc_base.specs.Limits.{column_limit};
ghost use Rattle.lc_action.specs.ActionView.{first_of};
ghost use Rattle.lc_rider.specs.RiderView.{riders_of};
ghost use Rattle.lc_object.specs.Places.{operation_at};
ghost use Rattle.lc_object.specs.View.{operation_of};
ghost use Rattle.lc_object.specs.WellFormed.{variable_count};
ghost use Rattle.lc_machine.specs.MayRun.{variables_at};
ghost use Rattle.lc_machine.specs.View.{client_of, clients_of};
ghost use Rattle.lc_outline.specs.Development.{riders_in, riders_at, first_system};
ghost use Rattle.lc_outline.specs.DevelopmentView.{development_view, on_of};

use lc_action::SystemColumns;
use lc_base::{ColId, OpId, OutOfMemory, PointId};
use lc_cond::on_at;
use lc_machine::Client;
use lc_object::{EdgeKind, Operation};
use lc_outline::{Development, On};
use lc_rider::Rider;

/// The number of things in a list, if it has 32 bits.
pub(crate) fn count_of(length: usize) -> Result<u32, OutOfMemory>
    ensures { IfOk result (λ n. n ≡ length) }
{
    u32::try_from(length).map_err(|_| OutOfMemory)
}

// How many columns are declared.
#[tactic(auto, using(crate::proofs::Seen::few_columns))]
fn declared_columns(development: &Development) -> usize
    ensures count { result ≡ first_system (development_view development.now) }
    ensures few { result ≤ column_limit }
{
    let parts = development.parts();
    parts.specification.columns().len()
        + parts.object.parts().concretes.len()
        + parts.auxiliaries.len()
}

/// The system columns, after the columns that are declared.
pub fn system_columns(development: &Development) -> SystemColumns
    ensures { first_of result ≡ first_system (development_view development.now) }
{
    match SystemColumns::new(ColId(declared_columns(development) as u32)) {
        Some(system) => system,
        None => unreachable!(),
    }
}

// The riders at this edge.
fn riders_in(on: Option<&On>) -> &[Rider]
    ensures { riders_of result.now ≡ riders_in (option_map (λ o. on_of o.now) on.entry) }
{
    match on {
        None => &[],
        Some(on) => &on.riders,
    }
}

/// The riders beside the edge of this kind of a point.
pub fn riders_at(development: &Development, point: PointId, kind: EdgeKind) -> &[Rider]
    ensures { riders_of result.now ≡ riders_at (development_view development.now) point.0 kind }
{
    riders_in(on_at(development, point, kind))
}

/// The operation whose body a point is in.
pub fn operation_at(development: &Development, point: PointId) -> OpId
    ensures { result.0 ≡ operation_at (development_view development.now).object point.0 }
{
    match development
        .parts()
        .object
        .parts()
        .points
        .get(point.0 as usize)
    {
        None => OpId(0),
        Some(point) => point.operation,
    }
}

/// The operation of this number, if there is one. Its first point has the variables of its body.
pub fn body_of(development: &Development, operation: OpId) -> Option<&Operation>
    ensures found { let operations = (development_view development.now).object.operations in
        MatchOption result (length operations ≤ operation.0) (λ found. slice_get operations operation.0 ≡ Some (operation_of found.now)) }
    ensures entry { let object = (development_view development.now).object in
        IfSome result (λ found. variables_at object (operation_of found.now).entry ≡ Some (variable_count (operation_of found.now))) }
{
    let operations = &development.parts().object.parts().operations;
    if (operation.0 as usize) < operations.len() {
        Some(&operations[operation.0 as usize])
    } else {
        None
    }
}

/// The client of this number, if there is one.
#[tactic(auto, using(lc_lemmas::proofs::Lists::viewed_at))]
pub fn client_at(clients: &[Client], client: u32) -> Option<&Client>
    ensures { MatchOption result (length (clients_of clients.now) ≤ client) (λ found. slice_get (clients_of clients.now) client ≡ Some (client_of found.now)) }
{
    if (client as usize) < clients.len() {
        Some(&clients[client as usize])
    } else {
        None
    }
}
