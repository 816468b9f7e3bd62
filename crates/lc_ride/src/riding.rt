//! The riders of an edge, in their order.
ghost use Rattle.std.specs.Prelude.{◌≡◌, ℕ, ◌<◌, ◌≤◌, ◌^◌, true};
ghost use Rattle.std.specs.List.{list_all};
ghost use Rattle.lc_base.specs.Limits.{argument_limit};
ghost use Rattle.lc_term.specs.State.{env_of, variable_count};
ghost use Rattle.lc_action.specs.ActionView.{first_of};
ghost use Rattle.lc_ride.specs.Drafts.{written_in_draft, saved_in_draft, draft_columns};
ghost use Rattle.lc_seq.specs.SpecView.{operations_of};
ghost use Rattle.lc_seq.specs.Branches.{arity};
ghost use Rattle.lc_term.specs.View.{term_of};
ghost use Rattle.lc_rider.specs.Rider.{Own, Other, Note, Marks};
ghost use Rattle.lc_rider.specs.RiderView.{rider_of, riders_of, choosing_of};
ghost use Rattle.lc_ride.specs.Calls.{CanRide, Does};
ghost use Rattle.lc_ride.specs.Riding.{do_rider, do_all};
ghost use Rattle.lc_ride.specs.RidingFits.{RiderFits, RidersFit};
ghost use Rattle.lc_ride.specs.RideView.{AreThere, IsRidden, deed_is_evaluable, rider_is_evaluable};

use crate::choosing::pick_of;
use crate::deeds::{assign, help, note, settle};
use crate::draft::Draft;
use crate::marks::Mark;
use crate::settling::Call;
use lc_action::SystemColumns;
use lc_base::OpId;
use lc_rider::{Choosing, Rider};
use lc_seq::{Operation, SeqFault};
use lc_term::{Env, Term, eval, eval_term};
use std::alloc::Global;

/// In whose call riders act: the specification's operations, the system columns, the client, the operation whose code it
/// is, and the numbers of its variables.
#[derive(Clone, Copy)]
pub struct Rides<'a> {
    pub operations: &'a [Operation],
    pub system: SystemColumns,
    pub client: u64,
    pub operation: OpId,
    pub env: &'a Env,
}

// The client's own call.
fn own_call<'a>(rides: &Rides<'a>) -> Call<'a>
    ensures { let r = rides.now in result ≡ record { operations = r.operations; system = r.system; client = r.client; operation = r.operation } }
{
    Call {
        operations: rides.operations,
        system: rides.system,
        client: rides.client,
        operation: rides.operation,
    }
}

// The client's own call takes effect.
fn settle_own(
    alloc: Global,
    rides: &Rides<'_>,
    draft: &mut Draft,
    by: &Choosing,
    marks: &mut Vec<Mark>,
) -> Result<bool, SeqFault>
    requires rides { CanRide rides.now (draft_columns draft.old) }
    requires seen { deed_is_evaluable (draft_columns draft.old) (variable_count rides.now.env.now) (Marks Own (choosing_of by.now)) ≡ true }
    ensures done { Does rides.now (written_in_draft draft.old) (Marks Own (choosing_of by.now)) marks.old.items marks.new.items (written_in_draft draft.new) result }
    ensures saved { saved_in_draft draft.new ≡ saved_in_draft draft.old }
    ensures columns { draft_columns draft.new ≡ draft_columns draft.old }
{
    let pick = pick_of(alloc, by, draft.state(), rides.env)?;
    settle(alloc, own_call(rides), draft, pick, marks)
}

// The call of this operation takes effect, by the client that a term gives.
fn settle_other(
    alloc: Global,
    rides: &Rides<'_>,
    draft: &mut Draft,
    client: &Term,
    operation: OpId,
    by: &Choosing,
    marks: &mut Vec<Mark>,
) -> Result<bool, SeqFault>
    requires rides { CanRide rides.now (draft_columns draft.old) }
    requires seen { deed_is_evaluable (draft_columns draft.old) (variable_count rides.now.env.now) (Marks (Other (term_of client.now) operation.0) (choosing_of by.now)) ≡ true }
    ensures done { Does rides.now (written_in_draft draft.old) (Marks (Other (term_of client.now) operation.0) (choosing_of by.now)) marks.old.items marks.new.items (written_in_draft draft.new) result }
    ensures saved { saved_in_draft draft.new ≡ saved_in_draft draft.old }
    ensures columns { draft_columns draft.new ≡ draft_columns draft.old }
{
    let pick = pick_of(alloc, by, draft.state(), rides.env)?;
    let number = eval_term(client, draft.state(), rides.env)?;
    help(
        alloc,
        rides.operations,
        rides.system,
        draft,
        number,
        operation,
        pick,
        marks,
    )
}

// The reply of the client's own call is noted.
fn note_own(
    alloc: Global,
    rides: &Rides<'_>,
    draft: &mut Draft,
    by: &Choosing,
    marks: &mut Vec<Mark>,
) -> Result<bool, SeqFault>
    requires rides { CanRide rides.now (draft_columns draft.old) }
    requires seen { deed_is_evaluable (draft_columns draft.old) (variable_count rides.now.env.now) (Marks Note (choosing_of by.now)) ≡ true }
    ensures done { Does rides.now (written_in_draft draft.old) (Marks Note (choosing_of by.now)) marks.old.items marks.new.items (written_in_draft draft.new) result }
    ensures saved { saved_in_draft draft.new ≡ saved_in_draft draft.old }
    ensures columns { draft_columns draft.new ≡ draft_columns draft.old }
{
    let pick = pick_of(alloc, by, draft.state(), rides.env)?;
    note(alloc, own_call(rides), draft, pick, marks)
}

// What a rider does, whatever its condition.
fn do_deed(
    alloc: Global,
    rides: &Rides<'_>,
    draft: &mut Draft,
    rider: &Rider,
    marks: &mut Vec<Mark>,
) -> Result<bool, SeqFault>
    requires rides { CanRide rides.now (draft_columns draft.old) }
    requires seen { deed_is_evaluable (draft_columns draft.old) (variable_count rides.now.env.now) (rider_of rider.now).deed ≡ true }
    ensures done { Does rides.now (written_in_draft draft.old) (rider_of rider.now).deed marks.old.items marks.new.items (written_in_draft draft.new) result }
    ensures saved { saved_in_draft draft.new ≡ saved_in_draft draft.old }
    ensures columns { draft_columns draft.new ≡ draft_columns draft.old }
{
    match rider {
        Rider::Assign { update, .. } => {
            assign(draft, rides.env, update)?;
            Ok(true)
        }
        Rider::LinSelf { by, .. } => settle_own(alloc, rides, draft, by, marks),
        Rider::LinOther {
            client,
            operation,
            by,
            ..
        } => settle_other(alloc, rides, draft, client, *operation, by, marks),
        Rider::Note { by, .. } => note_own(alloc, rides, draft, by, marks),
    }
}

// One rider: at true it is done, at false it cannot be.
fn do_rider(
    alloc: Global,
    rides: &Rides<'_>,
    draft: &mut Draft,
    rider: &Rider,
    marks: &mut Vec<Mark>,
) -> Result<bool, SeqFault>
    requires rides { CanRide rides.now (draft_columns draft.old) }
    requires seen { rider_is_evaluable (draft_columns draft.old) (variable_count rides.now.env.now) (rider_of rider.now) ≡ true }
    ensures done { let ops = operations_of rides.now.operations.now in
        let m = written_in_draft draft.old in
        let first = first_of rides.now.system in
        let e = env_of rides.now.env.now in
        let r = rider_of rider.now in
        IsRidden (RiderFits ops first rides.now.client rides.now.operation.0 e m r) (do_rider ops first rides.now.client rides.now.operation.0 e m r) marks.old.items marks.new.items (written_in_draft draft.new) result }
    ensures saved { saved_in_draft draft.new ≡ saved_in_draft draft.old }
    ensures columns { draft_columns draft.new ≡ draft_columns draft.old }
{
    match rider.condition() {
        None => do_deed(alloc, rides, draft, rider, marks),
        Some(when) => {
            if eval(when.formula(), draft.state(), rides.env)? {
                do_deed(alloc, rides, draft, rider, marks)
            } else {
                Ok(true)
            }
        }
    }
}

/// Riders in order, each in the state that the earlier ones left. At true they are done; at false one cannot be: its mark is
/// not lawful there. Then, and at `Err`, the draft is what those before it left, so the caller rolls it back.
pub fn ride_all(
    alloc: Global,
    rides: &Rides<'_>,
    draft: &mut Draft,
    riders: &[Rider],
    marks: &mut Vec<Mark>,
) -> Result<bool, SeqFault>
    requires there { AreThere (operations_of rides.now.operations.now) (first_of rides.now.system) (draft_columns draft.old) }
    requires few { (o : ℕ) → arity (operations_of rides.now.operations.now) o ≤ argument_limit }
    requires client { rides.now.client < 2 ^ 63 }
    requires seen { list_all (rider_is_evaluable (draft_columns draft.old) (variable_count rides.now.env.now)) (riders_of riders.now) ≡ true }
    ensures done { let ops = operations_of rides.now.operations.now in
        let m = written_in_draft draft.old in
        let first = first_of rides.now.system in
        let e = env_of rides.now.env.now in
        let rs = riders_of riders.now in
        IsRidden (RidersFit ops first rides.now.client rides.now.operation.0 e m rs) (do_all ops first rides.now.client rides.now.operation.0 e m rs) marks.old.items marks.new.items (written_in_draft draft.new) result }
    ensures saved { saved_in_draft draft.new ≡ saved_in_draft draft.old }
    ensures columns { draft_columns draft.new ≡ draft_columns draft.old }
{
    for rider in riders {
        if !do_rider(alloc, rides, draft, rider, marks)? {
            return Ok(false);
        }
    }
    Ok(true)
}
