//! How riders are done.
ghost use Rattle.std.specs.Prelude.{◌≡◌, ℕ, ◌<◌, ◌≤◌, ◌^◌, true};
ghost use Rattle.std.specs.List.{list_all};
ghost use Rattle.lc_action.specs.ActionView.{first_of};
ghost use Rattle.lc_base.specs.Limits.{argument_limit};
ghost use Rattle.lc_ride.specs.RideView.{AreThere, IsRidden, rider_is_evaluable};
ghost use Rattle.lc_ride.specs.Riding.{do_all};
ghost use Rattle.lc_ride.specs.RidingFits.{RidersFit};
ghost use Rattle.lc_rider.specs.RiderView.{riders_of};
ghost use Rattle.lc_seq.specs.Branches.{arity};
ghost use Rattle.lc_seq.specs.SpecView.{operations_of};
ghost use Rattle.lc_ride.specs.Drafts.{written_in_draft, saved_in_draft, draft_columns};
ghost use Rattle.lc_term.specs.State.{env_of, variable_count};
ghost use Rattle.lc_term.specs.UpdateView.{writes_view};
ghost use Rattle.lc_term.specs.Updates.{stored_all, AreWithin};

use lc_ride::{Draft, Mark, Rides, ride_all};
use lc_rider::Rider;
use lc_seq::SeqFault;
use lc_term::Write;
use std::alloc::Global;

/// Riders are done in their order, each in the state that the earlier ones left, or one of them cannot be done.
pub fn riding(
    alloc: Global,
    rides: &Rides<'_>,
    draft: &mut Draft,
    riders: &[Rider],
    marks: &mut Vec<Mark>,
) -> Result<bool, SeqFault>
    requires there { AreThere (operations_of rides.now.operations.now) (first_of rides.now.system) (draft_columns draft.old) }
    requires few { (o : ℕ) → arity (operations_of rides.now.operations.now) o ≤ argument_limit }
    requires client { rides.now.client < 2 ^ 63 }
    requires seen { list_all (rider_is_evaluable (draft_columns draft.old) (variable_count rides.now.env.now)) (riders_of riders.now) ≡ true }
    ensures done { let ops = operations_of rides.now.operations.now in
        let m = written_in_draft draft.old in
        let first = first_of rides.now.system in
        let e = env_of rides.now.env.now in
        let rs = riders_of riders.now in
        IsRidden (RidersFit ops first rides.now.client rides.now.operation.0 e m rs) (do_all ops first rides.now.client rides.now.operation.0 e m rs) marks.old.items marks.new.items (written_in_draft draft.new) result }
    ensures saved { saved_in_draft draft.new ≡ saved_in_draft draft.old }
    ensures columns { draft_columns draft.new ≡ draft_columns draft.old }
{
    ride_all(alloc, rides, draft, riders, marks)
}

/// What was written to a draft since it was saved makes of the columns that are saved those that are written.
pub fn listing_writes(draft: &Draft) -> &[Write]
    ensures written { written_in_draft draft.now ≡ stored_all (saved_in_draft draft.now) (writes_view result.now) }
    ensures within { AreWithin (draft_columns draft.now) (writes_view result.now) }
{
    draft.writes()
}
