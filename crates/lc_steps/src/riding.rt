//! The riders beside an edge, done.
ghost use Rattle.std.specs.Prelude.{◌≡◌};
ghost use Rattle.lc_ride.specs.Drafts.{written_in_draft, saved_in_draft, draft_columns};
ghost use Rattle.lc_term.specs.State.{variable_count};
ghost use Rattle.lc_term.specs.SystemColumns.{column_count};
ghost use Rattle.lc_outline.specs.Development.{first_system};
ghost use Rattle.lc_outline.specs.DevelopmentView.{development_view};
ghost use Rattle.lc_steps.specs.Stepping.{ridden, RiddenFits};
ghost use Rattle.lc_steps.specs.StepParts.{AreRidersSeen, AreRidden, fault_as};

use crate::lookup::{operation_at, riders_at, system_columns};
use lc_base::PointId;
use lc_machine::StepFault;
use lc_object::EdgeKind;
use lc_outline::Development;
use lc_ride::{Draft, Mark, Rides, ride_all};
use lc_seq::SeqFault;
use lc_term::Env;
use std::alloc::Global;

// Why riders are not done, as a fault of a step.
fn step_fault(fault: SeqFault) -> StepFault
    ensures { result ≡ fault_as fault }
{
    match fault {
        SeqFault::Overflow => StepFault::Overflow,
        SeqFault::OutOfMemory => StepFault::OutOfMemory,
    }
}

/// The riders beside an edge, done: the marks that they make, or nothing if they cannot be done.
pub(crate) fn ride(
    alloc: Global,
    development: &Development,
    draft: &mut Draft,
    client: u32,
    point: PointId,
    edge: EdgeKind,
    env: &Env,
) -> Result<Option<Vec<Mark>>, StepFault>
    requires seen { AreRidersSeen (development_view development.now) point.0 edge (variable_count env.now) }
    requires columns { draft_columns draft.old ≡ column_count (first_system (development_view development.now)) }
    ensures ridden { let D = development_view development.now in
        let s = written_in_draft draft.old in
        AreRidden (RiddenFits D client point.0 edge env.now.values.items s) (ridden D client point.0 edge env.now.values.items s) (written_in_draft draft.new) result }
    ensures saved { saved_in_draft draft.new ≡ saved_in_draft draft.old }
    ensures columns { draft_columns draft.new ≡ draft_columns draft.old }
{
    let system = system_columns(development);
    let rides = Rides {
        operations: development.parts().specification.operations(),
        system,
        client: u64::from(client),
        operation: operation_at(development, point),
        env,
    };
    let riders = riders_at(development, point, edge);
    let mut marks = Vec::new(alloc);
    match ride_all(alloc, &rides, draft, riders, &mut marks) {
        Ok(true) => Ok(Some(marks)),
        Ok(false) => Ok(None),
        Err(fault) => Err(step_fault(fault)),
    }
}
