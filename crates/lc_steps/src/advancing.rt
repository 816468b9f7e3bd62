//! A client's step: what its instruction does, and the riders beside the edge that it goes by.
ghost use Rattle.std.specs.Prelude.{◌≡◌, ◌≤◌, true, length, IfOk, IfSome};
ghost use Rattle.lc_base.specs.Limits.{reply_limit};
ghost use Rattle.lc_ride.specs.Drafts.{written_in_draft, saved_in_draft, draft_columns};
ghost use Rattle.lc_term.specs.State.{variable_count};
ghost use Rattle.lc_term.specs.SystemColumns.{column_count};
ghost use Rattle.lc_term.specs.Updates.{AreWithin};
ghost use Rattle.lc_object.specs.declared.instr.EdgeKind.TheVariants.{Next};
ghost use Rattle.lc_machine.specs.Effects.{writes_in, outcome_of, IsReached};
ghost use Rattle.lc_machine.specs.Placed.{is_placed, are_placed};
ghost use Rattle.lc_machine.specs.Step.{Goes, Answers, IsClient};
ghost use Rattle.lc_machine.specs.View.{variables_of, client_of, clients_of};
ghost use Rattle.lc_machine.specs.World.{World, In};
ghost use Rattle.lc_outline.specs.Development.{first_system};
ghost use Rattle.lc_outline.specs.DevelopmentView.{development_view};
ghost use Rattle.lc_steps.specs.StepView.{world_in, IsAdvanced};
ghost use Rattle.lc_steps.specs.StepParts.{AreRidersSeen, rider_edge, rider_variables, IsEffectHere, IsBehind};

use crate::lookup::{client_at, system_columns};
use crate::replies::end_call;
use crate::riding::ride;
use crate::steps::{Step, What};
use lc_base::PointId;
use lc_machine::{Client, Effect, Fate, Place, StepFault, effect};
use lc_object::EdgeKind;
use lc_outline::Development;
use lc_ride::Draft;
use lc_ride::laws::riders_are_done;
use lc_term::Env;
use std::alloc::Global;

// A client goes by an edge to a place, and the riders beside the edge are done.
fn go(
    alloc: Global,
    development: &Development,
    draft: &mut Draft,
    client: u32,
    point: PointId,
    edge: EdgeKind,
    next: Place,
) -> Result<Option<Step>, StepFault>
    requires seen { AreRidersSeen (development_view development.now) point.0 edge (variable_count next.variables) }
    requires columns { draft_columns draft.old ≡ column_count (first_system (development_view development.now)) }
    ensures behind { IsBehind (development_view development.now) client point.0 (variables_of next) edge (written_in_draft draft.old) (Goes next.point.0 (variables_of next)) (written_in_draft draft.new) result }
    ensures saved { saved_in_draft draft.new ≡ saved_in_draft draft.old }
    ensures columns { draft_columns draft.new ≡ draft_columns draft.old }
{
    let ridden = ride(
        alloc,
        development,
        draft,
        client,
        point,
        edge,
        &next.variables,
    )?;
    let marks = match ridden {
        None => return Ok(None),
        Some(marks) => marks,
    };
    Ok(Some(Step {
        what: What::Moved { point, edge },
        marks,
        client: Client::In(next),
    }))
}

// A client's call returns these numbers from a point, once the riders there are done.
fn answer(
    alloc: Global,
    development: &Development,
    draft: &mut Draft,
    client: u32,
    point: PointId,
    env: &Env,
    numbers: Vec<i64>,
) -> Result<Option<Step>, StepFault>
    requires seen { AreRidersSeen (development_view development.now) point.0 Next (variable_count env.now) }
    requires columns { draft_columns draft.old ≡ column_count (first_system (development_view development.now)) }
    requires few { length numbers.items ≤ reply_limit }
    ensures behind { IsBehind (development_view development.now) client point.0 env.now.values.items Next (written_in_draft draft.old) (Answers numbers.items) (written_in_draft draft.new) result }
    ensures saved { saved_in_draft draft.new ≡ saved_in_draft draft.old }
    ensures columns { draft_columns draft.new ≡ draft_columns draft.old }
{
    let system = system_columns(development);
    let ridden = ride(
        alloc,
        development,
        draft,
        client,
        point,
        EdgeKind::Next,
        env,
    )?;
    let marks = match ridden {
        None => return Ok(None),
        Some(marks) => marks,
    };
    if !end_call(draft, system, client, &numbers)? {
        return Ok(None);
    }
    Ok(Some(Step {
        what: What::Returned(numbers),
        marks,
        client: Client::Idle,
    }))
}

// What is done after an instruction of a client at this place that goes by an edge to this fate.
fn follow(
    alloc: Global,
    development: &Development,
    draft: &mut Draft,
    client: u32,
    place: &Place,
    edge: EdgeKind,
    fate: Fate,
) -> Result<Option<Step>, StepFault>
    requires seen { let outcome = outcome_of fate in
        AreRidersSeen (development_view development.now) place.now.point.0 (rider_edge edge outcome) (length (rider_variables (variables_of place.now) outcome)) }
    requires columns { draft_columns draft.old ≡ column_count (first_system (development_view development.now)) }
    requires reached { IsReached (development_view development.now).object (outcome_of fate) }
    ensures behind { IsBehind (development_view development.now) client place.now.point.0 (variables_of place.now) edge (written_in_draft draft.old) (outcome_of fate) (written_in_draft draft.new) result }
    ensures saved { saved_in_draft draft.new ≡ saved_in_draft draft.old }
    ensures columns { draft_columns draft.new ≡ draft_columns draft.old }
{
    match fate {
        Fate::Goes(next) => go(alloc, development, draft, client, place.point, edge, next),
        Fate::Answers(numbers) => answer(
            alloc,
            development,
            draft,
            client,
            place.point,
            &place.variables,
            numbers,
        ),
    }
}

// What the instruction at a client's place does in the columns that are written to a draft.
fn effect_in(
    alloc: Global,
    development: &Development,
    draft: &Draft,
    place: &Place,
) -> Result<Effect, StepFault>
    requires columns { draft_columns draft.now ≡ column_count (first_system (development_view development.now)) }
    requires placed { is_placed (development_view development.now).object (In place.now.point.0 (variables_of place.now)) ≡ true }
    ensures effect { IsEffectHere (development_view development.now).object place.now.point.0 (variables_of place.now) (written_in_draft draft.now) result }
    ensures within { IfOk result (λ done. AreWithin (draft_columns draft.now) (writes_in done)) }
    ensures seen { IfOk result (λ done. let outcome = outcome_of done.fate in
        AreRidersSeen (development_view development.now) place.now.point.0 (rider_edge done.edge outcome) (length (rider_variables (variables_of place.now) outcome))) }
{
    effect(alloc, &development.parts().object, draft.state(), place)
}

// The step of a client that is at this place.
fn step_from(
    alloc: Global,
    development: &Development,
    draft: &mut Draft,
    client: u32,
    place: &Place,
) -> Result<Option<Step>, StepFault>
    requires columns { draft_columns draft.old ≡ column_count (first_system (development_view development.now)) }
    requires placed { is_placed (development_view development.now).object (In place.now.point.0 (variables_of place.now)) ≡ true }
    ensures stepped { (w : World) → w.columns ≡ written_in_draft draft.old → IsClient w client (In place.now.point.0 (variables_of place.now)) →
        IsAdvanced (development_view development.now) w client (written_in_draft draft.new) result }
    ensures placed { IfOk result (λ found. IfSome found (λ step. is_placed (development_view development.now).object (client_of step.client) ≡ true)) }
    ensures saved { saved_in_draft draft.new ≡ saved_in_draft draft.old }
    ensures columns { draft_columns draft.new ≡ draft_columns draft.old }
{
    riders_are_done();
    let done = effect_in(alloc, development, draft, place)?;
    draft.write_all(&done.writes)?;
    follow(
        alloc,
        development,
        draft,
        client,
        place,
        done.edge,
        done.fate,
    )
}

/// The step of a client that is in a call, in the state that is saved: what its instruction does, then the riders beside its
/// edge, and of a return whether its numbers are justified. None is returned if a mark is not lawful or a return not
/// justified. What is stored is written to the draft, and nothing is saved; if there is no step the draft is to be rolled
/// back, as the next call does.
pub fn advance(
    alloc: Global,
    development: &Development,
    draft: &mut Draft,
    clients: &[Client],
    client: u32,
) -> Result<Option<Step>, StepFault>
    requires columns { draft_columns draft.old ≡ column_count (first_system (development_view development.now)) }
    requires placed { are_placed (development_view development.now).object (clients_of clients.now) ≡ true }
    ensures advanced { IsAdvanced (development_view development.now) (world_in draft.old clients.now) client (written_in_draft draft.new) result }
    ensures placed { IfOk result (λ found. IfSome found (λ step. is_placed (development_view development.now).object (client_of step.client) ≡ true)) }
    ensures saved { saved_in_draft draft.new ≡ saved_in_draft draft.old }
    ensures columns { draft_columns draft.new ≡ draft_columns draft.old }
{
    draft.roll_back();
    match client_at(clients, client) {
        None => Err(StepFault::NoClient),
        Some(Client::Idle) => Err(StepFault::Idle),
        Some(Client::In(place)) => step_from(alloc, development, draft, client, place),
    }
}
