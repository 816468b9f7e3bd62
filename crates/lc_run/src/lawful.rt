//! The steps of clients of an accepted development, while a run of it is held: each mark is lawful there, and each return
//! justified.
ghost use Rattle.std.specs.Prelude.{◌≡◌, ◌↔◌, ◌<◌, Some, true, IsTrue, slice_get, IfOk, IfErr};
ghost use Rattle.lc_run.specs.Limits.{label_limit};
ghost use Rattle.lc_ride.specs.Drafts.{written_in_draft, saved_in_draft, draft_columns};
ghost use Rattle.lc_term.specs.SystemColumns.{column_count};
ghost use Rattle.lc_machine.specs.Answered.{IsInCall};
ghost use Rattle.lc_machine.specs.Placed.{is_placed, are_placed};
ghost use Rattle.lc_machine.specs.Step.{Invoked};
ghost use Rattle.lc_machine.specs.View.{client_of, clients_of};
ghost use Rattle.lc_machine.specs.World.{Idle};
ghost use Rattle.lc_outline.specs.Development.{first_system};
ghost use Rattle.lc_outline.specs.DevelopmentView.{development_view};
ghost use Rattle.lc_ride.specs.RideView.{marks_of};
ghost use Rattle.lc_sound.specs.Instrumented.{Instrumented};
ghost use Rattle.lc_steps.specs.StepView.{what_of, world_in, GoesOn, MayBegin};
ghost use Rattle.lc_steps.specs.Stepping.{world_with};
ghost use Rattle.lc_check.specs.VerdictView.{development_in};
ghost use Rattle.lc_run.specs.Held.{IsHeld};
ghost use Rattle.lc_run.specs.Taken.{fault_as, IsUntold, StandsIn, MayStep, MayCall};

use crate::fault::RunFault;
use crate::label::Label;
use crate::limits::LABEL_LIMIT;
use lc_base::OpId;
use lc_check::Accepted;
use lc_machine::{Client, StepFault};
use lc_outline::Development;
use lc_ride::Draft;
use lc_steps::{Step, advance, begin, body_of, client_at};
use std::alloc::Global;

// A fault of a step, as one of a run.
fn run_fault(fault: StepFault) -> RunFault
    ensures { result ≡ fault_as fault }
{
    match fault {
        StepFault::NoClient => RunFault::Mismatch,
        StepFault::Busy => RunFault::Busy,
        StepFault::Idle => RunFault::Idle,
        StepFault::NoOp => RunFault::NoOp,
        StepFault::Arity => RunFault::Arity,
        StepFault::Overflow => RunFault::Overflow,
        StepFault::OutOfMemory => RunFault::OutOfMemory,
    }
}

// Whether there is the client of this number, in a call.
fn is_in_call(clients: &[Client], client: u32) -> bool
    ensures { IsTrue result ↔ StandsIn (clients_of clients.now) client }
{
    match client_at(clients, client) {
        Some(Client::In(_)) => true,
        Some(Client::Idle) | None => false,
    }
}

// Whether there is the client of this number, in no call.
fn is_idle(clients: &[Client], client: u32) -> bool
    ensures { IsTrue result ↔ (slice_get (clients_of clients.now) client ≡ Some Idle) }
{
    match client_at(clients, client) {
        Some(Client::Idle) => true,
        Some(Client::In(_)) | None => false,
    }
}

/// Whether a client may take a step of its call, with `held` labels held, or why not.
pub(crate) fn may_step(clients: &[Client], client: u32, held: usize) -> Result<(), RunFault>
    ensures may { MayStep (clients_of clients.now) client held result }
    ensures room { IfOk result (λ _. held < label_limit) }
{
    if !is_in_call(clients, client) {
        return Err(RunFault::Mismatch);
    }
    if held >= LABEL_LIMIT {
        return Err(RunFault::Full);
    }
    Ok(())
}

/// Whether a client may begin a call of an operation with these numbers, with `held` labels held, or why not.
pub(crate) fn may_call(
    development: &Development,
    clients: &[Client],
    client: u32,
    operation: OpId,
    numbers: &[i64],
    held: usize,
) -> Result<(), RunFault>
    ensures may { MayCall (development_view development.now) (clients_of clients.now) client operation.0 numbers.now held result }
    ensures room { IfOk result (λ _. held < label_limit) }
{
    let Some(body) = body_of(development, operation) else {
        return Err(RunFault::NoOp);
    };
    if numbers.len() != body.arguments.len() {
        return Err(RunFault::Arity);
    }
    if !is_idle(clients, client) {
        return Err(RunFault::Mismatch);
    }
    if held >= LABEL_LIMIT {
        return Err(RunFault::Full);
    }
    Ok(())
}

/// The next step of a client in a call, with these labels held.
pub(crate) fn lawful_step(
    alloc: Global,
    accepted: &Accepted,
    count: u32,
    _labels: &[Label],
    draft: &mut Draft,
    clients: &[Client],
    client: u32,
) -> Result<Step, RunFault>
    requires held { ∥ IsHeld accepted.now count _labels.now draft.old clients.now ∥₁ }
    requires columns { draft_columns draft.old ≡ column_count (first_system (development_in accepted.now)) }
    requires placed { are_placed (development_in accepted.now).object (clients_of clients.now) ≡ true }
    requires call { IsInCall (world_in draft.old clients.now) client }
    ensures step { IfOk result (λ step. Instrumented (development_in accepted.now) (world_in draft.old clients.now) client (what_of step.what) (marks_of step.marks.items)
        (world_with (world_in draft.old clients.now) (written_in_draft draft.new) client (client_of step.client))) }
    ensures kind { IfOk result (λ step. GoesOn (what_of step.what)) }
    ensures placed { IfOk result (λ step. is_placed (development_in accepted.now).object (client_of step.client) ≡ true) }
    ensures fault { IfErr result (IsUntold (development_in accepted.now) (world_in draft.old clients.now) client) }
    ensures saved { saved_in_draft draft.new ≡ saved_in_draft draft.old }
    ensures columns { draft_columns draft.new ≡ draft_columns draft.old }
{
    match advance(alloc, accepted.development(), draft, clients, client) {
        Ok(Some(step)) => Ok(step),
        Ok(None) => unreachable!(),
        Err(fault) => Err(run_fault(fault)),
    }
}

/// The call that a client begins which may begin it.
pub(crate) fn begun_step(
    alloc: Global,
    accepted: &Accepted,
    draft: &mut Draft,
    clients: &[Client],
    client: u32,
    operation: OpId,
    numbers: &[i64],
) -> Result<Step, RunFault>
    requires columns { draft_columns draft.old ≡ column_count (first_system (development_in accepted.now)) }
    requires may { MayBegin (development_in accepted.now) (world_in draft.old clients.now) client operation.0 numbers.now }
    ensures step { IfOk result (λ step. Instrumented (development_in accepted.now) (world_in draft.old clients.now) client (what_of step.what) (marks_of step.marks.items)
        (world_with (world_in draft.old clients.now) (written_in_draft draft.new) client (client_of step.client))) }
    ensures kind { IfOk result (λ step. what_of step.what ≡ Invoked operation.0 numbers.now) }
    ensures placed { IfOk result (λ step. is_placed (development_in accepted.now).object (client_of step.client) ≡ true) }
    ensures fault { IfErr result (λ fault. fault ≡ RunFault.OutOfMemory) }
    ensures saved { saved_in_draft draft.new ≡ saved_in_draft draft.old }
    ensures columns { draft_columns draft.new ≡ draft_columns draft.old }
{
    match begin(
        alloc,
        accepted.development(),
        draft,
        clients,
        client,
        operation,
        numbers,
    ) {
        Ok(step) => Ok(step),
        Err(fault) => Err(run_fault(fault)),
    }
}
