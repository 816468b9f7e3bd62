//! Steps of a development's clients, on a draft of its columns.
ghost use Rattle.std.specs.Prelude.{◌≡◌, true, IfOk, IfSome};
ghost use Rattle.lc_machine.specs.Placed.{is_placed, are_placed};
ghost use Rattle.lc_machine.specs.View.{client_of, clients_of};
ghost use Rattle.lc_outline.specs.Development.{first_system, start_columns};
ghost use Rattle.lc_outline.specs.DevelopmentView.{development_view};
ghost use Rattle.lc_steps.specs.StepView.{world_in, IsAdvanced, IsBegun};
ghost use Rattle.lc_ride.specs.Drafts.{written_in_draft, saved_in_draft, draft_columns};
ghost use Rattle.lc_term.specs.State.{state_of, column_count as columns_of};
ghost use Rattle.lc_term.specs.SystemColumns.{column_count};

use lc_base::{OpId, OutOfMemory};
use lc_machine::{Client, StepFault};
use lc_outline::Development;
use lc_ride::Draft;
use lc_steps::{Step, advance, begin, start};
use lc_term::State;
use std::alloc::Global;

/// The instrumented step of a client in a call is returned, or why there is none. What is saved in the draft stays.
pub fn advancing(
    alloc: Global,
    development: &Development,
    draft: &mut Draft,
    clients: &[Client],
    client: u32,
) -> Result<Option<Step>, StepFault>
    requires columns { draft_columns draft.old ≡ column_count (first_system (development_view development.now)) }
    requires placed { are_placed (development_view development.now).object (clients_of clients.now) ≡ true }
    ensures advanced { IsAdvanced (development_view development.now) (world_in draft.old clients.now) client (written_in_draft draft.new) result }
    ensures placed { IfOk result (λ found. IfSome found (λ step. is_placed (development_view development.now).object (client_of step.client) ≡ true)) }
    ensures saved { saved_in_draft draft.new ≡ saved_in_draft draft.old }
    ensures columns { draft_columns draft.new ≡ draft_columns draft.old }
{
    advance(alloc, development, draft, clients, client)
}

/// A client in no call begins one of the operation `op` with these numbers, or the fault says why not. What is saved in the draft stays.
pub fn beginning(
    alloc: Global,
    development: &Development,
    draft: &mut Draft,
    clients: &[Client],
    client: u32,
    op: OpId,
    numbers: &[i64],
) -> Result<Step, StepFault>
    requires { draft_columns draft.old ≡ column_count (first_system (development_view development.now)) }
    ensures begun { IsBegun (development_view development.now) (world_in draft.old clients.now) client op.0 numbers.now (written_in_draft draft.new) result }
    ensures placed { IfOk result (λ step. is_placed (development_view development.now).object (client_of step.client) ≡ true) }
    ensures saved { saved_in_draft draft.new ≡ saved_in_draft draft.old }
    ensures columns { draft_columns draft.new ≡ draft_columns draft.old }
{
    begin(alloc, development, draft, clients, client, op, numbers)
}

/// The columns of a development in which nothing is written, with the system columns after them.
pub fn starting(alloc: Global, development: &Development) -> Result<State, OutOfMemory>
    ensures state { IfOk result (λ state. state_of state ≡ start_columns (development_view development.now)) }
    ensures columns { IfOk result (λ state. columns_of state ≡ column_count (first_system (development_view development.now))) }
{
    start(alloc, development)
}
