//! What is under the lock of a runner at first.
ghost use Rattle.std.specs.Prelude.{◌≡◌, IfOk, replicate};
ghost use Rattle.lc_ride.specs.Drafts.{saved_in_draft, draft_columns};
ghost use Rattle.lc_term.specs.SystemColumns.{column_count};
ghost use Rattle.lc_machine.specs.View.{clients_of};
ghost use Rattle.lc_machine.specs.World.{Idle};
ghost use Rattle.lc_outline.specs.Development.{first_system, start_columns};
ghost use Rattle.lc_check.specs.VerdictView.{development_in};

use lc_base::OutOfMemory;
use lc_check::Accepted;
use lc_machine::Client;
use lc_ride::Draft;
use lc_steps::start;
use std::alloc::Global;

/// The columns of a development in which nothing is written, as a draft.
pub(crate) fn start_draft(alloc: Global, accepted: &Accepted) -> Result<Draft, OutOfMemory>
    ensures saved { IfOk result (λ draft. saved_in_draft draft ≡ start_columns (development_in accepted.now)) }
    ensures columns { IfOk result (λ draft. draft_columns draft ≡ column_count (first_system (development_in accepted.now))) }
{
    let state = start(alloc, accepted.development())?;
    Ok(Draft::new(alloc, state))
}

/// `count` clients in no call.
pub fn idle_clients(alloc: Global, count: u32) -> Result<Vec<Client>, OutOfMemory>
    ensures { IfOk result (λ clients. clients_of clients.items ≡ replicate count Idle) }
{
    let mut clients = Vec::with_capacity(alloc, count as usize)?;
    for _ in 0..count {
        clients.push(Client::Idle)?;
    }
    Ok(clients)
}
