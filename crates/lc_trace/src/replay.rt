//! A run that is gone through again, label by label.
ghost use Rattle.std.specs.Prelude.{◌≡◌, true, IfOk, OnOk};
ghost use Rattle.lc_term.specs.SystemColumns.{column_count};
ghost use Rattle.lc_term.specs.UpdateView.{writes_view};
ghost use Rattle.lc_machine.specs.Placed.{is_placed, are_placed};
ghost use Rattle.lc_machine.specs.View.{client_of, clients_of};
ghost use Rattle.lc_outline.specs.Development.{first_system};
ghost use Rattle.lc_outline.specs.DevelopmentView.{development_view};
ghost use Rattle.lc_ride.specs.Drafts.{written_in_draft, saved_in_draft, draft_columns};
ghost use Rattle.lc_ride.specs.RideView.{marks_of};
ghost use Rattle.lc_sound.specs.Instrumented.{Instrumented, start_world};
ghost use Rattle.lc_steps.specs.StepView.{what_of, world_in};
ghost use Rattle.lc_steps.specs.Stepping.{world_with};
ghost use Rattle.lc_trace.specs.Changes.{Changes};
ghost use Rattle.lc_trace.specs.Replays.{IsReady, world_of};

use crate::changes::changes;
use crate::fault::TraceFault;
use lc_base::OutOfMemory;
use lc_machine::Client;
use lc_outline::Development;
use lc_ride::Draft;
use lc_run::{Label, idle_clients, is_same_label};
use lc_steps::{Step, What, advance, begin, start};
use lc_term::{State, Write};
use std::alloc::Global;

/// Where a run is that is gone through again: the columns, twice, and the clients.
pub(crate) struct Replay {
    draft: Draft,
    columns: State,
    clients: Vec<Client>,
}

// Written out, so that dropping one is one call.
impl Drop for Replay {
    fn drop(self) {
        let Replay {
            draft: _,
            columns: _,
            clients: _,
        } = self;
    }
}

/// Nothing has run yet.
pub(crate) fn first_replay(
    alloc: Global,
    development: &Development,
    clients: u32,
) -> Result<Replay, OutOfMemory>
    ensures ready { IfOk result (IsReady (development_view development.now)) }
    ensures start { IfOk result (λ replay. world_of replay ≡ start_world (development_view development.now) clients) }
{
    let columns = start(alloc, development)?;
    let draft = Draft::new(alloc, start(alloc, development)?);
    let clients = idle_clients(alloc, clients)?;
    Ok(Replay {
        draft,
        columns,
        clients,
    })
}

// The step that the client of a label takes, written to a draft.
fn next_step(
    alloc: Global,
    development: &Development,
    draft: &mut Draft,
    clients: &[Client],
    label: &Label,
) -> Result<Step, TraceFault>
    requires columns { draft_columns draft.old ≡ column_count (first_system (development_view development.now)) }
    requires placed { are_placed (development_view development.now).object (clients_of clients.now) ≡ true }
    ensures step { let w = world_in draft.old clients.now in
        IfOk result (λ step. Instrumented (development_view development.now) w label.now.client (what_of step.what) (marks_of step.marks.items)
        (world_with w (written_in_draft draft.new) label.now.client (client_of step.client))) }
    ensures placed { IfOk result (λ step. is_placed (development_view development.now).object (client_of step.client) ≡ true) }
    ensures saved { saved_in_draft draft.new ≡ saved_in_draft draft.old }
    ensures columns { draft_columns draft.new ≡ draft_columns draft.old }
{
    match &label.what {
        What::Invoked { operation, numbers } => Ok(begin(
            alloc,
            development,
            draft,
            clients,
            label.client,
            *operation,
            numbers,
        )?),
        What::Moved { .. } | What::Returned(_) => {
            match advance(alloc, development, draft, clients, label.client)? {
                Some(step) => Ok(step),
                None => Err(TraceFault::Mismatch),
            }
        }
    }
}

// Where the client of a label is after its step, which is written to a draft, if it is that of the label.
fn same_step(
    alloc: Global,
    development: &Development,
    draft: &mut Draft,
    clients: &[Client],
    label: &Label,
) -> Result<Client, TraceFault>
    requires columns { draft_columns draft.old ≡ column_count (first_system (development_view development.now)) }
    requires placed { are_placed (development_view development.now).object (clients_of clients.now) ≡ true }
    ensures step { let w = world_in draft.old clients.now in
        IfOk result (λ stand. Instrumented (development_view development.now) w label.now.client (what_of label.now.what) (marks_of label.now.marks.items)
        (world_with w (written_in_draft draft.new) label.now.client (client_of stand))) }
    ensures placed { IfOk result (λ stand. is_placed (development_view development.now).object (client_of stand) ≡ true) }
    ensures saved { saved_in_draft draft.new ≡ saved_in_draft draft.old }
    ensures columns { draft_columns draft.new ≡ draft_columns draft.old }
{
    let step = next_step(alloc, development, draft, clients, label)?;
    let (what, marks, stand) = step.into_parts();
    let again = Label {
        client: label.client,
        what,
        marks,
    };
    if !is_same_label(&again, label) {
        return Err(TraceFault::Mismatch);
    }
    Ok(stand)
}

/// A label's step is taken, and the cells that it changes are told.
pub(crate) fn take_again(
    alloc: Global,
    development: &Development,
    replay: &mut Replay,
    label: &Label,
) -> Result<Vec<Write>, TraceFault>
    requires { IsReady (development_view development.now) replay.old }
    ensures step { OnOk result (Instrumented (development_view development.now) (world_of replay.old) label.now.client (what_of label.now.what) (marks_of label.now.marks.items) (world_of replay.new)) }
    ensures changed { IfOk result (λ cells. Changes (saved_in_draft replay.new.draft) (saved_in_draft replay.old.draft) (writes_view cells.items)) }
    ensures ready { OnOk result (IsReady (development_view development.now) replay.new) }
{
    let stand = same_step(
        alloc,
        development,
        &mut replay.draft,
        &replay.clients,
        label,
    )?;
    let cells = changes(alloc, &replay.draft, &mut replay.columns)?;
    let place = label.client as usize;
    if place >= replay.clients.len() {
        return Err(TraceFault::Mismatch);
    }
    replay.draft.save();
    replay.clients[place] = stand;
    Ok(cells)
}
