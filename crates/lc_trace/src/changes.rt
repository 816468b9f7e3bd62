//! The cells that a step changes.
ghost use Rattle.std.specs.Prelude.{◌≡◌, ◌<◌, ◌↔◌, Some, IfOk, IsTrue, OnOk};
ghost use Rattle.lc_term.specs.State.{state_of, column_count};
ghost use Rattle.lc_term.specs.UpdateView.{writes_view};
ghost use Rattle.lc_ride.specs.Drafts.{written_in_draft, saved_in_draft, draft_columns};
ghost use Rattle.lc_trace.specs.Changes.{Changes, IsTakenOver, one_more};

use crate::fault::TraceFault;
use lc_ride::Draft;
use lc_term::{State, Write};
use std::alloc::Global;

// Whether a cell holds this number.
fn holds(state: &State, write: Write) -> bool
    requires { write.column.0 < column_count state.now }
    ensures { IsTrue result ↔ (state_of state.now write.column.0 write.index ≡ write.value) }
{
    match state.read(write.column, write.index) {
        Ok(number) => number == write.value,
        Err(_) => false,
    }
}

// A cell gets the number that it has in another state. If it had another, this is what is written.
fn take_over(after: &State, state: &mut State, cell: Write) -> Result<Option<Write>, TraceFault>
    requires there { cell.column.0 < column_count state.old }
    requires after { cell.column.0 < column_count after.now }
    ensures taken { IfOk result (IsTakenOver (state_of after.now) (state_of state.old) (state_of state.new) cell.column.0 cell.index) }
    ensures columns { column_count state.new ≡ column_count state.old }
{
    let Ok(value) = after.read(cell.column, cell.index) else {
        return Err(TraceFault::Mismatch);
    };
    let write = Write {
        column: cell.column,
        index: cell.index,
        value,
    };
    if holds(state, write) {
        return Ok(None);
    }
    state.write(write.column, write.index, write.value)?;
    Ok(Some(write))
}

// Appends a cell, if there is one.
fn push_found(cells: &mut Vec<Write>, found: Option<Write>) -> Result<(), TraceFault>
    ensures { OnOk result (cells.new.items ≡ one_more found cells.old.items) }
{
    if let Some(cell) = found {
        cells.push(cell)?;
    }
    Ok(())
}

/// The cells in which what is written to a draft differs from what is saved in it, in the order in which they were written first. The
/// state, which is as it is saved, becomes what is written.
pub(crate) fn changes(
    alloc: Global,
    draft: &Draft,
    state: &mut State,
) -> Result<Vec<Write>, TraceFault>
    requires saved { state_of state.old ≡ saved_in_draft draft.now }
    requires columns { column_count state.old ≡ draft_columns draft.now }
    ensures changed { IfOk result (λ cells. Changes (written_in_draft draft.now) (saved_in_draft draft.now) (writes_view cells.items)) }
    ensures written { OnOk result (state_of state.new ≡ written_in_draft draft.now) }
    ensures columns { column_count state.new ≡ draft_columns draft.now }
{
    let mut cells = Vec::new(alloc);
    let after = draft.state();
    let writes = draft.writes();
    for write in writes {
        let found = take_over(after, state, *write)?;
        push_found(&mut cells, found)?;
    }
    Ok(cells)
}
