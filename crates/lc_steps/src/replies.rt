//! Returns, and what is stored of their numbers.
ghost use Rattle.std.specs.Prelude.{◌≡◌, ◌≤◌, ◌<◌, length, pos, OkIff, FitsSigned};
ghost use Rattle.std.specs.Int.{w64};
ghost use Rattle.std.specs.Ordering.{int_eq};
ghost use Rattle.std.specs.Cmp.Lexicographic.{pointwise};
ghost use Rattle.lc_base.specs.Limits.{reply_limit};
ghost use Rattle.lc_ride.specs.Drafts.{written_in_draft, saved_in_draft, draft_columns};
ghost use Rattle.lc_term.specs.State.{state_of, column_count};
ghost use Rattle.lc_term.specs.SystemColumns as columns;
ghost use Rattle.lc_term.specs.Updates.{row};
ghost use Rattle.lc_term.specs.UpdateView.{writes_view};
ghost use Rattle.lc_rider.specs.Rider.{return_writes};
ghost use Rattle.lc_object.specs.View.{columns_of};
ghost use Rattle.lc_action.specs.ActionView.{first_of};
ghost use Rattle.lc_machine.specs.Below.{AreBelow};
ghost use Rattle.lc_machine.specs.Fits.{ComparisonFits};
ghost use Rattle.lc_steps.specs.Replies.{stand_in, StandFits, is_noted, NoteFits, is_justified, ReplyFits};
ghost use Rattle.lc_steps.specs.StepParts.{IsReturned};

use lc_action::SystemColumns;
use lc_base::ColId;
use lc_machine::StepFault;
use lc_ride::Draft;
use lc_term::{EvalFault, State, Write};

// The number in a client's cell of a column.
fn cell(state: &State, column: ColId, client: u32) -> Result<i64, EvalFault>
    requires { column.0 < column_count state.now }
    ensures { let cell = state_of state.now column.0 (pos client) in OkIff result (FitsSigned w64 cell) cell }
{
    state.read(column, i64::from(client))
}

// Whether a client's cells of columns hold these numbers, one in each. They are read up to the first that differs.
fn is_row(state: &State, columns: &[ColId], client: u32, numbers: &[i64]) -> Result<bool, EvalFault>
    requires each { length columns.now ≡ length numbers.now }
    requires there { AreBelow (column_count state.now) (columns_of columns.now) }
    ensures { let s = state_of state.now in
        let cs = columns_of columns.now in
        OkIff result (ComparisonFits s cs (pos client) numbers.now) (pointwise int_eq (row s cs (pos client)) numbers.now) }
{
    for (i, column) in columns.iter().enumerate() {
        if cell(state, *column, client)? != numbers[i] {
            return Ok(false);
        }
    }
    Ok(true)
}

// Whether these numbers are noted of a client's call.
fn is_noted(
    state: &State,
    system: SystemColumns,
    client: u32,
    numbers: &[i64],
) -> Result<bool, EvalFault>
    requires there { columns.column_count (first_of system) ≤ column_count state.now }
    requires few { length numbers.now ≤ reply_limit }
    ensures { OkIff result (NoteFits (first_of system) (state_of state.now) client numbers.now) (is_noted (first_of system) (state_of state.now) client numbers.now) }
{
    let flag = cell(state, system.noted(), client)?;
    if flag != 1 {
        return Ok(false);
    }
    let columns = system.notes();
    let columns = &columns[..numbers.len()];
    is_row(state, columns, client, numbers)
}

// Whether these numbers are what a mark stored of a client's call.
fn is_marked(
    state: &State,
    system: SystemColumns,
    client: u32,
    numbers: &[i64],
) -> Result<bool, EvalFault>
    requires there { columns.column_count (first_of system) ≤ column_count state.now }
    requires few { length numbers.now ≤ reply_limit }
    ensures { OkIff result (StandFits (first_of system) (state_of state.now) client numbers.now (columns.rep_columns (first_of system))) (stand_in (first_of system) (state_of state.now) client numbers.now (columns.rep_columns (first_of system))) }
{
    let columns = system.replies();
    let columns = &columns[..numbers.len()];
    is_row(state, columns, client, numbers)
}

// Whether a return's numbers are what a mark or a note stored of the client's call.
fn is_justified(
    state: &State,
    system: SystemColumns,
    client: u32,
    numbers: &[i64],
) -> Result<bool, EvalFault>
    requires there { columns.column_count (first_of system) ≤ column_count state.now }
    requires few { length numbers.now ≤ reply_limit }
    ensures { OkIff result (ReplyFits (first_of system) (state_of state.now) client numbers.now) (is_justified (first_of system) (state_of state.now) client numbers.now) }
{
    let stage = cell(state, system.pend(), client)?;
    if stage == 2 {
        is_marked(state, system, client, numbers)
    } else if stage == 1 {
        is_noted(state, system, client, numbers)
    } else {
        Ok(false)
    }
}

// What a return stores.
fn return_writes(system: SystemColumns, client: u32) -> [Write; 1]
    ensures { writes_view result ≡ return_writes (first_of system) client }
{
    [Write {
        column: system.pend(),
        index: i64::from(client),
        value: 0,
    }]
}

/// A client's call returns these numbers, if they are justified.
pub(crate) fn end_call(
    draft: &mut Draft,
    system: SystemColumns,
    client: u32,
    numbers: &[i64],
) -> Result<bool, StepFault>
    requires there { columns.column_count (first_of system) ≤ draft_columns draft.old }
    requires few { length numbers.now ≤ reply_limit }
    ensures returned { IsReturned (first_of system) (written_in_draft draft.old) client numbers.now (written_in_draft draft.new) result }
    ensures saved { saved_in_draft draft.new ≡ saved_in_draft draft.old }
    ensures columns { draft_columns draft.new ≡ draft_columns draft.old }
{
    if !is_justified(draft.state(), system, client, numbers)? {
        return Ok(false);
    }
    draft.write_all(&return_writes(system, client))?;
    Ok(true)
}
