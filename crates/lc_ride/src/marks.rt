//! The marks that riders make, and what each of them stores.
ghost use Rattle.std.specs.Prelude.{◌≡◌, ◌+◌, ◌<◌, ◌≤◌, ◌^◌, ◌++◌, map, pos, OnOk, IfOk, OkIff, FitsSigned};
ghost use Rattle.std.specs.Int.{w64};
ghost use Rattle.std.specs.Ordering.{int_eq};
ghost use Rattle.lc_term.specs.State.{state_of, column_count};
ghost use Rattle.lc_term.specs.SystemColumns as columns;
ghost use Rattle.lc_term.specs.Updates.{cell_writes, AreWithin};
ghost use Rattle.lc_term.specs.UpdateView.{writes_view};
ghost use Rattle.lc_action.specs.ActionView.{first_of};
ghost use Rattle.lc_rider.specs.Rider.{mark_writes, note_writes};

use lc_action::SystemColumns;
use lc_base::{ColId, OutOfMemory};
use lc_seq::Pick;
use lc_term::{EvalFault, State, Write};
use std::alloc::Global;

/// A mark that was made: whose call, whether by a note, how its branch was chosen, and the reply.
pub struct Mark {
    pub client: u64,
    pub note: bool,
    pub choice: Pick,
    pub reply: Vec<i64>,
}

// Written out, so that dropping a mark is one call.
impl Drop for Mark {
    fn drop(self) {
        let Mark {
            client: _,
            note: _,
            choice: _,
            reply: _,
        } = self;
    }
}

// Appends writes of numbers to a cell of columns, one to each, to other writes.
fn push_writes(
    columns: &[ColId],
    index: i64,
    numbers: &[i64],
    writes: &mut Vec<Write>,
) -> Result<(), OutOfMemory>
    ensures { OnOk result (writes_view writes.new.items ≡ writes_view writes.old.items ++ cell_writes (map (λ c. c.0) columns.now) index numbers.now) }
{
    for (i, column) in columns.iter().enumerate() {
        let Some(number) = numbers.get(i) else {
            return Ok(());
        };
        writes.push(Write {
            column: *column,
            index,
            value: *number,
        })?;
    }
    Ok(())
}

/// What a mark stores of a client's call that replies this.
pub(crate) fn mark_writes(
    alloc: Global,
    system: SystemColumns,
    client: u64,
    reply: &[i64],
) -> Result<Vec<Write>, OutOfMemory>
    requires { client < 2 ^ 63 }
    ensures { IfOk result (λ writes. writes_view writes.items ≡ mark_writes (first_of system) client reply.now) }
{
    let mut writes = Vec::new(alloc);
    push_writes(&system.replies(), client as i64, reply, &mut writes)?;
    push_writes(&[system.pend()], client as i64, &[2], &mut writes)?;
    Ok(writes)
}

/// What a note stores of a client's call that would reply this.
pub(crate) fn note_writes(
    alloc: Global,
    system: SystemColumns,
    client: u64,
    reply: &[i64],
) -> Result<Vec<Write>, OutOfMemory>
    requires { client < 2 ^ 63 }
    ensures { IfOk result (λ writes. writes_view writes.items ≡ note_writes (first_of system) client reply.now) }
{
    let mut writes = Vec::new(alloc);
    push_writes(&[system.noted()], client as i64, &[1], &mut writes)?;
    push_writes(&system.notes(), client as i64, reply, &mut writes)?;
    Ok(writes)
}

/// Whether a client's cell of a column holds a number.
pub(crate) fn stands(
    state: &State,
    column: ColId,
    client: u64,
    number: i64,
) -> Result<bool, EvalFault>
    requires column { column.0 < column_count state.now }
    requires client { client < 2 ^ 63 }
    ensures { let cell = state_of state.now column.0 (pos client) in OkIff result (FitsSigned w64 cell) (int_eq cell number) }
{
    Ok(state.read(column, client as i64)? == number)
}
