//! Rows of an array: reading, comparing and writing them.
ghost use Rattle.std.specs.Prelude.{◌≡◌, ◌≤◌, length, OkIff};
ghost use Rattle.std.specs.Ordering.{int_eq};
ghost use Rattle.std.specs.Cmp.Lexicographic.{pointwise};
ghost use Rattle.lc_base.specs.Limits.{local_limit, width_limit};
ghost use Rattle.lc_object.specs.View.{columns_of};
ghost use Rattle.lc_term.specs.State.{state_of, column_count};
ghost use Rattle.lc_term.specs.Computed.{IsComputed, overflow_says};
ghost use Rattle.lc_term.specs.Updates.{cell_writes};
ghost use Rattle.lc_term.specs.UpdateView.{writes_view};
ghost use Rattle.lc_machine.specs.Step.{row};
ghost use Rattle.lc_machine.specs.Fits.{RowFits, ComparisonFits};
ghost use Rattle.lc_machine.specs.Below.{AreBelow};

use crate::numbers::Numbers;
use arrayvec::ArrayVec;
use lc_base::{ColId, WIDTH_LIMIT};
use lc_term::{EvalFault, State, Write};

/// The numbers in a row: what this cell of each column holds.
pub(crate) fn read_row(state: &State, columns: &[ColId], index: i64) -> Result<Numbers, EvalFault>
    requires few { length columns.now ≤ local_limit }
    requires there { AreBelow (column_count state.now) (columns_of columns.now) }
    ensures { let s = state_of state.now in
        let cs = columns_of columns.now in
        IsComputed overflow_says (λ numbers. numbers.items) (RowFits s cs index) (row s cs index) result }
{
    let mut numbers = ArrayVec::new();
    for column in columns {
        numbers.push(state.read(*column, index)?);
    }
    Ok(numbers)
}

/// Whether a row holds these numbers. The columns are read up to the first that differs.
pub(crate) fn is_row(
    state: &State,
    columns: &[ColId],
    index: i64,
    numbers: &[i64],
) -> Result<bool, EvalFault>
    requires each { length columns.now ≡ length numbers.now }
    requires there { AreBelow (column_count state.now) (columns_of columns.now) }
    ensures { let s = state_of state.now in
        let cs = columns_of columns.now in
        OkIff result (ComparisonFits s cs index numbers.now) (pointwise int_eq (row s cs index) numbers.now) }
{
    for (i, column) in columns.iter().enumerate() {
        if state.read(*column, index)? != numbers[i] {
            return Ok(false);
        }
    }
    Ok(true)
}

/// The writes of numbers to a row.
pub(crate) fn row_writes(
    columns: &[ColId],
    index: i64,
    numbers: &[i64],
) -> ArrayVec<Write, WIDTH_LIMIT>
    requires few { length columns.now ≤ width_limit }
    requires each { length columns.now ≡ length numbers.now }
    ensures { writes_view result.items ≡ cell_writes (columns_of columns.now) index numbers.now }
{
    let mut writes = ArrayVec::new();
    for (i, column) in columns.iter().enumerate() {
        writes.push(Write {
            column: *column,
            index,
            value: numbers[i],
        });
    }
    writes
}
