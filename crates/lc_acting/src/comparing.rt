//! Whether writes leave other columns than others do.
ghost use Rattle.std.specs.Prelude.{◌≡◌, ◌<◌, ◌++◌, ◌∷◌, [], List, FitsSigned, MatchOption, option_map};
ghost use Rattle.std.specs.Int.{w64};
ghost use Rattle.lc_term.specs.State.{state_of, column_count};
ghost use Rattle.lc_term.specs.UpdateView.{write_view, writes_view};
ghost use Rattle.lc_term.specs.Updates as U;
ghost use Rattle.lc_term.specs.Updates.{stored_all, AreWithin};
ghost use Rattle.lc_cells.specs.Cells.{is_cell};
ghost use Rattle.lc_acting.specs.Attempts.{SaysSo};
ghost use Rattle.lc_acting.specs.Left.{LeaveCell, IsLeft, SaysApart};

use lc_term::{State, Write};

// Whether a write is to the cell of another.
fn is_to(write: Write, at: Write) -> bool
    ensures { result ≡ is_cell (write_view write) at.column.0 at.index }
{
    write.column == at.column && write.index == at.index
}

// The last write to the cell of another, if this one follows those of which it was found.
fn last_with(last: Option<Write>, write: Write, at: Write) -> Option<Write>
    ensures { (ws : List U.Write) → IsLeft ws at.column.0 at.index (option_map write_view last) → IsLeft (ws ++ write_view write ∷ []) at.column.0 at.index (option_map write_view result) }
{
    if is_to(write, at) { Some(write) } else { last }
}

// The last of these writes to the cell of another.
fn last_in(writes: &[Write], at: Write) -> Option<Write>
    ensures { IsLeft (writes_view writes.now) at.column.0 at.index (option_map write_view result) }
{
    let mut last = None;
    for write in writes {
        last = last_with(last, *write, at);
    }
    last
}

// The number in the cell of a write before it, if that fits.
fn number_before(state: &State, at: Write) -> Option<i64>
    requires { at.column.0 < column_count state.now }
    ensures { let cell = state_of state.now at.column.0 at.index in MatchOption result (FitsSigned w64 cell → ⊥) (λ n. cell ≡ n) }
{
    match state.read(at.column, at.index) {
        Ok(number) => Some(number),
        Err(_) => None,
    }
}

// The number in the cell of a write after others, if that fits.
fn number_after(writes: &[Write], state: &State, at: Write) -> Option<i64>
    requires { at.column.0 < column_count state.now }
    ensures { let cell = stored_all (state_of state.now) (writes_view writes.now) at.column.0 at.index in MatchOption result (FitsSigned w64 cell → ⊥) (λ n. cell ≡ n) }
{
    match last_in(writes, at) {
        Some(write) => Some(write.value),
        None => number_before(state, at),
    }
}

// Whether the first writes, of which one is to the cell of a write, leave another number there than the others do.
fn differ_at(first: &[Write], second: &[Write], state: &State, at: Write) -> bool
    requires there { at.column.0 < column_count state.now }
    requires written { LeaveCell (writes_view first.now) at.column.0 at.index → ⊥ }
    ensures { let s = state_of state.now in
        SaysSo result (stored_all s (writes_view first.now) at.column.0 at.index ≡ stored_all s (writes_view second.now) at.column.0 at.index → ⊥) }
{
    match last_in(first, at) {
        None => false,
        Some(write) => match number_after(second, state, at) {
            None => true,
            Some(number) => write.value != number,
        },
    }
}

// Whether the first writes leave another number than the others do in a cell that they are to.
fn differ_in(first: &[Write], second: &[Write], state: &State) -> bool
    requires { AreWithin (column_count state.now) (writes_view first.now) }
    ensures { SaysApart result (state_of state.now) (writes_view first.now) (writes_view second.now) }
{
    for write in first {
        let differ = differ_at(first, second, state, *write);
        if differ {
            return true;
        }
    }
    false
}

/// Whether writes leave other columns than others do.
pub(crate) fn are_apart(first: &[Write], second: &[Write], state: &State) -> bool
    requires first { AreWithin (column_count state.now) (writes_view first.now) }
    requires second { AreWithin (column_count state.now) (writes_view second.now) }
    ensures { SaysSo result (stored_all (state_of state.now) (writes_view first.now) ≡ stored_all (state_of state.now) (writes_view second.now) → ⊥) }
{
    if differ_in(first, second, state) {
        return true;
    }
    differ_in(second, first, state)
}
