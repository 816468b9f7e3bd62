//! States and environments: the numbers of columns and of variables.
ghost use Rattle.std.specs.Prelude.{◌≡◌, ◌<◌, [], length, FitsSigned, OkIff, IfOk, OnOk, OnErr, OnSome, Some, IsSome};
ghost use Rattle.std.specs.Int.{w64};
ghost use Rattle.lc_term.specs.Meaning.{affine};
ghost use Rattle.lc_term.specs.State.{cells_of, state_of, column_count, initial_state, with_cell};
ghost use Rattle.lc_term.specs.Updates.{stored_all, AreWithin};
ghost use Rattle.lc_term.specs.UpdateView.{writes_view};
ghost use Rattle.lc_term.specs.Written.{written_in, kept_in, with_written, with_kept, kept_of, after_writes, taken_back, CanTakeBack};

use crate::update::Write;
use lc_base::{ColId, OutOfMemory};
use std::alloc::Global;
use std::collections::BTreeMap;
use thiserror::Error;

/// Why a number is not computed.
#[derive(Clone, Copy, Debug, PartialEq, Eq, Error)]
pub enum EvalFault {
    /// A number that is reached leaves 64 bits.
    #[error("a number leaves 64 bits")]
    Overflow,
}

/// A state: each column has a number in each cell. In cell i that is the number written there last,
/// else `a * i + b` for the column's two numbers a and b.
#[derive(Drop)]
pub struct State {
    columns: Vec<Cells>,
}

// A column: its numbers a and b, and the cells that are written.
#[derive(Drop)]
struct Cells {
    slope: i64,
    start: i64,
    written: BTreeMap<i64, i64>,
}

/// A cell, and what was written there before.
#[derive(Clone, Copy)]
pub(crate) struct Undo {
    column: ColId,
    index: i64,
    before: Option<i64>,
}

/// The numbers of the variables, by their numbers.
#[derive(Drop)]
pub struct Env {
    pub values: Vec<i64>,
}

/// `slope * index + start`, if it fits.
pub(crate) fn affine_cell(slope: i64, start: i64, index: i64) -> Result<i64, EvalFault>
    ensures { OkIff result (FitsSigned w64 (affine slope start index)) (affine slope start index) }
{
    let number = i128::from(slope) * i128::from(index) + i128::from(start);
    i64::try_from(number).map_err(|_| EvalFault::Overflow)
}

impl Cells {
    fn read(&self, index: i64) -> Result<i64, EvalFault>
        ensures { OkIff result (FitsSigned w64 (cells_of self.now index)) (cells_of self.now index) }
    {
        match self.written.get(&index) {
            Some(number) => Ok(*number),
            None => affine_cell(self.slope, self.start, index),
        }
    }

    // What is written in a cell, if anything is.
    fn written(&self, index: i64) -> Option<i64>
        ensures { result ≡ written_in self.now index }
    {
        self.written.get(&index).copied()
    }

    // Writes a cell.
    fn write(&mut self, index: i64, number: i64) -> Result<(), OutOfMemory>
        ensures ok { OnOk result (kept_in self.new ≡ with_written (kept_in self.old) index (Some number)) }
        ensures err { OnErr result (kept_in self.new ≡ kept_in self.old) }
    {
        self.written.insert(index, number)?;
        Ok(())
    }

    // Takes a write back: the cell has again what was written there before it.
    fn restore(&mut self, index: i64, before: Option<i64>)
        requires { OnSome before (IsSome (written_in self.old index)) }
        ensures { kept_in self.new ≡ with_written (kept_in self.old) index before }
    {
        match before {
            Some(number) => {
                let _ = self.written.insert(index, number);
            }
            None => {
                let _ = self.written.remove(&index);
            }
        }
    }
}

impl State {
    /// The state in which nothing is written, of columns with these numbers a and b.
    pub fn new(alloc: Global, initial: &[(i64, i64)]) -> Result<State, OutOfMemory>
        ensures columns { IfOk result (λ state. column_count state ≡ length initial.now) }
        ensures cells { IfOk result (λ state. state_of state ≡ initial_state initial.now) }
    {
        let mut columns = Vec::with_capacity(alloc, initial.len())?;
        for &(slope, start) in initial {
            let written = BTreeMap::new(alloc);
            columns.push(Cells {
                slope,
                start,
                written,
            })?;
        }
        Ok(State { columns })
    }

    /// How many columns there are.
    pub fn column_count(&self) -> usize
        ensures { result ≡ column_count self.now }
    {
        self.columns.len()
    }

    /// The number in a cell. `Overflow` is returned if nothing is written there and the initial number
    /// leaves 64 bits.
    pub fn read(&self, column: ColId, index: i64) -> Result<i64, EvalFault>
        requires { column.0 < column_count self.now }
        ensures { let cell = state_of self.now column.0 index in OkIff result (FitsSigned w64 cell) cell }
    {
        self.columns[column.0 as usize].read(index)
    }

    /// Writes one cell. On `OutOfMemory` the state stays as it was.
    pub fn write(&mut self, column: ColId, index: i64, number: i64) -> Result<(), OutOfMemory>
        requires { column.0 < column_count self.old }
        ensures ok { OnOk result (state_of self.new ≡ with_cell (state_of self.old) column.0 index number) }
        ensures err { OnErr result (state_of self.new ≡ state_of self.old) }
        ensures columns { column_count self.new ≡ column_count self.old }
    {
        let cells = &mut self.columns[column.0 as usize];
        cells.written.insert(index, number)?;
        Ok(())
    }

    /// Writes cells in order, so of two writes to one cell the later counts. On `OutOfMemory` the state stays
    /// as it was.
    pub fn write_all(&mut self, alloc: Global, writes: &[Write]) -> Result<(), OutOfMemory>
        requires { AreWithin (column_count self.old) (writes_view writes.now) }
        ensures ok { OnOk result (state_of self.new ≡ stored_all (state_of self.old) (writes_view writes.now)) }
        ensures err { OnErr result (state_of self.new ≡ state_of self.old) }
        ensures columns { column_count self.new ≡ column_count self.old }
    {
        self.write_all_or_none(alloc, writes)
    }

    fn write_all_or_none(&mut self, alloc: Global, writes: &[Write]) -> Result<(), OutOfMemory>
        requires { AreWithin (length self.old.columns.items) (writes_view writes.now) }
        ensures ok { OnOk result (kept_of self.new ≡ after_writes (kept_of self.old) (writes_view writes.now)) }
        ensures err { OnErr result (kept_of self.new ≡ kept_of self.old) }
    {
        let mut done = Vec::new(alloc);
        if let Err(fault) = self.write_each(writes, &mut done) {
            self.take_back(&mut done);
            return Err(fault);
        }
        Ok(())
    }

    // Writes cells in order, and notes what was written there before. On `OutOfMemory` some of them may be written.
    pub(crate) fn write_each(
        &mut self,
        writes: &[Write],
        done: &mut Vec<Undo>,
    ) -> Result<(), OutOfMemory>
        requires within { AreWithin (length self.old.columns.items) (writes_view writes.now) }
        requires can { CanTakeBack (kept_of self.old) done.old.items }
        ensures ok { OnOk result (kept_of self.new ≡ after_writes (kept_of self.old) (writes_view writes.now)) }
        ensures back { taken_back (kept_of self.new) done.new.items ≡ taken_back (kept_of self.old) done.old.items }
        ensures can { CanTakeBack (kept_of self.new) done.new.items }
        ensures columns { length self.new.columns.items ≡ length self.old.columns.items }
    {
        for write in writes {
            self.write_noted(*write, done)?;
        }
        Ok(())
    }

    // Writes a cell, and notes what was written there before; then what is done can still be taken back.
    fn write_noted(&mut self, write: Write, done: &mut Vec<Undo>) -> Result<(), OutOfMemory>
        requires there { write.column.0 < length self.old.columns.items }
        requires can { CanTakeBack (kept_of self.old) done.old.items }
        ensures ok { OnOk result (kept_of self.new ≡ with_kept (kept_of self.old) write.column.0 write.index (Some write.value)) }
        ensures back { taken_back (kept_of self.new) done.new.items ≡ taken_back (kept_of self.old) done.old.items }
        ensures can { CanTakeBack (kept_of self.new) done.new.items }
        ensures columns { length self.new.columns.items ≡ length self.old.columns.items }
    {
        let cells = &mut self.columns[write.column.0 as usize];
        done.push(Undo {
            column: write.column,
            index: write.index,
            before: cells.written(write.index),
        })?;
        cells.write(write.index, write.value)
    }

    // Takes back what is done, the last first. It takes no memory.
    pub(crate) fn take_back(&mut self, done: &mut Vec<Undo>)
        requires { CanTakeBack (kept_of self.old) done.old.items }
        ensures kept { kept_of self.new ≡ taken_back (kept_of self.old) done.old.items }
        ensures none { done.new.items ≡ [] }
    {
        'undo: loop {
            let Some(undo) = done.pop() else {
                return;
            };
            self.columns[undo.column.0 as usize].restore(undo.index, undo.before);
        }
    }
}
