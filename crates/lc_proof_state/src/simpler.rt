//! States that say the same with fewer or smaller numbers.
ghost use Rattle.std.specs.Prelude.{◌≡◌, IfOk, OnOk};
ghost use Rattle.lc_term.specs.State.{state_of};
ghost use Rattle.lc_term.specs.UpdateView.{writes_view};
ghost use Rattle.lc_proof_state.specs.Situation.{AreCells, IsOf};

use crate::reads::cell_read;
use crate::situation::{Content, Situation, is_among, state_with};
use lc_base::OutOfMemory;
use lc_term::{Env, Term, Write};
use std::alloc::Global;

/// A cell after others, unless it is among them, or its column is not below `columns`.
fn push_once(cells: &mut Vec<Write>, columns: u32, cell: Write) -> Result<(), OutOfMemory>
    requires { AreCells columns (writes_view cells.old.items) }
    ensures { OnOk result (AreCells columns (writes_view cells.new.items)) }
{
    if cell.column.0 >= columns || is_among(cell, cells) {
        return Ok(());
    }
    cells.push(cell)?;
    Ok(())
}

/// The cells that are read in a situation, each once with its number, and then its other cells.
fn cells_with(
    alloc: Global,
    columns: u32,
    situation: &Situation,
    reads: &[&Term],
) -> Result<Vec<Write>, OutOfMemory>
    ensures { IfOk result (λ cells. AreCells columns (writes_view cells.items)) }
{
    let mut cells = Vec::new(alloc);
    for read in reads {
        if let Some(cell) = cell_read(read, &situation.state, &situation.env) {
            push_once(&mut cells, columns, cell)?;
        }
    }
    for cell in &situation.cells {
        push_once(&mut cells, columns, *cell)?;
    }
    Ok(cells)
}

/// The situation in which the cells that are read in another have their numbers there, and so have its cells and variables; what each other
/// cell has is 0.
pub(crate) fn completed(
    alloc: Global,
    columns: u32,
    situation: &Situation,
    reads: &[&Term],
) -> Result<Situation, OutOfMemory>
    ensures { IfOk result (λ made. IsOf made.content columns (state_of made.state) (writes_view made.cells.items)) }
{
    let cells = cells_with(alloc, columns, situation, reads)?;
    let content = Content::Zero;
    let state = state_with(alloc, columns, content, &cells)?;
    let env = Env {
        values: situation.env.values.to_vec(alloc)?,
    };
    Ok(Situation {
        state,
        env,
        cells,
        content,
    })
}

/// The lesser of a number that is above `floor` and of another, if there is one.
fn lesser_above(floor: i64, other: Option<i64>, number: i64) -> Option<i64> {
    if number <= floor {
        return other;
    }
    match other {
        Some(other) => Some(other.min(number)),
        None => Some(number),
    }
}

/// The least number of a situation that is above `floor`, if there is one.
pub(crate) fn least_above(floor: i64, situation: &Situation) -> Option<i64> {
    let mut least = None;
    for number in &situation.env.values {
        least = lesser_above(floor, least, *number);
    }
    for cell in &situation.cells {
        least = lesser_above(floor, least, cell.index);
        least = lesser_above(floor, least, cell.value);
    }
    least
}

/// Which numbers are lowered, and by how much.
#[derive(Clone, Copy)]
pub(crate) struct Lowering {
    /// The least of them: all others of a situation that are not below it are lowered too.
    pub least: i64,
    pub by: i64,
}

impl Lowering {
    /// A number, lowered if it is one of them.
    fn of(self, number: i64) -> i64 {
        if number < self.least {
            number
        } else {
            number.saturating_sub(self.by)
        }
    }

    /// The cells, lowered. Of cells that become one the first is kept.
    fn of_cells(
        self,
        alloc: Global,
        columns: u32,
        cells: &[Write],
    ) -> Result<Vec<Write>, OutOfMemory>
        ensures { IfOk result (λ lowered. AreCells columns (writes_view lowered.items)) }
    {
        let mut lowered = Vec::new(alloc);
        for cell in cells {
            let cell = Write {
                column: cell.column,
                index: self.of(cell.index),
                value: self.of(cell.value),
            };
            push_once(&mut lowered, columns, cell)?;
        }
        Ok(lowered)
    }

    /// The numbers, lowered.
    fn of_all(self, alloc: Global, numbers: &[i64]) -> Result<Vec<i64>, OutOfMemory> {
        let mut lowered = Vec::new(alloc);
        for number in numbers {
            lowered.push(self.of(*number))?;
        }
        Ok(lowered)
    }

    /// A situation with its numbers lowered.
    pub(crate) fn of_situation(
        self,
        alloc: Global,
        columns: u32,
        situation: &Situation,
    ) -> Result<Situation, OutOfMemory>
        ensures { IfOk result (λ made. IsOf made.content columns (state_of made.state) (writes_view made.cells.items)) }
    {
        let cells = self.of_cells(alloc, columns, &situation.cells)?;
        let content = situation.content;
        let state = state_with(alloc, columns, content, &cells)?;
        let env = Env {
            values: self.of_all(alloc, &situation.env.values)?,
        };
        Ok(Situation {
            state,
            env,
            cells,
            content,
        })
    }
}
