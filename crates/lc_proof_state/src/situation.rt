//! The state that numbers of variables and of reads describe.
ghost use Rattle.std.specs.Prelude.{◌≡◌, ◌<◌, IfOk, IfSome, OnOk, IsFalse};
ghost use Rattle.lc_term.specs.Lists.{Every};
ghost use Rattle.lc_term.specs.State.{column_count, state_of};
ghost use Rattle.lc_term.specs.UpdateView.{writes_view};
ghost use Rattle.lc_proof_state.specs.Situation.{AreCells, AreNumbers, IsBlank, IsElsewhere, IsOf, numbers_of};

use lc_base::{ColId, OutOfMemory};
use lc_term::{ColExpr, Env, State, Term, Write, eval_term, term_is_known};
use std::alloc::Global;

/// How often the cells are looked for: the index of a read may be what another cell has.
const ROUNDS: u32 = 4;

/// A term and its number.
#[derive(Drop)]
pub struct Numbered {
    pub term: Term,
    pub number: i64,
}

/// What each cell has that is not among those of a state.
#[derive(Clone, Copy)]
pub enum Content {
    /// 0.
    Zero,
    /// Numbers that differ from cell to cell, as those that a search takes: `101 * i + 10007 * k + 5003` in cell i of column k.
    Spread,
}

/// A state and numbers of variables. Cells that are not among these have the content.
#[derive(Drop)]
pub struct Situation {
    pub state: State,
    pub env: Env,
    pub cells: Vec<Write>,
    pub content: Content,
}

/// How many variables there are, if there are at least `variables` and each that has a number.
fn variable_count(variables: usize, numbers: &[Numbered]) -> usize {
    let mut count = variables;
    for numbered in numbers {
        if let Term::Variable(variable) = &numbered.term {
            count = count.max((*variable as usize).saturating_add(1));
        }
    }
    count
}

/// The numbers of `count` variables, 0 for those about which nothing is said.
fn variables_in(
    alloc: Global,
    count: usize,
    numbers: &[Numbered],
) -> Result<Vec<i64>, OutOfMemory> {
    let mut values = Vec::new(alloc);
    for _variable in 0..count {
        values.push(0)?;
    }
    for numbered in numbers {
        if let Term::Variable(variable) = &numbered.term
            && let Some(value) = values.get_mut(*variable as usize)
        {
            *value = numbered.number;
        }
    }
    Ok(values)
}

/// The cell that a term reads of a column, and its number, if it is known which cell that is.
fn cell_of(numbered: &Numbered, state: &State, env: &Env) -> Option<Write>
    ensures { IfSome result (λ cell. cell.column.0 < column_count state.now) }
{
    let Term::Read(column, index) = &numbered.term else {
        return None;
    };
    let ColExpr::Base(column) = &**column else {
        return None;
    };
    let columns = state.column_count();
    if column.0 as usize >= columns || !term_is_known(index, columns, env.values.len()) {
        return None;
    }
    let index = eval_term(index, state, env).ok()?;
    Some(Write {
        column: *column,
        index,
        value: numbered.number,
    })
}

/// Whether a cell is among others.
pub(crate) fn is_among(cell: Write, cells: &[Write]) -> bool
    ensures { IsFalse result → Every (IsElsewhere cell.column.0 cell.index) (writes_view cells.now) }
{
    for other in cells {
        if other.column.0 == cell.column.0 && other.index == cell.index {
            return true;
        }
    }
    false
}

/// Appends the cell that a term reads to others, if this is the state, unless it is among them.
fn push_cell(
    cells: &mut Vec<Write>,
    numbered: &Numbered,
    state: &State,
    env: &Env,
) -> Result<(), OutOfMemory>
    requires { AreCells (column_count state.now) (writes_view cells.old.items) }
    ensures { OnOk result (AreCells (column_count state.now) (writes_view cells.new.items)) }
{
    let Some(cell) = cell_of(numbered, state, env) else {
        return Ok(());
    };
    if is_among(cell, cells) {
        return Ok(());
    }
    cells.push(cell)?;
    Ok(())
}

/// The cells that are read, if this is the state, each once with its first number.
fn cells_in(
    alloc: Global,
    state: &State,
    env: &Env,
    numbers: &[Numbered],
) -> Result<Vec<Write>, OutOfMemory>
    ensures { IfOk result (λ cells. AreCells (column_count state.now) (writes_view cells.items)) }
{
    let mut cells = Vec::new(alloc);
    for numbered in numbers {
        push_cell(&mut cells, numbered, state, env)?;
    }
    Ok(cells)
}

/// The numbers a and b of a column that has `a * i + b` in cell i.
fn numbers_of(column: u32, content: Content) -> (i64, i64)
    ensures { result ≡ numbers_of content column }
{
    match content {
        Content::Zero => (0, 0),
        Content::Spread => (101, i64::from(column) * 10_007 + 5_003),
    }
}

/// These numbers of `columns` columns.
fn initial_numbers(
    alloc: Global,
    columns: u32,
    content: Content,
) -> Result<Vec<(i64, i64)>, OutOfMemory>
    ensures { IfOk result (λ numbers. AreNumbers content columns numbers.items) }
{
    let mut numbers = Vec::new(alloc);
    for column in 0..columns {
        numbers.push(numbers_of(column, content))?;
    }
    Ok(numbers)
}

/// A state of `columns` columns in which nothing is written.
fn blank_state(alloc: Global, columns: u32, content: Content) -> Result<State, OutOfMemory>
    ensures columns { IfOk result (λ state. column_count state ≡ columns) }
    ensures cells { IfOk result (λ state. IsBlank content columns (state_of state)) }
{
    let numbers = initial_numbers(alloc, columns, content)?;
    State::new(alloc, &numbers)
}

/// A state of `columns` columns in which these cells are written.
pub(crate) fn state_with(
    alloc: Global,
    columns: u32,
    content: Content,
    cells: &[Write],
) -> Result<State, OutOfMemory>
    requires { AreCells columns (writes_view cells.now) }
    ensures columns { IfOk result (λ state. column_count state ≡ columns) }
    ensures cells { IfOk result (λ state. IsOf content columns (state_of state) (writes_view cells.now)) }
{
    let mut state = blank_state(alloc, columns, content)?;
    state.write_all(alloc, cells)?;
    Ok(state)
}

/// The state and the environment that numbers of terms describe; other variables have 0. That the terms have these
/// numbers there is not promised: it has to be evaluated what holds.
pub(crate) fn situation_of(
    alloc: Global,
    columns: u32,
    variables: u32,
    numbers: &[Numbered],
    content: Content,
) -> Result<Situation, OutOfMemory>
    ensures { IfOk result (λ made. IsOf made.content columns (state_of made.state) (writes_view made.cells.items)) }
{
    let count = variable_count(variables as usize, numbers);
    let env = Env {
        values: variables_in(alloc, count, numbers)?,
    };
    let mut cells = Vec::new(alloc);
    let mut state = state_with(alloc, columns, content, &cells)?;
    for _round in 0..ROUNDS {
        cells = cells_in(alloc, &state, &env, numbers)?;
        state = state_with(alloc, columns, content, &cells)?;
    }
    Ok(Situation {
        state,
        env,
        cells,
        content,
    })
}
