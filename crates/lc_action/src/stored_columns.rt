//! Stores into columns that are given by their expressions in a table.
ghost use Rattle.std.specs.Prelude.{◌≡◌, IfOk, map};
ghost use Rattle.lc_term.specs.Syntax.{Read};
ghost use Rattle.lc_term.specs.Said.{put, puts, said, after};
ghost use Rattle.lc_term.specs.View.{term_of, column_of};
ghost use Rattle.lc_term.specs.UpdateView.{updates_of};
ghost use Rattle.lc_action.specs.Telling.{columns_in};

use crate::telling::{Before, said};
use lc_base::{ColId, OutOfMemory};
use lc_term::{ColExpr, Term, Update, with_store};
use std::alloc::Global;
use std::mem;

/// What a column holds after stores.
pub fn column_after(
    alloc: Global,
    columns: &[(ColId, ColExpr)],
    column: ColId,
) -> Result<ColExpr, OutOfMemory>
    ensures { IfOk result (λ expression. column_of expression ≡ columns_in columns.now column.0) }
{
    for entry in columns {
        if entry.0 == column {
            return Ok(entry.1.try_clone(alloc)?);
        }
    }
    Ok(ColExpr::Base(column))
}

/// What a cell of a column holds after stores.
pub fn read_after(
    alloc: Global,
    columns: &[(ColId, ColExpr)],
    column: ColId,
    index: &Term,
) -> Result<Term, OutOfMemory>
    ensures { IfOk result (λ t. term_of t ≡ Read (columns_in columns.now column.0) (term_of index.now)) }
{
    let index = index.try_clone(alloc)?;
    Term::read(alloc, column_after(alloc, columns, column)?, index)
}

/// The same columns, in memory of their own.
pub fn copy_columns(
    alloc: Global,
    columns: &[(ColId, ColExpr)],
) -> Result<Vec<(ColId, ColExpr)>, OutOfMemory>
    ensures { IfOk result (λ copies. columns_in copies.items ≡ columns_in columns.now) }
{
    let mut copies = Vec::with_capacity(alloc, columns.len())?;
    for entry in columns {
        copies.push((entry.0, entry.1.try_clone(alloc)?))?;
    }
    Ok(copies)
}

/// The columns after one more store.
pub fn store(
    alloc: Global,
    mut columns: Vec<(ColId, ColExpr)>,
    column: ColId,
    index: Term,
    value: Term,
) -> Result<Vec<(ColId, ColExpr)>, OutOfMemory>
    ensures { IfOk result (λ after. columns_in after.items ≡ put (columns_in columns.items) (record { column = column.0; index = term_of index; value = term_of value })) }
{
    for place in 0..columns.len() {
        if columns[place].0 == column {
            let before = mem::replace(&mut columns[place].1, ColExpr::Affine(0, 0));
            columns[place].1 = with_store(alloc, before, index, value)?;
            return Ok(columns);
        }
    }
    let stored = with_store(alloc, ColExpr::Base(column), index, value)?;
    columns.push((column, stored))?;
    Ok(columns)
}

/// The columns after more updates, whose indexes and values are taken in the columns and with the variables before.
pub fn store_more(
    alloc: Global,
    before: Before<'_>,
    mut stored: Vec<(ColId, ColExpr)>,
    updates: &[Update],
) -> Result<Vec<(ColId, ColExpr)>, OutOfMemory>
    ensures { IfOk result (λ after. columns_in after.items ≡ puts (columns_in stored.items)
        (map (said (columns_in before.entry.columns.now) (map term_of before.entry.variables.now)) (updates_of updates.now))) }
{
    for update in updates {
        let index = said(alloc, &update.index, before)?;
        let value = said(alloc, &update.value, before)?;
        stored = store(alloc, stored, update.column, index, value)?;
    }
    Ok(stored)
}

/// The columns after updates that take their indexes and values together, in these columns and with these variables,
/// and are then stored in their order.
pub fn store_together(
    alloc: Global,
    before: Before<'_>,
    updates: &[Update],
) -> Result<Vec<(ColId, ColExpr)>, OutOfMemory>
    ensures { IfOk result (λ stored. columns_in stored.items ≡ after (columns_in before.entry.columns.now) (map term_of before.entry.variables.now) (updates_of updates.now)) }
{
    let stored = copy_columns(alloc, before.columns)?;
    store_more(alloc, before, stored, updates)
}
