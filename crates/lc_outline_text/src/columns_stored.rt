//! The columns in which something is stored, read off a text.
ghost use Rattle.std.specs.Prelude.{◌≡◌, ◌++◌, ℕ, List, [], option_map, take, length, IfOk};
ghost use Rattle.lc_sexp.specs.Shown.{rest_of};
ghost use Rattle.lc_action.specs.ActionView.{first_of};
ghost use Rattle.lc_object.specs.View.{columns_of};
ghost use Rattle.lc_reading.specs.TableView.{listed};
ghost use Rattle.lc_rider_text.specs.Scopes.{column_place};
ghost use Rattle.lc_outline_text.specs.Sizes.{column_named, columns_stored, columns_settled, columns_noted};

use crate::needs::code_word;
use lc_action::SystemColumns;
use lc_base::{ColId, OutOfMemory};
use lc_object_text::{behind_first, within_first};
use lc_reading::{NameTable, next_part};
use lc_rider_text::{Beside, Columns, Variables, number_at};
use lc_sexp::Cursor;
use lc_text::{ColumnUse, Scope};
use std::alloc::Global;

/// The column of a name, if there is one: declared, or of the system.
pub(crate) fn column_of(columns: &NameTable<'_>, name: &str) -> Result<Option<ColId>, OutOfMemory>
    ensures { IfOk result (λ column. option_map (λ c. c.0) column ≡ column_place (listed columns.now) name.now) }
{
    let scope = Beside {
        columns: Columns::new(columns, 0)?,
        variables: Variables::of_clients(),
    };
    match scope.column(name) {
        ColumnUse::Usable(column) => Ok(Some(column)),
        _ => Ok(None),
    }
}

/// The system columns after these.
pub(crate) fn system_behind(columns: &NameTable<'_>) -> Result<SystemColumns, OutOfMemory>
    ensures { IfOk result (λ system. first_of system ≡ length (listed columns.now)) }
{
    match SystemColumns::new(ColId(number_at(columns.len())?)) {
        Some(system) => Ok(system),
        None => Err(OutOfMemory),
    }
}

/// The column of a name, if there is one, given the column of the name before. Most names are the one before.
fn column_behind(
    columns: &NameTable<'_>,
    before: &str,
    column: Option<ColId>,
    name: &str,
) -> Result<Option<ColId>, OutOfMemory>
    requires { option_map (λ c. c.0) column ≡ column_place (listed columns.now) before.now }
    ensures { IfOk result (λ column. option_map (λ c. c.0) column ≡ column_place (listed columns.now) name.now) }
{
    if name == before {
        return Ok(column);
    }
    column_of(columns, name)
}

/// These columns, followed by this one, if there is one.
fn push_found(column: Option<ColId>, mut stored: Vec<ColId>) -> Result<Vec<ColId>, OutOfMemory>
    ensures { (columns : List (List ℕ)) (name : List ℕ) → option_map (λ c. c.0) column ≡ column_place columns name →
        IfOk result (λ all. columns_of all.items ≡ columns_of stored.items ++ column_named columns name) }
{
    if let Some(column) = column {
        stored.push(column)?;
    }
    Ok(stored)
}

/// These columns, followed by those of `(COLUMN ..) (COLUMN ..) ..`.
pub(crate) fn push_stored(
    columns: &NameTable<'_>,
    list: Cursor<'_>,
    stored: Vec<ColId>,
) -> Result<Vec<ColId>, OutOfMemory>
    ensures { IfOk result (λ all. columns_of all.items ≡ columns_of stored.items ++ columns_stored (listed columns.now) (rest_of list.entry)) }
{
    let mut all = stored;
    let mut rest = list;
    let mut name = "";
    let mut column = column_of(columns, name)?;
    'updates: loop {
        let Ok(update) = next_part(&mut rest) else {
            return Ok(all);
        };
        let next = code_word(update);
        column = column_behind(columns, name, column, next)?;
        name = next;
        all = push_found(column, all)?;
    }
}

/// These columns, followed by the first `count` of a row.
fn push_first(
    row: &[ColId],
    count: usize,
    mut stored: Vec<ColId>,
) -> Result<Vec<ColId>, OutOfMemory>
    ensures { IfOk result (λ all. columns_of all.items ≡ columns_of stored.items ++ take count (columns_of row.now)) }
{
    if row.len() <= count {
        stored.extend_from_slice(row)?;
        return Ok(stored);
    }
    stored.extend_from_slice(&row[..count])?;
    Ok(stored)
}

/// The columns in which a branch stores, `F (UPDATE ..) (T ..)`, when a call is settled by it.
pub(crate) fn columns_settled(
    alloc: Global,
    columns: &NameTable<'_>,
    branch: Cursor<'_>,
) -> Result<Vec<ColId>, OutOfMemory>
    ensures { IfOk result (λ all. columns_of all.items ≡ columns_settled (listed columns.now) (rest_of branch.entry)) }
{
    let system = system_behind(columns)?;
    let updates = behind_first(branch);
    let replies = within_first(behind_first(updates));
    let stored = push_stored(columns, within_first(updates), Vec::new(alloc))?;
    let mut stored = push_first(&system.replies(), replies.len(), stored)?;
    stored.push(system.pend())?;
    Ok(stored)
}

/// The columns in which a branch stores when the replies of a call are noted by it.
pub(crate) fn columns_noted(
    alloc: Global,
    columns: &NameTable<'_>,
    branch: Cursor<'_>,
) -> Result<Vec<ColId>, OutOfMemory>
    ensures { IfOk result (λ all. columns_of all.items ≡ columns_noted (listed columns.now) (rest_of branch.entry)) }
{
    let system = system_behind(columns)?;
    let replies = within_first(behind_first(behind_first(branch)));
    let mut stored = Vec::new(alloc);
    stored.push(system.noted())?;
    push_first(&system.notes(), replies.len(), stored)
}
