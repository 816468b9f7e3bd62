//! The columns in which actions, branches and choices store, found once for a file.
ghost use Rattle.std.specs.Prelude.{◌≡◌, ℕ, map, IfOk, OnOk};
ghost use Rattle.lc_sexp.specs.Shown.{rest_of};
ghost use Rattle.lc_object.specs.View.{columns_of};
ghost use Rattle.lc_object_text.specs.ObjectNames.{first_text};
ghost use Rattle.lc_reading.specs.TableView.{listed};
ghost use Rattle.lc_outline_text.specs.Declarations.{branches_in, form_at};
ghost use Rattle.lc_outline_text.specs.DeclarationsView.{declarations_view};
ghost use Rattle.lc_outline_text.specs.Paths.{stands, ways_kept};
ghost use Rattle.lc_outline_text.specs.Rests.{rests_of, lists_of_rests};
ghost use Rattle.lc_outline_text.specs.Sizes.{columns_stored, mark_ways, choice_named, choice_ways, columns_acted};
ghost use Rattle.lc_outline_text.specs.StoredView.{IsSet, rows_kept, rows_view, acted_kept, both_kept, branch_parts, behind_parameters, by_branches, by_choices, marked_kept, marked_in, kept_at, marked_at, row_way, IsStored};
ghost use Rattle.lc_outline_text.specs.Views.{columns_marked};

use crate::column_set::{ColumnSet, put_all};
use crate::columns_stored::{columns_noted, columns_settled, push_stored};
use crate::declarations::Declarations;
use crate::declaring::branches_in;
use crate::needs::parts_in;
use lc_base::{ColId, OutOfMemory};
use lc_object_text::behind_first;
use lc_reading::{NameTable, next_part};
use lc_sexp::Cursor;
use std::alloc::Global;

/// The columns in which each branch of an operation stores, or each choice, every column once: when a call is settled by it,
/// and when its replies are noted.
pub(crate) struct Rows {
    settled: Vec<Vec<ColId>>,
    noted: Vec<Vec<ColId>>,
}

impl Drop for Rows {
    fn drop(self) {
        let Rows {
            settled: _,
            noted: _,
        } = self;
    }
}

/// The columns in which is stored by the actions, and by the branches and choices of the operations, by their numbers.
pub(crate) struct Stored {
    actions: Vec<Vec<ColId>>,
    branches: Vec<Rows>,
    choices: Vec<Rows>,
    /// By a choice that is not there.
    nothing: Rows,
}

impl Drop for Stored {
    fn drop(self) {
        let Stored {
            actions: _,
            branches: _,
            choices: _,
            nothing: _,
        } = self;
    }
}

/// These columns, each once.
fn row_of(set: &mut ColumnSet, columns: &[ColId]) -> Result<Vec<ColId>, OutOfMemory>
    requires { IsSet set.old }
    ensures row { IfOk result (λ row. stands (columns_of row.items) ≡ stands (columns_of columns.now)) }
    ensures set { OnOk result (IsSet set.new) }
{
    set.clear()?;
    put_all(set, columns)?;
    let row = set.columns()?;
    Ok(row)
}

/// The columns in which is stored by an action `NAME (PARAM ..) F UPDATE ..`.
fn action_row(
    alloc: Global,
    set: &mut ColumnSet,
    columns: &NameTable<'_>,
    action: Cursor<'_>,
) -> Result<Vec<ColId>, OutOfMemory>
    requires { IsSet set.old }
    ensures row { IfOk result (λ row. stands (columns_of row.items) ≡ acted_kept (listed columns.now) (rest_of action.entry)) }
    ensures set { OnOk result (IsSet set.new) }
{
    let updates = behind_first(behind_first(behind_first(action)));
    let stored = push_stored(columns, updates, Vec::new(alloc))?;
    let row = row_of(set, &stored)?;
    Ok(row)
}

/// The columns in which is stored by a branch `F (UPDATE ..) (T ..)` by which a call is settled, or noted.
fn branch_row(
    alloc: Global,
    set: &mut ColumnSet,
    columns: &NameTable<'_>,
    is_note: bool,
    branch: Cursor<'_>,
) -> Result<Vec<ColId>, OutOfMemory>
    requires { IsSet set.old }
    ensures row { IfOk result (λ row. stands (columns_of row.items) ≡ marked_kept is_note (listed columns.now) (rest_of branch.entry)) }
    ensures set { OnOk result (IsSet set.new) }
{
    if is_note {
        let stored = columns_noted(alloc, columns, branch)?;
        let row = row_of(set, &stored)?;
        return Ok(row);
    }
    let stored = columns_settled(alloc, columns, branch)?;
    let row = row_of(set, &stored)?;
    Ok(row)
}

/// The columns in which is stored by each of these actions.
fn action_rows(
    alloc: Global,
    set: &mut ColumnSet,
    columns: &NameTable<'_>,
    actions: &[Cursor<'_>],
) -> Result<Vec<Vec<ColId>>, OutOfMemory>
    requires { IsSet set.old }
    ensures rows { IfOk result (λ rows. rows_kept rows.items ≡ map (acted_kept (listed columns.now)) (rests_of actions.now)) }
    ensures set { OnOk result (IsSet set.new) }
{
    let mut rows = Vec::with_capacity(alloc, actions.len())?;
    for action in actions {
        rows.push(action_row(alloc, set, columns, *action)?)?;
    }
    Ok(rows)
}

/// The columns in which is stored by each of these branches.
fn branch_rows(
    alloc: Global,
    set: &mut ColumnSet,
    columns: &NameTable<'_>,
    is_note: bool,
    branches: &[Cursor<'_>],
) -> Result<Vec<Vec<ColId>>, OutOfMemory>
    requires { IsSet set.old }
    ensures rows { IfOk result (λ rows. rows_kept rows.items ≡ map (marked_kept is_note (listed columns.now)) (rests_of branches.now)) }
    ensures set { OnOk result (IsSet set.new) }
{
    let mut rows = Vec::with_capacity(alloc, branches.len())?;
    for branch in branches {
        rows.push(branch_row(alloc, set, columns, is_note, *branch)?)?;
    }
    Ok(rows)
}

/// The columns in which each of these branches stores, when a call is settled by it and when it is noted.
fn rows_of(
    alloc: Global,
    set: &mut ColumnSet,
    columns: &NameTable<'_>,
    branches: &[Cursor<'_>],
) -> Result<Rows, OutOfMemory>
    requires { IsSet set.old }
    ensures rows { IfOk result (λ rows. rows_view rows ≡ both_kept (listed columns.now) (rests_of branches.now)) }
    ensures set { OnOk result (IsSet set.new) }
{
    let settled = branch_rows(alloc, set, columns, false, branches)?;
    let noted = branch_rows(alloc, set, columns, true, branches)?;
    Ok(Rows { settled, noted })
}

/// What comes after the word of each branch in a list.
fn branch_parts<'a>(alloc: Global, list: Cursor<'a>) -> Result<Vec<Cursor<'a>>, OutOfMemory>
    ensures { IfOk result (λ parts. rests_of parts.items ≡ branch_parts (rest_of list.entry)) }
{
    let mut parts = Vec::with_capacity(alloc, list.len())?;
    let mut rest = list;
    'branches: loop {
        let Ok(part) = next_part(&mut rest) else {
            return Ok(parts);
        };
        parts.push(parts_in(part, "branch"))?;
    }
}

/// What comes after the parameters of each of these choices.
fn choice_parts<'a>(alloc: Global, choices: &[Cursor<'a>]) -> Result<Vec<Cursor<'a>>, OutOfMemory>
    ensures { IfOk result (λ parts. rests_of parts.items ≡ map behind_parameters (rests_of choices.now)) }
{
    let mut parts = Vec::with_capacity(alloc, choices.len())?;
    for choice in choices {
        parts.push(behind_first(behind_first(*choice)))?;
    }
    Ok(parts)
}

/// The columns in which the branches of each of these operations store.
fn rows_by_branches(
    alloc: Global,
    set: &mut ColumnSet,
    columns: &NameTable<'_>,
    operations: &[Cursor<'_>],
) -> Result<Vec<Rows>, OutOfMemory>
    requires { IsSet set.old }
    ensures rows { IfOk result (λ rows. map rows_view rows.items ≡ map (by_branches (listed columns.now)) (rests_of operations.now)) }
    ensures set { OnOk result (IsSet set.new) }
{
    let mut rows = Vec::with_capacity(alloc, operations.len())?;
    for operation in operations {
        let branches = branch_parts(alloc, branches_in(*operation))?;
        rows.push(rows_of(alloc, set, columns, &branches)?)?;
    }
    Ok(rows)
}

/// The columns in which the choices of each operation store.
fn rows_by_choices(
    alloc: Global,
    set: &mut ColumnSet,
    columns: &NameTable<'_>,
    choices: &[Vec<Cursor<'_>>],
) -> Result<Vec<Rows>, OutOfMemory>
    requires { IsSet set.old }
    ensures rows { IfOk result (λ rows. map rows_view rows.items ≡ map (by_choices (listed columns.now)) (lists_of_rests choices.now)) }
    ensures set { OnOk result (IsSet set.new) }
{
    let mut rows = Vec::with_capacity(alloc, choices.len())?;
    for those in choices {
        let parts = choice_parts(alloc, those)?;
        rows.push(rows_of(alloc, set, columns, &parts)?)?;
    }
    Ok(rows)
}

/// The columns in which is stored by what a file declares.
pub(crate) fn read_stored(
    alloc: Global,
    set: &mut ColumnSet,
    declarations: &Declarations<'_>,
) -> Result<Stored, OutOfMemory>
    requires { IsSet set.old }
    ensures stored { IfOk result (λ stored. IsStored (declarations_view declarations.now) stored) }
    ensures set { OnOk result (IsSet set.new) }
{
    let columns = &declarations.declared.columns;
    let actions = action_rows(alloc, set, columns, &declarations.actions)?;
    let branches = rows_by_branches(alloc, set, columns, &declarations.operations)?;
    let choices = rows_by_choices(alloc, set, columns, &declarations.choices)?;
    let nothing = rows_of(alloc, set, columns, &[Cursor::empty()])?;
    Ok(Stored {
        actions,
        branches,
        choices,
        nothing,
    })
}

/// The row at this place, if there is one; else no column.
fn row_at(rows: &[Vec<ColId>], place: Option<usize>) -> &[ColId]
    ensures { stands (columns_of result.now) ≡ kept_at (rows_kept rows.now) place }
{
    let Some(place) = place else {
        return &[];
    };
    match rows.get(place) {
        Some(row) => row,
        None => &[],
    }
}

/// The rows for a call that is settled, or noted.
fn rows_for(rows: &Rows, is_note: bool) -> &[Vec<ColId>]
    ensures { rows_kept result.now ≡ marked_in is_note (rows_view rows.now) }
{
    if is_note { &rows.noted } else { &rows.settled }
}

/// Those at this place, if there are some.
fn rows_at(rows: &[Rows], place: Option<usize>, is_note: bool) -> &[Vec<ColId>]
    ensures { rows_kept result.now ≡ marked_at is_note (map rows_view rows.now) place }
{
    let Some(place) = place else {
        return &[];
    };
    match rows.get(place) {
        Some(rows) => rows_for(rows, is_note),
        None => &[],
    }
}

/// The columns in which is stored by the action of this name.
pub(crate) fn columns_acted<'b>(
    declarations: &Declarations<'_>,
    stored: &'b Stored,
    name: &str,
) -> &'b [ColId]
    requires { IsStored (declarations_view declarations.now) stored.now }
    ensures { stands (columns_of result.now) ≡ stands (columns_acted (declarations_view declarations.now) name.now) }
{
    row_at(&stored.actions, declarations.action_names.place(name))
}

/// The columns in which the branches of the operation at this place store, when a call is settled by them, or noted.
pub(crate) fn marked_by_branches<'b>(
    declarations: &Declarations<'_>,
    stored: &'b Stored,
    operation: Option<usize>,
    is_note: bool,
) -> &'b [Vec<ColId>]
    requires { IsStored (declarations_view declarations.now) stored.now }
    ensures { let d = declarations_view declarations.now in
        (asked : ℕ) → ways_kept (map (row_way asked) result.now) ≡ ways_kept (mark_ways (columns_marked is_note d.declared.columns) asked (branches_in (form_at d.operations operation))) }
{
    rows_at(&stored.branches, operation, is_note)
}

/// The columns in which the choice of this name, of the operation at this place, stores, when a call is settled by it, or
/// noted.
pub(crate) fn marked_by_choice<'b>(
    declarations: &Declarations<'_>,
    stored: &'b Stored,
    operation: Option<usize>,
    name: &str,
    is_note: bool,
) -> &'b [Vec<ColId>]
    requires { IsStored (declarations_view declarations.now) stored.now }
    ensures { let d = declarations_view declarations.now in
        (asked : ℕ) → ways_kept (map (row_way asked) result.now) ≡ ways_kept (choice_ways (columns_marked is_note d.declared.columns) asked (choice_named (form_at d.operations operation) name.now)) }
{
    let rows = rows_at(&stored.choices, operation, is_note);
    match declarations.choice_place(operation, name) {
        Some(place) if place < rows.len() => &rows[place..place + 1],
        _ => rows_for(&stored.nothing, is_note),
    }
}
