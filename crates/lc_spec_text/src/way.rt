//! How the branches or the choices of an operation are read.
ghost use Rattle.std.specs.Prelude.{◌≡◌};
ghost use Rattle.lc_sexp.specs.Shown.{rest_of, number_of};
ghost use Rattle.lc_reading.specs.Results.{IsReading};
ghost use Rattle.lc_reading.specs.Rows.{each_reading};
ghost use Rattle.lc_reading.specs.TableView.{listed};
ghost use Rattle.lc_spec_text.specs.Branches.{branch_reading};
ghost use Rattle.lc_spec_text.specs.Choices.{begin_with_choice, ways_reading};
ghost use Rattle.lc_spec_text.specs.Scopes.{branch_names};
ghost use Rattle.lc_spec_text.specs.ScopeView.{columns_view};
ghost use Rattle.lc_spec_text.specs.Seen.{branches_of};

use crate::branch::Branches;
use crate::choice::read_choices;
use crate::scope::{Columns, InBranch};
use lc_reading::{NameTable, ReadFault, behind_word, next_part, read_each};
use lc_seq::Branch;
use lc_sexp::Cursor;
use std::alloc::Global;

/// The branches that are left in a list, of an operation with these variables, each with `count` replies.
fn read_branches(
    alloc: Global,
    columns: Columns<'_, '_>,
    variables: &NameTable<'_>,
    count: Option<u64>,
    list: Cursor<'_>,
) -> Result<Vec<Branch>, ReadFault>
    ensures { IsReading branches_of (each_reading (branch_reading (columns_view columns.entry) (branch_names (columns_view columns.entry).own (listed variables.now)) count) (number_of list.entry) (rest_of list.entry)) result }
{
    let scope = InBranch::new(columns, variables, NameTable::new(alloc))?;
    let branches = Branches {
        columns,
        scope: &scope,
        count,
    };
    read_each(alloc, &branches, list)
}

/// Whether a choice is the first of what is left in a list.
fn begins_with_choice(list: Cursor<'_>) -> bool
    ensures { result ≡ begin_with_choice (rest_of list.entry) }
{
    let mut rest = list;
    match next_part(&mut rest) {
        Ok(first) => behind_word(first, "choice").is_ok(),
        Err(_) => false,
    }
}

/// The branches or choices that are left in a list, of an operation with these variables, each with `count` replies.
pub(crate) fn read_ways(
    alloc: Global,
    columns: Columns<'_, '_>,
    variables: &NameTable<'_>,
    count: Option<u64>,
    list: Cursor<'_>,
) -> Result<Vec<Branch>, ReadFault>
    ensures { IsReading branches_of (ways_reading (columns_view columns.entry) (listed variables.now) count (number_of list.entry) (rest_of list.entry)) result }
{
    if begins_with_choice(list) {
        read_choices(alloc, columns, variables, count, list)
    } else {
        read_branches(alloc, columns, variables, count, list)
    }
}
