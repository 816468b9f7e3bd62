//! How the updates of a branch are read.
ghost use Rattle.std.specs.Prelude.{ℕ};
ghost use Rattle.lc_sexp.specs.Shown.{rest_of, number_of, owner_of};
ghost use Rattle.lc_term.specs.Syntax as T;
ghost use Rattle.lc_reading.specs.Parts.{tree_of, place_of};
ghost use Rattle.lc_reading.specs.Readings.{Reading, mapped, listed_reading};
ghost use Rattle.lc_reading.specs.Results.{IsReading};
ghost use Rattle.lc_term.specs.UpdateView.{update_of};
ghost use Rattle.lc_spec_text.specs.Branches.{written_reading, the_update, update_parts_reading, update_reading};
ghost use Rattle.lc_spec_text.specs.ScopeView.{columns_view};
ghost use Rattle.lc_spec_text.specs.Seen.{update_parts};

use crate::scope::Columns;
use lc_base::ColId;
use lc_reading::{
    Part, Pass, ReadFault, Reads, both, ended, is_system_column, known_name, name_at, three, wrong,
};
use lc_sexp::{Cursor, Item};
use lc_term::{Term, Update};
use lc_text::{Scope, read_term};
use std::alloc::Global;

/// The column of an update.
fn read_written(columns: Columns<'_, '_>, part: Part<'_>) -> Result<ColId, ReadFault>
    ensures { IsReading (λ column. column.0) (written_reading (columns_view columns.entry) (place_of part.entry) (tree_of part.entry)) result }
{
    let name = name_at(part)?;
    match columns.place(name.text()) {
        None if is_system_column(name.text()) || columns.others.contains(name.text()) => {
            Err(wrong(Pass::Shape, name.number()))
        }
        place => Ok(ColId(known_name(name, place)?)),
    }
}

/// A column and two terms, which must be the whole rest of a list.
fn read_update_parts<S: Scope>(
    alloc: Global,
    columns: Columns<'_, '_>,
    scope: &S,
    list: Cursor<'_>,
) -> Result<((ColId, Term), Term), ReadFault>
    ensures { IsReading update_parts (update_parts_reading (columns_view columns.entry) (S.names scope.now) (owner_of list.entry) (number_of list.entry) (rest_of list.entry)) result }
{
    let (first, second, third, rest) = three(list)?;
    let column = read_written(columns, first);
    let index = read_term(alloc, scope, second);
    let value = read_term(alloc, scope, third);
    ended(both(both(column, index), value), rest)
}

/// The update of a column, an index and a value.
fn made_update(parts: Result<((ColId, Term), Term), ReadFault>) -> Result<Update, ReadFault>
    ensures { (r : Reading ((ℕ × T.Term) × T.Term)) → IsReading update_parts r parts → IsReading update_of (mapped the_update r) result }
{
    let ((column, index), value) = parts?;
    Ok(Update {
        column,
        index,
        value,
    })
}

fn read_update<S: Scope>(
    alloc: Global,
    columns: Columns<'_, '_>,
    scope: &S,
    part: Part<'_>,
) -> Result<Update, ReadFault>
    ensures { IsReading update_of (update_reading (columns_view columns.entry) (S.names scope.now) (place_of part.entry) (tree_of part.entry)) result }
{
    match part.item() {
        Item::Atom(atom) => Err(wrong(Pass::Shape, atom.number())),
        Item::List(list) => made_update(read_update_parts(alloc, columns, scope, list)),
    }
}

/// Reads updates.
#[derive(Drop)]
pub(crate) struct Updates<'a, 'b, 's, S> {
    pub(crate) columns: Columns<'a, 'b>,
    pub(crate) scope: &'s S,
}

impl<S: Scope> Reads for Updates<'_, '_, '_, S> {
    ghost use Rattle.lc_term.specs.UpdateView.{update_of};
    ghost use Rattle.lc_term.specs.Updates.{Update};
    ghost use Rattle.lc_spec_text.specs.Branches.{update_reading};
    ghost use Rattle.lc_spec_text.specs.ScopeView.{columns_view};

    type Value = Update;

    ghost Meaning = { Update };

    ghost meaning = { update_of };

    ghost reading = { λ reader. update_reading (columns_view reader.columns) (S.names reader.scope.now) };

    fn read(&self, alloc: Global, part: Part<'_>) -> Result<Update, ReadFault> {
        read_update(alloc, self.columns, self.scope, part)
    }
}
