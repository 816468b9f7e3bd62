//! How an update is read.
ghost use Rattle.std.specs.Prelude.{◌≡◌};
ghost use Rattle.lc_sexp.specs.Shown.{rest_of, number_of, owner_of};
ghost use Rattle.lc_reading.specs.Parts.{tree_of, place_of};
ghost use Rattle.lc_reading.specs.Results.{IsReading};
ghost use Rattle.lc_term.specs.UpdateView.{update_of};
ghost use Rattle.lc_rider_text.specs.KnownView.{known_view};
ghost use Rattle.lc_rider_text.specs.Seen.{update_parts};
ghost use Rattle.lc_rider_text.specs.Updates.{is_open, stored_reading, update_parts_reading, update_reading, listed_update_reading};

use crate::known::Known;
use lc_base::ColId;
use lc_reading::{Part, Pass, ReadFault, Reads, both, ended, known_name, name_at, three, wrong};
use lc_sexp::{Cursor, Item};
use lc_term::{Term, Update};
use lc_text::{Scope, read_term};
use std::alloc::Global;

/// In which columns is stored.
#[derive(Clone, Copy)]
pub(crate) enum Stores {
    /// In all, those of the system too.
    InAll,
    /// In auxiliary ones.
    InAuxiliary,
}

/// Whether this column is one in which is stored so.
fn is_open(stores: Stores, known: Known<'_, '_>, column: u32) -> bool
    ensures { result ≡ is_open stores (known_view known.entry) column }
{
    match stores {
        Stores::InAll => true,
        Stores::InAuxiliary => {
            known.columns.auxiliaries <= column && (column as usize) < known.columns.names.len()
        }
    }
}

/// The column of an update.
fn read_stored(stores: Stores, known: Known<'_, '_>, part: Part<'_>) -> Result<ColId, ReadFault>
    ensures { IsReading (λ column. column.0) (stored_reading stores (known_view known.entry) (place_of part.entry) (tree_of part.entry)) result }
{
    let name = name_at(part)?;
    match known.columns.place(name.text()) {
        Some(place) if !is_open(stores, known, place) => Err(wrong(Pass::Shape, name.number())),
        place => Ok(ColId(known_name(name, place)?)),
    }
}

/// A column and two terms, which must be the whole rest of a list.
fn read_update_parts<S: Scope>(
    alloc: Global,
    stores: Stores,
    known: Known<'_, '_>,
    scope: &S,
    list: Cursor<'_>,
) -> Result<((ColId, Term), Term), ReadFault>
    ensures { IsReading update_parts (update_parts_reading stores (known_view known.entry) (S.names scope.now) (owner_of list.entry) (number_of list.entry) (rest_of list.entry)) result }
{
    let (first, second, third, rest) = three(list)?;
    let column = read_stored(stores, known, first);
    let index = read_term(alloc, scope, second);
    let value = read_term(alloc, scope, third);
    ended(both(both(column, index), value), rest)
}

/// The update of the parts that are left in a list.
pub(crate) fn read_update<S: Scope>(
    alloc: Global,
    stores: Stores,
    known: Known<'_, '_>,
    scope: &S,
    list: Cursor<'_>,
) -> Result<Update, ReadFault>
    ensures { IsReading update_of (update_reading stores (known_view known.entry) (S.names scope.now) (owner_of list.entry) (number_of list.entry) (rest_of list.entry)) result }
{
    let ((column, index), value) = read_update_parts(alloc, stores, known, scope, list)?;
    Ok(Update {
        column,
        index,
        value,
    })
}

/// `(COLUMN T T)`, in any column.
fn read_listed_update<S: Scope>(
    alloc: Global,
    known: Known<'_, '_>,
    scope: &S,
    part: Part<'_>,
) -> Result<Update, ReadFault>
    ensures { IsReading update_of (listed_update_reading (known_view known.entry) (S.names scope.now) (place_of part.entry) (tree_of part.entry)) result }
{
    match part.item() {
        Item::Atom(atom) => Err(wrong(Pass::Shape, atom.number())),
        Item::List(list) => read_update(alloc, Stores::InAll, known, scope, list),
    }
}

/// Reads updates of any columns.
#[derive(Drop)]
pub(crate) struct Updates<'a, 'b, 's, S> {
    pub(crate) known: Known<'a, 'b>,
    pub(crate) scope: &'s S,
}

impl<S: Scope> Reads for Updates<'_, '_, '_, S> {
    ghost use Rattle.lc_term.specs.UpdateView.{update_of};
    ghost use Rattle.lc_term.specs.Updates.{Update};
    ghost use Rattle.lc_rider_text.specs.KnownView.{known_view};
    ghost use Rattle.lc_rider_text.specs.Updates.{listed_update_reading};

    type Value = Update;

    ghost Meaning = { Update };

    ghost meaning = { update_of };

    ghost reading = { λ reader. listed_update_reading (known_view reader.known) (S.names reader.scope.now) };

    fn read(&self, alloc: Global, part: Part<'_>) -> Result<Update, ReadFault> {
        read_listed_update(alloc, self.known, self.scope, part)
    }
}
