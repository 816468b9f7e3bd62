//! How column expressions are read.
ghost use Rattle.std.specs.Prelude.{◌≡◌, []};
ghost use Rattle.lc_sexp.specs.Shown.{rest_of, number_of, owner_of, text_of, atom_number};
ghost use Rattle.lc_reading.specs.Parts.{tree_of, place_of};
ghost use Rattle.lc_reading.specs.Results.{IsReading};
ghost use Rattle.lc_reading.specs.Words.{names_in};
ghost use Rattle.lc_term.specs.View.{column_of};
ghost use Rattle.lc_text.specs.Seen.{numbers_of, AreBoxed};
ghost use Rattle.lc_reading.specs.Readings.{mapped};
ghost use Rattle.lc_text.specs.Terms.{base_reading, column_reading, numbers_reading, store_reading, built_with, store_of};

use crate::made::{made_affine, whole_store};
use crate::scope::{ColumnUse, Scope};
use crate::term::{read_bound_term, read_number};
use crate::words::{Built, built_due};
use lc_base::is_name;
use lc_reading::{Part, Pass, ReadFault, both, ended, headed, three, two, within, wrong};
use lc_sexp::{Atom, Cursor, Item};
use lc_term::ColExpr;
use std::alloc::Global;

/// The column of a name. One that may not be read there is reported at the reader.
#[inline(never)]
fn read_base<S: Scope>(scope: &S, reader: u64, atom: &Atom<'_>) -> Result<ColExpr, ReadFault>
    ensures { IsReading column_of (base_reading (S.names scope.now) reader (atom_number atom.now) (text_of atom.now)) result }
{
    match scope.column(atom.text()) {
        ColumnUse::Misplaced => Err(wrong(Pass::Shape, reader)),
        _ if !is_name(atom.text().as_bytes()) => Err(wrong(Pass::Shape, atom.number())),
        ColumnUse::Undeclared => Err(wrong(Pass::Unknown, atom.number())),
        ColumnUse::Hidden => Err(wrong(Pass::Auxiliary, reader)),
        ColumnUse::Usable(column) => within(*atom, ColExpr::Base(column)),
    }
}

/// The column expression that an item reads as. A column that may not be read there is reported at the reader.
pub fn read_column<S: Scope>(
    alloc: Global,
    scope: &S,
    reader: u64,
    part: Part<'_>,
) -> Result<ColExpr, ReadFault>
    ensures { IsReading column_of (column_reading (S.names scope.now) [] reader (place_of part.entry) (tree_of part.entry)) result }
{
    read_bound_column(alloc, scope, &[], reader, &part)
}

/// The column expression that an item reads as, where quantifiers bind these names.
#[cycle(read_term)]
pub(crate) fn read_bound_column<S: Scope>(
    alloc: Global,
    scope: &S,
    bound: &[&str],
    reader: u64,
    part: &Part<'_>,
) -> Result<ColExpr, ReadFault>
    ensures { IsReading column_of (column_reading (S.names scope.now) (names_in bound.now) reader (place_of part.now) (tree_of part.now)) result }
{
    let list = match part.item() {
        Item::Atom(atom) => return read_base(scope, reader, &atom),
        Item::List(list) => list,
    };
    let (word, operands) = headed(list)?;
    match built_due(scope, word) {
        Some(built) => read_built(alloc, scope, bound, built, operands),
        None => Err(wrong(Pass::Shape, list.owner())),
    }
}

/// The column expression of a list's other parts that begins so.
#[cycle(read_term)]
fn read_built<S: Scope>(
    alloc: Global,
    scope: &S,
    bound: &[&str],
    built: Built,
    list: Cursor<'_>,
) -> Result<ColExpr, ReadFault>
    ensures { IsReading column_of (built_with (S.names scope.now) (names_in bound.now) built (owner_of list.entry) (number_of list.entry) (rest_of list.entry)) result }
{
    match built {
        Built::Affine => made_affine(read_numbers(list)),
        Built::Store => read_store(alloc, scope, bound, list),
    }
}

/// Two numbers, which must be the whole rest of a list.
pub fn read_numbers(list: Cursor<'_>) -> Result<(i64, i64), ReadFault>
    ensures { IsReading numbers_of (numbers_reading (owner_of list.entry) (number_of list.entry) (rest_of list.entry)) result }
{
    let (first, second, rest) = two(list)?;
    ended(both(read_number(first), read_number(second)), rest)
}

/// Three parts, and the rest of the list after them.
type Parts<'a> = (Part<'a>, Part<'a>, Part<'a>, Cursor<'a>);

/// The first three parts of a list, in a box: they are large, and are on the stack at each level of a chain of stores.
#[inline(never)]
fn boxed_parts<'a>(alloc: Global, list: Cursor<'a>) -> Result<Box<Parts<'a>>, ReadFault>
    ensures { AreBoxed list.entry result }
{
    Ok(Box::new(alloc, three(list)?)?)
}

/// A column with a value stored at an index: a column and two terms, which must be the whole rest of a list.
#[cycle(read_term)]
#[inline(never)]
fn read_store<S: Scope>(
    alloc: Global,
    scope: &S,
    bound: &[&str],
    list: Cursor<'_>,
) -> Result<ColExpr, ReadFault>
    ensures { IsReading column_of (mapped store_of (store_reading (S.names scope.now) (names_in bound.now) (owner_of list.entry) (number_of list.entry) (rest_of list.entry))) result }
{
    let parts = boxed_parts(alloc, list)?;
    let (first, second, third, rest) = &*parts;
    whole_store(
        alloc,
        read_bound_column(alloc, scope, bound, list.owner(), first),
        read_bound_term(alloc, scope, bound, second),
        read_bound_term(alloc, scope, bound, third),
        rest,
    )
}
