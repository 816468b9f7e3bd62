//! Readings: flaws, what is read together, items in a row, and names.
ghost use Rattle.std.specs.Prelude.{◌≡◌, map};
ghost use Rattle.lc_reading.specs.Flaws.{lesser, refusal_of};
ghost use Rattle.lc_reading.specs.Listed.{place_of as name_place};
ghost use Rattle.lc_reading.specs.Naming.{declaration_reading, is_full, use_reading};
ghost use Rattle.lc_reading.specs.Parts.{tree_of, place_of};
ghost use Rattle.lc_reading.specs.Results.{IsReading, both_results, ended_result};
ghost use Rattle.lc_reading.specs.Rows.{each_reading};
ghost use Rattle.lc_reading.specs.TableView.{listed};
ghost use Rattle.lc_sexp.specs.Shown.{rest_of, number_of};

use lc_base::Refusal;
use lc_reading::{
    Flaw, NameTable, Part, Pass, ReadFault, Reads, both, ended, is_full, read_declaration,
    read_each, read_use,
};
use lc_sexp::Cursor;
use std::alloc::Global;

/// Of two flaws, the first by pass and then by item is reported, and the least item that is wrong in either is kept.
pub fn joining(flaw: Flaw, other: Flaw) -> Flaw
    ensures { result ≡ lesser flaw other }
{
    flaw.and(other)
}

/// The refusal of a file is that of its flaw.
pub fn refusing(flaw: Flaw) -> Refusal
    ensures { result ≡ refusal_of flaw }
{
    flaw.refusal()
}

/// Two are read together as both values, else with the flaws of either.
pub fn pairing<A: Drop, B: Drop>(
    first: Result<A, ReadFault>,
    second: Result<B, ReadFault>,
) -> Result<(A, B), ReadFault>
    ensures { result ≡ both_results first second }
{
    both(first, second)
}

/// A part too many is a flaw.
pub fn ending<T: Drop>(value: Result<T, ReadFault>, rest: Cursor<'_>) -> Result<T, ReadFault>
    ensures { result ≡ ended_result (number_of rest.entry) (rest_of rest.entry) value }
{
    ended(value, rest)
}

/// Items in a row read as all their values, else with the flaws of all.
pub fn reading_a_row<R: Reads>(
    alloc: Global,
    reader: &R,
    list: Cursor<'_>,
) -> Result<Vec<R::Value>, ReadFault>
    ensures { IsReading (λ values. map R.meaning values.items) (each_reading (R.reading reader.now) (number_of list.entry) (rest_of list.entry)) result }
{
    read_each(alloc, reader, list)
}

/// A name has its first place in a table.
pub fn placing(names: &NameTable<'_>, name: &str) -> Option<usize>
    ensures { result ≡ name_place (listed names.now) name.now }
{
    names.place(name)
}

/// Whether a limit is reached.
pub fn filling(limit: Option<u64>, count: usize) -> bool
    ensures { result ≡ is_full limit count }
{
    is_full(limit, count)
}

/// A name is declared if it is new, and within the limit.
pub fn declaring(
    limit: Option<u64>,
    before: &NameTable<'_>,
    part: Part<'_>,
) -> Result<(), ReadFault>
    ensures { IsReading (λ u. u) (declaration_reading limit (listed before.now) (place_of part.entry) (tree_of part.entry)) result }
{
    read_declaration(limit, before, part)
}

/// A name is used if it is declared.
pub fn using_a_name(names: &NameTable<'_>, part: Part<'_>) -> Result<usize, ReadFault>
    ensures { IsReading (λ k. k) (use_reading (listed names.now) (place_of part.entry) (tree_of part.entry)) result }
{
    read_use(names, part)
}
