//! How a column is read that is declared with its numbers.
ghost use Rattle.lc_sexp.specs.Shown.{rest_of, number_of, owner_of};
ghost use Rattle.lc_reading.specs.Parts.{tree_of, place_of};
ghost use Rattle.lc_reading.specs.Readings.{listed_reading};
ghost use Rattle.lc_reading.specs.Results.{IsReading};
ghost use Rattle.lc_reading.specs.TableView.{listed};
ghost use Rattle.lc_text.specs.DeclaredColumn.{column_parts_reading, declared_column_reading};
ghost use Rattle.lc_text.specs.Seen.{column_parts};

use crate::term::read_number;
use lc_base::Name;
use lc_reading::{
    NameTable, Part, Pass, ReadFault, both, ended, is_full, limited, read_name, three, wrong,
};
use lc_sexp::{Cursor, Item};

/// A name that is declared after these, and two numbers, which must be the whole rest of a list.
fn read_column_parts(
    before: &NameTable<'_>,
    list: Cursor<'_>,
) -> Result<((Name, i64), i64), ReadFault>
    ensures { IsReading column_parts (column_parts_reading (listed before.now) (owner_of list.entry) (number_of list.entry) (rest_of list.entry)) result }
{
    let (first, second, third, rest) = three(list)?;
    let name = read_name(None, before, first);
    let slope = read_number(second);
    let start = read_number(third);
    ended(both(both(name, slope), start), rest)
}

fn read_column_list(before: &NameTable<'_>, part: Part<'_>) -> Result<((Name, i64), i64), ReadFault>
    ensures { IsReading column_parts (listed_reading (column_parts_reading (listed before.now)) (place_of part.entry) (tree_of part.entry)) result }
{
    match part.item() {
        Item::Atom(atom) => Err(wrong(Pass::Shape, atom.number())),
        Item::List(list) => read_column_parts(before, list),
    }
}

/// The name, the slope and the start of a column `(NAME a b)`, which starts with `a * i + b` in cell i. It is declared
/// after these, with a limit on all names together, and one beyond the limit is reported at its list.
pub fn read_declared_column(
    limit: Option<u64>,
    before: &NameTable<'_>,
    part: Part<'_>,
) -> Result<((Name, i64), i64), ReadFault>
    ensures { IsReading column_parts (declared_column_reading limit (listed before.now) (place_of part.entry) (tree_of part.entry)) result }
{
    let column = read_column_list(before, part);
    limited(is_full(limit, before.len()), part.number(), column)
}
