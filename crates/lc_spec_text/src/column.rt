//! How the columns of a specification are read.
ghost use Rattle.std.specs.Prelude.{◌≡◌, ℕ, ℤ, List, IfOk};
ghost use Rattle.lc_reading.specs.Parts.{tree_of, place_of};
ghost use Rattle.lc_reading.specs.Readings.{Reading, mapped};
ghost use Rattle.lc_reading.specs.Results.{IsReading};
ghost use Rattle.lc_reading.specs.TableView.{listed};
ghost use Rattle.lc_text.specs.Seen.{column_parts};
ghost use Rattle.lc_seq.specs.SpecView.{column_of};
ghost use Rattle.lc_spec_text.specs.Specifications.{the_column, column_reading, columns_reading, columns_in};
ghost use Rattle.lc_spec_text.specs.Seen.{columns_of};

use lc_base::{COLUMN_LIMIT, Name, OutOfMemory};
use lc_reading::{Declares, NameTable, Part, ReadFault, behind_word, read_declared};
use lc_seq::Column;
use lc_text::read_declared_column;
use std::alloc::Global;

/// The column of a name and its two numbers.
fn made_column(parts: Result<((Name, i64), i64), ReadFault>) -> Result<Column, ReadFault>
    ensures { (r : Reading ((List ℕ × ℤ) × ℤ)) → IsReading column_parts r parts → IsReading column_of (mapped the_column r) result }
{
    let ((name, slope), start) = parts?;
    Ok(Column { name, slope, start })
}

/// Reads columns.
#[derive(Drop)]
struct Columns;

impl Declares for Columns {
    ghost use Rattle.lc_reading.specs.Rows.{first_name};
    ghost use Rattle.lc_seq.specs.SpecView.{column_of};
    ghost use Rattle.lc_seq.specs.Specification.{Column};
    ghost use Rattle.lc_spec_text.specs.Specifications.{column_reading};

    type Value = Column;

    ghost Meaning = { Column };

    ghost meaning = { column_of };

    ghost reading = { λ _. column_reading };

    ghost declares = { first_name };

    fn read(&self, _: Global, before: &NameTable<'_>, part: Part<'_>) -> Result<Column, ReadFault> {
        made_column(read_declared_column(Some(COLUMN_LIMIT), before, part))
    }

    fn enter<'a>(
        &self,
        names: NameTable<'a>,
        part: Part<'a>,
    ) -> Result<NameTable<'a>, OutOfMemory> {
        names.enter_first(part)
    }
}

/// `(abstract COL*)`: the names of its columns, and these.
pub(crate) fn read_columns<'a>(
    alloc: Global,
    part: Part<'a>,
) -> Result<(NameTable<'a>, Result<Vec<Column>, ReadFault>), OutOfMemory>
    ensures names { IfOk result (λ r. listed r.0 ≡ columns_in (tree_of part.entry)) }
    ensures read { IfOk result (λ r. IsReading columns_of (columns_reading (place_of part.entry) (tree_of part.entry)) r.1) }
{
    let names = NameTable::new(alloc);
    match behind_word(part, "abstract") {
        Ok(list) => read_declared(alloc, &Columns, names, list),
        Err(misfit) => Ok((names, Err(ReadFault::from(misfit)))),
    }
}
