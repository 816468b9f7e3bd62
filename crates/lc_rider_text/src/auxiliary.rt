//! How auxiliary columns are read.
ghost use Rattle.lc_sexp.specs.Shown.{rest_of, number_of, owner_of};
ghost use Rattle.lc_reading.specs.Parts.{tree_of, place_of};
ghost use Rattle.lc_reading.specs.Readings.{listed_reading};
ghost use Rattle.lc_reading.specs.Results.{IsReading};
ghost use Rattle.lc_reading.specs.TableView.{listed};
ghost use Rattle.lc_seq.specs.SpecView.{column_of};
ghost use Rattle.lc_rider_text.specs.Columns.{column_parts_reading};

use lc_base::COLUMN_LIMIT;
use lc_object_text::{ReadsPlaced, read_kth_name};
use lc_reading::{NameTable, Part, Pass, ReadFault, both, limited, next_part, wrong};
use lc_seq::Column;
use lc_sexp::{Cursor, Item};
use lc_text::read_numbers;
use std::alloc::Global;

/// `NAME a b`, the column of this place among all.
fn read_column_parts(
    names: &NameTable<'_>,
    place: u64,
    list: Cursor<'_>,
) -> Result<Column, ReadFault>
    ensures { IsReading column_of (column_parts_reading (listed names.now) place (owner_of list.entry) (number_of list.entry) (rest_of list.entry)) result }
{
    let mut rest = list;
    let name = next_part(&mut rest)?;
    let name = read_kth_name(names, place, name);
    match both(name, read_numbers(rest)) {
        Ok((name, (slope, start))) => Ok(Column { name, slope, start }),
        Err(fault) => Err(fault),
    }
}

/// The list of such parts.
fn read_column_list(names: &NameTable<'_>, place: u64, part: Part<'_>) -> Result<Column, ReadFault>
    ensures { IsReading column_of (listed_reading (column_parts_reading (listed names.now) place) (place_of part.entry) (tree_of part.entry)) result }
{
    match part.item() {
        Item::Atom(atom) => Err(wrong(Pass::Shape, atom.number())),
        Item::List(list) => read_column_parts(names, place, list),
    }
}

/// Reads auxiliary columns `(NAME a b)`, which start with `a * i + b` in cell i.
#[derive(Clone, Copy)]
pub struct AuxiliaryColumns<'a, 'b> {
    /// All columns that the file declares.
    pub names: &'b NameTable<'a>,
    /// How many of them come before the auxiliary ones.
    pub base: u32,
}

impl ReadsPlaced for AuxiliaryColumns<'_, '_> {
    ghost use Rattle.lc_reading.specs.TableView.{listed};
    ghost use Rattle.lc_seq.specs.SpecView.{column_of};
    ghost use Rattle.lc_seq.specs.Specification.{Column};
    ghost use Rattle.lc_rider_text.specs.Columns.{column_reading};

    type Value = Column;

    ghost Meaning = { Column };

    ghost meaning = { column_of };

    ghost reading = { λ reader. column_reading (listed reader.names.now) reader.base };

    fn read(&self, _: Global, place: u32, part: Part<'_>) -> Result<Column, ReadFault> {
        let before = u64::from(self.base) + u64::from(place);
        let column = read_column_list(self.names, before, part);
        limited(COLUMN_LIMIT <= before, part.number(), column)
    }
}
