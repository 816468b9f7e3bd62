//! How items are read that declare names for those after them.
ghost use Rattle.std.specs.Prelude.{◌≡◌, ◌++◌, IfOk, map};
ghost use Rattle.lc_sexp.specs.Shown.{rest_of, number_of};
ghost use Rattle.lc_reading.specs.Results.{IsReading};
ghost use Rattle.lc_reading.specs.Rows.{all_declared, declared_reading};
ghost use Rattle.lc_reading.specs.TableView.{listed};

use crate::flaw::{ReadFault, pushed};
use crate::lists::next_part;
use crate::part::Part;
use crate::table::NameTable;
use lc_base::OutOfMemory;
use lc_sexp::Cursor;
use std::alloc::Global;

/// A way to read items that declare names for those after them.
pub trait Declares {
    ghost use Rattle.std.specs.Prelude.{◌≡◌, ◌++◌, ℕ, List, IfOk};
    ghost use Rattle.lc_sexp.specs.Trees.{Tree};
    ghost use Rattle.lc_reading.specs.Parts.{tree_of, place_of};
    ghost use Rattle.lc_reading.specs.Readings.{Reading};
    ghost use Rattle.lc_reading.specs.Results.{IsReading};
    ghost use Rattle.lc_reading.specs.TableView.{listed};

    /// What an item is read into.
    type Value: Drop;

    /// What a value stands for.
    ghost Meaning: { Type 0 };

    ghost meaning: { Self.Value → Meaning };

    /// What an item of this number reads as, after these names.
    ghost reading: { Self → List (List ℕ) → ℕ → Tree → Reading Meaning };

    /// The names that an item declares.
    ghost declares: { Tree → List (List ℕ) };

    /// The value that an item reads as, after these names.
    fn read(
        &self,
        alloc: Global,
        before: &NameTable<'_>,
        part: Part<'_>,
    ) -> Result<Self::Value, ReadFault>
        ensures { IsReading meaning (reading self.now (listed before.now) (place_of part.entry) (tree_of part.entry)) result };

    /// The names, followed by those that an item declares.
    fn enter<'a>(&self, names: NameTable<'a>, part: Part<'a>) -> Result<NameTable<'a>, OutOfMemory>
        ensures { IfOk result (λ entered. listed entered ≡ listed names.entry ++ declares (tree_of part.entry)) };
}

/// These names, followed by those that the items left in a list declare; and the values of these items.
pub fn read_declared<'a, D: Declares>(
    alloc: Global,
    reader: &D,
    before: NameTable<'a>,
    list: Cursor<'a>,
) -> Result<(NameTable<'a>, Result<Vec<D::Value>, ReadFault>), OutOfMemory>
    ensures names { IfOk result (λ r. listed r.0 ≡ listed before.entry ++ all_declared D.declares (rest_of list.entry)) }
    ensures read { IfOk result (λ r. IsReading (λ values. map D.meaning values.items) (declared_reading (D.reading reader.now) D.declares (listed before.entry) (number_of list.entry) (rest_of list.entry)) r.1) }
{
    let mut names = before.with_room(list.len())?;
    let mut rest = list;
    let mut values = Ok(Vec::with_capacity(alloc, list.len())?);
    'items: loop {
        let Ok(part) = next_part(&mut rest) else {
            return Ok((names, values));
        };
        let value = reader.read(alloc, &names, part);
        values = pushed(values, value);
        names = reader.enter(names, part)?;
    }
}
