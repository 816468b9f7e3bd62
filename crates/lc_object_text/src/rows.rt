//! How items are read by their places in a row.
ghost use Rattle.std.specs.Prelude.{map};
ghost use Rattle.lc_sexp.specs.Shown.{rest_of, number_of};
ghost use Rattle.lc_reading.specs.Results.{IsReading};
ghost use Rattle.lc_object_text.specs.Rows.{placed_reading, lists_reading};

use lc_reading::{Part, ReadFault, next_part, pushed};
use lc_sexp::Cursor;
use std::alloc::Global;

/// A way to read items by their places in a row.
pub trait ReadsPlaced {
    ghost use Rattle.std.specs.Prelude.{ℕ};
    ghost use Rattle.lc_sexp.specs.Trees.{Tree};
    ghost use Rattle.lc_reading.specs.Parts.{tree_of, place_of};
    ghost use Rattle.lc_reading.specs.Readings.{Reading};
    ghost use Rattle.lc_reading.specs.Results.{IsReading};

    /// What an item is read into.
    type Value: Drop;

    /// What a value stands for.
    ghost Meaning: { Type 0 };

    ghost meaning: { Self.Value → Meaning };

    /// What the item of this number reads as, by how many come before it.
    ghost reading: { Self → ℕ → ℕ → Tree → Reading Meaning };

    /// The value that an item reads as, with `place` items before it.
    fn read(&self, alloc: Global, place: u32, part: Part<'_>) -> Result<Self::Value, ReadFault>
        ensures { IsReading meaning (reading self.now place (place_of part.entry) (tree_of part.entry)) result };
}

/// The values that the items read as that are left in a list, by their places.
pub fn read_placed<R: ReadsPlaced>(
    alloc: Global,
    reader: &R,
    list: Cursor<'_>,
) -> Result<Vec<R::Value>, ReadFault>
    ensures { IsReading (λ values. map R.meaning values.items) (placed_reading (R.reading reader.now) 0 (number_of list.entry) (rest_of list.entry)) result }
{
    let mut rest = list;
    let mut place = 0u32;
    let mut values = Ok(Vec::with_capacity(alloc, list.len())?);
    'items: loop {
        let Ok(part) = next_part(&mut rest) else {
            return values;
        };
        let value = reader.read(alloc, place, part);
        values = pushed(values, value);
        if place == u32::MAX {
            return Err(ReadFault::OutOfMemory);
        }
        place += 1;
    }
}

/// The values of the lists at the beginning of the rest that begin with a word, by their places.
pub fn read_lists<R: ReadsPlaced>(
    alloc: Global,
    reader: &R,
    word: &str,
    list: Cursor<'_>,
) -> Result<Vec<R::Value>, ReadFault>
    ensures { IsReading (λ values. map R.meaning values.items) (lists_reading word.now (R.reading reader.now) 0 (number_of list.entry) (rest_of list.entry)) result }
{
    let mut rest = list;
    let mut place = 0u32;
    let mut values = Ok(Vec::new(alloc));
    'lists: loop {
        if !rest.is_at_form(word) {
            return values;
        }
        let Ok(part) = next_part(&mut rest) else {
            return values;
        };
        let value = reader.read(alloc, place, part);
        values = pushed(values, value);
        if place == u32::MAX {
            return Err(ReadFault::OutOfMemory);
        }
        place += 1;
    }
}
