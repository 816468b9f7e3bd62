//! How a given number of items of a list are read.
ghost use Rattle.std.specs.Prelude.{map};
ghost use Rattle.lc_sexp.specs.Shown.{rest_of, number_of, owner_of};
ghost use Rattle.lc_reading.specs.Results.{IsReading};
ghost use Rattle.lc_reading.specs.Rows.{counted_reading};

use crate::flaw::{ReadFault, misshapen_too, pushed};
use crate::lists::next_part;
use crate::rows::Reads;
use lc_sexp::Cursor;
use std::alloc::Global;

/// The values of the items left in a list, where exactly `count` are expected.
pub fn read_counted<R: Reads>(
    alloc: Global,
    reader: &R,
    count: u64,
    list: Cursor<'_>,
) -> Result<Vec<R::Value>, ReadFault>
    ensures { IsReading (λ values. map R.meaning values.items) (counted_reading (R.reading reader.now) (owner_of list.entry) count (number_of list.entry) (rest_of list.entry)) result }
{
    let mut rest = list;
    let mut due = count;
    let mut values = Ok(Vec::with_capacity(alloc, list.len())?);
    'items: loop {
        let number = rest.number();
        let Ok(part) = next_part(&mut rest) else {
            return if due == 0 {
                values
            } else {
                misshapen_too(values, list.owner())
            };
        };
        if due == 0 {
            return misshapen_too(values, number);
        }
        let value = reader.read(alloc, part);
        values = pushed(values, value);
        due -= 1;
    }
}
