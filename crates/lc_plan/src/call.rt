//! How a call is read.
ghost use Rattle.std.specs.Prelude.{◌≡◌};
ghost use Rattle.lc_sexp.specs.Shown.{rest_of, number_of, owner_of};
ghost use Rattle.lc_reading.specs.Parts.{tree_of, place_of};
ghost use Rattle.lc_reading.specs.Results.{IsReading};
ghost use Rattle.lc_seq.specs.SpecView.{text_call_of};
ghost use Rattle.lc_plan.specs.Readings.{numbers_reading, call_reading, call_form_reading};
ghost use Rattle.lc_plan.specs.View.{all_in};

use crate::operations::Operations;
use lc_reading::{Part, ReadFault, Reads, behind_word, both, next_part, read_counted, read_each};
use lc_seq::TextCall;
use lc_sexp::Cursor;
use lc_text::read_number;
use std::alloc::Global;

/// Reads numbers.
#[derive(Drop)]
struct Numbers;

impl Reads for Numbers {
    ghost use Rattle.std.specs.Prelude.{ℤ};
    ghost use Rattle.lc_text.specs.Terms.{number_reading};

    type Value = i64;

    ghost Meaning = { ℤ };

    ghost meaning = { λ z. z };

    ghost reading = { λ _. number_reading };

    fn read(&self, _: Global, part: Part<'_>) -> Result<i64, ReadFault> {
        read_number(part)
    }
}

/// The numbers that are left in a list, exactly `due` if that is known.
fn read_numbers(alloc: Global, due: Option<u64>, list: Cursor<'_>) -> Result<Vec<i64>, ReadFault>
    ensures { IsReading (λ numbers. numbers.items) (numbers_reading due (owner_of list.entry) (number_of list.entry) (rest_of list.entry)) result }
{
    match due {
        Some(count) => read_counted(alloc, &Numbers, count, list),
        None => read_each(alloc, &Numbers, list),
    }
}

/// `OP n*`
pub(crate) fn read_call(
    alloc: Global,
    operations: &Operations<'_>,
    list: Cursor<'_>,
) -> Result<TextCall, ReadFault>
    ensures { IsReading text_call_of (call_reading (all_in operations.now) (owner_of list.entry) (number_of list.entry) (rest_of list.entry)) result }
{
    let mut rest = list;
    let first = next_part(&mut rest)?;
    let op = operations.read(first);
    let arity = operations.arity_named(first);
    match both(op, read_numbers(alloc, arity, rest)) {
        Ok((op, numbers)) => Ok(TextCall { op, numbers }),
        Err(fault) => Err(fault),
    }
}

/// `(call OP n*)`
pub(crate) fn read_call_form(
    alloc: Global,
    operations: &Operations<'_>,
    part: Part<'_>,
) -> Result<TextCall, ReadFault>
    ensures { IsReading text_call_of (call_form_reading (all_in operations.now) (place_of part.entry) (tree_of part.entry)) result }
{
    let list = behind_word(part, "call")?;
    read_call(alloc, operations, list)
}
