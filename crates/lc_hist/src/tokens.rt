//! How numbers and calls of a history that is right are read from the tokens of its text. If one is of another form nothing is
//! said, and the values of the text tell what is wrong.
ghost use Rattle.std.specs.Prelude.{◌≡◌, IsTrue, IfOk, IfSome, bytes_eq};
ghost use Rattle.lc_seq.specs.SpecView.{text_call_of};
ghost use Rattle.lc_hist.specs.JsonSeen.{all_of};
ghost use Rattle.lc_hist.specs.JsonTokens.{Says, SayCall};
ghost use Rattle.lc_hist.specs.JsonValues.{numbers_in};

use crate::cursor::Cursor;
use crate::operations::Operations;
use lc_base::OutOfMemory;
use lc_seq::TextCall;
use std::alloc::Global;

/// Whether these are the same bytes, one after another: if they are few, this is quicker than by several at once.
fn by_bytes(a: &[u8], b: &[u8]) -> bool
    ensures { result ≡ bytes_eq a.now b.now }
{
    if a.len() != b.len() {
        return false;
    }
    for (at, byte) in a.iter().enumerate() {
        if *byte != b[at] {
            return false;
        }
    }
    true
}

/// Whether these few bytes are the same.
pub(crate) fn are_same(a: &[u8], b: &[u8]) -> bool
    ensures test { result ≡ bytes_eq a.now b.now }
    ensures same { IsTrue result → a.now ≡ b.now }
{
    by_bytes(a, b)
}

/// The next numbers.
pub(crate) fn next_numbers(
    alloc: Global,
    reader: &mut Cursor<'_>,
) -> Result<Option<Vec<i64>>, OutOfMemory>
    ensures { IfOk result (λ found. IfSome found (λ numbers. Says 1 numbers_in reader.old numbers.items reader.new)) }
{
    if !reader.begins_array() {
        return Ok(None);
    }
    let mut numbers = Vec::new(alloc);
    'numbers: while !reader.take_end_array() {
        let Some(number) = reader.next_number() else {
            return Ok(None);
        };
        numbers.push(number)?;
    }
    Ok(Some(numbers))
}

/// The next call: a name and numbers.
pub(crate) fn next_call(
    alloc: Global,
    operations: &Operations<'_>,
    reader: &mut Cursor<'_>,
) -> Result<Option<TextCall>, OutOfMemory>
    ensures { IfOk result (λ found. IfSome found (λ call. SayCall (all_of operations.now) reader.old (text_call_of call) reader.new)) }
{
    let Some(name) = reader.next_text() else {
        return Ok(None);
    };
    let Some(op) = operations.spelled(name) else {
        return Ok(None);
    };
    let Some(numbers) = next_numbers(alloc, reader)? else {
        return Ok(None);
    };
    if !operations.takes(op, numbers.len()) {
        return Ok(None);
    }
    Ok(Some(TextCall { op, numbers }))
}
