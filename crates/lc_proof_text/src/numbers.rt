//! Numbers with which a list begins, read at once if nothing is wrong with them. What is wrong is reported by the readers of parts.
ghost use Rattle.std.specs.Prelude.{IfSome};
ghost use Rattle.lc_reading.specs.Results.{IsReading};
ghost use Rattle.lc_sexp.specs.Shown.{rest_of, number_of, owner_of};
ghost use Rattle.lc_sexp.specs.declared.cursor.Cursor.{Cursor};
ghost use Rattle.lc_text.specs.Seen.{numbers_of};
ghost use Rattle.lc_text.specs.Terms.{numbers_reading};
ghost use Rattle.lc_proof_text.specs.Own.{BeginsWith};

use lc_reading::ReadFault;
use lc_sexp::Cursor;
use lc_text::read_numbers;

/// The number with which a list begins, if it begins with one, and the rest after it.
pub(crate) fn first_number<'a>(list: Cursor<'a>) -> Option<(i64, Cursor<'a>)>
    ensures { IfSome result (λ p. BeginsWith list.entry p.0 p.1) }
{
    let mut rest = list;
    match rest.integer() {
        Ok(number) => Some((number, rest)),
        Err(_) => None,
    }
}

/// The two numbers with which a list begins, if it begins with two, and the rest after them.
pub(crate) fn first_numbers<'a>(list: Cursor<'a>) -> Option<(i64, i64, Cursor<'a>)>
    ensures { IfSome result (λ p. (between : Cursor) × BeginsWith list.entry p.0 between × BeginsWith between p.1 p.2) }
{
    let (first, rest) = first_number(list)?;
    let (second, rest) = first_number(rest)?;
    Some((first, second, rest))
}

/// The two numbers that are all that is left in a list.
pub(crate) fn only_numbers(list: Cursor<'_>) -> Result<(i64, i64), ReadFault>
    ensures { IsReading numbers_of (numbers_reading (owner_of list.entry) (number_of list.entry) (rest_of list.entry)) result }
{
    match first_numbers(list) {
        Some((first, second, rest)) if rest.is_empty() => Ok((first, second)),
        _ => read_numbers(list),
    }
}
