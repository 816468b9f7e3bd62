//! The condition of a number, made after those before it.
ghost use Rattle.std.specs.Prelude.{IfOk, IfSome};
ghost use Rattle.lc_cond.specs.ConditionView.{AreConditions, IsCondition};

use lc_base::OutOfMemory;
use lc_cond::{Condition, ConditionStream, NumberedPart};
use lc_outline::Development;
use lc_table::Terms;
use std::alloc::Global;

/// The condition of a number, if it is among those of a part.
pub(crate) fn condition_at<'a>(
    terms: &Terms,
    part: &'a NumberedPart,
    number: u64,
) -> Option<&'a Condition>
    requires { AreConditions terms.now part.now.conditions.items }
    ensures { IfSome result (λ condition. IsCondition terms.now condition.now) }
{
    let _ = terms;
    let place = number.checked_sub(part.first)?;
    part.conditions.get(usize::try_from(place).ok()?)
}

/// The part of the conditions of a development that has the one of a number, if there is one. The parts before it are made, each in a table
/// of its own: so it takes no more than whoever has come to this condition.
pub(crate) fn part_of(
    alloc: Global,
    development: &Development,
    terms: &mut Terms,
    number: u64,
) -> Result<Option<NumberedPart>, OutOfMemory>
    ensures { IfOk result (λ found. IfSome found (λ part. AreConditions terms.new part.conditions.items)) }
{
    let mut stream = ConditionStream::new(alloc, development)?;
    'parts: loop {
        let first = stream.first_number();
        *terms = Terms::new(alloc);
        let Some(conditions) = stream.next_part(development, terms)? else {
            return Ok(None);
        };
        if number < stream.first_number() {
            return Ok(Some(NumberedPart { first, conditions }));
        }
    }
}
