//! Conditions for which no proof is found.
ghost use Rattle.lc_cond.specs.ConditionView.{AreConditions};

use lc_base::OutOfMemory;
use lc_cond::{Condition, ConditionStream};
use lc_outline::Development;
use lc_search::{End, search};
use lc_table::Terms;
use std::alloc::Global;

/// Of how many of these conditions, whose first one has this number, no proof is found, if those before `first` are not sought.
fn unfound_among(
    alloc: Global,
    terms: &Terms,
    conditions: &[Condition],
    number: u64,
    first: u64,
    budget: u64,
) -> Result<u64, OutOfMemory>
    requires { AreConditions terms.now conditions.now }
{
    let mut count = 0u64;
    for (place, condition) in conditions.iter().enumerate() {
        if number.saturating_add(place as u64) < first {
            continue;
        }
        let searched = search(alloc, terms, &condition.goal, &[], &[], budget)?;
        if !matches!(searched.end, End::Found(_)) {
            count = count.saturating_add(1);
        }
    }
    Ok(count)
}

/// Of how many conditions of a development, from the one of a number on, no proof is found in at most `budget` steps each. Nothing is promised of
/// the count.
pub fn unfound_from(
    alloc: Global,
    development: &Development,
    first: u64,
    budget: u64,
) -> Result<u64, OutOfMemory> {
    let mut stream = ConditionStream::new(alloc, development)?;
    let mut count = 0u64;
    'parts: loop {
        let number = stream.first_number();
        let mut terms = Terms::new(alloc);
        let Some(conditions) = stream.next_part(development, &mut terms)? else {
            return Ok(count);
        };
        let here = unfound_among(alloc, &terms, &conditions, number, first, budget)?;
        count = count.saturating_add(here);
    }
}
