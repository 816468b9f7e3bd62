//! The first condition that fails where a client takes a step.
ghost use Rattle.std.specs.Prelude.{◌≡◌, ◌+◌, IfOk, map, option_map};
ghost use Rattle.lc_cond.specs.ConditionView.{condition_in, AreConditions};
ghost use Rattle.lc_acting.specs.Attempts.{IsAttempt, IsOnly, development_of, world_of, event_of};
ghost use Rattle.lc_acting.specs.Acting.{IsActing};
ghost use Rattle.lc_blame.specs.Blame.{FailsThere, IsBlamed, IsFirst};

use crate::failing::fails_there;
use lc_acting::{Acting, Attempt, action_of};
use lc_base::OutOfMemory;
use lc_cond::{Condition, ConditionStream};
use lc_table::Terms;
use std::alloc::Global;

// The first of these conditions that fails there.
fn first_failing(
    alloc: Global,
    attempt: &Attempt<'_>,
    acting: &Option<Acting>,
    terms: &Terms,
    conditions: &[Condition],
) -> Result<Option<usize>, OutOfMemory>
    requires attempt { IsAttempt attempt.now }
    requires acting { IsOnly (IsActing (development_of attempt.now) (world_of attempt.now) attempt.now.client (event_of attempt.now) (event_of attempt.now)) acting.now }
    requires conditions { AreConditions terms.now conditions.now }
    ensures { IfOk result (IsFirst (FailsThere (development_of attempt.now) (world_of attempt.now) attempt.now.client (event_of attempt.now) attempt.now.tried.now) (map (condition_in terms.now) conditions.now)) }
{
    for (i, condition) in conditions.iter().enumerate() {
        let failed = fails_there(alloc, attempt, acting, terms, condition)?;
        if failed {
            return Ok(Some(i));
        }
    }
    Ok(None)
}

// The number of a condition, by its place behind the first one of this number.
fn numbered(first: u64, place: Option<usize>) -> Result<Option<u64>, OutOfMemory>
    ensures { IfOk result (λ found. found ≡ option_map (λ k. first + k) place) }
{
    match place {
        None => Ok(None),
        Some(place) => match first.checked_add(place as u64) {
            None => Err(OutOfMemory),
            Some(number) => Ok(Some(number)),
        },
    }
}

// The number of the first condition of a development that fails where a client takes a step, which is this action.
fn first_of_all(
    alloc: Global,
    attempt: &Attempt<'_>,
    acting: &Option<Acting>,
) -> Result<Option<u64>, OutOfMemory>
    requires attempt { IsAttempt attempt.now }
    requires acting { IsOnly (IsActing (development_of attempt.now) (world_of attempt.now) attempt.now.client (event_of attempt.now) (event_of attempt.now)) acting.now }
    ensures { IfOk result (IsBlamed (development_of attempt.now) (world_of attempt.now) attempt.now.client (event_of attempt.now) attempt.now.tried.now) }
{
    let mut stream = ConditionStream::new(alloc, attempt.development)?;
    'parts: loop {
        let mut terms = Terms::new(alloc);
        let first = stream.first_number();
        let part = stream.next_part(attempt.development, &mut terms)?;
        match part {
            None => return Ok(None),
            Some(conditions) => {
                let place = first_failing(alloc, attempt, acting, &terms, &conditions)?;
                let found = numbered(first, place)?;
                let failed = found.is_some();
                if failed {
                    return Ok(found);
                }
            }
        }
    }
}

/// The number of the first condition of a development that fails where a client takes a step, with numbers that clients have there for its
/// variables: its goal is seen not to hold in the columns before the step, and none of its hypotheses is.
pub fn failing_condition(alloc: Global, attempt: &Attempt<'_>) -> Result<Option<u64>, OutOfMemory>
    requires { IsAttempt attempt.now }
    ensures { IfOk result (IsBlamed (development_of attempt.now) (world_of attempt.now) attempt.now.client (event_of attempt.now) attempt.now.tried.now) }
{
    let acting = action_of(alloc, attempt)?;
    first_of_all(alloc, attempt, &acting)
}
