//! Whether a hypothesis with quantifiers is seen not to hold in the state in which a search ended.
use lc_base::OutOfMemory;
use lc_look::{Seen, look};
use lc_proof_state::Told;
use lc_term::Formula;
use std::alloc::Global;

/// At how many numbers quantifiers are tried at most.
const MOST_NUMBERS: usize = 64;

/// How many quantifiers are tried in one another; where there are more, nothing is looked at.
const MOST_NESTED: usize = 2;

/// How many quantifiers there are at most in one another.
fn nested(formula: &Formula) -> usize {
    match formula {
        Formula::Le(_, _) | Formula::Eq(_, _) => 0,
        Formula::Not(formula) => nested(formula),
        Formula::Forall(body) | Formula::Exists(body) => nested(body).saturating_add(1),
        Formula::Implies(left, right) => nested(left).max(nested(right)),
        Formula::And(parts) | Formula::Or(parts) => {
            let mut most = 0usize;
            for part in parts {
                most = most.max(nested(part));
            }
            most
        }
    }
}

/// Takes a number among others, once, if there is room.
fn take(numbers: &mut Vec<i64>, number: i64) -> Result<(), OutOfMemory> {
    if numbers.len() < MOST_NUMBERS && !numbers.contains(&number) {
        numbers.push(number)?;
    }
    Ok(())
}

/// The numbers that are shown of a state: those of variables, and the indexes and the numbers of cells.
fn shown_numbers(alloc: Global, told: &Told) -> Result<Vec<i64>, OutOfMemory> {
    let mut numbers = Vec::new(alloc);
    for number in &told.situation.env.values {
        take(&mut numbers, *number)?;
    }
    for number in &told.numbers {
        take(&mut numbers, *number)?;
    }
    for cell in &told.situation.cells {
        take(&mut numbers, cell.index)?;
    }
    for cell in &told.situation.cells {
        take(&mut numbers, cell.value)?;
    }
    Ok(numbers)
}

/// The place of the first hypothesis with quantifiers that is seen not to hold in a state, at the numbers that are shown of it.
pub(crate) fn broken_hypothesis(
    alloc: Global,
    told: &Told,
    hypotheses: &[Formula],
) -> Result<Option<usize>, OutOfMemory> {
    let numbers = shown_numbers(alloc, told)?;
    let situation = &told.situation;
    for (place, hypothesis) in hypotheses.iter().enumerate() {
        let depth = nested(hypothesis);
        if depth == 0 || MOST_NESTED < depth {
            continue;
        }
        if let Seen::No = look(
            alloc,
            hypothesis,
            &situation.state,
            &situation.env,
            &numbers,
        )? {
            return Ok(Some(place));
        }
    }
    Ok(None)
}
