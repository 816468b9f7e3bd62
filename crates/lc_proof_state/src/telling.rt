//! What is reported about a goal for which a search found no proof.
ghost use Rattle.std.specs.Prelude.{ℕ, IfOk, IfSome};
ghost use Rattle.lc_term.specs.State.{state_of};
ghost use Rattle.lc_term.specs.UpdateView.{writes_view};
ghost use Rattle.lc_term.specs.View.{formula_of, formulas_of};
ghost use Rattle.lc_proof_state.specs.Situation.{IsOf};
ghost use Rattle.lc_proof_state.specs.Told.{IsTold};

use crate::failing::{Failing, failing_in};
use crate::instance::{Instance, instance_of};
use crate::reads::reads_in;
use crate::simpler::{Lowering, completed, least_above};
use crate::situation::{Content, Numbered, Situation, situation_of};
use lc_base::OutOfMemory;
use lc_term::Formula;
use std::alloc::Global;

/// How often numbers are lowered at most.
const MOST_LOWERED: u32 = 64;

/// A state, numbers for the variables of the first `forall`s of a goal, the outermost first, the goal with them, and what is known of it
/// there.
#[derive(Drop)]
pub struct Told {
    pub failing: Failing,
    pub situation: Situation,
    pub numbers: Vec<i64>,
    pub claim: Formula,
}

/// A goal, with `columns` columns, and the variables whose numbers are those of its `forall`s.
#[derive(Clone, Copy)]
struct Asked<'a> {
    columns: u32,
    witnesses: &'a [u32],
    hypotheses: &'a [Formula],
    goal: &'a Formula,
}

/// What is known of a goal in a state.
fn told_in(alloc: Global, situation: Situation, asked: Asked<'_>) -> Result<Told, OutOfMemory>
    requires { IsOf situation.content asked.columns (state_of situation.state) (writes_view situation.cells.items) }
    ensures { IfOk result (IsTold asked.entry.columns (formulas_of asked.entry.hypotheses.now) (formula_of asked.entry.goal.now)) }
{
    let instance = instance_of(alloc, asked.goal, asked.witnesses, &situation.env)?;
    let Instance {
        numbers,
        goal: claim,
    } = instance;
    let failing = failing_in(asked.hypotheses, &claim, &situation.state, &situation.env);
    Ok(Told {
        failing,
        situation,
        numbers,
        claim,
    })
}

/// The same for a state in which the cells that are read have their numbers, and all others 0.
fn told_completed(alloc: Global, told: &Told, asked: Asked<'_>) -> Result<Told, OutOfMemory>
    ensures { IfOk result (IsTold asked.entry.columns (formulas_of asked.entry.hypotheses.now) (formula_of asked.entry.goal.now)) }
{
    let reads = reads_in(alloc, asked.hypotheses, &told.claim)?;
    let situation = completed(alloc, asked.columns, &told.situation, &reads)?;
    told_in(alloc, situation, asked)
}

/// The report about all cells that are read, if it is the same with them.
fn with_reads(alloc: Global, told: Told, asked: Asked<'_>) -> Result<Told, OutOfMemory>
    requires { IsTold asked.columns (formulas_of asked.hypotheses.now) (formula_of asked.goal.now) told }
    ensures { IfOk result (IsTold asked.entry.columns (formulas_of asked.entry.hypotheses.now) (formula_of asked.entry.goal.now)) }
{
    let more = told_completed(alloc, &told, asked)?;
    if more.failing == told.failing {
        Ok(more)
    } else {
        Ok(told)
    }
}

/// The report about a goal that fails also if the numbers from `least` on are lowered so far that `least` becomes one of these, the first
/// that serves.
fn lowered(
    alloc: Global,
    told: &Told,
    least: i64,
    floor: i64,
    asked: Asked<'_>,
) -> Result<Option<Told>, OutOfMemory>
    ensures { IfOk result (λ found. IfSome found (IsTold asked.entry.columns (formulas_of asked.entry.hypotheses.now) (formula_of asked.entry.goal.now))) }
{
    let after = floor.saturating_add(1);
    for goal in [0, 1, 2, after, after.saturating_add(1)] {
        if goal < least {
            let lowering = Lowering {
                least,
                by: least.saturating_sub(goal),
            };
            let situation = lowering.of_situation(alloc, asked.columns, &told.situation)?;
            let less = told_in(alloc, situation, asked)?;
            if less.failing == Failing::Fails {
                return Ok(Some(less));
            }
        }
    }
    Ok(None)
}

/// The report about a goal that fails, with numbers as small as they get by lowering the larger ones together.
fn with_small_numbers(alloc: Global, told: Told, asked: Asked<'_>) -> Result<Told, OutOfMemory>
    requires { IsTold asked.columns (formulas_of asked.hypotheses.now) (formula_of asked.goal.now) told }
    ensures { IfOk result (IsTold asked.entry.columns (formulas_of asked.entry.hypotheses.now) (formula_of asked.entry.goal.now)) }
{
    let mut told = told;
    let mut floor = 0;
    for _turn in 0..MOST_LOWERED {
        let Some(least) = least_above(floor, &told.situation) else {
            return Ok(told);
        };
        match lowered(alloc, &told, least, floor, asked)? {
            Some(less) => told = less,
            None => floor = least,
        }
    }
    Ok(told)
}

/// What is known of a goal in the state that these numbers describe, if each other cell has this content.
fn told_of(
    alloc: Global,
    variables: u32,
    numbers: &[Numbered],
    content: Content,
    asked: Asked<'_>,
) -> Result<Told, OutOfMemory>
    ensures { IfOk result (IsTold asked.entry.columns (formulas_of asked.entry.hypotheses.now) (formula_of asked.entry.goal.now)) }
{
    let situation = situation_of(alloc, asked.columns, variables, numbers, content)?;
    told_in(alloc, situation, asked)
}

/// The same, in a state that is simple to read, if the goal fails.
fn simpler(alloc: Global, told: Told, asked: Asked<'_>) -> Result<Told, OutOfMemory>
    requires { IsTold asked.columns (formulas_of asked.hypotheses.now) (formula_of asked.goal.now) told }
    ensures { IfOk result (IsTold asked.entry.columns (formulas_of asked.entry.hypotheses.now) (formula_of asked.entry.goal.now)) }
{
    match told.failing {
        Failing::Unknown => Ok(told),
        Failing::FailsButForQuantifiers => with_reads(alloc, told, asked),
        Failing::Fails => {
            let read = with_reads(alloc, told, asked)?;
            let small = with_small_numbers(alloc, read, asked)?;
            with_reads(alloc, small, asked)
        }
    }
}

/// What is known about a goal, with `columns` columns and `variables` variables, in a state that these numbers describe. The variables of
/// its `forall`s have the numbers of the witnesses, in turn. Cells about which nothing is said have 0; if the goal does not fail so,
/// numbers that differ. If it fails, each cell that is read is among those of the state, and its numbers are small.
pub fn tell(
    alloc: Global,
    columns: u32,
    variables: u32,
    numbers: &[Numbered],
    witnesses: &[u32],
    hypotheses: &[Formula],
    goal: &Formula,
) -> Result<Told, OutOfMemory>
    ensures { IfOk result (IsTold columns (formulas_of hypotheses.now) (formula_of goal.now)) }
{
    let asked = Asked {
        columns,
        witnesses,
        hypotheses,
        goal,
    };
    let told = told_of(alloc, variables, numbers, Content::Zero, asked)?;
    match told.failing {
        Failing::Unknown => {
            let told = told_of(alloc, variables, numbers, Content::Spread, asked)?;
            simpler(alloc, told, asked)
        }
        Failing::Fails | Failing::FailsButForQuantifiers => simpler(alloc, told, asked),
    }
}
