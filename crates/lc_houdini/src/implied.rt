//! Facts that follow from others.
ghost use Rattle.std.specs.Prelude.{◌<◌, length, IfOk, IfSome};
ghost use Rattle.lc_cond.specs.ConditionView.{AreConditions, IsCondition};
ghost use Rattle.lc_table.specs.Tables.{AreFormulas};

use crate::facts::Facts;
use crate::goals::{formula_at, replaced};
use crate::marks::{is_set, marks, set};
use crate::searching::{Asserted, asserted_at, entered_for};
use lc_base::OutOfMemory;
use lc_cond::{Condition, ConditionStream, Passage};
use lc_kernel::{Goal, Hypotheses};
use lc_outline::Development;
use lc_search::{End, search};
use lc_table::{FormulaId, Terms};
use std::alloc::Global;

/// How many steps are tried to find that a fact follows from others.
const STEPS: u64 = 1_000;

/// The place of a formula among others, if it is one of them.
fn place_of(formulas: &[FormulaId], formula: FormulaId) -> Option<usize>
    ensures { IfSome result (λ place. place < length formulas.now) }
{
    for (place, other) in formulas.iter().enumerate() {
        if *other == formula {
            return Some(place);
        }
    }
    None
}

/// How many of these formulas there are up to the last of others.
fn count_to(formulas: &[FormulaId], others: &[FormulaId]) -> usize {
    let mut count = 0usize;
    for (place, formula) in formulas.iter().enumerate() {
        if others.contains(formula) {
            count = place.saturating_add(1);
        }
    }
    count
}

/// The first of these formulas.
fn first_of(
    alloc: Global,
    terms: &Terms,
    formulas: &[FormulaId],
    count: usize,
) -> Result<Vec<FormulaId>, OutOfMemory>
    requires { AreFormulas terms.now formulas.now }
    ensures { IfOk result (λ first. AreFormulas terms.now first.items) }
{
    let _ = terms;
    let count = count.min(formulas.len());
    Ok(Vec::from_slice(alloc, &formulas[..count])?)
}

/// Leaves out a formula of what is known, if it follows from the rest, and says whether it did.
fn left_out(
    alloc: Global,
    terms: &Terms,
    vars: u32,
    known: &mut Vec<FormulaId>,
    formula: FormulaId,
) -> Result<bool, OutOfMemory>
    requires { AreFormulas terms.now known.old.items }
    ensures { AreFormulas terms.now known.new.items }
{
    let Some(place) = place_of(known, formula) else {
        return Ok(false);
    };
    let rest = replaced(alloc, terms, known, &[], place)?;
    let goal = Goal {
        vars,
        hypotheses: Hypotheses::new(Vec::from_slice(alloc, &rest)?)?,
        goal: formula_at(terms, known, place),
    };
    let searched = search(alloc, terms, &goal, &[], &[], STEPS)?;
    let follows = matches!(searched.end, End::Found(_));
    if follows {
        *known = rest;
    }
    Ok(follows)
}

/// Takes away the marks of the facts at the point of a condition that follow from what is known there without them.
fn unmark_at(
    alloc: Global,
    terms: &Terms,
    facts: &Facts,
    entered: &[Asserted],
    condition: &Condition,
    unimplied: &mut [bool],
) -> Result<(), OutOfMemory>
    requires { IsCondition terms.now condition.now }
{
    let Some(point) = condition.place.point else {
        return Ok(());
    };
    let Some(asserted) = asserted_at(entered, point) else {
        return Ok(());
    };
    let all = condition.goal.hypotheses.as_slice();
    let mut known = first_of(alloc, terms, all, count_to(all, asserted))?;
    for (conjunct, formula) in asserted.iter().enumerate() {
        if let Some(fact) = facts.asserted(point, conjunct)
            && left_out(alloc, terms, condition.goal.vars, &mut known, *formula)?
        {
            set(unimplied, fact, false);
        }
    }
    Ok(())
}

/// Takes away the marks of the facts that follow from others, at the point of an edge's conditions, if it was not looked at.
fn unmark(
    alloc: Global,
    terms: &Terms,
    facts: &Facts,
    entered: &[Asserted],
    conditions: &[Condition],
    seen: &mut [bool],
    unimplied: &mut [bool],
) -> Result<(), OutOfMemory>
    requires { AreConditions terms.now conditions.now }
{
    for condition in conditions {
        if let Some(point) = condition.place.point
            && matches!(condition.place.passage, Passage::Edge(_))
            && !is_set(seen, point.0 as usize)
        {
            set(seen, point.0 as usize, true);
            unmark_at(alloc, terms, facts, entered, condition, unimplied)?;
        }
    }
    Ok(())
}

/// As `unmark`, of conditions whose assertions are not entered yet.
fn unmark_entered(
    alloc: Global,
    terms: &mut Terms,
    development: &Development,
    facts: &Facts,
    conditions: &[Condition],
    seen: &mut [bool],
    unimplied: &mut [bool],
) -> Result<(), OutOfMemory>
    requires { AreConditions terms.old conditions.now }
{
    let entered = entered_for(alloc, terms, development, conditions)?;
    unmark(alloc, terms, facts, &entered, conditions, seen, unimplied)
}

/// Marks the facts of a development that do not follow from others at their point, and from what holds at each point.
pub(crate) fn unimplied_of(
    alloc: Global,
    development: &Development,
    facts: &Facts,
) -> Result<Vec<bool>, OutOfMemory> {
    let mut unimplied = marks(alloc, facts.count, true)?;
    let mut seen = marks(alloc, development.parts().outlines.len(), false)?;
    let mut stream = ConditionStream::new(alloc, development)?;
    'parts: loop {
        let mut terms = Terms::new(alloc);
        let Some(conditions) = stream.next_part(development, &mut terms)? else {
            return Ok(unimplied);
        };
        unmark_entered(
            alloc,
            &mut terms,
            development,
            facts,
            &conditions,
            &mut seen,
            &mut unimplied,
        )?;
    }
}
