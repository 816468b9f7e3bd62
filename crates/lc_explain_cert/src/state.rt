//! The hypotheses at a step, by their numbers.
ghost use Rattle.std.specs.Prelude.{◌≡◌, ◌+◌, ◌++◌, ◌∷◌, [], ◌<◌, ◌^◌, ℕ, List, length, string_bytes, IfOk, OnOk};
ghost use Rattle.lc_kernel.specs.Proofs as P;
ghost use Rattle.lc_kernel.specs.Proofs.{size};
ghost use Rattle.lc_kernel.specs.View.{proof_of};
ghost use Rattle.lc_proof_state.specs.Standing.{IsStanding, StandsGoal};
ghost use Rattle.lc_table.specs.Tables.{formula_in, formulas_in, IsFormula, AreFormulas};
ghost use Rattle.lc_term.specs.Syntax as S;
ghost use Rattle.lc_term.specs.View.{formula_of, formulas_of};
ghost use Rattle.lc_explain_cert.specs.Names.{spelled};
ghost use Rattle.lc_explain_cert.specs.State.{IsShown, group, line, numbered, shown_state};

use crate::names::Names;
use crate::reason::reason_text;
use lc_base::OutOfMemory;
use lc_copy::{formula_tree, formula_trees};
use lc_kernel::{Goal, Proof, Reason};
use lc_proof_state::{Standing, stands_at};
use lc_table::{FormulaId, Terms};
use lc_term::Formula;
use lc_text::write_formula;
use std::alloc::Global;

/// Above the hypotheses of the goal.
const GIVEN: &str = "  the hypotheses:\n";

/// Above the negated goal.
const NEGATED: &str = "  what is to be proved, negated:\n";

/// Above what steps have added.
const ADDED: &str = "  added by the steps before:\n";

/// Appends a formula, in a line with its number.
fn push_line(
    text: &mut String,
    names: &Names<'_>,
    number: usize,
    formula: &Formula,
) -> Result<(), OutOfMemory>
    ensures { OnOk result (string_bytes text.new ≡ string_bytes text.old ++ line (spelled names.now) number (formula_of formula.now)) }
{
    write!(text, "    {number}  ")?;
    write_formula(text, names, 0, formula)?;
    text.push_str("\n")?;
    Ok(())
}

/// Appends formulas, a line each, numbered from this number on.
fn push_lines(
    text: &mut String,
    names: &Names<'_>,
    first: usize,
    formulas: &[Formula],
) -> Result<(), OutOfMemory>
    requires { first + length formulas.now < 2 ^ 64 }
    ensures { OnOk result (string_bytes text.new ≡ string_bytes text.old ++ numbered (spelled names.now) first (formulas_of formulas.now)) }
{
    let mut number = first;
    for formula in formulas {
        push_line(text, names, number, formula)?;
        number += 1;
    }
    Ok(())
}

/// The same below a line that says what they are, if there are any.
fn push_group(
    text: &mut String,
    title: &str,
    names: &Names<'_>,
    first: usize,
    formulas: &[Formula],
) -> Result<(), OutOfMemory>
    requires { first + length formulas.now < 2 ^ 64 }
    ensures { OnOk result (string_bytes text.new ≡ string_bytes text.old ++ group title.now (spelled names.now) first (formulas_of formulas.now)) }
{
    if formulas.is_empty() {
        return Ok(());
    }
    text.push_str(title)?;
    push_lines(text, names, first, formulas)
}

/// Appends the hypotheses at a step; `given` of them are those of the goal.
fn push_state(
    text: &mut String,
    names: &Names<'_>,
    given: usize,
    all: &[Formula],
) -> Result<(), OutOfMemory>
    ensures { OnOk result ((before : List S.Formula) (goal : S.Formula) (added : List S.Formula) → formulas_of all.now ≡ before ++ goal ∷ added → length before ≡ given →
        string_bytes text.new ≡ string_bytes text.old ++ shown_state (spelled names.now) before goal added) }
{
    let Some(behind) = given.checked_add(1) else {
        return Ok(());
    };
    if behind > all.len() {
        return Ok(());
    }
    push_group(text, GIVEN, names, 0, &all[..given])?;
    push_group(text, NEGATED, names, given, &all[given..behind])?;
    push_group(text, ADDED, names, behind, &all[behind..])
}

/// What is at a step of the proof of a goal, if its steps are few enough.
fn standing_of<'a>(
    alloc: Global,
    terms: &Terms,
    goal: &Goal,
    proof: &'a Proof,
    step: u32,
) -> Result<Option<Standing<'a>>, OutOfMemory>
    requires hypotheses { AreFormulas terms.now goal.now.hypotheses }
    requires goal { IsFormula terms.now goal.now.goal }
    ensures { IfOk result (λ found. (u : ℕ) (G : List S.Formula) (q : P.Proof) → goal.now.vars + size (proof_of proof.entry.now) < 2 ^ 32
        → StandsGoal goal.now.vars (formulas_in terms.now goal.now.hypotheses) (formula_in terms.now goal.now.goal) (proof_of proof.entry.now) step u G q → IsStanding u G q found) }
{
    let most = u64::from(goal.vars).saturating_add(proof.step_count());
    if most > u64::from(u32::MAX) {
        return Ok(None);
    }
    let hypotheses = formula_trees(terms, alloc, goal.hypotheses.as_slice())?;
    let claim = formula_tree(terms, alloc, goal.goal)?;
    stands_at(alloc, goal.vars, &hypotheses, &claim, proof, step)
}

/// How many hypotheses a goal has.
fn count_of(goal: &Goal) -> usize
    ensures { result ≡ length goal.now.hypotheses }
{
    goal.hypotheses.as_slice().len()
}

/// What is shown of a step of the proof of a goal: why it does not hold, and the hypotheses there.
pub(crate) fn step_text(
    alloc: Global,
    names: &Names<'_>,
    terms: &Terms,
    goal: &Goal,
    proof: &Proof,
    step: u32,
    reason: Option<Reason>,
) -> Result<Option<String>, OutOfMemory>
    requires hypotheses { AreFormulas terms.now goal.now.hypotheses }
    requires goal { IsFormula terms.now goal.now.goal }
    ensures { let H = formulas_in terms.now goal.now.hypotheses in let claim = formula_in terms.now goal.now.goal in
        IfOk result (λ shown. (u : ℕ) (G : List S.Formula) (q : P.Proof) → goal.now.vars + size (proof_of proof.now) < 2 ^ 32
        → StandsGoal goal.now.vars H claim (proof_of proof.now) step u G q → IsShown (spelled names.now) H claim G shown) }
{
    let Some(standing) = standing_of(alloc, terms, goal, proof, step)? else {
        return Ok(None);
    };
    let mut text = reason_text(alloc, names, &standing, reason)?;
    push_state(&mut text, names, count_of(goal), &standing.hypotheses)?;
    Ok(Some(text))
}

/// A formula of a table, negated.
fn negated(alloc: Global, terms: &Terms, formula: FormulaId) -> Result<Formula, OutOfMemory>
    requires { IsFormula terms.now formula }
    ensures { IfOk result (λ made. formula_of made ≡ S.Not (formula_in terms.now formula)) }
{
    let formula = Box::new(alloc, formula_tree(terms, alloc, formula)?)?;
    Ok(Formula::Not(formula))
}

/// What is shown of a goal before its first step.
pub(crate) fn goal_text(
    alloc: Global,
    names: &Names<'_>,
    terms: &Terms,
    goal: &Goal,
) -> Result<String, OutOfMemory>
    requires hypotheses { AreFormulas terms.now goal.now.hypotheses }
    requires goal { IsFormula terms.now goal.now.goal }
    ensures { IfOk result (λ text. string_bytes text ≡ shown_state (spelled names.now) (formulas_in terms.now goal.now.hypotheses) (S.Not (formula_in terms.now goal.now.goal)) []) }
{
    let mut all = formula_trees(terms, alloc, goal.hypotheses.as_slice())?;
    all.push(negated(alloc, terms, goal.goal)?)?;
    let mut text = String::new(alloc);
    push_state(&mut text, names, count_of(goal), &all)?;
    Ok(text)
}
