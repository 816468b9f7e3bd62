//! The rules that compute: sums and quotients of comparisons.
ghost use Rattle.std.specs.Prelude.{◌≡◌, ◌↔◌, IsTrue, map};
ghost use Rattle.lc_kernel.specs.Answers.{StepMeets, Meets, MakesEntriesIn, GivesClaim, DividesAs, IsClaimed, TestsQuotient};
ghost use Rattle.lc_kernel.specs.Proofs as S;
ghost use Rattle.lc_kernel.specs.Settings.{IsSetting, hypotheses_at};
ghost use Rattle.lc_kernel.specs.Table.{entries, excess, is_comparison, all_comparisons, SumGives, QuotientGives};
ghost use Rattle.lc_kernel.specs.View.{multiple_of};
ghost use Rattle.lc_kernel.specs.declared.reason.Reason.TheVariants.{NoHypothesis};
ghost use Rattle.lc_linear.specs.Closing.{entries_in, AreEntries};
ghost use Rattle.lc_linear.specs.LinForm.{numbers};
ghost use Rattle.lc_term.specs.Syntax as T;
ghost use Rattle.lc_table.specs.Tables.{term_in, formula_in, formulas_in, IsTerm, IsFormula, AreFormulas, Keeps};
ghost use Rattle.lc_term.specs.View.{formula_of};

use crate::below::formula_below;
use crate::fault::StepFault;
use crate::forms::{find, inequality};
use crate::opened::{Branches, Opened, appending, count_branches};
use crate::proof::Multiple;
use crate::reason::{Flaw, Reason};
use crate::setting::Setting;
use lc_linear::{LinFault, LinForm, closes, form_of_difference};
use lc_table::{FormulaId, FormulaNode, TermId, Terms};
use lc_term::Formula;
use std::alloc::Global;

/// The hypotheses that a sum names, with their multipliers.
fn find_all(
    alloc: Global,
    terms: &Terms,
    setting: Setting<'_>,
    multiples: &[Multiple],
) -> Result<Vec<(FormulaId, i64)>, StepFault>
    requires { IsSetting terms.now setting }
    ensures { MakesEntriesIn terms.now (entries (hypotheses_at terms.now setting.entry) (map multiple_of multiples.now)) NoHypothesis result }
{
    let mut found = Vec::with_capacity(alloc, multiples.len())?;
    for multiple in multiples {
        let formula = find(terms, setting, multiple.hypothesis)?;
        found.push((formula, multiple.multiplier))?;
    }
    Ok(found)
}

fn is_comparison(terms: &Terms, formula: FormulaId) -> bool
    requires { IsFormula terms.now formula }
    ensures { result ≡ is_comparison (formula_in terms.now formula) }
{
    match terms.formula_node(formula) {
        FormulaNode::Le(_, _) | FormulaNode::Eq(_, _) => true,
        _ => false,
    }
}

fn all_comparisons(terms: &Terms, entries: &[(FormulaId, i64)]) -> bool
    requires { AreEntries terms.now entries.now }
    ensures { result ≡ all_comparisons (entries_in terms.now entries.now) }
{
    for (formula, _) in entries {
        if !is_comparison(terms, *formula) {
            return false;
        }
    }
    true
}

/// Whether multiples of comparisons contradict each other.
fn close(
    alloc: Global,
    terms: &Terms,
    variables: u32,
    entries: &[(FormulaId, i64)],
) -> Result<Opened, StepFault>
    requires { AreEntries terms.now entries.now }
    ensures { Meets terms.now (SumGives variables (entries_in terms.now entries.now)) result }
{
    match closes(terms, alloc, entries) {
        Ok(true) => Ok(Opened {
            variables,
            branches: Branches::Nothing,
        }),
        Ok(false) => Err(StepFault::Flawed(Flaw::Bad(Reason::DoesNotClose))),
        Err(LinFault::Large) => Err(StepFault::Flawed(Flaw::Large)),
        Err(LinFault::OutOfMemory) => Err(StepFault::OutOfMemory),
    }
}

/// `(sum (h k) ..)`: no branch; each hypothesis is a `<=`, with k at least 0, or a `=`, and the sum of k times their
/// forms is a constant above 0.
pub(crate) fn sum(
    alloc: Global,
    terms: &Terms,
    setting: Setting<'_>,
    multiples: &[Multiple],
) -> Result<Opened, StepFault>
    requires { IsSetting terms.now setting }
    ensures { StepMeets terms.now terms.now setting.entry (S.Sum (map multiple_of multiples.now)) result }
{
    let entries = find_all(alloc, terms, setting, multiples)?;
    if !all_comparisons(terms, &entries) {
        return Err(StepFault::Flawed(Flaw::Bad(Reason::WrongForm)));
    }
    count_branches(setting.proofs, 0)?;
    close(alloc, terms, setting.variables, &entries)
}

/// The form of a `<=`; none of another formula, whose form is not made.
fn claimed_form(
    alloc: Global,
    terms: &Terms,
    formula: FormulaId,
) -> Result<Option<LinForm>, LinFault>
    requires { IsFormula terms.now formula }
    ensures { GivesClaim terms.now (excess (formula_in terms.now formula)) result }
{
    match terms.formula_node(formula) {
        FormulaNode::Le(left, right) => {
            Ok(Some(form_of_difference(terms, alloc, *left, *right)?))
        }
        _ => Ok(None),
    }
}

/// The form divided by a number.
fn divided(form: LinForm, divisor: i64) -> Result<LinForm, Flaw>
    ensures { DividesAs (numbers form) divisor result }
{
    match form.divided(divisor) {
        Some(quotient) => Ok(quotient),
        None => Err(Flaw::Bad(Reason::NotDivisible)),
    }
}

/// Whether a form is the one that is claimed.
fn is_claimed(form: &LinForm, claimed: &Option<LinForm>) -> bool
    ensures { IsTrue result ↔ IsClaimed (numbers form.now) claimed.now }
{
    match claimed {
        Some(claimed) => claimed.is_same_as(form),
        None => false,
    }
}

/// Tests that a formula is the quotient of `left <= right`.
fn test_quotient(
    alloc: Global,
    terms: &Terms,
    left: TermId,
    right: TermId,
    divisor: i64,
    quotient: FormulaId,
) -> Result<(), StepFault>
    requires left { IsTerm terms.now left }
    requires right { IsTerm terms.now right }
    requires quotient { IsFormula terms.now quotient }
    ensures { TestsQuotient (formula_in terms.now quotient) (T.Subtract (term_in terms.now left) (term_in terms.now right)) divisor result }
{
    let form = form_of_difference(terms, alloc, left, right)?;
    let claimed = claimed_form(alloc, terms, quotient)?;
    let rounded = divided(form, divisor)?;
    if !is_claimed(&rounded, &claimed) {
        return Err(StepFault::Flawed(Flaw::Bad(Reason::WrongQuotient)));
    }
    Ok(())
}

/// The branch of a quotient of `left <= right`.
#[tactic(auto, using(lc_table::proofs::Later::formula_is, lc_table::proofs::Later::is_formula_later, lc_table::proofs::Later::term_still, lc_table::proofs::Later::is_term_still, lc_table::proofs::Later::keeps_itself))]
fn quotient_of(
    alloc: Global,
    terms: &mut Terms,
    variables: u32,
    left: TermId,
    right: TermId,
    divisor: i64,
    quotient: &Formula,
) -> Result<Opened, StepFault>
    requires left { IsTerm terms.old left }
    requires right { IsTerm terms.old right }
    ensures kept { Keeps terms.old terms.new }
    ensures step { Meets terms.new (QuotientGives variables (formula_of quotient.now) (T.Subtract (term_in terms.old left) (term_in terms.old right)) divisor) result }
{
    let entered = terms.enter_formula(alloc, quotient)?;
    test_quotient(alloc, terms, left, right, divisor, entered)?;
    Ok(appending(alloc, terms, variables, entered)?)
}

/// `(divide h k F P)`: of `(<= a b)`, whose form is `k * e + d`, one branch, with F, a `<=` of the form
/// `e + d / k`, the quotient rounded up.
#[tactic(auto, using(lc_table::proofs::Later::keeps_itself))]
pub(crate) fn divide(
    alloc: Global,
    terms: &mut Terms,
    setting: Setting<'_>,
    hypothesis: i64,
    divisor: i64,
    quotient: &Formula,
) -> Result<Opened, StepFault>
    requires { IsSetting terms.old setting }
    ensures kept { Keeps terms.old terms.new }
    ensures step { StepMeets terms.old terms.new setting.entry (S.Divide hypothesis divisor (formula_of quotient.now)) result }
{
    let (left, right) = inequality(terms, find(terms, setting, hypothesis)?)?;
    count_branches(setting.proofs, 1)?;
    if !formula_below(setting.variables, quotient) {
        return Err(StepFault::Flawed(Flaw::Bad(Reason::VariableNotInUse)));
    }
    quotient_of(
        alloc,
        terms,
        setting.variables,
        left,
        right,
        divisor,
        quotient,
    )
}
