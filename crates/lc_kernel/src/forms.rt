//! The forms that steps ask of hypotheses.
ghost use Rattle.std.specs.Prelude.{◌≡◌, IfOk, [], ◌∷◌};
ghost use Rattle.lc_kernel.specs.Answers.{FindsNumber, FindsIn, FindsSides, FindsExcess, MakesIn, MakesAllIn};
ghost use Rattle.lc_kernel.specs.Settings.{IsSetting, numbers_at, hypotheses_at};
ghost use Rattle.lc_kernel.specs.Table.{hypothesis, conjuncts, failing, alternatives, negations, less, pushed_inward, pushed, for_all, for_some, sides, apart, excess};
ghost use Rattle.lc_kernel.specs.declared.reason.Reason.TheVariants.{NoHypothesis, WrongForm};
ghost use Rattle.lc_term.specs.Syntax as T;
ghost use Rattle.lc_table.specs.Tables.{term_in, formula_in, formulas_in, IsTerm, IsFormula, AreFormulas, HasFormula, Keeps};

use crate::fault::StepFault;
use crate::reason::{Flaw, Reason};
use crate::setting::Setting;
use lc_base::OutOfMemory;
use lc_table::{FormulaId, FormulaNode, TermId, Terms};
use std::alloc::Global;

// The number of the hypothesis at this place.
fn place_of(setting: Setting<'_>, number: i64) -> Result<FormulaId, Flaw>
    ensures { FindsNumber (numbers_at setting.entry) number result }
{
    let Ok(place) = usize::try_from(number) else {
        return Err(Flaw::Bad(Reason::NoHypothesis));
    };
    let found = match place.checked_sub(setting.given.len()) {
        None => setting.given.get(place),
        Some(behind) => setting.appended.get(behind),
    };
    found.copied().ok_or(Flaw::Bad(Reason::NoHypothesis))
}

/// The hypothesis of a number.
#[tactic(auto, using(crate::proofs::Numbered::number_found, crate::proofs::Numbered::number_missed))]
pub(crate) fn find(terms: &Terms, setting: Setting<'_>, number: i64) -> Result<FormulaId, Flaw>
    requires { IsSetting terms.now setting }
    ensures { FindsIn terms.now (hypothesis (hypotheses_at terms.now setting.entry) number) NoHypothesis result }
{
    let _ = terms;
    place_of(setting, number)
}

fn copied(alloc: Global, formulas: &[FormulaId]) -> Result<Vec<FormulaId>, OutOfMemory>
    ensures { IfOk result (λ copies. copies.items ≡ formulas.now) }
{
    Ok(Vec::from_slice(alloc, formulas)?)
}

/// Two formulas, one after the other.
pub(crate) fn pair(
    alloc: Global,
    first: FormulaId,
    second: FormulaId,
) -> Result<Vec<FormulaId>, OutOfMemory>
    ensures { IfOk result (λ ks. ks.items ≡ first ∷ second ∷ []) }
{
    Ok(Vec::from_array(alloc, [first, second])?)
}

/// `(not F)` of each formula.
#[tactic(auto, using(lc_table::proofs::Later::formulas_pushed, lc_table::proofs::Later::are_formulas_pushed, lc_table::proofs::Later::formula_still, lc_table::proofs::Later::is_formula_still, lc_table::proofs::Later::kept_on, lc_table::proofs::Later::keeps_itself))]
fn negated_each(
    alloc: Global,
    terms: &mut Terms,
    formulas: &[FormulaId],
) -> Result<Vec<FormulaId>, OutOfMemory>
    requires { AreFormulas terms.old formulas.now }
    ensures are { IfOk result (λ ks. AreFormulas terms.new ks.items) }
    ensures trees { IfOk result (λ ks. formulas_in terms.new ks.items ≡ negations (formulas_in terms.old formulas.now)) }
    ensures kept { Keeps terms.old terms.new }
{
    let mut negated_all = Vec::with_capacity(alloc, formulas.len())?;
    for formula in formulas {
        negated_all.push(terms.not(*formula)?)?;
    }
    Ok(negated_all)
}

/// `(<= (+ t 1) u)`.
#[tactic(auto, using(lc_table::proofs::Later::term_is, lc_table::proofs::Later::is_term_later, lc_table::proofs::Later::term_still, lc_table::proofs::Later::is_term_still, lc_table::proofs::Later::kept_on, lc_table::proofs::Later::keeps_itself))]
pub(crate) fn less(terms: &mut Terms, left: TermId, right: TermId) -> Result<FormulaId, OutOfMemory>
    requires left { IsTerm terms.old left }
    requires right { IsTerm terms.old right }
    ensures id { IfOk result (λ k. HasFormula terms.new k (less (term_in terms.old left) (term_in terms.old right))) }
    ensures kept { Keeps terms.old terms.new }
{
    let one = terms.number(1)?;
    let next = terms.add(left, one)?;
    terms.le(next, right)
}

/// The parts of `(and F ..)`.
pub(crate) fn conjuncts(
    alloc: Global,
    terms: &Terms,
    formula: FormulaId,
) -> Result<Vec<FormulaId>, StepFault>
    requires { IsFormula terms.now formula }
    ensures { MakesAllIn terms.now (conjuncts (formula_in terms.now formula)) WrongForm result }
{
    match terms.formula_node(formula) {
        FormulaNode::And(parts) => Ok(copied(alloc, parts)?),
        _ => Err(StepFault::Flawed(Flaw::Bad(Reason::WrongForm))),
    }
}

/// Of `(and F ..)` each `(not F)`.
#[tactic(auto, using(crate::proofs::Numbered::failing_by, crate::proofs::Numbered::failing_none, lc_table::proofs::Later::keeps_itself))]
fn failing(
    alloc: Global,
    terms: &mut Terms,
    formula: FormulaId,
) -> Result<Vec<FormulaId>, StepFault>
    requires { IsFormula terms.old formula }
    ensures made { MakesAllIn terms.new (failing (formula_in terms.old formula)) WrongForm result }
    ensures kept { Keeps terms.old terms.new }
{
    let parts = conjuncts(alloc, terms, formula)?;
    Ok(negated_each(alloc, terms, &parts)?)
}

/// Of `(or F ..)` the parts, of `(=> A B)` `(not A)` and `B`, of `(not (and F ..))` each `(not F)`.
#[tactic(auto, using(lc_table::proofs::Later::formula_is, lc_table::proofs::Later::formula_still, lc_table::proofs::Later::is_formula_later, lc_table::proofs::Later::is_formula_still, lc_table::proofs::Later::keeps_itself))]
pub(crate) fn alternatives(
    alloc: Global,
    terms: &mut Terms,
    formula: FormulaId,
) -> Result<Vec<FormulaId>, StepFault>
    requires { IsFormula terms.old formula }
    ensures made { MakesAllIn terms.new (alternatives (formula_in terms.old formula)) WrongForm result }
    ensures kept { Keeps terms.old terms.new }
{
    match terms.formula_node(formula) {
        FormulaNode::Or(parts) => Ok(copied(alloc, parts)?),
        FormulaNode::Implies(left, right) => {
            let (left, right) = (*left, *right);
            let negated = terms.not(left)?;
            Ok(pair(alloc, negated, right)?)
        }
        FormulaNode::Not(inner) => {
            let inner = *inner;
            failing(alloc, terms, inner)
        }
        _ => Err(StepFault::Flawed(Flaw::Bad(Reason::WrongForm))),
    }
}

/// `(and (not F) ..)`.
#[tactic(auto, using(lc_table::proofs::Later::kept_on))]
fn none_of(
    alloc: Global,
    terms: &mut Terms,
    formulas: &[FormulaId],
) -> Result<FormulaId, OutOfMemory>
    requires { AreFormulas terms.old formulas.now }
    ensures id { IfOk result (λ k. HasFormula terms.new k (T.And (T.formulas (negations (formulas_in terms.old formulas.now))))) }
    ensures kept { Keeps terms.old terms.new }
{
    let negated = negated_each(alloc, terms, formulas)?;
    terms.and(negated)
}

/// `(and A (not B))`.
#[tactic(auto, using(lc_table::proofs::Later::formula_is, lc_table::proofs::Later::formula_still, lc_table::proofs::Later::is_formula_later, lc_table::proofs::Later::is_formula_still, lc_table::proofs::Later::kept_on, lc_table::proofs::Later::keeps_itself))]
fn but_not(
    alloc: Global,
    terms: &mut Terms,
    left: FormulaId,
    right: FormulaId,
) -> Result<FormulaId, OutOfMemory>
    requires left { IsFormula terms.old left }
    requires right { IsFormula terms.old right }
    ensures id { IfOk result (λ k. HasFormula terms.new k (T.And (T.formulas (formula_in terms.old left ∷ T.Not (formula_in terms.old right) ∷ [])))) }
    ensures kept { Keeps terms.old terms.new }
{
    let negated = terms.not(right)?;
    let parts = pair(alloc, left, negated)?;
    terms.and(parts)
}

/// What `(not F)` says, of F, with the negation pushed inward.
#[tactic(auto, using(lc_table::proofs::Later::formula_is, lc_table::proofs::Later::is_formula_later, lc_table::proofs::Later::kept_on, lc_table::proofs::Later::keeps_itself))]
fn pushed_inward(
    alloc: Global,
    terms: &mut Terms,
    formula: FormulaId,
) -> Result<FormulaId, StepFault>
    requires { IsFormula terms.old formula }
    ensures made { MakesIn terms.new (pushed_inward (formula_in terms.old formula)) WrongForm result }
    ensures kept { Keeps terms.old terms.new }
{
    match terms.formula_node(formula) {
        FormulaNode::Not(inner) => Ok(*inner),
        FormulaNode::Le(left, right) => {
            let (left, right) = (*left, *right);
            Ok(less(terms, right, left)?)
        }
        FormulaNode::Or(parts) => {
            let parts = copied(alloc, parts)?;
            Ok(none_of(alloc, terms, &parts)?)
        }
        FormulaNode::Implies(left, right) => {
            let (left, right) = (*left, *right);
            Ok(but_not(alloc, terms, left, right)?)
        }
        FormulaNode::Forall(body) => {
            let body = *body;
            let negated = terms.not(body)?;
            Ok(terms.exists(negated)?)
        }
        FormulaNode::Exists(body) => {
            let body = *body;
            let negated = terms.not(body)?;
            Ok(terms.forall(negated)?)
        }
        FormulaNode::Eq(_, _) | FormulaNode::And(_) => {
            Err(StepFault::Flawed(Flaw::Bad(Reason::WrongForm)))
        }
    }
}

/// `(not F)` with the negation pushed inward.
#[tactic(auto, using(lc_table::proofs::Later::keeps_itself))]
pub(crate) fn pushed(
    alloc: Global,
    terms: &mut Terms,
    formula: FormulaId,
) -> Result<FormulaId, StepFault>
    requires { IsFormula terms.old formula }
    ensures made { MakesIn terms.new (pushed (formula_in terms.old formula)) WrongForm result }
    ensures kept { Keeps terms.old terms.new }
{
    match terms.formula_node(formula) {
        FormulaNode::Not(inner) => {
            let inner = *inner;
            pushed_inward(alloc, terms, inner)
        }
        _ => Err(StepFault::Flawed(Flaw::Bad(Reason::WrongForm))),
    }
}

/// The body of `(forall x F)`.
pub(crate) fn for_all(terms: &Terms, formula: FormulaId) -> Result<FormulaId, Flaw>
    requires { IsFormula terms.now formula }
    ensures { FindsIn terms.now (for_all (formula_in terms.now formula)) WrongForm result }
{
    match terms.formula_node(formula) {
        FormulaNode::Forall(body) => Ok(*body),
        _ => Err(Flaw::Bad(Reason::WrongForm)),
    }
}

/// The body of `(exists x F)`.
pub(crate) fn for_some(terms: &Terms, formula: FormulaId) -> Result<FormulaId, Flaw>
    requires { IsFormula terms.now formula }
    ensures { FindsIn terms.now (for_some (formula_in terms.now formula)) WrongForm result }
{
    match terms.formula_node(formula) {
        FormulaNode::Exists(body) => Ok(*body),
        _ => Err(Flaw::Bad(Reason::WrongForm)),
    }
}

fn sides(terms: &Terms, formula: FormulaId) -> Result<(TermId, TermId), Flaw>
    requires { IsFormula terms.now formula }
    ensures { FindsSides terms.now (sides (formula_in terms.now formula)) WrongForm result }
{
    match terms.formula_node(formula) {
        FormulaNode::Eq(left, right) => Ok((*left, *right)),
        _ => Err(Flaw::Bad(Reason::WrongForm)),
    }
}

/// The sides of `(not (= t u))`.
pub(crate) fn apart(terms: &Terms, formula: FormulaId) -> Result<(TermId, TermId), Flaw>
    requires { IsFormula terms.now formula }
    ensures { FindsSides terms.now (apart (formula_in terms.now formula)) WrongForm result }
{
    match terms.formula_node(formula) {
        FormulaNode::Not(inner) => sides(terms, *inner),
        _ => Err(Flaw::Bad(Reason::WrongForm)),
    }
}

/// The sides of `(<= t u)`.
pub(crate) fn inequality(terms: &Terms, formula: FormulaId) -> Result<(TermId, TermId), Flaw>
    requires { IsFormula terms.now formula }
    ensures { FindsExcess terms.now (excess (formula_in terms.now formula)) WrongForm result }
{
    match terms.formula_node(formula) {
        FormulaNode::Le(left, right) => Ok((*left, *right)),
        _ => Err(Flaw::Bad(Reason::WrongForm)),
    }
}
