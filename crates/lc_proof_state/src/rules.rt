//! What the steps add that take a hypothesis or a formula apart, one function a step.
ghost use Rattle.std.specs.Prelude.{◌≡◌, ◌+◌, ◌<◌, ◌^◌, [], IfOk, option_map};
ghost use Rattle.lc_term.specs.View.{term_of, formula_of, formulas_of};
ghost use Rattle.lc_kernel.specs.Proofs as S;
ghost use Rattle.lc_proof_state.specs.Opened.{opened_by, opened_in};

use crate::forms::{
    alternative, apart, conjuncts, for_all, for_some, hypothesis, less, negated, pushed,
};
use crate::opened::{Opened, appended};
use lc_base::OutOfMemory;
use lc_term::{Formula, Term, instantiate, is_closed};
use std::alloc::Global;

/// `(split h P)`: of `(and F ..)` each F.
pub(crate) fn split(
    alloc: Global,
    hypotheses: &[Formula],
    variables: u32,
    number: i64,
) -> Result<Option<Opened>, OutOfMemory>
    ensures { IfOk result (λ made. option_map opened_in made ≡ opened_by variables (formulas_of hypotheses.now) (S.Split number) 0) }
{
    let Some(formula) = hypothesis(hypotheses, number) else {
        return Ok(None);
    };
    let Some(formulas) = conjuncts(alloc, formula)? else {
        return Ok(None);
    };
    Ok(Some(Opened {
        variables,
        formulas,
    }))
}

/// `(cases h P ..)`: the alternative of the branch.
pub(crate) fn cases(
    alloc: Global,
    hypotheses: &[Formula],
    variables: u32,
    number: i64,
    place: usize,
) -> Result<Option<Opened>, OutOfMemory>
    ensures { IfOk result (λ made. option_map opened_in made ≡ opened_by variables (formulas_of hypotheses.now) (S.Cases number) place) }
{
    let Some(formula) = hypothesis(hypotheses, number) else {
        return Ok(None);
    };
    let found = alternative(alloc, formula, place)?;
    appended(alloc, variables, found)
}

/// `(push h P)`: of `(not F)` what it says with the negation pushed into F.
pub(crate) fn push(
    alloc: Global,
    hypotheses: &[Formula],
    variables: u32,
    number: i64,
) -> Result<Option<Opened>, OutOfMemory>
    ensures { IfOk result (λ made. option_map opened_in made ≡ opened_by variables (formulas_of hypotheses.now) (S.Push number) 0) }
{
    let Some(formula) = hypothesis(hypotheses, number) else {
        return Ok(None);
    };
    let found = pushed(alloc, formula)?;
    appended(alloc, variables, found)
}

/// `(inst h T P)`: of `(forall x F)` F where x is T.
pub(crate) fn instantiated(
    alloc: Global,
    hypotheses: &[Formula],
    variables: u32,
    number: i64,
    term: &Term,
) -> Result<Option<Opened>, OutOfMemory>
    ensures { IfOk result (λ made. option_map opened_in made ≡ opened_by variables (formulas_of hypotheses.now) (S.Instantiate number (term_of term.now)) 0) }
{
    let Some(formula) = hypothesis(hypotheses, number) else {
        return Ok(None);
    };
    let Some(body) = for_all(formula) else {
        return Ok(None);
    };
    if !is_closed(term) {
        return Ok(None);
    }
    let put = instantiate(alloc, body, term)?;
    appended(alloc, variables, Some(put))
}

/// `(fresh h P)`: of `(exists x F)` F where x is a variable that was not in use.
pub(crate) fn fresh(
    alloc: Global,
    hypotheses: &[Formula],
    variables: u32,
    number: i64,
) -> Result<Option<Opened>, OutOfMemory>
    requires { variables + 1 < 2 ^ 32 }
    ensures { IfOk result (λ made. option_map opened_in made ≡ opened_by variables (formulas_of hypotheses.now) (S.Fresh number) 0) }
{
    let Some(formula) = hypothesis(hypotheses, number) else {
        return Ok(None);
    };
    let Some(body) = for_some(formula) else {
        return Ok(None);
    };
    let witness = Term::Variable(variables);
    let put = instantiate(alloc, body, &witness)?;
    appended(alloc, variables + 1, Some(put))
}

/// `(cut F P Q)`: `(not F)`, or F.
pub(crate) fn cut(
    alloc: Global,
    variables: u32,
    formula: &Formula,
    place: usize,
) -> Result<Option<Opened>, OutOfMemory>
    ensures { IfOk result (λ made. option_map opened_in made ≡ opened_by variables [] (S.Cut (formula_of formula.now)) place) }
{
    let found = match place {
        0 => Some(negated(alloc, formula)?),
        1 => Some(formula.try_clone(alloc)?),
        _ => None,
    };
    appended(alloc, variables, found)
}

/// `(trich h P Q)`: of `(not (= a b))` `a < b`, or `b < a`.
pub(crate) fn trichotomy(
    alloc: Global,
    hypotheses: &[Formula],
    variables: u32,
    number: i64,
    place: usize,
) -> Result<Option<Opened>, OutOfMemory>
    ensures { IfOk result (λ made. option_map opened_in made ≡ opened_by variables (formulas_of hypotheses.now) (S.Trichotomy number) place) }
{
    let Some(formula) = hypothesis(hypotheses, number) else {
        return Ok(None);
    };
    let Some((left, right)) = apart(formula) else {
        return Ok(None);
    };
    let found = match place {
        0 => Some(less(alloc, left, right)?),
        1 => Some(less(alloc, right, left)?),
        _ => None,
    };
    appended(alloc, variables, found)
}
