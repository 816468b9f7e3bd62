//! The forms that steps ask of hypotheses.
ghost use Rattle.std.specs.Prelude.{◌≡◌, ◌∷◌, [], IfOk, option_map, option_and_then, slice_get};
ghost use Rattle.lc_kernel.specs.Table.{hypothesis, conjuncts, failing, alternatives, negations, less, pushed_inward, pushed, for_all, for_some, sides, apart};
ghost use Rattle.lc_term.specs.Syntax as T;
ghost use Rattle.lc_term.specs.View.{term_of, formula_of, formulas_of};

use lc_base::OutOfMemory;
use lc_term::{Formula, Term, copy_formulas};
use std::alloc::Global;

/// The hypothesis of a number.
pub(crate) fn hypothesis(hypotheses: &[Formula], number: i64) -> Option<&Formula>
    ensures { option_map (λ f. formula_of f.now) result ≡ hypothesis (formulas_of hypotheses.now) number }
{
    match usize::try_from(number) {
        Ok(place) => hypotheses.get(place),
        Err(_) => None,
    }
}

/// `(not F)`.
pub(crate) fn negated(alloc: Global, formula: &Formula) -> Result<Formula, OutOfMemory>
    ensures { IfOk result (λ made. formula_of made ≡ T.Not (formula_of formula.now)) }
{
    let copy = formula.try_clone(alloc)?;
    Ok(Formula::Not(Box::new(alloc, copy)?))
}

/// The formula at a place.
fn copied_at(
    alloc: Global,
    formulas: &[Formula],
    place: usize,
) -> Result<Option<Formula>, OutOfMemory>
    ensures { IfOk result (λ found. option_map formula_of found ≡ slice_get (formulas_of formulas.now) place) }
{
    match formulas.get(place) {
        Some(formula) => Ok(Some(formula.try_clone(alloc)?)),
        None => Ok(None),
    }
}

/// `(not F)`, if there is a formula.
fn not_of(alloc: Global, formula: Option<Formula>) -> Result<Option<Formula>, OutOfMemory>
    ensures { IfOk result (λ made. option_map formula_of made ≡ option_map T.Not (option_map formula_of formula)) }
{
    match formula {
        Some(formula) => Ok(Some(Formula::Not(Box::new(alloc, formula)?))),
        None => Ok(None),
    }
}

/// `(not F)` of the formula at a place.
fn negated_at(
    alloc: Global,
    formulas: &[Formula],
    place: usize,
) -> Result<Option<Formula>, OutOfMemory>
    ensures { IfOk result (λ found. option_map formula_of found ≡ slice_get (negations (formulas_of formulas.now)) place) }
{
    let found = copied_at(alloc, formulas, place)?;
    not_of(alloc, found)
}

/// `(not F)` of each formula.
fn negated_each(alloc: Global, formulas: &[Formula]) -> Result<Vec<Formula>, OutOfMemory>
    ensures { IfOk result (λ made. formulas_of made.items ≡ negations (formulas_of formulas.now)) }
{
    let mut all = Vec::with_capacity(alloc, formulas.len())?;
    for formula in formulas {
        all.push(negated(alloc, formula)?)?;
    }
    Ok(all)
}

/// `(<= (+ t 1) u)`.
pub(crate) fn less(alloc: Global, left: &Term, right: &Term) -> Result<Formula, OutOfMemory>
    ensures { IfOk result (λ made. formula_of made ≡ less (term_of left.now) (term_of right.now)) }
{
    let one = Box::new(alloc, Term::Number(1))?;
    let left = Box::new(alloc, left.try_clone(alloc)?)?;
    let right = right.try_clone(alloc)?;
    Ok(Formula::Le(Term::Add(left, one), right))
}

/// The parts of `(and F ..)`.
pub(crate) fn conjuncts(
    alloc: Global,
    formula: &Formula,
) -> Result<Option<Vec<Formula>>, OutOfMemory>
    ensures { IfOk result (λ found. option_map (λ fs. formulas_of fs.items) found ≡ conjuncts (formula_of formula.now)) }
{
    match formula {
        Formula::And(parts) => Ok(Some(copy_formulas(alloc, parts)?)),
        _ => Ok(None),
    }
}

/// Of `(and F ..)` the `(not F)` at a place.
fn failing_at(
    alloc: Global,
    formula: &Formula,
    place: usize,
) -> Result<Option<Formula>, OutOfMemory>
    ensures { IfOk result (λ found. option_map formula_of found ≡ option_and_then (λ fs. slice_get fs place) (failing (formula_of formula.now))) }
{
    match formula {
        Formula::And(parts) => negated_at(alloc, parts, place),
        _ => Ok(None),
    }
}

/// Of `(=> A B)` `(not A)`, or `B`.
fn way_out(
    alloc: Global,
    left: &Formula,
    right: &Formula,
    place: usize,
) -> Result<Option<Formula>, OutOfMemory>
    ensures { IfOk result (λ found. option_map formula_of found ≡ slice_get (T.Not (formula_of left.now) ∷ formula_of right.now ∷ []) place) }
{
    match place {
        0 => Ok(Some(negated(alloc, left)?)),
        1 => Ok(Some(right.try_clone(alloc)?)),
        _ => Ok(None),
    }
}

/// The alternative at a place: of `(or F ..)` the parts, of `(=> A B)` `(not A)` and `B`, of `(not (and F ..))` each `(not F)`.
pub(crate) fn alternative(
    alloc: Global,
    formula: &Formula,
    place: usize,
) -> Result<Option<Formula>, OutOfMemory>
    ensures { IfOk result (λ found. option_map formula_of found ≡ option_and_then (λ fs. slice_get fs place) (alternatives (formula_of formula.now))) }
{
    match formula {
        Formula::Or(parts) => copied_at(alloc, parts, place),
        Formula::Implies(left, right) => way_out(alloc, left, right, place),
        Formula::Not(inner) => failing_at(alloc, inner, place),
        _ => Ok(None),
    }
}

/// `(and A (not B))`.
fn but_not(alloc: Global, left: &Formula, right: &Formula) -> Result<Formula, OutOfMemory>
    ensures { IfOk result (λ made. formula_of made ≡ T.And (T.formulas (formula_of left.now ∷ T.Not (formula_of right.now) ∷ []))) }
{
    let left = left.try_clone(alloc)?;
    let right = negated(alloc, right)?;
    Ok(Formula::And(Vec::from_array(alloc, [left, right])?))
}

/// What `(not F)` says, of F, with the negation pushed inward.
fn pushed_inward(alloc: Global, formula: &Formula) -> Result<Option<Formula>, OutOfMemory>
    ensures { IfOk result (λ found. option_map formula_of found ≡ pushed_inward (formula_of formula.now)) }
{
    match formula {
        Formula::Not(inner) => Ok(Some(inner.try_clone(alloc)?)),
        Formula::Le(left, right) => Ok(Some(less(alloc, right, left)?)),
        Formula::Or(parts) => Ok(Some(Formula::And(negated_each(alloc, parts)?))),
        Formula::Implies(left, right) => Ok(Some(but_not(alloc, left, right)?)),
        Formula::Forall(body) => {
            let negated = negated(alloc, body)?;
            Ok(Some(Formula::Exists(Box::new(alloc, negated)?)))
        }
        Formula::Exists(body) => {
            let negated = negated(alloc, body)?;
            Ok(Some(Formula::Forall(Box::new(alloc, negated)?)))
        }
        Formula::Eq(_, _) | Formula::And(_) => Ok(None),
    }
}

/// `(not F)` with the negation pushed inward.
pub(crate) fn pushed(alloc: Global, formula: &Formula) -> Result<Option<Formula>, OutOfMemory>
    ensures { IfOk result (λ found. option_map formula_of found ≡ pushed (formula_of formula.now)) }
{
    match formula {
        Formula::Not(inner) => pushed_inward(alloc, inner),
        _ => Ok(None),
    }
}

/// The body of `(forall x F)`.
pub(crate) fn for_all(formula: &Formula) -> Option<&Formula>
    ensures { option_map (λ f. formula_of f.now) result ≡ for_all (formula_of formula.now) }
{
    match formula {
        Formula::Forall(body) => Some(body),
        _ => None,
    }
}

/// The body of `(exists x F)`.
pub(crate) fn for_some(formula: &Formula) -> Option<&Formula>
    ensures { option_map (λ f. formula_of f.now) result ≡ for_some (formula_of formula.now) }
{
    match formula {
        Formula::Exists(body) => Some(body),
        _ => None,
    }
}

/// The sides of `(= t u)`.
fn sides(formula: &Formula) -> Option<(&Term, &Term)>
    ensures { option_map (λ p. (term_of p.0.now, term_of p.1.now)) result ≡ sides (formula_of formula.now) }
{
    match formula {
        Formula::Eq(left, right) => Some((left, right)),
        _ => None,
    }
}

/// The sides of `(not (= t u))`.
pub(crate) fn apart(formula: &Formula) -> Option<(&Term, &Term)>
    ensures { option_map (λ p. (term_of p.0.now, term_of p.1.now)) result ≡ apart (formula_of formula.now) }
{
    match formula {
        Formula::Not(inner) => sides(inner),
        _ => None,
    }
}
