//! Sums of comparisons.
ghost use Rattle.std.specs.Prelude.{◌≡◌, ◌↔◌, ◌*◌, ◌*ℤ◌, max, unsigned_abs, IsTrue, IfSome, IfOk, OnOk, Err};
ghost use Rattle.lc_table.specs.Tables.{formula_in, IsFormula};
ghost use Rattle.lc_linear.specs.Closing.{Closes, combined, entries_in, AreEntries, gap, is_allowed, are_allowed};
ghost use Rattle.lc_linear.specs.Form.{form_of, HasForm};
ghost use Rattle.lc_linear.specs.LinForm.{IsFormIn, AddsIn, GivesFormIn};
ghost use Rattle.lc_linear.specs.Owed.{Appends, AreTogether};
ghost use Rattle.lc_linear.specs.Weight.{weight};

use crate::number::{negated, wide};
use crate::quick::{add_difference, difference_weight, is_light};
use crate::shared::shared_form;
use crate::{LinFault, LinForm, form_of_difference};
use lc_base::OutOfMemory;
use lc_table::{FormulaId, FormulaNode, TermId, Terms};
use std::alloc::Global;

/// Whether comparisons contradict each other: the multiples of their forms add up to a constant above 0. The form
/// of `a <= b` and of `a = b` is that of `a - b`. An inequality may be taken 0 times or more, an equation any number of
/// times. A list with a formula that is no comparison does not close.
///
/// The multipliers are looked at before any arithmetic. `Large` is returned exactly if they are allowed and a
/// number on the way does not fit 128 bits: entry by entry, that is the form of the difference, also if it is
/// taken 0 times, its product by the multiplier, and the sum so far.
pub fn closes(terms: &Terms, alloc: Global, entries: &[(FormulaId, i64)]) -> Result<bool, LinFault>
    requires { AreEntries terms.now entries.now }
    ensures closes { IfOk result (λ closed. IsTrue closed ↔ Closes (entries_in terms.now entries.now)) }
    ensures fits { let es = entries_in terms.now entries.now in OnOk result (IsTrue (are_allowed es) → HasForm (combined es)) }
    ensures large { let es = entries_in terms.now entries.now in
        result ≡ Err LinFault.Large → IsTrue (are_allowed es) × (HasForm (combined es) → ⊥) }
{
    if !are_allowed(terms, entries) {
        return Ok(false);
    }
    let sum = sum_of(terms, alloc, entries)?;
    Ok(sum.is_constant() && sum.constant() > 0)
}

fn is_allowed(terms: &Terms, formula: FormulaId, multiplier: i64) -> bool
    requires { IsFormula terms.now formula }
    ensures { result ≡ is_allowed (formula_in terms.now formula) multiplier }
{
    match terms.formula_node(formula) {
        FormulaNode::Le(_, _) => multiplier >= 0,
        FormulaNode::Eq(_, _) => true,
        _ => false,
    }
}

fn are_allowed(terms: &Terms, entries: &[(FormulaId, i64)]) -> bool
    requires { AreEntries terms.now entries.now }
    ensures { result ≡ are_allowed (entries_in terms.now entries.now) }
{
    for (formula, multiplier) in entries {
        if !is_allowed(terms, *formula, *multiplier) {
            return false;
        }
    }
    true
}

fn sum_of(terms: &Terms, alloc: Global, entries: &[(FormulaId, i64)]) -> Result<LinForm, LinFault>
    requires { AreEntries terms.now entries.now }
    ensures { let t = combined (entries_in terms.now entries.now) in GivesFormIn terms.now result (HasForm t) (form_of t) }
{
    if !is_light(sum_weight(terms, entries)) {
        return large_sum(terms, alloc, entries);
    }
    match quick_sum(terms, alloc, entries) {
        Ok(sum) => Ok(sum),
        Err(LinFault::Large) => exact_sum(terms, alloc, entries),
        Err(LinFault::OutOfMemory) => Err(LinFault::OutOfMemory),
    }
}

// Appends the sides of a comparison to the list, the first with the multiplier, and the second with its negative.
fn push_gap(
    multiples: &mut Vec<(TermId, i128)>,
    terms: &Terms,
    formula: FormulaId,
    multiplier: i64,
) -> Result<(), OutOfMemory>
    requires { IsFormula terms.now formula }
    ensures { let g = gap (formula_in terms.now formula) in
        OnOk result (Appends terms.now multiples.old.items multiples.new.items (λ p. multiplier *ℤ form_of g p) (max (unsigned_abs multiplier) 1 * weight g)) }
{
    match terms.formula_node(formula) {
        FormulaNode::Le(left, right) | FormulaNode::Eq(left, right) => {
            multiples.push((*left, wide(multiplier)))?;
            multiples.push((*right, negated(multiplier)))?;
            Ok(())
        }
        _ => Ok(()),
    }
}

// The sides of the comparisons, each with its multiplier in their sum.
fn multiples_of(
    terms: &Terms,
    alloc: Global,
    entries: &[(FormulaId, i64)],
) -> Result<Vec<(TermId, i128)>, OutOfMemory>
    requires { AreEntries terms.now entries.now }
    ensures { IfOk result (λ multiples. AreTogether terms.now multiples.items (combined (entries_in terms.now entries.now))) }
{
    let mut multiples = Vec::new(alloc);
    for (formula, multiplier) in entries {
        push_gap(&mut multiples, terms, *formula, *multiplier)?;
    }
    Ok(multiples)
}

// The sum if it has many nodes, or large numbers.
fn large_sum(
    terms: &Terms,
    alloc: Global,
    entries: &[(FormulaId, i64)],
) -> Result<LinForm, LinFault>
    requires { AreEntries terms.now entries.now }
    ensures { let t = combined (entries_in terms.now entries.now) in GivesFormIn terms.now result (HasForm t) (form_of t) }
{
    match shared_form(terms, alloc, &multiples_of(terms, alloc, entries)?)? {
        Some(sum) => Ok(sum),
        None => exact_sum(terms, alloc, entries),
    }
}

fn gap_weight(terms: &Terms, formula: FormulaId) -> Option<u128>
    requires { IsFormula terms.now formula }
    ensures { IfSome result (λ w. w ≡ weight (gap (formula_in terms.now formula))) }
{
    match terms.formula_node(formula) {
        FormulaNode::Le(left, right) | FormulaNode::Eq(left, right) => difference_weight(
            terms, *left, *right,
        ),
        _ => Some(0),
    }
}

fn sum_weight(terms: &Terms, entries: &[(FormulaId, i64)]) -> Option<u128>
    requires { AreEntries terms.now entries.now }
    ensures { IfSome result (λ w. w ≡ weight (combined (entries_in terms.now entries.now))) }
{
    let mut sum: u128 = 0;
    for (formula, multiplier) in entries {
        let factor = u128::from(multiplier.unsigned_abs().max(1));
        sum = sum.checked_add(factor.checked_mul(gap_weight(terms, *formula)?)?)?;
    }
    Some(sum)
}

// Adds the multiple of the form of a comparison. If a number leaves 128 bits, that says nothing about the comparison.
fn add_gap(
    form: &mut LinForm,
    terms: &Terms,
    formula: FormulaId,
    count: i128,
) -> Result<(), LinFault>
    requires { IsFormula terms.now formula }
    ensures { OnOk result (AddsIn terms.now form.old form.new (λ p. count *ℤ form_of (gap (formula_in terms.now formula)) p)) }
{
    if count == 0 {
        return Ok(());
    }
    match terms.formula_node(formula) {
        FormulaNode::Le(left, right) | FormulaNode::Eq(left, right) => {
            add_difference(form, terms, *left, *right, count)?;
            Ok(())
        }
        _ => Ok(()),
    }
}

fn quick_sum(
    terms: &Terms,
    alloc: Global,
    entries: &[(FormulaId, i64)],
) -> Result<LinForm, LinFault>
    requires { AreEntries terms.now entries.now }
    ensures { IfOk result (λ sum. IsFormIn terms.now sum (form_of (combined (entries_in terms.now entries.now)))) }
{
    let mut sum = LinForm::zero(alloc);
    for (formula, multiplier) in entries {
        add_gap(&mut sum, terms, *formula, i128::from(*multiplier))?;
    }
    Ok(sum)
}

fn gap_form(terms: &Terms, alloc: Global, formula: FormulaId) -> Result<LinForm, LinFault>
    requires { IsFormula terms.now formula }
    ensures { let t = gap (formula_in terms.now formula) in GivesFormIn terms.now result (HasForm t) (form_of t) }
{
    match terms.formula_node(formula) {
        FormulaNode::Le(left, right) | FormulaNode::Eq(left, right) => form_of_difference(
            terms, alloc, *left, *right,
        ),
        _ => Ok(LinForm::zero(alloc)),
    }
}

fn exact_sum(
    terms: &Terms,
    alloc: Global,
    entries: &[(FormulaId, i64)],
) -> Result<LinForm, LinFault>
    requires { AreEntries terms.now entries.now }
    ensures { let t = combined (entries_in terms.now entries.now) in GivesFormIn terms.now result (HasForm t) (form_of t) }
{
    let mut sum = LinForm::zero(alloc);
    for (formula, multiplier) in entries {
        sum = sum.add_scaled(i128::from(*multiplier), &gap_form(terms, alloc, *formula)?)?;
    }
    Ok(sum)
}
