//! Forms made in one pass over the terms, if no number can leave 128 bits.
//!
//! A term's weight, the sum of the sizes of all numbers in it multiplied out, bounds each number of its form and of
//! the forms of its parts. If the weight fits, all of these fit, and need not be made one by one: each atom is added
//! to one form, as often as the factors around it say. If it does not, as in a number of 64 bits multiplied by two
//! others, the form is made part by part (`exact`), which alone finds out whether a number leaves 128 bits, in time up
//! to the size of the term times its depth. If a term has many nodes, each part is looked at once (`shared`).
ghost use Rattle.std.specs.Prelude.{◌≡◌, ◌*ℤ◌, ◌^◌, ◌<◌, IsTrue, IfSome, IsSomeAnd, IfOk, OnOk};
ghost use Rattle.lc_term.specs.Syntax as S;
ghost use Rattle.lc_table.specs.Tables.{term_in, IsTerm};
ghost use Rattle.lc_linear.specs.Form.{form_of};
ghost use Rattle.lc_linear.specs.LinForm.{IsFormIn, AddsIn};
ghost use Rattle.lc_linear.specs.Weight.{weight};

use crate::number::{difference, product};
use crate::{LinFault, LinForm};
use lc_base::DEPTH_LIMIT;
use lc_table::{TermId, TermNode, Terms, numbers_are_exact};
use std::alloc::Global;

// How many nodes of a term are walked over before each of its parts is taken once, in place of each time that it occurs.
const WALK_LIMIT: u32 = 4096;

// A bound of all numbers of the form and of the forms of its parts; none if the bound leaves 128 bits, or if the
// term has more nodes than steps are left, or more levels. A walk goes down as many levels as a text may have, and leaves a
// deeper term to a loop over the parts.
fn walked(terms: &Terms, term: TermId, steps: &mut u32, levels: usize) -> Option<u128>
    requires { IsTerm terms.now term }
    ensures { IfSome result (λ w. w ≡ weight (term_in terms.now term)) }
{
    *steps = steps.checked_sub(1)?;
    let levels = levels.checked_sub(1)?;
    match terms.term_node(term) {
        TermNode::Number(number) => Some(u128::from(number.unsigned_abs())),
        TermNode::Variable(_) | TermNode::Bound(_) | TermNode::Read(_, _) => Some(1),
        TermNode::Add(left, right) | TermNode::Subtract(left, right) => {
            walked(terms, left, steps, levels)?.checked_add(walked(terms, right, steps, levels)?)
        }
        TermNode::Multiply(factor, term) => {
            let below = walked(terms, term, steps, levels)?;
            u128::from(factor.unsigned_abs().max(1)).checked_mul(below)
        }
        TermNode::Base(_) | TermNode::Store(_, _, _) | TermNode::Affine(_, _) => unreachable!(),
    }
}

// The bound for a term; none also if the term is large as a tree.
pub(crate) fn weight(terms: &Terms, term: TermId) -> Option<u128>
    requires { IsTerm terms.now term }
    ensures { IfSome result (λ w. w ≡ weight (term_in terms.now term)) }
{
    let mut steps = WALK_LIMIT;
    walked(terms, term, &mut steps, DEPTH_LIMIT)
}

// The bound for a difference; none also if one of its sides is large as a tree.
pub(crate) fn difference_weight(terms: &Terms, left: TermId, right: TermId) -> Option<u128>
    requires left { IsTerm terms.now left }
    requires right { IsTerm terms.now right }
    ensures { IfSome result (λ w. w ≡ weight (S.Subtract (term_in terms.now left) (term_in terms.now right))) }
{
    weight(terms, left)?.checked_add(weight(terms, right)?)
}

// The bound shows that no number leaves 128 bits.
pub(crate) fn is_light(weight: Option<u128>) -> bool
    ensures { IsTrue result → IsSomeAnd weight (λ w. w < 2 ^ 127) }
{
    weight.is_some_and(|weight| weight <= i128::MAX as u128)
}

// Adds `count` times the form of a term. If it returns `Large`, that says nothing about the term.
pub(crate) fn add_term(
    form: &mut LinForm,
    terms: &Terms,
    term: TermId,
    count: i128,
) -> Result<(), LinFault>
    requires { IsTerm terms.now term }
    ensures { OnOk result (AddsIn terms.now form.old form.new (λ p. count *ℤ form_of (term_in terms.now term) p)) }
{
    match terms.term_node(term) {
        TermNode::Number(number) => {
            form.add_number(product(count, i128::from(number))?)?;
            Ok(())
        }
        TermNode::Variable(_) | TermNode::Bound(_) | TermNode::Read(_, _) => {
            numbers_are_exact(terms);
            form.add_atom(term, count)?;
            Ok(())
        }
        TermNode::Add(left, right) => {
            add_term(form, terms, left, count)?;
            add_term(form, terms, right, count)?;
            Ok(())
        }
        TermNode::Subtract(left, right) => {
            add_term(form, terms, left, count)?;
            add_term(form, terms, right, difference(0, count)?)?;
            Ok(())
        }
        TermNode::Multiply(factor, term) => {
            add_term(form, terms, term, product(count, i128::from(factor))?)?;
            Ok(())
        }
        TermNode::Base(_) | TermNode::Store(_, _, _) | TermNode::Affine(_, _) => unreachable!(),
    }
}

// Adds `count` times the form of a difference. If it returns `Large`, that says nothing about the terms.
pub(crate) fn add_difference(
    form: &mut LinForm,
    terms: &Terms,
    left: TermId,
    right: TermId,
    count: i128,
) -> Result<(), LinFault>
    requires left { IsTerm terms.now left }
    requires right { IsTerm terms.now right }
    ensures { let t = S.Subtract (term_in terms.now left) (term_in terms.now right) in
        OnOk result (AddsIn terms.now form.old form.new (λ p. count *ℤ form_of t p)) }
{
    add_term(form, terms, left, count)?;
    add_term(form, terms, right, difference(0, count)?)?;
    Ok(())
}

// The form of a term. If it returns `Large`, that says nothing about the term.
pub(crate) fn quick_form(terms: &Terms, alloc: Global, term: TermId) -> Result<LinForm, LinFault>
    requires { IsTerm terms.now term }
    ensures { IfOk result (λ form. IsFormIn terms.now form (form_of (term_in terms.now term))) }
{
    let mut form = LinForm::zero(alloc);
    add_term(&mut form, terms, term, 1)?;
    Ok(form)
}

// The form of a difference. If it returns `Large`, that says nothing about the terms.
pub(crate) fn quick_difference(
    terms: &Terms,
    alloc: Global,
    left: TermId,
    right: TermId,
) -> Result<LinForm, LinFault>
    requires left { IsTerm terms.now left }
    requires right { IsTerm terms.now right }
    ensures { IfOk result (λ form. IsFormIn terms.now form (form_of (S.Subtract (term_in terms.now left) (term_in terms.now right)))) }
{
    let mut form = LinForm::zero(alloc);
    add_difference(&mut form, terms, left, right, 1)?;
    Ok(form)
}
