//! The type of formulas: copies, and whether two are the same.
ghost use Rattle.std.specs.Prelude.{◌≡◌, ◌++◌, ◌∷◌, [], IfOk, OnOk, IsTrue, ◌↔◌};
ghost use Rattle.lc_term.specs.Syntax.{Le, Eq, formulas};
ghost use Rattle.lc_term.specs.View.{term_of, formula_of, formulas_of};
ghost use Rattle.lc_term.specs.Equal.{formula_eq, formulas_eq};
ghost use Rattle.lc_term.specs.EqualLaws.{formula_eq_equiv};
ghost use Rattle.std.specs.Cmp.{on_equiv, partial_equiv_from_equiv};

use crate::term::Term;
use lc_base::OutOfMemory;
use std::alloc::Global;

/// A statement on the columns and the variables.
pub enum Formula {
    /// The first term is at most the second.
    Le(Term, Term),
    /// The terms are equal.
    Eq(Term, Term),
    /// The formula does not hold.
    Not(Box<Formula>),
    /// Each of the formulas holds.
    And(Vec<Formula>),
    /// One of the formulas holds.
    Or(Vec<Formula>),
    /// If the first formula holds, so does the second.
    Implies(Box<Formula>, Box<Formula>),
    /// The formula holds of each whole number, which is the value of its innermost bound variable.
    Forall(Box<Formula>),
    /// The formula holds of some whole number, which is the value of its innermost bound variable.
    Exists(Box<Formula>),
}

// Written out and not derived, as for terms.
impl Drop for Formula {
    fn drop(self) {
        match self {
            Formula::Le(_, _) | Formula::Eq(_, _) => {}
            Formula::Not(_) | Formula::Forall(_) | Formula::Exists(_) => {}
            Formula::And(_) | Formula::Or(_) => {}
            Formula::Implies(_, _) => {}
        }
    }
}

impl Formula {
    /// The same formula, in memory of its own.
    #[cycle(copy_formula)]
    pub fn try_clone(&self, alloc: Global) -> Result<Formula, OutOfMemory>
        ensures { IfOk result (λ copy. formula_of copy ≡ formula_of self.now) }
    {
        match self {
            Formula::Le(left, right) => copied_le(alloc, left, right),
            Formula::Eq(left, right) => copied_eq(alloc, left, right),
            Formula::Not(formula) => Ok(Formula::Not(boxed_copy(alloc, formula)?)),
            Formula::And(formulas) => Ok(Formula::And(copy_formulas(alloc, formulas)?)),
            Formula::Or(formulas) => Ok(Formula::Or(copy_formulas(alloc, formulas)?)),
            Formula::Implies(left, right) => Ok(Formula::Implies(
                boxed_copy(alloc, left)?,
                boxed_copy(alloc, right)?,
            )),
            Formula::Forall(body) => Ok(Formula::Forall(boxed_copy(alloc, body)?)),
            Formula::Exists(body) => Ok(Formula::Exists(boxed_copy(alloc, body)?)),
        }
    }
}

// The first term at most the second, in memory of its own. It is a function of its own, so that each level of a formula takes
// little of the stack.
#[inline(never)]
fn copied_le(alloc: Global, left: &Term, right: &Term) -> Result<Formula, OutOfMemory>
    ensures { IfOk result (λ copy. formula_of copy ≡ Le (term_of left.now) (term_of right.now)) }
{
    Ok(Formula::Le(left.try_clone(alloc)?, right.try_clone(alloc)?))
}

// That the two terms are equal, in memory of its own, in a function of its own for the same reason.
#[inline(never)]
fn copied_eq(alloc: Global, left: &Term, right: &Term) -> Result<Formula, OutOfMemory>
    ensures { IfOk result (λ copy. formula_of copy ≡ Eq (term_of left.now) (term_of right.now)) }
{
    Ok(Formula::Eq(left.try_clone(alloc)?, right.try_clone(alloc)?))
}

// A copy of the formula in a box, in a function of its own for the same reason.
#[cycle(copy_formula)]
#[inline(never)]
fn boxed_copy(alloc: Global, formula: &Formula) -> Result<Box<Formula>, OutOfMemory>
    ensures { IfOk result (λ copy. formula_of copy.value ≡ formula_of formula.now) }
{
    Ok(Box::new(alloc, formula.try_clone(alloc)?)?)
}

// Takes a formula out of its box, and appends it to others.
#[inline(never)]
fn push_out(copies: &mut Vec<Formula>, copy: Box<Formula>) -> Result<(), OutOfMemory>
    ensures { OnOk result (copies.new.items ≡ copies.old.items ++ (copy.value ∷ [])) }
{
    copies.push(Box::into_inner(copy))?;
    Ok(())
}

/// The same formulas, in memory of their own.
#[cycle(copy_formula)]
pub fn copy_formulas(alloc: Global, formulas: &[Formula]) -> Result<Vec<Formula>, OutOfMemory>
    ensures { IfOk result (λ copies. formulas_of copies.items ≡ formulas_of formulas.now) }
{
    let mut copies = Vec::with_capacity(alloc, formulas.len())?;
    for formula in formulas {
        push_out(&mut copies, boxed_copy(alloc, formula)?)?;
    }
    Ok(copies)
}

impl PartialEq for Formula {
    ghost eq = { λ left right. formula_eq (formula_of left) (formula_of right) };

    ghost laws = { partial_equiv_from_equiv (on_equiv formula_of formula_eq_equiv) };

    fn eq(&self, other: &Formula) -> bool {
        is_same_formula(self, other)
    }
}

impl Eq for Formula {
    ghost laws = { on_equiv formula_of formula_eq_equiv };
}

#[cycle(is_same_formula)]
fn is_same_formula(left: &Formula, right: &Formula) -> bool
    ensures { result ≡ formula_eq (formula_of left.now) (formula_of right.now) }
{
    match (left, right) {
        (Formula::Le(t, u), Formula::Le(v, w)) => t == v && u == w,
        (Formula::Eq(t, u), Formula::Eq(v, w)) => t == v && u == w,
        (Formula::Not(f), Formula::Not(g)) => is_same_formula(f, g),
        (Formula::And(fs), Formula::And(gs)) => are_same_formulas(fs, gs),
        (Formula::Or(fs), Formula::Or(gs)) => are_same_formulas(fs, gs),
        (Formula::Implies(f, g), Formula::Implies(h, k)) => is_same_formula(f, h)
            && is_same_formula(g, k),
        (Formula::Forall(f), Formula::Forall(g)) => is_same_formula(f, g),
        (Formula::Exists(f), Formula::Exists(g)) => is_same_formula(f, g),
        _ => false,
    }
}

#[cycle(is_same_formula)]
#[tactic(auto, using(crate::proofs::Lists::formulas_eq_lengths, crate::proofs::Lists::formulas_eq_drop))]
fn are_same_formulas(left: &[Formula], right: &[Formula]) -> bool
    ensures { result ≡ formulas_eq (formulas (formulas_of left.now)) (formulas (formulas_of right.now)) }
{
    if left.len() != right.len() {
        return false;
    }
    for i in 0..left.len() {
        if !is_same_formula(&left[i], &right[i]) {
            return false;
        }
    }
    true
}
