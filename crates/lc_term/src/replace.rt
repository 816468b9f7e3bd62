//! A walk over terms and formulas that replaces columns and variables, all at once.
ghost use Rattle.std.specs.Prelude.{◌≡◌, ℕ, false, IfOk, IsTrue};
ghost use Rattle.lc_term.specs.Chains.{is_store};
ghost use Rattle.lc_term.specs.Counter.{HasCounted};
ghost use Rattle.lc_term.specs.Places.{Test, term_passes, column_passes, passes, all_pass};
ghost use Rattle.lc_term.specs.Replacement.{Replacement, under_many, replace_term, replace_column, replace, replace_all};
ghost use Rattle.lc_term.specs.Syntax.{formulas};
ghost use Rattle.lc_term.specs.View.{term_of, column_of, formula_of, formulas_of};

use crate::chain::{chain_of, with_store};
use crate::formula::Formula;
use crate::term::{ColExpr, Term};
use lc_base::{ColId, OutOfMemory};
use std::alloc::Global;

/// What is put in for the columns and variables of a formula, at once.
///
/// `depth` counts the quantifiers around a place, and stops at `u64::MAX`.
pub(crate) trait Replacing {
    // What is put in, outside every quantifier.
    ghost replacement: { Self → Replacement };

    // Where the numbers of bound variables in what is put in fit, by the number of quantifiers around the place.
    ghost fits: { Self → ℕ → Test };

    fn column(&self, alloc: Global, column: ColId, depth: u64) -> Result<ColExpr, OutOfMemory>
        ensures { IfOk result (λ put.
            (n : ℕ) → HasCounted depth n → IsTrue ((fits self.now n).columns column.0) →
            column_of put ≡ (under_many n (replacement self.now)).columns column.0) };

    fn variable(&self, alloc: Global, number: u32, depth: u64) -> Result<Term, OutOfMemory>
        ensures { IfOk result (λ put.
            (n : ℕ) → HasCounted depth n → IsTrue ((fits self.now n).variables number) →
            term_of put ≡ (under_many n (replacement self.now)).variables number) };

    fn bound(&self, alloc: Global, number: u32, depth: u64) -> Result<Term, OutOfMemory>
        ensures { IfOk result (λ put.
            (n : ℕ) → HasCounted depth n → IsTrue ((fits self.now n).bounds number) →
            term_of put ≡ (under_many n (replacement self.now)).bounds number) };
}

#[cycle(replaced_term)]
pub(crate) fn replaced_term<R: Replacing>(
    alloc: Global,
    term: &Term,
    put: &R,
    depth: u64,
) -> Result<Term, OutOfMemory>
    ensures { IfOk result (λ replaced.
        (n : ℕ) → HasCounted depth n → IsTrue (term_passes (R.fits put.now n) (term_of term.now)) →
        term_of replaced ≡ replace_term (under_many n (R.replacement put.now)) (term_of term.now)) }
{
    match term {
        Term::Number(number) => Ok(Term::Number(*number)),
        Term::Variable(number) => put.variable(alloc, *number, depth),
        Term::Bound(number) => put.bound(alloc, *number, depth),
        Term::Add(left, right) => Ok(Term::Add(
            Box::new(alloc, replaced_term(alloc, left, put, depth)?)?,
            Box::new(alloc, replaced_term(alloc, right, put, depth)?)?,
        )),
        Term::Subtract(left, right) => Ok(Term::Subtract(
            Box::new(alloc, replaced_term(alloc, left, put, depth)?)?,
            Box::new(alloc, replaced_term(alloc, right, put, depth)?)?,
        )),
        Term::Multiply(factor, term) => Ok(Term::Multiply(
            *factor,
            Box::new(alloc, replaced_term(alloc, term, put, depth)?)?,
        )),
        Term::Read(column, index) => Ok(Term::Read(
            Box::new(alloc, replaced_column(alloc, column, put, depth)?)?,
            Box::new(alloc, replaced_term(alloc, index, put, depth)?)?,
        )),
    }
}

// What is stored to, replaced.
fn replaced_base<R: Replacing>(
    alloc: Global,
    base: &ColExpr,
    put: &R,
    depth: u64,
) -> Result<ColExpr, OutOfMemory>
    requires { is_store (column_of base.now) ≡ false }
    ensures { IfOk result (λ replaced.
        (n : ℕ) → HasCounted depth n → IsTrue (column_passes (R.fits put.now n) (column_of base.now)) →
        column_of replaced ≡ replace_column (under_many n (R.replacement put.now)) (column_of base.now)) }
{
    match base {
        ColExpr::Base(column) => put.column(alloc, *column, depth),
        ColExpr::Affine(slope, start) => Ok(ColExpr::Affine(*slope, *start)),
        ColExpr::Store(..) => unreachable!(),
    }
}

#[cycle(replaced_term)]
fn replaced_column<R: Replacing>(
    alloc: Global,
    column: &ColExpr,
    put: &R,
    depth: u64,
) -> Result<ColExpr, OutOfMemory>
    ensures { IfOk result (λ replaced.
        (n : ℕ) → HasCounted depth n → IsTrue (column_passes (R.fits put.now n) (column_of column.now)) →
        column_of replaced ≡ replace_column (under_many n (R.replacement put.now)) (column_of column.now)) }
{
    let mut chain = chain_of(alloc, column)?;
    let mut replaced = replaced_base(alloc, chain.base, put, depth)?;
    'stores: while let Some(store) = chain.stores.pop() {
        let index = replaced_term(alloc, store.index, put, depth)?;
        let value = replaced_term(alloc, store.value, put, depth)?;
        replaced = with_store(alloc, replaced, index, value)?;
    }
    Ok(replaced)
}

/// The formula with what `put` puts in, below as many quantifiers as `depth` counts.
#[cycle(replaced)]
pub(crate) fn replaced<R: Replacing>(
    alloc: Global,
    formula: &Formula,
    put: &R,
    depth: u64,
) -> Result<Formula, OutOfMemory>
    ensures { IfOk result (λ replaced.
        (n : ℕ) → HasCounted depth n → IsTrue (passes (R.fits put.now) n (formula_of formula.now)) →
        formula_of replaced ≡ replace (under_many n (R.replacement put.now)) (formula_of formula.now)) }
{
    match formula {
        Formula::Le(left, right) => Ok(Formula::Le(
            replaced_term(alloc, left, put, depth)?,
            replaced_term(alloc, right, put, depth)?,
        )),
        Formula::Eq(left, right) => Ok(Formula::Eq(
            replaced_term(alloc, left, put, depth)?,
            replaced_term(alloc, right, put, depth)?,
        )),
        Formula::Not(formula) => Ok(Formula::Not(Box::new(
            alloc,
            replaced(alloc, formula, put, depth)?,
        )?)),
        Formula::And(parts) => Ok(Formula::And(replaced_each(alloc, parts, put, depth)?)),
        Formula::Or(parts) => Ok(Formula::Or(replaced_each(alloc, parts, put, depth)?)),
        Formula::Implies(left, right) => Ok(Formula::Implies(
            Box::new(alloc, replaced(alloc, left, put, depth)?)?,
            Box::new(alloc, replaced(alloc, right, put, depth)?)?,
        )),
        Formula::Forall(body) => Ok(Formula::Forall(Box::new(
            alloc,
            replaced(alloc, body, put, depth.saturating_add(1))?,
        )?)),
        Formula::Exists(body) => Ok(Formula::Exists(Box::new(
            alloc,
            replaced(alloc, body, put, depth.saturating_add(1))?,
        )?)),
    }
}

#[cycle(replaced)]
fn replaced_each<R: Replacing>(
    alloc: Global,
    parts: &[Formula],
    put: &R,
    depth: u64,
) -> Result<Vec<Formula>, OutOfMemory>
    ensures { let fs = formulas (formulas_of parts.now) in
        IfOk result (λ each.
        (n : ℕ) → HasCounted depth n → IsTrue (all_pass (R.fits put.now) n fs) →
        formulas (formulas_of each.items) ≡ replace_all (under_many n (R.replacement put.now)) fs) }
{
    let mut each = Vec::with_capacity(alloc, parts.len())?;
    for part in parts {
        each.push(replaced(alloc, part, put, depth)?)?;
    }
    Ok(each)
}
