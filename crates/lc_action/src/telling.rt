//! Terms and formulas of a later state, said of an earlier one.
ghost use Rattle.std.specs.Prelude.{◌≡◌, ℕ, suc, IfOk, IsTrue, map, true, false};
ghost use Rattle.lc_term.specs.Chains.{is_store};
ghost use Rattle.lc_term.specs.Places.{term_passes, column_passes, passes, all_pass};
ghost use Rattle.lc_term.specs.Replacement.{replace_term, replace_column, replace, replace_all};
ghost use Rattle.lc_term.specs.Syntax.{formulas, Number};
ghost use Rattle.lc_term.specs.Said.{term_at, told};
ghost use Rattle.lc_term.specs.View.{term_of, column_of, formula_of, formulas_of};
ghost use Rattle.lc_action.specs.Telling.{columns_in, telling, tellable, telling_under};

use crate::stored_columns::column_after;
use lc_base::{ColId, OutOfMemory};
use lc_term::{ColExpr, Formula, Term, chain_of, with_store};
use std::alloc::Global;

/// What a term uses, said in an earlier state: the columns, and the terms for its variables. A variable after the last
/// is 0.
#[derive(Clone, Copy)]
pub struct Before<'a> {
    pub columns: &'a [(ColId, ColExpr)],
    pub variables: &'a [Term],
}

// The term that stands for a variable; 0 after the last.
fn variable_at(alloc: Global, variables: &[Term], number: u32) -> Result<Term, OutOfMemory>
    ensures { IfOk result (λ told. term_of told ≡ term_at (map term_of variables.now) number) }
{
    match variables.get(number as usize) {
        Some(term) => term.try_clone(alloc),
        None => Ok(Term::Number(0)),
    }
}

// What is put in for a variable, a bound variable or a column, below quantifiers too.
fn variable_told(alloc: Global, before: Before<'_>, number: u32) -> Result<Term, OutOfMemory>
    ensures { IfOk result (λ told.
        (n : ℕ) → IsTrue ((tellable before.entry.columns.now before.entry.variables.now n).variables number) →
        term_of told ≡ (telling_under before.entry.columns.now before.entry.variables.now n).variables number) }
{
    variable_at(alloc, before.variables, number)
}

fn bound_told(before: Before<'_>, number: u32) -> Term
    ensures { (n : ℕ) → term_of result ≡ (telling_under before.entry.columns.now before.entry.variables.now n).bounds number }
{
    let _ = before;
    Term::Bound(number)
}

fn column_told(alloc: Global, before: Before<'_>, column: ColId) -> Result<ColExpr, OutOfMemory>
    ensures { IfOk result (λ told.
        (n : ℕ) → IsTrue ((tellable before.entry.columns.now before.entry.variables.now n).columns column.0) →
        column_of told ≡ (telling_under before.entry.columns.now before.entry.variables.now n).columns column.0) }
{
    column_after(alloc, before.columns, column)
}

#[cycle(said_term)]
fn said_term(alloc: Global, term: &Term, before: Before<'_>) -> Result<Term, OutOfMemory>
    ensures { IfOk result (λ said.
        (n : ℕ) → IsTrue (term_passes (tellable before.entry.columns.now before.entry.variables.now n) (term_of term.now)) →
        term_of said ≡ replace_term (telling_under before.entry.columns.now before.entry.variables.now n) (term_of term.now)) }
{
    match term {
        Term::Number(number) => Ok(Term::Number(*number)),
        Term::Variable(number) => variable_told(alloc, before, *number),
        Term::Bound(number) => Ok(bound_told(before, *number)),
        Term::Add(left, right) => Ok(Term::Add(
            boxed_term(alloc, left, before)?,
            boxed_term(alloc, right, before)?,
        )),
        Term::Subtract(left, right) => Ok(Term::Subtract(
            boxed_term(alloc, left, before)?,
            boxed_term(alloc, right, before)?,
        )),
        Term::Multiply(factor, term) => Ok(Term::Multiply(
            *factor,
            boxed_term(alloc, term, before)?,
        )),
        Term::Read(column, index) => Ok(Term::Read(
            Box::new(alloc, said_column(alloc, column, before)?)?,
            boxed_term(alloc, index, before)?,
        )),
    }
}

// The same in a box. It is a function of its own, so that each level of a term takes little of the stack.
#[cycle(said_term)]
#[inline(never)]
fn boxed_term(alloc: Global, term: &Term, before: Before<'_>) -> Result<Box<Term>, OutOfMemory>
    ensures { IfOk result (λ said.
        (n : ℕ) → IsTrue (term_passes (tellable before.entry.columns.now before.entry.variables.now n) (term_of term.now)) →
        term_of said.value ≡ replace_term (telling_under before.entry.columns.now before.entry.variables.now n) (term_of term.now)) }
{
    Ok(Box::new(alloc, said_term(alloc, term, before)?)?)
}

// A column expression that is no store, said of the state before.
fn said_base(alloc: Global, base: &ColExpr, before: Before<'_>) -> Result<ColExpr, OutOfMemory>
    requires { is_store (column_of base.now) ≡ false }
    ensures { IfOk result (λ said.
        (n : ℕ) → IsTrue (column_passes (tellable before.entry.columns.now before.entry.variables.now n) (column_of base.now)) →
        column_of said ≡ replace_column (telling_under before.entry.columns.now before.entry.variables.now n) (column_of base.now)) }
{
    match base {
        ColExpr::Base(column) => column_told(alloc, before, *column),
        ColExpr::Affine(slope, start) => Ok(ColExpr::Affine(*slope, *start)),
        ColExpr::Store(..) => unreachable!(),
    }
}

#[cycle(said_term)]
#[inline(never)]
fn said_column(alloc: Global, column: &ColExpr, before: Before<'_>) -> Result<ColExpr, OutOfMemory>
    ensures { IfOk result (λ said.
        (n : ℕ) → IsTrue (column_passes (tellable before.entry.columns.now before.entry.variables.now n) (column_of column.now)) →
        column_of said ≡ replace_column (telling_under before.entry.columns.now before.entry.variables.now n) (column_of column.now)) }
{
    let mut chain = chain_of(alloc, column)?;
    let mut said = said_base(alloc, chain.base, before)?;
    'stores: while let Some(store) = chain.stores.pop() {
        let index = said_term(alloc, store.index, before)?;
        let value = said_term(alloc, store.value, before)?;
        said = with_store(alloc, said, index, value)?;
    }
    Ok(said)
}

#[cycle(said_formula)]
fn said_formula(
    alloc: Global,
    formula: &Formula,
    before: Before<'_>,
) -> Result<Formula, OutOfMemory>
    ensures { IfOk result (λ said.
        (n : ℕ) → IsTrue (passes (tellable before.entry.columns.now before.entry.variables.now) n (formula_of formula.now)) →
        formula_of said ≡ replace (telling_under before.entry.columns.now before.entry.variables.now n) (formula_of formula.now)) }
{
    match formula {
        Formula::Le(left, right) => Ok(Formula::Le(
            said_term(alloc, left, before)?,
            said_term(alloc, right, before)?,
        )),
        Formula::Eq(left, right) => Ok(Formula::Eq(
            said_term(alloc, left, before)?,
            said_term(alloc, right, before)?,
        )),
        Formula::Not(formula) => Ok(Formula::Not(Box::new(
            alloc,
            said_formula(alloc, formula, before)?,
        )?)),
        Formula::And(parts) => Ok(Formula::And(said_formulas(alloc, parts, before)?)),
        Formula::Or(parts) => Ok(Formula::Or(said_formulas(alloc, parts, before)?)),
        Formula::Implies(left, right) => Ok(Formula::Implies(
            Box::new(alloc, said_formula(alloc, left, before)?)?,
            Box::new(alloc, said_formula(alloc, right, before)?)?,
        )),
        Formula::Forall(body) => Ok(Formula::Forall(Box::new(
            alloc,
            said_formula(alloc, body, before)?,
        )?)),
        Formula::Exists(body) => Ok(Formula::Exists(Box::new(
            alloc,
            said_formula(alloc, body, before)?,
        )?)),
    }
}

#[cycle(said_formula)]
fn said_formulas(
    alloc: Global,
    parts: &[Formula],
    before: Before<'_>,
) -> Result<Vec<Formula>, OutOfMemory>
    ensures { let fs = formulas (formulas_of parts.now) in
        IfOk result (λ each.
        (n : ℕ) → IsTrue (all_pass (tellable before.entry.columns.now before.entry.variables.now) n fs) →
        formulas (formulas_of each.items) ≡ replace_all (telling_under before.entry.columns.now before.entry.variables.now n) fs) }
{
    let mut each = Vec::with_capacity(alloc, parts.len())?;
    for part in parts {
        each.push(said_formula(alloc, part, before)?)?;
    }
    Ok(each)
}

/// A term over the columns after stores and over these variables, said of the state before.
pub fn said(alloc: Global, term: &Term, before: Before<'_>) -> Result<Term, OutOfMemory>
    ensures { IfOk result (λ said. term_of said ≡ replace_term (telling before.entry.columns.now before.entry.variables.now) (term_of term.now)) }
{
    said_term(alloc, term, before)
}

/// A formula over the columns after stores and over these variables, said of the state before. Below quantifiers what is
/// put in may have no bound variable.
pub fn told(alloc: Global, formula: &Formula, before: Before<'_>) -> Result<Formula, OutOfMemory>
    requires { IsTrue (passes (tellable before.columns.now before.variables.now) 0 (formula_of formula.now)) }
    ensures { IfOk result (λ said. formula_of said ≡ told (columns_in before.entry.columns.now) (map term_of before.entry.variables.now) (formula_of formula.now)) }
{
    said_formula(alloc, formula, before)
}
