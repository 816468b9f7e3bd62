//! Terms and formulas with other columns in place of theirs.
ghost use Rattle.std.specs.Prelude.{◌≡◌, ◌++◌, ◌∷◌, [], false, IfOk, OnOk};
ghost use Rattle.lc_carry.specs.Renaming.{column_for, renaming};
ghost use Rattle.lc_term.specs.Chains.{is_store};
ghost use Rattle.lc_term.specs.Replacement.{replace_term, replace_column, replace, replace_all};
ghost use Rattle.lc_term.specs.Syntax.{Le, Eq, formulas};
ghost use Rattle.lc_term.specs.View.{term_of, column_of, formula_of, formulas_of};

use crate::mapping::column_or;
use lc_base::{ColId, OutOfMemory};
use lc_term::{ColExpr, Formula, Term, chain_of, with_store};
use std::alloc::Global;

/// A term with the columns in place of those that it names.
#[cycle(renamed_term)]
pub(crate) fn renamed_term(
    alloc: Global,
    columns: &[Option<ColId>],
    term: &Term,
) -> Result<Term, OutOfMemory>
    ensures { IfOk result (λ renamed. term_of renamed ≡ replace_term (renaming (column_for columns.now)) (term_of term.now)) }
{
    match term {
        Term::Number(number) => Ok(Term::Number(*number)),
        Term::Variable(number) => Ok(Term::Variable(*number)),
        Term::Bound(number) => Ok(Term::Bound(*number)),
        Term::Add(left, right) => Ok(Term::Add(
            boxed_term(alloc, columns, left)?,
            boxed_term(alloc, columns, right)?,
        )),
        Term::Subtract(left, right) => Ok(Term::Subtract(
            boxed_term(alloc, columns, left)?,
            boxed_term(alloc, columns, right)?,
        )),
        Term::Multiply(factor, term) => Ok(Term::Multiply(
            *factor,
            boxed_term(alloc, columns, term)?,
        )),
        Term::Read(column, index) => Ok(Term::Read(
            Box::new(alloc, renamed_column(alloc, columns, column)?)?,
            boxed_term(alloc, columns, index)?,
        )),
    }
}

/// The same in a box. It is a function of its own, so that each level of a term takes little of the stack.
#[cycle(renamed_term)]
#[inline(never)]
fn boxed_term(
    alloc: Global,
    columns: &[Option<ColId>],
    term: &Term,
) -> Result<Box<Term>, OutOfMemory>
    ensures { IfOk result (λ renamed. term_of renamed.value ≡ replace_term (renaming (column_for columns.now)) (term_of term.now)) }
{
    Ok(Box::new(alloc, renamed_term(alloc, columns, term)?)?)
}

/// What is stored to, with the column in its place.
fn renamed_base(columns: &[Option<ColId>], base: &ColExpr) -> ColExpr
    requires { is_store (column_of base.now) ≡ false }
    ensures { column_of result ≡ replace_column (renaming (column_for columns.now)) (column_of base.now) }
{
    match base {
        ColExpr::Base(column) => ColExpr::Base(column_or(columns, *column)),
        ColExpr::Affine(slope, start) => ColExpr::Affine(*slope, *start),
        ColExpr::Store(..) => unreachable!(),
    }
}

/// A column expression with the columns in place of those that it names. It is a function of its own for the same reason.
#[cycle(renamed_term)]
#[inline(never)]
pub(crate) fn renamed_column(
    alloc: Global,
    columns: &[Option<ColId>],
    column: &ColExpr,
) -> Result<ColExpr, OutOfMemory>
    ensures { IfOk result (λ renamed. column_of renamed ≡ replace_column (renaming (column_for columns.now)) (column_of column.now)) }
{
    let mut chain = chain_of(alloc, column)?;
    let mut renamed = renamed_base(columns, chain.base);
    'stores: while let Some(store) = chain.stores.pop() {
        let index = renamed_term(alloc, columns, store.index)?;
        let value = renamed_term(alloc, columns, store.value)?;
        renamed = with_store(alloc, renamed, index, value)?;
    }
    Ok(renamed)
}

/// A formula with the columns in place of those that it names.
#[cycle(renamed_formula)]
pub(crate) fn renamed_formula(
    alloc: Global,
    columns: &[Option<ColId>],
    formula: &Formula,
) -> Result<Formula, OutOfMemory>
    ensures { IfOk result (λ renamed. formula_of renamed ≡ replace (renaming (column_for columns.now)) (formula_of formula.now)) }
{
    match formula {
        Formula::Le(left, right) => renamed_le(alloc, columns, left, right),
        Formula::Eq(left, right) => renamed_eq(alloc, columns, left, right),
        Formula::Not(formula) => Ok(Formula::Not(boxed_formula(alloc, columns, formula)?)),
        Formula::And(parts) => Ok(Formula::And(renamed_parts(alloc, columns, parts)?)),
        Formula::Or(parts) => Ok(Formula::Or(renamed_parts(alloc, columns, parts)?)),
        Formula::Implies(left, right) => Ok(Formula::Implies(
            boxed_formula(alloc, columns, left)?,
            boxed_formula(alloc, columns, right)?,
        )),
        Formula::Forall(body) => Ok(Formula::Forall(boxed_formula(alloc, columns, body)?)),
        Formula::Exists(body) => Ok(Formula::Exists(boxed_formula(alloc, columns, body)?)),
    }
}

/// The first term at most the second, with the columns in place. It and the next ones are not among the functions that call one another.
#[inline(never)]
fn renamed_le(
    alloc: Global,
    columns: &[Option<ColId>],
    left: &Term,
    right: &Term,
) -> Result<Formula, OutOfMemory>
    ensures { IfOk result (λ renamed. formula_of renamed ≡ replace (renaming (column_for columns.now)) (Le (term_of left.now) (term_of right.now))) }
{
    Ok(Formula::Le(
        renamed_term(alloc, columns, left)?,
        renamed_term(alloc, columns, right)?,
    ))
}

/// The terms equal, with the columns in place.
#[inline(never)]
fn renamed_eq(
    alloc: Global,
    columns: &[Option<ColId>],
    left: &Term,
    right: &Term,
) -> Result<Formula, OutOfMemory>
    ensures { IfOk result (λ renamed. formula_of renamed ≡ replace (renaming (column_for columns.now)) (Eq (term_of left.now) (term_of right.now))) }
{
    Ok(Formula::Eq(
        renamed_term(alloc, columns, left)?,
        renamed_term(alloc, columns, right)?,
    ))
}

/// The formula in a box.
#[cycle(renamed_formula)]
#[inline(never)]
fn boxed_formula(
    alloc: Global,
    columns: &[Option<ColId>],
    formula: &Formula,
) -> Result<Box<Formula>, OutOfMemory>
    ensures { IfOk result (λ renamed. formula_of renamed.value ≡ replace (renaming (column_for columns.now)) (formula_of formula.now)) }
{
    Ok(Box::new(alloc, renamed_formula(alloc, columns, formula)?)?)
}

/// Takes a formula out of its box, and appends it to others.
#[inline(never)]
fn push_out(renamed: &mut Vec<Formula>, formula: Box<Formula>) -> Result<(), OutOfMemory>
    ensures { OnOk result (renamed.new.items ≡ renamed.old.items ++ (formula.value ∷ [])) }
{
    renamed.push(Box::into_inner(formula))?;
    Ok(())
}

/// The parts of a conjunction or a disjunction, with the columns in place.
#[cycle(renamed_formula)]
fn renamed_parts(
    alloc: Global,
    columns: &[Option<ColId>],
    parts: &[Formula],
) -> Result<Vec<Formula>, OutOfMemory>
    ensures { IfOk result (λ renamed. formulas (formulas_of renamed.items) ≡ replace_all (renaming (column_for columns.now)) (formulas (formulas_of parts.now))) }
{
    let mut renamed = Vec::with_capacity(alloc, parts.len())?;
    for part in parts {
        push_out(&mut renamed, boxed_formula(alloc, columns, part)?)?;
    }
    Ok(renamed)
}
