//! What is made of parts that are read.
//!
//! The functions `whole_` are separate from the readers that call them. Readers call one another, as deep as a text is
//! nested, and what is made of the parts on the way takes none of the stack of their levels.
ghost use Rattle.std.specs.Prelude.{◌≡◌, ℤ};
ghost use Rattle.lc_sexp.specs.Shown.{rest_of, number_of};
ghost use Rattle.lc_reading.specs.Readings.{Reading, mapped};
ghost use Rattle.lc_reading.specs.Results.{IsReading, IsPushed, both_results, ended_result};
ghost use Rattle.lc_term.specs.Syntax as S;
ghost use Rattle.lc_term.specs.View.{term_of, column_of};
ghost use Rattle.lc_text.specs.Formulas.{comparison_of, joined_by, implication_of, quantified_by};
ghost use Rattle.lc_text.specs.Seen.{numbers_of, terms_of, product_parts, access_parts, store_parts, boxed, boxed_pair, unboxed, row_of};
ghost use Rattle.lc_text.specs.Terms.{sum_of, product_of, access_of, affine_of, store_of};

use crate::words::{Connective, Operation};
use lc_reading::{ReadFault, both, ended, pushed};
use lc_sexp::Cursor;
use lc_term::{ColExpr, Formula, Term};
use std::alloc::Global;

/// The sum or the difference of two terms.
fn made_sum(
    alloc: Global,
    operation: Operation,
    terms: Result<(Term, Term), ReadFault>,
) -> Result<Term, ReadFault>
    ensures { (r : Reading (S.Term × S.Term)) → IsReading terms_of r terms → IsReading term_of (mapped (sum_of operation) r) result }
{
    let (left, right) = terms?;
    let left = Box::new(alloc, left)?;
    let right = Box::new(alloc, right)?;
    Ok(match operation {
        Operation::Add => Term::Add(left, right),
        _ => Term::Subtract(left, right),
    })
}

/// The product of a number and a term.
fn made_product(alloc: Global, parts: Result<(i64, Term), ReadFault>) -> Result<Term, ReadFault>
    ensures { (r : Reading (ℤ × S.Term)) → IsReading product_parts r parts → IsReading term_of (mapped product_of r) result }
{
    let (factor, term) = parts?;
    Ok(Term::Multiply(factor, Box::new(alloc, term)?))
}

/// The cell of a column at an index.
fn made_access(alloc: Global, parts: Result<(ColExpr, Term), ReadFault>) -> Result<Term, ReadFault>
    ensures { (r : Reading (S.Column × S.Term)) → IsReading access_parts r parts → IsReading term_of (mapped access_of r) result }
{
    let (column, index) = parts?;
    Ok(Term::read(alloc, column, index)?)
}

/// The column of two numbers.
pub(crate) fn made_affine(numbers: Result<(i64, i64), ReadFault>) -> Result<ColExpr, ReadFault>
    ensures { (r : Reading (ℤ × ℤ)) → IsReading numbers_of r numbers → IsReading column_of (mapped affine_of r) result }
{
    let (slope, start) = numbers?;
    Ok(ColExpr::Affine(slope, start))
}

/// A column with another value at an index.
fn made_store(
    alloc: Global,
    parts: Result<((ColExpr, Term), Term), ReadFault>,
) -> Result<ColExpr, ReadFault>
    ensures { (r : Reading ((S.Column × S.Term) × S.Term)) → IsReading store_parts r parts → IsReading column_of (mapped store_of r) result }
{
    let ((column, index), value) = parts?;
    let column = Box::new(alloc, column)?;
    let index = Box::new(alloc, index)?;
    Ok(ColExpr::Store(column, index, Box::new(alloc, value)?))
}

/// The sum or the difference of two terms that are all of a list.
#[inline(never)]
pub(crate) fn whole_sum(
    alloc: Global,
    operation: Operation,
    left: Result<Term, ReadFault>,
    right: Result<Term, ReadFault>,
    rest: Cursor<'_>,
) -> Result<Term, ReadFault>
    ensures { (r : Reading (S.Term × S.Term)) → IsReading terms_of r (ended_result (number_of rest.entry) (rest_of rest.entry) (both_results left right)) →
        IsReading term_of (mapped (sum_of operation) r) result }
{
    made_sum(alloc, operation, ended(both(left, right), rest))
}

/// The product of a number and a term that are all of a list.
#[inline(never)]
pub(crate) fn whole_product(
    alloc: Global,
    factor: Result<i64, ReadFault>,
    term: Result<Term, ReadFault>,
    rest: Cursor<'_>,
) -> Result<Term, ReadFault>
    ensures { (r : Reading (ℤ × S.Term)) → IsReading product_parts r (ended_result (number_of rest.entry) (rest_of rest.entry) (both_results factor term)) →
        IsReading term_of (mapped product_of r) result }
{
    made_product(alloc, ended(both(factor, term), rest))
}

/// The cell of a column at an index that are all of a list.
#[inline(never)]
pub(crate) fn whole_access(
    alloc: Global,
    column: Result<ColExpr, ReadFault>,
    index: Result<Term, ReadFault>,
    rest: Cursor<'_>,
) -> Result<Term, ReadFault>
    ensures { (r : Reading (S.Column × S.Term)) → IsReading access_parts r (ended_result (number_of rest.entry) (rest_of rest.entry) (both_results column index)) →
        IsReading term_of (mapped access_of r) result }
{
    made_access(alloc, ended(both(column, index), rest))
}

/// A column with a value stored at an index, from parts that must be the whole list.
#[inline(never)]
pub(crate) fn whole_store(
    alloc: Global,
    column: Result<ColExpr, ReadFault>,
    index: Result<Term, ReadFault>,
    value: Result<Term, ReadFault>,
    rest: &Cursor<'_>,
) -> Result<ColExpr, ReadFault>
    ensures { (r : Reading ((S.Column × S.Term) × S.Term)) → IsReading store_parts r (ended_result (number_of rest.now) (rest_of rest.now) (both_results (both_results column index) value)) →
        IsReading column_of (mapped store_of r) result }
{
    made_store(alloc, ended(both(both(column, index), value), *rest))
}

/// The comparison of two terms.
#[inline(never)]
pub(crate) fn made_comparison(
    alloc: Global,
    connective: Connective,
    terms: Result<(Term, Term), ReadFault>,
) -> Result<Box<Formula>, ReadFault>
    ensures { (r : Reading (S.Term × S.Term)) → IsReading terms_of r terms → IsReading boxed (mapped (comparison_of connective) r) result }
{
    let (left, right) = terms?;
    let formula = match connective {
        Connective::Le => Formula::Le(left, right),
        _ => Formula::Eq(left, right),
    };
    Ok(Box::new(alloc, formula)?)
}

/// The negation of a formula.
#[inline(never)]
pub(crate) fn made_negation(
    alloc: Global,
    formula: Result<Box<Formula>, ReadFault>,
) -> Result<Box<Formula>, ReadFault>
    ensures { (r : Reading S.Formula) → IsReading boxed r formula → IsReading boxed (mapped S.Not r) result }
{
    Ok(Box::new(alloc, Formula::Not(formula?))?)
}

/// The conjunction or the disjunction of formulas.
#[inline(never)]
pub(crate) fn made_row(
    alloc: Global,
    connective: Connective,
    formulas: Result<Vec<Formula>, ReadFault>,
) -> Result<Box<Formula>, ReadFault>
    ensures { (r : Reading S.Formulas) → IsReading row_of r formulas → IsReading boxed (mapped (joined_by connective) r) result }
{
    let formulas = formulas?;
    let formula = match connective {
        Connective::And => Formula::And(formulas),
        _ => Formula::Or(formulas),
    };
    Ok(Box::new(alloc, formula)?)
}

/// The implication of two formulas.
#[inline(never)]
pub(crate) fn made_implication(
    alloc: Global,
    formulas: Result<(Box<Formula>, Box<Formula>), ReadFault>,
) -> Result<Box<Formula>, ReadFault>
    ensures { (r : Reading (S.Formula × S.Formula)) → IsReading boxed_pair r formulas → IsReading boxed (mapped implication_of r) result }
{
    let (left, right) = formulas?;
    Ok(Box::new(alloc, Formula::Implies(left, right))?)
}

/// The quantifier with this body.
#[inline(never)]
pub(crate) fn made_quantifier(
    alloc: Global,
    connective: Connective,
    body: Result<Box<Formula>, ReadFault>,
) -> Result<Box<Formula>, ReadFault>
    ensures { (r : Reading S.Formula) → IsReading boxed r body → IsReading boxed (mapped (quantified_by connective) r) result }
{
    let body = body?;
    let formula = match connective {
        Connective::Forall => Formula::Forall(body),
        _ => Formula::Exists(body),
    };
    Ok(Box::new(alloc, formula)?)
}

/// One formula more, if all before it are read; else what is wrong in any.
#[inline(never)]
pub(crate) fn pushed_out(
    formulas: Result<Vec<Formula>, ReadFault>,
    formula: Result<Box<Formula>, ReadFault>,
) -> Result<Vec<Formula>, ReadFault>
    ensures { IsPushed formulas (unboxed formula) result }
{
    pushed(formulas, out_of_box(formula))
}

/// The formula that a box has.
pub(crate) fn out_of_box(formula: Result<Box<Formula>, ReadFault>) -> Result<Formula, ReadFault>
    ensures { result ≡ unboxed formula }
{
    match formula {
        Ok(formula) => Ok(Box::into_inner(formula)),
        Err(fault) => Err(fault),
    }
}
