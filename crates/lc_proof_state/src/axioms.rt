//! The axioms of columns as trees: they are made in a table of their own.
ghost use Rattle.std.specs.Prelude.{◌≡◌, IfOk};
ghost use Rattle.lc_array.specs.Axioms.{written, same_index, affine_cell};
ghost use Rattle.lc_table.specs.Tables.{HasTerm, HasColumn, HasFormula, Keeps};
ghost use Rattle.lc_term.specs.Syntax as T;
ghost use Rattle.lc_term.specs.View.{term_of, column_of, formula_of};

use lc_array::{
    affine_axiom as affine_number, same_index_axiom as same_number, written_axiom as written_number,
};
use lc_base::OutOfMemory;
use lc_copy::formula_tree;
use lc_kernel::{entered_cell, entered_pair};
use lc_table::{ColExprId, FormulaId, TermId, Terms};
use lc_term::{ColExpr, Formula, Term};
use std::alloc::Global;

#[tactic(auto, using(lc_table::proofs::Later::term_is, lc_table::proofs::Later::term_later, lc_table::proofs::Later::column_is, lc_table::proofs::Later::column_later, lc_table::proofs::Later::is_term_later, lc_table::proofs::Later::is_column_later, lc_table::proofs::Later::kept_on, lc_table::proofs::Later::keeps_itself))]
fn entered_written(
    alloc: Global,
    terms: &mut Terms,
    column: &ColExpr,
    index: &Term,
    value: &Term,
    other: &Term,
) -> Result<FormulaId, OutOfMemory>
    ensures { IfOk result (λ k. HasFormula terms.new k (written (column_of column.now) (term_of index.now) (term_of value.now) (term_of other.now))) }
{
    let (column, index) = entered_cell(terms, column, index)?;
    let (value, other) = entered_pair(terms, value, other)?;
    written_number(terms, alloc, column, index, value, other)
}

#[tactic(auto, using(lc_table::proofs::Later::term_is, lc_table::proofs::Later::term_later, lc_table::proofs::Later::column_is, lc_table::proofs::Later::column_later, lc_table::proofs::Later::is_term_later, lc_table::proofs::Later::is_column_later, lc_table::proofs::Later::kept_on, lc_table::proofs::Later::keeps_itself))]
fn entered_same(
    alloc: Global,
    terms: &mut Terms,
    column: &ColExpr,
    index: &Term,
    other: &Term,
) -> Result<FormulaId, OutOfMemory>
    ensures { IfOk result (λ k. HasFormula terms.new k (same_index (column_of column.now) (term_of index.now) (term_of other.now))) }
{
    let (column, index) = entered_cell(terms, column, index)?;
    let other = terms.enter_term(other)?;
    same_number(terms, alloc, column, index, other)
}

/// The tree of a formula that is entered.
#[tactic(auto, using(lc_table::proofs::Later::formula_is, lc_table::proofs::Later::is_formula_later, lc_table::proofs::Later::keeps_itself))]
fn tree_of(alloc: Global, terms: &Terms, formula: FormulaId) -> Result<Formula, OutOfMemory>
    requires { (f : T.Formula) × HasFormula terms.now formula f }
    ensures { (f : T.Formula) → HasFormula terms.now formula f → IfOk result (λ tree. formula_of tree ≡ f) }
{
    formula_tree(terms, alloc, formula)
}

/// The axiom of a stored value.
pub(crate) fn written_axiom(
    alloc: Global,
    column: &ColExpr,
    index: &Term,
    value: &Term,
    other: &Term,
) -> Result<Formula, OutOfMemory>
    ensures { IfOk result (λ tree. formula_of tree ≡ written (column_of column.now) (term_of index.now) (term_of value.now) (term_of other.now)) }
{
    let mut terms = Terms::new(alloc);
    let axiom = entered_written(alloc, &mut terms, column, index, value, other)?;
    tree_of(alloc, &terms, axiom)
}

/// The axiom of equal indexes.
pub(crate) fn same_axiom(
    alloc: Global,
    column: &ColExpr,
    index: &Term,
    other: &Term,
) -> Result<Formula, OutOfMemory>
    ensures { IfOk result (λ tree. formula_of tree ≡ same_index (column_of column.now) (term_of index.now) (term_of other.now)) }
{
    let mut terms = Terms::new(alloc);
    let axiom = entered_same(alloc, &mut terms, column, index, other)?;
    tree_of(alloc, &terms, axiom)
}

/// The axiom of the column that has `a * i + b` at i.
pub(crate) fn affine_axiom(
    alloc: Global,
    slope: i64,
    start: i64,
    index: &Term,
) -> Result<Formula, OutOfMemory>
    ensures { IfOk result (λ tree. formula_of tree ≡ affine_cell slope start (term_of index.now)) }
{
    let mut terms = Terms::new(alloc);
    let index = terms.enter_term(index)?;
    let axiom = affine_number(&mut terms, slope, start, index)?;
    tree_of(alloc, &terms, axiom)
}
