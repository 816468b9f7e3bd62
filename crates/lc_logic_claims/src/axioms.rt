//! The axioms of columns.
ghost use Rattle.std.specs.Prelude.{IfOk};
ghost use Rattle.lc_array.specs.Axioms.{affine_cell, same_index, written};
ghost use Rattle.lc_table.specs.Tables.{HasFormula, IsColumn, IsTerm, column_in, term_in};

use lc_array::{affine_axiom, same_index_axiom, written_axiom};
use lc_base::OutOfMemory;
use lc_table::{ColExprId, FormulaId, TermId, Terms};
use std::alloc::Global;

/// The axiom of a stored value says what the column has at the index, and what it has elsewhere.
pub fn taking_a_stored_value(
    terms: &mut Terms,
    alloc: Global,
    column: ColExprId,
    index: TermId,
    value: TermId,
    other: TermId,
) -> Result<FormulaId, OutOfMemory>
    requires column { IsColumn terms.old column }
    requires index { IsTerm terms.old index }
    requires value { IsTerm terms.old value }
    requires other { IsTerm terms.old other }
    ensures { IfOk result (λ k. HasFormula terms.new k (written (column_in terms.old column) (term_in terms.old index) (term_in terms.old value) (term_in terms.old other))) }
{
    written_axiom(terms, alloc, column, index, value, other)
}

/// The axiom of equal indexes says that the indexes are not equal or the column has the same at both.
pub fn taking_equal_indexes(
    terms: &mut Terms,
    alloc: Global,
    column: ColExprId,
    index: TermId,
    other: TermId,
) -> Result<FormulaId, OutOfMemory>
    requires column { IsColumn terms.old column }
    requires index { IsTerm terms.old index }
    requires other { IsTerm terms.old other }
    ensures { IfOk result (λ k. HasFormula terms.new k (same_index (column_in terms.old column) (term_in terms.old index) (term_in terms.old other))) }
{
    same_index_axiom(terms, alloc, column, index, other)
}

/// The axiom of a line says that its column has `slope * i + start` at i.
pub fn taking_a_line(
    terms: &mut Terms,
    slope: i64,
    start: i64,
    index: TermId,
) -> Result<FormulaId, OutOfMemory>
    requires { IsTerm terms.old index }
    ensures { IfOk result (λ k. HasFormula terms.new k (affine_cell slope start (term_in terms.old index))) }
{
    affine_axiom(terms, slope, start, index)
}
