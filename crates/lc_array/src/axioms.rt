//! The axioms of arrays, as formulas of a table.
ghost use Rattle.std.specs.Prelude.{◌≡◌, [], ◌∷◌, IfOk};
ghost use Rattle.lc_array.specs.Axioms.{written, written_to, same_index, affine_cell};
ghost use Rattle.lc_term.specs.Syntax as S;
ghost use Rattle.lc_table.specs.Tables.{term_in, column_in, formula_in, IsTerm, IsColumn, IsFormula, HasTerm, HasFormula, Keeps};

use lc_base::OutOfMemory;
use lc_table::{ColExprId, FormulaId, TermId, Terms};
use std::alloc::Global;

fn pair(alloc: Global, first: FormulaId, second: FormulaId) -> Result<Vec<FormulaId>, OutOfMemory>
    ensures { IfOk result (λ ks. ks.items ≡ first ∷ second ∷ []) }
{
    Ok(Vec::from_array(alloc, [first, second])?)
}

fn both(
    terms: &mut Terms,
    alloc: Global,
    first: FormulaId,
    second: FormulaId,
) -> Result<FormulaId, OutOfMemory>
    requires first { IsFormula terms.old first }
    requires second { IsFormula terms.old second }
    ensures id { IfOk result (λ k. HasFormula terms.new k (S.And (S.formulas (formula_in terms.old first ∷ formula_in terms.old second ∷ [])))) }
    ensures kept { Keeps terms.old terms.new }
{
    terms.and(pair(alloc, first, second)?)
}

fn either(
    terms: &mut Terms,
    alloc: Global,
    first: FormulaId,
    second: FormulaId,
) -> Result<FormulaId, OutOfMemory>
    requires first { IsFormula terms.old first }
    requires second { IsFormula terms.old second }
    ensures id { IfOk result (λ k. HasFormula terms.new k (S.Or (S.formulas (formula_in terms.old first ∷ formula_in terms.old second ∷ [])))) }
    ensures kept { Keeps terms.old terms.new }
{
    terms.or(pair(alloc, first, second)?)
}

#[tactic(auto, using(lc_table::proofs::Later::formula_is, lc_table::proofs::Later::is_formula_later, lc_table::proofs::Later::keeps_itself, lc_table::proofs::Later::kept_on))]
fn unequal(terms: &mut Terms, left: TermId, right: TermId) -> Result<FormulaId, OutOfMemory>
    requires left { IsTerm terms.old left }
    requires right { IsTerm terms.old right }
    ensures id { IfOk result (λ k. HasFormula terms.new k (S.Not (S.Eq (term_in terms.old left) (term_in terms.old right)))) }
    ensures kept { Keeps terms.old terms.new }
{
    let equal = terms.eq(left, right)?;
    terms.not(equal)
}

/// `(= (rd C i) v)`.
#[tactic(auto, using(lc_table::proofs::Later::term_is, lc_table::proofs::Later::is_term_later, lc_table::proofs::Later::term_still, lc_table::proofs::Later::is_term_still, lc_table::proofs::Later::keeps_itself, lc_table::proofs::Later::kept_on))]
fn has_value(
    terms: &mut Terms,
    column: ColExprId,
    index: TermId,
    value: TermId,
) -> Result<FormulaId, OutOfMemory>
    requires column { IsColumn terms.old column }
    requires index { IsTerm terms.old index }
    requires value { IsTerm terms.old value }
    ensures id { IfOk result (λ k. HasFormula terms.new k (S.Eq (S.Read (column_in terms.old column) (term_in terms.old index)) (term_in terms.old value))) }
    ensures kept { Keeps terms.old terms.new }
{
    let cell = terms.read(column, index)?;
    terms.eq(cell, value)
}

/// `(= (rd C i) (rd D j))`.
#[tactic(auto, using(lc_table::proofs::Later::term_is, lc_table::proofs::Later::term_later, lc_table::proofs::Later::is_term_later, lc_table::proofs::Later::is_term_still, lc_table::proofs::Later::is_column_still, lc_table::proofs::Later::keeps_itself, lc_table::proofs::Later::kept_on))]
fn agree(
    terms: &mut Terms,
    column: ColExprId,
    index: TermId,
    other_column: ColExprId,
    other_index: TermId,
) -> Result<FormulaId, OutOfMemory>
    requires column { IsColumn terms.old column }
    requires index { IsTerm terms.old index }
    requires other_column { IsColumn terms.old other_column }
    requires other_index { IsTerm terms.old other_index }
    ensures id { IfOk result (λ k. HasFormula terms.new k (S.Eq (S.Read (column_in terms.old column) (term_in terms.old index)) (S.Read (column_in terms.old other_column) (term_in terms.old other_index)))) }
    ensures kept { Keeps terms.old terms.new }
{
    let cell = terms.read(column, index)?;
    let other = terms.read(other_column, other_index)?;
    terms.eq(cell, other)
}

/// `(and (= i j) (= (rd D j) v))`, where `D` is the column afterwards.
#[tactic(auto, using(lc_table::proofs::Later::is_formula_later, lc_table::proofs::Later::is_term_still, lc_table::proofs::Later::is_column_still, lc_table::proofs::Later::keeps_itself, lc_table::proofs::Later::kept_on))]
fn written_there(
    terms: &mut Terms,
    alloc: Global,
    after: ColExprId,
    index: TermId,
    value: TermId,
    other: TermId,
) -> Result<FormulaId, OutOfMemory>
    requires after { IsColumn terms.old after }
    requires index { IsTerm terms.old index }
    requires value { IsTerm terms.old value }
    requires other { IsTerm terms.old other }
    ensures id { IfOk result (λ k. HasFormula terms.new k (S.And (S.formulas (S.Eq (term_in terms.old index) (term_in terms.old other) ∷ S.Eq (S.Read (column_in terms.old after) (term_in terms.old other)) (term_in terms.old value) ∷ [])))) }
    ensures kept { Keeps terms.old terms.new }
{
    let same = terms.eq(index, other)?;
    let changed = has_value(terms, after, other, value)?;
    both(terms, alloc, same, changed)
}

/// `(and (not (= i j)) (= (rd D j) (rd C j)))`, where `D` is the column afterwards.
#[tactic(auto, using(lc_table::proofs::Later::is_formula_later, lc_table::proofs::Later::is_term_still, lc_table::proofs::Later::is_column_still, lc_table::proofs::Later::keeps_itself, lc_table::proofs::Later::kept_on))]
fn kept_elsewhere(
    terms: &mut Terms,
    alloc: Global,
    after: ColExprId,
    column: ColExprId,
    index: TermId,
    other: TermId,
) -> Result<FormulaId, OutOfMemory>
    requires after { IsColumn terms.old after }
    requires column { IsColumn terms.old column }
    requires index { IsTerm terms.old index }
    requires other { IsTerm terms.old other }
    ensures id { IfOk result (λ k. HasFormula terms.new k (S.And (S.formulas (S.Not (S.Eq (term_in terms.old index) (term_in terms.old other)) ∷ S.Eq (S.Read (column_in terms.old after) (term_in terms.old other)) (S.Read (column_in terms.old column) (term_in terms.old other)) ∷ [])))) }
    ensures kept { Keeps terms.old terms.new }
{
    let apart = unequal(terms, index, other)?;
    let kept = agree(terms, after, other, column, other)?;
    both(terms, alloc, apart, kept)
}

/// The axiom of a stored value, of the column afterwards.
#[tactic(auto, using(lc_table::proofs::Later::is_formula_later, lc_table::proofs::Later::is_term_still, lc_table::proofs::Later::is_column_still, lc_table::proofs::Later::keeps_itself, lc_table::proofs::Later::kept_on))]
fn after_writing(
    terms: &mut Terms,
    alloc: Global,
    after: ColExprId,
    column: ColExprId,
    index: TermId,
    value: TermId,
    other: TermId,
) -> Result<FormulaId, OutOfMemory>
    requires after { IsColumn terms.old after }
    requires column { IsColumn terms.old column }
    requires index { IsTerm terms.old index }
    requires value { IsTerm terms.old value }
    requires other { IsTerm terms.old other }
    ensures id { IfOk result (λ k. HasFormula terms.new k (written_to (column_in terms.old after) (column_in terms.old column) (term_in terms.old index) (term_in terms.old value) (term_in terms.old other))) }
    ensures kept { Keeps terms.old terms.new }
{
    let there = written_there(terms, alloc, after, index, value, other)?;
    let elsewhere = kept_elsewhere(terms, alloc, after, column, index, other)?;
    either(terms, alloc, there, elsewhere)
}

/// `(or (and (= i j) (= (rd (store C i v) j) v)) (and (not (= i j)) (= (rd (store C i v) j) (rd C j))))`, where the
/// value `v` is stored in column `C` at the index `i`, and `j` is the other index: the cell at `j` has `v` if `i`
/// and `j` are the same, and else what it had.
#[tactic(auto, using(lc_table::proofs::Later::is_column_later, lc_table::proofs::Later::is_term_still, lc_table::proofs::Later::is_column_still, lc_table::proofs::Later::keeps_itself, lc_table::proofs::Later::kept_on))]
pub fn written_axiom(
    terms: &mut Terms,
    alloc: Global,
    column: ColExprId,
    index: TermId,
    value: TermId,
    other: TermId,
) -> Result<FormulaId, OutOfMemory>
    requires column { IsColumn terms.old column }
    requires index { IsTerm terms.old index }
    requires value { IsTerm terms.old value }
    requires other { IsTerm terms.old other }
    ensures id { IfOk result (λ k. HasFormula terms.new k (written (column_in terms.old column) (term_in terms.old index) (term_in terms.old value) (term_in terms.old other))) }
    ensures kept { Keeps terms.old terms.new }
{
    let after = terms.store(column, index, value)?;
    after_writing(terms, alloc, after, column, index, value, other)
}

/// `(or (not (= i j)) (= (rd C i) (rd C j)))`: at one index a column has one number.
#[tactic(auto, using(lc_table::proofs::Later::is_formula_later, lc_table::proofs::Later::is_term_still, lc_table::proofs::Later::is_column_still, lc_table::proofs::Later::keeps_itself, lc_table::proofs::Later::kept_on))]
pub fn same_index_axiom(
    terms: &mut Terms,
    alloc: Global,
    column: ColExprId,
    index: TermId,
    other: TermId,
) -> Result<FormulaId, OutOfMemory>
    requires column { IsColumn terms.old column }
    requires index { IsTerm terms.old index }
    requires other { IsTerm terms.old other }
    ensures id { IfOk result (λ k. HasFormula terms.new k (same_index (column_in terms.old column) (term_in terms.old index) (term_in terms.old other))) }
    ensures kept { Keeps terms.old terms.new }
{
    let apart = unequal(terms, index, other)?;
    let same = agree(terms, column, index, column, other)?;
    either(terms, alloc, apart, same)
}

/// `(+ (* a i) b)`.
#[tactic(auto, using(lc_table::proofs::Later::term_is, lc_table::proofs::Later::term_later, lc_table::proofs::Later::is_term_later, lc_table::proofs::Later::kept_on))]
fn line(terms: &mut Terms, slope: i64, start: i64, index: TermId) -> Result<TermId, OutOfMemory>
    requires { IsTerm terms.old index }
    ensures id { IfOk result (λ k. HasTerm terms.new k (S.Add (S.Multiply slope (term_in terms.old index)) (S.Number start))) }
    ensures kept { Keeps terms.old terms.new }
{
    let product = terms.multiply(slope, index)?;
    let start = terms.number(start)?;
    terms.add(product, start)
}

/// `(= (rd (affine a b) i) (+ (* a i) b))`, where `a` is the slope and `b` the start.
#[tactic(auto, using(lc_table::proofs::Later::is_column_later, lc_table::proofs::Later::is_term_later, lc_table::proofs::Later::is_term_still, lc_table::proofs::Later::keeps_itself, lc_table::proofs::Later::kept_on))]
pub fn affine_axiom(
    terms: &mut Terms,
    slope: i64,
    start: i64,
    index: TermId,
) -> Result<FormulaId, OutOfMemory>
    requires { IsTerm terms.old index }
    ensures id { IfOk result (λ k. HasFormula terms.new k (affine_cell slope start (term_in terms.old index))) }
    ensures kept { Keeps terms.old terms.new }
{
    let value = line(terms, slope, start, index)?;
    let column = terms.affine(slope, start)?;
    has_value(terms, column, index, value)
}
