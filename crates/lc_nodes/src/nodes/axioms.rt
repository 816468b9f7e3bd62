//! The axioms of columns, as lc_array has them.

use super::Nodes;
use lc_farkas::Stop;
use lc_table::{ColExprId, FormulaId, TermId};

impl Nodes {
    /// `(= (rd C i) v)`.
    fn has_value(
        &mut self,
        column: ColExprId,
        index: TermId,
        value: TermId,
    ) -> Result<FormulaId, Stop> {
        let cell = self.read(column, index)?;
        self.eq(cell, value)
    }

    /// `(= (rd C i) (rd D j))`.
    fn agree(
        &mut self,
        column: ColExprId,
        index: TermId,
        other_column: ColExprId,
        other_index: TermId,
    ) -> Result<FormulaId, Stop> {
        let cell = self.read(column, index)?;
        let other = self.read(other_column, other_index)?;
        self.eq(cell, other)
    }

    /// `(and F G)`.
    fn both(&mut self, first: FormulaId, second: FormulaId) -> Result<FormulaId, Stop> {
        let parts = self.pair(first, second)?;
        self.and(parts)
    }

    /// `(or F G)`.
    fn either(&mut self, first: FormulaId, second: FormulaId) -> Result<FormulaId, Stop> {
        let parts = self.pair(first, second)?;
        self.or(parts)
    }

    /// `(not (= i j))`.
    fn unequal(&mut self, left: TermId, right: TermId) -> Result<FormulaId, Stop> {
        let equal = self.eq(left, right)?;
        self.not(equal)
    }

    /// The axiom of a stored value: the cell at `other` of the column after the store has the value if `index` and `other` are
    /// the same, and else what the column had.
    pub fn written_axiom(
        &mut self,
        column: ColExprId,
        index: TermId,
        value: TermId,
        other: TermId,
    ) -> Result<FormulaId, Stop> {
        let after = self.store(column, index, value)?;
        let same = self.eq(index, other)?;
        let changed = self.has_value(after, other, value)?;
        let there = self.both(same, changed)?;
        let apart = self.unequal(index, other)?;
        let kept = self.agree(after, other, column, other)?;
        let elsewhere = self.both(apart, kept)?;
        self.either(there, elsewhere)
    }

    /// `(or (not (= i j)) (= (rd C i) (rd C j)))`.
    pub fn same_axiom(
        &mut self,
        column: ColExprId,
        index: TermId,
        other: TermId,
    ) -> Result<FormulaId, Stop> {
        let apart = self.unequal(index, other)?;
        let same = self.agree(column, index, column, other)?;
        self.either(apart, same)
    }

    /// `(= (rd (affine a b) i) (+ (* a i) b))`.
    pub fn affine_axiom(
        &mut self,
        slope: i64,
        start: i64,
        index: TermId,
    ) -> Result<FormulaId, Stop> {
        let product = self.multiply(slope, index)?;
        let number = self.number(start)?;
        let value = self.add(product, number)?;
        let column = self.affine(slope, start)?;
        self.has_value(column, index, value)
    }
}
