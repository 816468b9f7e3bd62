//! Nodes made of those that a table has. Each call returns the number of what is made.

use super::Nodes;
use lc_base::ColId;
use lc_farkas::Stop;
use lc_table::{ColExprId, FormulaId, FormulaNode, TermId, TermNode};

impl Nodes {
    /// The term that is a whole number.
    pub fn number(&mut self, number: i64) -> Result<TermId, Stop> {
        Ok(TermId(self.enter_part(TermNode::Number(number))?))
    }

    /// The term that is a free variable.
    pub fn variable(&mut self, number: u32) -> Result<TermId, Stop> {
        Ok(TermId(self.enter_part(TermNode::Variable(number))?))
    }

    /// The term that is a bound variable, counted from the innermost quantifier.
    pub fn bound(&mut self, number: u32) -> Result<TermId, Stop> {
        Ok(TermId(self.enter_part(TermNode::Bound(number))?))
    }

    /// The sum of two terms.
    pub fn add(&mut self, left: TermId, right: TermId) -> Result<TermId, Stop> {
        Ok(TermId(self.enter_part(TermNode::Add(left, right))?))
    }

    /// The first term less the second.
    pub fn subtract(&mut self, left: TermId, right: TermId) -> Result<TermId, Stop> {
        Ok(TermId(self.enter_part(TermNode::Subtract(left, right))?))
    }

    /// The term times `factor`.
    pub fn multiply(&mut self, factor: i64, term: TermId) -> Result<TermId, Stop> {
        Ok(TermId(self.enter_part(TermNode::Multiply(factor, term))?))
    }

    /// What a column expression has at an index.
    pub fn read(&mut self, column: ColExprId, index: TermId) -> Result<TermId, Stop> {
        Ok(TermId(self.enter_part(TermNode::Read(column, index))?))
    }

    /// The column expression that is a column.
    pub fn base(&mut self, column: ColId) -> Result<ColExprId, Stop> {
        Ok(ColExprId(self.enter_part(TermNode::Base(column))?))
    }

    /// The column expression with a value stored at an index.
    pub fn store(
        &mut self,
        column: ColExprId,
        index: TermId,
        value: TermId,
    ) -> Result<ColExprId, Stop> {
        Ok(ColExprId(self.enter_part(TermNode::Store(column, index, value))?))
    }

    /// The column expression whose cell i has `slope` times i, and `start`.
    pub fn affine(&mut self, slope: i64, start: i64) -> Result<ColExprId, Stop> {
        Ok(ColExprId(self.enter_part(TermNode::Affine(slope, start))?))
    }

    /// The first term is at most the second.
    pub fn le(&mut self, left: TermId, right: TermId) -> Result<FormulaId, Stop> {
        self.enter_node(FormulaNode::Le(left, right))
    }

    /// The terms are equal.
    pub fn eq(&mut self, left: TermId, right: TermId) -> Result<FormulaId, Stop> {
        self.enter_node(FormulaNode::Eq(left, right))
    }

    /// The formula does not hold.
    pub fn not(&mut self, formula: FormulaId) -> Result<FormulaId, Stop> {
        self.enter_node(FormulaNode::Not(formula))
    }

    /// Each of the formulas holds.
    pub fn and(&mut self, parts: Vec<FormulaId>) -> Result<FormulaId, Stop> {
        self.enter_node(FormulaNode::And(parts))
    }

    /// One of the formulas holds.
    pub fn or(&mut self, parts: Vec<FormulaId>) -> Result<FormulaId, Stop> {
        self.enter_node(FormulaNode::Or(parts))
    }

    /// If the first formula holds, so does the second.
    pub fn implies(&mut self, left: FormulaId, right: FormulaId) -> Result<FormulaId, Stop> {
        self.enter_node(FormulaNode::Implies(left, right))
    }

    /// The formula holds of each whole number.
    pub fn forall(&mut self, body: FormulaId) -> Result<FormulaId, Stop> {
        self.enter_node(FormulaNode::Forall(body))
    }

    /// The formula holds of some whole number.
    pub fn exists(&mut self, body: FormulaId) -> Result<FormulaId, Stop> {
        self.enter_node(FormulaNode::Exists(body))
    }

    /// Two formulas, one after the other.
    pub(super) fn pair(&self, first: FormulaId, second: FormulaId) -> Result<Vec<FormulaId>, Stop> {
        Ok(Vec::from_array(self.alloc, [first, second])?)
    }

    /// `(not F)` of each formula.
    pub(super) fn not_each(&mut self, formulas: &[FormulaId]) -> Result<Vec<FormulaId>, Stop> {
        let mut negated = Vec::with_capacity(self.alloc, formulas.len())?;
        for formula in formulas {
            negated.push(self.not(*formula)?)?;
        }
        Ok(negated)
    }

    /// `(<= (+ t 1) u)`.
    pub fn less(&mut self, left: TermId, right: TermId) -> Result<FormulaId, Stop> {
        let one = self.number(1)?;
        let next = self.add(left, one)?;
        self.le(next, right)
    }
}
