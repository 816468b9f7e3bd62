//! Terms, column expressions and formulas made of those that a table has. Each call returns the number of what is made.
ghost use Rattle.std.specs.Prelude.{IfOk};
ghost use Rattle.lc_term.specs.Syntax as S;
ghost use Rattle.lc_table.specs.Tables.{term_in, column_in, formula_in, formulas_in, IsTerm, IsColumn, IsFormula, AreFormulas, HasTerm, HasColumn, HasFormula, Keeps};

use crate::node::{ColExprId, FormulaId, FormulaNode, TermId, TermNode};
use crate::table::Terms;
use lc_base::{ColId, OutOfMemory};

impl Terms {
    /// The term that is a whole number.
    pub fn number(&mut self, number: i64) -> Result<TermId, OutOfMemory>
        ensures id { IfOk result (λ k. HasTerm self.new k (S.Number number)) }
        ensures kept { Keeps self.old self.new }
    {
        let place = (number.unsigned_abs() % 4) as usize;
        Ok(TermId(self.enter_leaf(TermNode::Number(number), place)?))
    }

    /// The term that is a free variable.
    pub fn variable(&mut self, number: u32) -> Result<TermId, OutOfMemory>
        ensures id { IfOk result (λ k. HasTerm self.new k (S.Variable number)) }
        ensures kept { Keeps self.old self.new }
    {
        let place = (4 + number % 4) as usize;
        Ok(TermId(self.enter_leaf(TermNode::Variable(number), place)?))
    }

    /// The term that is a bound variable, counted from the innermost quantifier.
    pub fn bound(&mut self, number: u32) -> Result<TermId, OutOfMemory>
        ensures id { IfOk result (λ k. HasTerm self.new k (S.Bound number)) }
        ensures kept { Keeps self.old self.new }
    {
        let place = (4 + number % 4) as usize;
        Ok(TermId(self.enter_leaf(TermNode::Bound(number), place)?))
    }

    /// The sum of two terms.
    pub fn add(&mut self, left: TermId, right: TermId) -> Result<TermId, OutOfMemory>
        requires left { IsTerm self.old left }
        requires right { IsTerm self.old right }
        ensures id { IfOk result (λ k. HasTerm self.new k (S.Add (term_in self.old left) (term_in self.old right))) }
        ensures kept { Keeps self.old self.new }
    {
        Ok(TermId(self.enter_part(TermNode::Add(left, right))?))
    }

    /// The first term less the second.
    pub fn subtract(&mut self, left: TermId, right: TermId) -> Result<TermId, OutOfMemory>
        requires left { IsTerm self.old left }
        requires right { IsTerm self.old right }
        ensures id { IfOk result (λ k. HasTerm self.new k (S.Subtract (term_in self.old left) (term_in self.old right))) }
        ensures kept { Keeps self.old self.new }
    {
        Ok(TermId(self.enter_part(TermNode::Subtract(left, right))?))
    }

    /// The term times `factor`.
    pub fn multiply(&mut self, factor: i64, term: TermId) -> Result<TermId, OutOfMemory>
        requires { IsTerm self.old term }
        ensures id { IfOk result (λ k. HasTerm self.new k (S.Multiply factor (term_in self.old term))) }
        ensures kept { Keeps self.old self.new }
    {
        Ok(TermId(self.enter_part(TermNode::Multiply(factor, term))?))
    }

    /// What a column expression has at an index.
    pub fn read(&mut self, column: ColExprId, index: TermId) -> Result<TermId, OutOfMemory>
        requires column { IsColumn self.old column }
        requires index { IsTerm self.old index }
        ensures id { IfOk result (λ k. HasTerm self.new k (S.Read (column_in self.old column) (term_in self.old index))) }
        ensures kept { Keeps self.old self.new }
    {
        Ok(TermId(self.enter_part(TermNode::Read(column, index))?))
    }

    /// The column expression that is a column.
    pub fn base(&mut self, column: ColId) -> Result<ColExprId, OutOfMemory>
        ensures id { IfOk result (λ k. HasColumn self.new k (S.Base column.0)) }
        ensures kept { Keeps self.old self.new }
    {
        Ok(ColExprId(self.enter_part(TermNode::Base(column))?))
    }

    /// The column expression with a value stored at an index.
    pub fn store(
        &mut self,
        column: ColExprId,
        index: TermId,
        value: TermId,
    ) -> Result<ColExprId, OutOfMemory>
        requires column { IsColumn self.old column }
        requires index { IsTerm self.old index }
        requires value { IsTerm self.old value }
        ensures id { IfOk result (λ k. HasColumn self.new k (S.Store (column_in self.old column) (term_in self.old index) (term_in self.old value))) }
        ensures kept { Keeps self.old self.new }
    {
        Ok(ColExprId(self.enter_store(TermNode::Store(column, index, value))?))
    }

    /// The column expression whose cell i has `slope` times i, and `start`.
    pub fn affine(&mut self, slope: i64, start: i64) -> Result<ColExprId, OutOfMemory>
        ensures id { IfOk result (λ k. HasColumn self.new k (S.Affine slope start)) }
        ensures kept { Keeps self.old self.new }
    {
        Ok(ColExprId(self.enter_part(TermNode::Affine(slope, start))?))
    }

    /// The first term is at most the second.
    pub fn le(&mut self, left: TermId, right: TermId) -> Result<FormulaId, OutOfMemory>
        requires left { IsTerm self.old left }
        requires right { IsTerm self.old right }
        ensures id { IfOk result (λ k. HasFormula self.new k (S.Le (term_in self.old left) (term_in self.old right))) }
        ensures kept { Keeps self.old self.new }
    {
        Ok(FormulaId(self.enter_node(FormulaNode::Le(left, right))?))
    }

    /// The terms are equal.
    pub fn eq(&mut self, left: TermId, right: TermId) -> Result<FormulaId, OutOfMemory>
        requires left { IsTerm self.old left }
        requires right { IsTerm self.old right }
        ensures id { IfOk result (λ k. HasFormula self.new k (S.Eq (term_in self.old left) (term_in self.old right))) }
        ensures kept { Keeps self.old self.new }
    {
        Ok(FormulaId(self.enter_node(FormulaNode::Eq(left, right))?))
    }

    /// The formula does not hold.
    pub fn not(&mut self, formula: FormulaId) -> Result<FormulaId, OutOfMemory>
        requires { IsFormula self.old formula }
        ensures id { IfOk result (λ k. HasFormula self.new k (S.Not (formula_in self.old formula))) }
        ensures kept { Keeps self.old self.new }
    {
        Ok(FormulaId(self.enter_node(FormulaNode::Not(formula))?))
    }

    /// Each of the formulas holds.
    pub fn and(&mut self, parts: Vec<FormulaId>) -> Result<FormulaId, OutOfMemory>
        requires { AreFormulas self.old parts.items }
        ensures id { IfOk result (λ k. HasFormula self.new k (S.And (S.formulas (formulas_in self.old parts.items)))) }
        ensures kept { Keeps self.old self.new }
    {
        Ok(FormulaId(self.enter_node(FormulaNode::And(parts))?))
    }

    /// One of the formulas holds.
    pub fn or(&mut self, parts: Vec<FormulaId>) -> Result<FormulaId, OutOfMemory>
        requires { AreFormulas self.old parts.items }
        ensures id { IfOk result (λ k. HasFormula self.new k (S.Or (S.formulas (formulas_in self.old parts.items)))) }
        ensures kept { Keeps self.old self.new }
    {
        Ok(FormulaId(self.enter_node(FormulaNode::Or(parts))?))
    }

    /// If the first formula holds, so does the second.
    pub fn implies(&mut self, left: FormulaId, right: FormulaId) -> Result<FormulaId, OutOfMemory>
        requires left { IsFormula self.old left }
        requires right { IsFormula self.old right }
        ensures id { IfOk result (λ k. HasFormula self.new k (S.Implies (formula_in self.old left) (formula_in self.old right))) }
        ensures kept { Keeps self.old self.new }
    {
        Ok(FormulaId(self.enter_node(FormulaNode::Implies(left, right))?))
    }

    /// The formula holds of each whole number, which is the value of its innermost bound variable.
    pub fn forall(&mut self, body: FormulaId) -> Result<FormulaId, OutOfMemory>
        requires { IsFormula self.old body }
        ensures id { IfOk result (λ k. HasFormula self.new k (S.Forall (formula_in self.old body))) }
        ensures kept { Keeps self.old self.new }
    {
        Ok(FormulaId(self.enter_node(FormulaNode::Forall(body))?))
    }

    /// The formula holds of some whole number, which is the value of its innermost bound variable.
    pub fn exists(&mut self, body: FormulaId) -> Result<FormulaId, OutOfMemory>
        requires { IsFormula self.old body }
        ensures id { IfOk result (λ k. HasFormula self.new k (S.Exists (formula_in self.old body))) }
        ensures kept { Keeps self.old self.new }
    {
        Ok(FormulaId(self.enter_node(FormulaNode::Exists(body))?))
    }
}
