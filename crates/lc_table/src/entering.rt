//! Trees entered in a table.
ghost use Rattle.std.specs.Prelude.{◌≡◌, false, IfOk};
ghost use Rattle.lc_term.specs.Chains.{is_store};
ghost use Rattle.lc_term.specs.View.{term_of, column_of, formula_of, formulas_of};
ghost use Rattle.lc_table.specs.Tables.{formulas_in, AreFormulas, HasTerm, HasColumn, HasFormula, Keeps};

use crate::node::{ColExprId, FormulaId, TermId};
use crate::table::Terms;
use lc_base::OutOfMemory;
use lc_term::{ColExpr, Formula, Term, chain_of};
use std::alloc::Global;

impl Terms {
    /// The number of a term.
    #[cycle(enter_term)]
    #[tactic(auto, using(crate::proofs::Later::term_later, crate::proofs::Later::column_later, crate::proofs::Later::term_is, crate::proofs::Later::column_is, crate::proofs::Later::kept_on, crate::proofs::Later::is_term_later, crate::proofs::Later::is_column_later))]
    pub fn enter_term(&mut self, term: &Term) -> Result<TermId, OutOfMemory>
        ensures id { IfOk result (λ k. HasTerm self.new k (term_of term.now)) }
        ensures kept { Keeps self.old self.new }
    {
        match term {
            Term::Number(number) => self.number(*number),
            Term::Variable(number) => self.variable(*number),
            Term::Bound(number) => self.bound(*number),
            Term::Add(left, right) => {
                let left = self.enter_term(left)?;
                let right = self.enter_term(right)?;
                self.add(left, right)
            }
            Term::Subtract(left, right) => {
                let left = self.enter_term(left)?;
                let right = self.enter_term(right)?;
                self.subtract(left, right)
            }
            Term::Multiply(factor, term) => {
                let term = self.enter_term(term)?;
                self.multiply(*factor, term)
            }
            Term::Read(column, index) => {
                let column = self.enter_column(column)?;
                let index = self.enter_term(index)?;
                self.read(column, index)
            }
        }
    }

    /// The number of a column expression.
    #[cycle(enter_term)]
    #[tactic(auto, using(crate::proofs::Later::term_later, crate::proofs::Later::column_later, crate::proofs::Later::term_is, crate::proofs::Later::column_is, crate::proofs::Later::kept_on, crate::proofs::Later::is_term_later, crate::proofs::Later::is_column_later))]
    pub fn enter_column(&mut self, column: &ColExpr) -> Result<ColExprId, OutOfMemory>
        ensures id { IfOk result (λ k. HasColumn self.new k (column_of column.now)) }
        ensures kept { Keeps self.old self.new }
    {
        let mut chain = chain_of(self.allocator(), column)?;
        let mut entered = self.enter_base(chain.base)?;
        'stores: while let Some(store) = chain.stores.pop() {
            let index = self.enter_term(store.index)?;
            let value = self.enter_term(store.value)?;
            entered = self.store(entered, index, value)?;
        }
        Ok(entered)
    }

    // The number of a column expression that is no store.
    fn enter_base(&mut self, base: &ColExpr) -> Result<ColExprId, OutOfMemory>
        requires { is_store (column_of base.now) ≡ false }
        ensures id { IfOk result (λ k. HasColumn self.new k (column_of base.now)) }
        ensures kept { Keeps self.old self.new }
    {
        match base {
            ColExpr::Base(column) => self.base(*column),
            ColExpr::Affine(slope, start) => self.affine(*slope, *start),
            ColExpr::Store(..) => unreachable!(),
        }
    }

    /// The number of a formula.
    #[cycle(enter_formula)]
    #[tactic(auto, using(crate::proofs::Later::term_later, crate::proofs::Later::term_is, crate::proofs::Later::is_term_later, crate::proofs::Later::formula_later, crate::proofs::Later::formula_is, crate::proofs::Later::is_formula_later, crate::proofs::Later::kept_on))]
    pub fn enter_formula(
        &mut self,
        alloc: Global,
        formula: &Formula,
    ) -> Result<FormulaId, OutOfMemory>
        ensures id { IfOk result (λ k. HasFormula self.new k (formula_of formula.now)) }
        ensures kept { Keeps self.old self.new }
    {
        if let Some(number) = self.expected_atom(formula) {
            self.note_entered(number);
            return Ok(number);
        }
        match formula {
            Formula::Le(left, right) => {
                let left = self.enter_term(left)?;
                let right = self.enter_term(right)?;
                self.le(left, right)
            }
            Formula::Eq(left, right) => {
                let left = self.enter_term(left)?;
                let right = self.enter_term(right)?;
                self.eq(left, right)
            }
            Formula::Not(formula) => {
                let formula = self.enter_formula(alloc, formula)?;
                self.not(formula)
            }
            Formula::And(parts) => {
                let parts = self.enter_formulas(alloc, parts)?;
                self.and(parts)
            }
            Formula::Or(parts) => {
                let parts = self.enter_formulas(alloc, parts)?;
                self.or(parts)
            }
            Formula::Implies(left, right) => {
                let left = self.enter_formula(alloc, left)?;
                let right = self.enter_formula(alloc, right)?;
                self.implies(left, right)
            }
            Formula::Forall(body) => {
                let body = self.enter_formula(alloc, body)?;
                self.forall(body)
            }
            Formula::Exists(body) => {
                let body = self.enter_formula(alloc, body)?;
                self.exists(body)
            }
        }
    }

    /// The numbers of formulas.
    #[cycle(enter_formula)]
    #[tactic(auto, using(crate::proofs::Later::formulas_pushed, crate::proofs::Later::are_formulas_pushed, crate::proofs::Later::kept_on, crate::proofs::Later::keeps_itself))]
    pub fn enter_formulas(
        &mut self,
        alloc: Global,
        parts: &[Formula],
    ) -> Result<Vec<FormulaId>, OutOfMemory>
        ensures are { IfOk result (λ ks. AreFormulas self.new ks.items) }
        ensures trees { IfOk result (λ ks. formulas_in self.new ks.items ≡ formulas_of parts.now) }
        ensures kept { Keeps self.old self.new }
    {
        self.reserve_formulas(parts.len())?;
        let mut entered = Vec::with_capacity(alloc, parts.len())?;
        for part in parts {
            entered.push(self.enter_formula(alloc, part)?)?;
        }
        Ok(entered)
    }
}
