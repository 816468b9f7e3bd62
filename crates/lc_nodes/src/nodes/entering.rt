//! Trees entered in a table.
ghost use Rattle.std.specs.Prelude.{◌≡◌, false};
ghost use Rattle.lc_term.specs.Chains.{is_store};
ghost use Rattle.lc_term.specs.View.{column_of};

use super::Nodes;
use lc_farkas::Stop;
use lc_table::{ColExprId, FormulaId, FormulaNode, TermId, TermNode};
use lc_term::{ColExpr, Formula, Term, chain_of};

impl Nodes {
    /// The number of a term.
    #[cycle(enter_term)]
    pub fn enter_term(&mut self, term: &Term) -> Result<TermId, Stop> {
        let node = match term {
            Term::Number(number) => TermNode::Number(*number),
            Term::Variable(number) => TermNode::Variable(*number),
            Term::Bound(number) => TermNode::Bound(*number),
            Term::Add(left, right) => {
                TermNode::Add(self.enter_term(left)?, self.enter_term(right)?)
            }
            Term::Subtract(left, right) => {
                TermNode::Subtract(self.enter_term(left)?, self.enter_term(right)?)
            }
            Term::Multiply(factor, term) => TermNode::Multiply(*factor, self.enter_term(term)?),
            Term::Read(column, index) => {
                TermNode::Read(self.enter_column(column)?, self.enter_term(index)?)
            }
        };
        Ok(TermId(self.enter_part(node)?))
    }

    /// The number of a column expression.
    #[cycle(enter_term)]
    pub fn enter_column(&mut self, column: &ColExpr) -> Result<ColExprId, Stop> {
        let mut chain = chain_of(self.alloc, column)?;
        let mut entered = self.enter_base(chain.base)?;
        'stores: while let Some(store) = chain.stores.pop() {
            let index = self.enter_term(store.index)?;
            let value = self.enter_term(store.value)?;
            entered = self.store(entered, index, value)?;
        }
        Ok(entered)
    }

    /// The number of a column expression that is no store.
    fn enter_base(&mut self, base: &ColExpr) -> Result<ColExprId, Stop>
        requires { is_store (column_of base.now) ≡ false }
    {
        match base {
            ColExpr::Base(column) => self.base(*column),
            ColExpr::Affine(slope, start) => self.affine(*slope, *start),
            ColExpr::Store(..) => unreachable!(),
        }
    }

    /// The number of a formula.
    #[cycle(enter_formula)]
    pub fn enter_formula(&mut self, formula: &Formula) -> Result<FormulaId, Stop> {
        let node = match formula {
            Formula::Le(left, right) => {
                FormulaNode::Le(self.enter_term(left)?, self.enter_term(right)?)
            }
            Formula::Eq(left, right) => {
                FormulaNode::Eq(self.enter_term(left)?, self.enter_term(right)?)
            }
            Formula::Not(formula) => FormulaNode::Not(self.enter_formula(formula)?),
            Formula::And(parts) => FormulaNode::And(self.enter_formulas(parts)?),
            Formula::Or(parts) => FormulaNode::Or(self.enter_formulas(parts)?),
            Formula::Implies(left, right) => {
                FormulaNode::Implies(self.enter_formula(left)?, self.enter_formula(right)?)
            }
            Formula::Forall(body) => FormulaNode::Forall(self.enter_formula(body)?),
            Formula::Exists(body) => FormulaNode::Exists(self.enter_formula(body)?),
        };
        self.enter_node(node)
    }

    /// The numbers of formulas.
    #[cycle(enter_formula)]
    fn enter_formulas(&mut self, parts: &[Formula]) -> Result<Vec<FormulaId>, Stop> {
        let mut entered = Vec::with_capacity(self.alloc, parts.len())?;
        for part in parts {
            entered.push(self.enter_formula(part)?)?;
        }
        Ok(entered)
    }
}
