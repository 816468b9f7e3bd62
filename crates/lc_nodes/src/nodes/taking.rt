//! Terms and formulas of a table, taken over node by node. What is shared there is taken once; a term waits in a list for its
//! parts, so that a deep one takes nothing of the stack.
ghost use Rattle.std.specs.Prelude.{IfSome};
ghost use Rattle.lc_nodes.specs.Due.{IsDue};
ghost use Rattle.lc_table.specs.Tables.{IsTerm, IsColumn, IsFormula, AreFormulas};

use super::Nodes;
use indexmap::IndexMap;
use lc_farkas::Stop;
use lc_table::{ColExprId, FormulaId, FormulaNode, TermId, TermNode, Terms};
use std::alloc::Global;

/// What is taken already of a table: its terms and column expressions by their numbers there, each with its number here.
#[derive(Drop)]
pub struct Taken {
    parts: IndexMap<u32, u32>,
}

impl Taken {
    /// Nothing is taken yet.
    pub fn new(alloc: Global) -> Taken {
        Taken {
            parts: IndexMap::new(alloc),
        }
    }

    fn term(&self, term: TermId) -> Result<TermId, Stop> {
        match self.parts.get(&term.0) {
            Some(number) => Ok(TermId(*number)),
            None => Err(Stop::Spent),
        }
    }

    fn column(&self, column: ColExprId) -> Result<ColExprId, Stop> {
        match self.parts.get(&column.0) {
            Some(number) => Ok(ColExprId(*number)),
            None => Err(Stop::Spent),
        }
    }
}

/// A term or a column expression that is still to be taken.
#[derive(Clone, Copy)]
enum Due {
    Term(TermId),
    Column(ColExprId),
}

impl Due {
    fn number(self) -> u32 {
        match self {
            Due::Term(term) => term.0,
            Due::Column(column) => column.0,
        }
    }
}

/// The first of two that is not taken.
fn first_due(terms: &Terms, taken: &Taken, first: Due, second: Due) -> Option<Due>
    requires first { IsDue terms.now first }
    requires second { IsDue terms.now second }
    ensures { IfSome result (IsDue terms.now) }
{
    let _ = terms;
    if !taken.parts.contains_key(&first.number()) {
        Some(first)
    } else if !taken.parts.contains_key(&second.number()) {
        Some(second)
    } else {
        None
    }
}

/// The first part of a term that is not taken.
fn part_of_term(terms: &Terms, taken: &Taken, term: TermId) -> Option<Due>
    requires { IsTerm terms.now term }
    ensures { IfSome result (IsDue terms.now) }
{
    match terms.term_node(term) {
        TermNode::Add(left, right) | TermNode::Subtract(left, right) => {
            first_due(terms, taken, Due::Term(left), Due::Term(right))
        }
        TermNode::Multiply(_, term) => first_due(terms, taken, Due::Term(term), Due::Term(term)),
        TermNode::Read(column, index) => {
            first_due(terms, taken, Due::Column(column), Due::Term(index))
        }
        _ => None,
    }
}

/// The first part of a column expression that is not taken.
fn part_of_column(terms: &Terms, taken: &Taken, column: ColExprId) -> Option<Due>
    requires { IsColumn terms.now column }
    ensures { IfSome result (IsDue terms.now) }
{
    match terms.column_node(column) {
        TermNode::Store(below, index, value) => {
            match first_due(terms, taken, Due::Column(below), Due::Term(index)) {
                Some(due) => Some(due),
                None => first_due(terms, taken, Due::Term(index), Due::Term(value)),
            }
        }
        _ => None,
    }
}

/// The first part that is not taken.
fn part_due(terms: &Terms, taken: &Taken, due: Due) -> Option<Due>
    requires { IsDue terms.now due }
    ensures { IfSome result (IsDue terms.now) }
{
    match due {
        Due::Term(term) => part_of_term(terms, taken, term),
        Due::Column(column) => part_of_column(terms, taken, column),
    }
}

impl Nodes {
    /// A term whose parts are taken.
    fn take_term_node(&mut self, terms: &Terms, taken: &Taken, term: TermId) -> Result<TermId, Stop>
        requires { IsTerm terms.now term }
    {
        match terms.term_node(term) {
            TermNode::Number(number) => self.number(number),
            TermNode::Variable(number) => self.variable(number),
            TermNode::Bound(number) => self.bound(number),
            TermNode::Add(left, right) => self.add(taken.term(left)?, taken.term(right)?),
            TermNode::Subtract(left, right) => self.subtract(taken.term(left)?, taken.term(right)?),
            TermNode::Multiply(factor, term) => self.multiply(factor, taken.term(term)?),
            TermNode::Read(column, index) => self.read(taken.column(column)?, taken.term(index)?),
            TermNode::Base(_) | TermNode::Store(_, _, _) | TermNode::Affine(_, _) => unreachable!(),
        }
    }

    /// A column expression whose parts are taken.
    fn take_column_node(
        &mut self,
        terms: &Terms,
        taken: &Taken,
        column: ColExprId,
    ) -> Result<ColExprId, Stop>
        requires { IsColumn terms.now column }
    {
        match terms.column_node(column) {
            TermNode::Base(column) => self.base(column),
            TermNode::Affine(slope, start) => self.affine(slope, start),
            TermNode::Store(below, index, value) => {
                self.store(taken.column(below)?, taken.term(index)?, taken.term(value)?)
            }
            _ => unreachable!(),
        }
    }

    /// A term or a column expression whose parts are taken.
    fn take_node(&mut self, terms: &Terms, taken: &mut Taken, due: Due) -> Result<(), Stop>
        requires { IsDue terms.now due }
    {
        let number = match due {
            Due::Term(term) => self.take_term_node(terms, taken, term)?.0,
            Due::Column(column) => self.take_column_node(terms, taken, column)?.0,
        };
        taken.parts.insert(due.number(), number)?;
        Ok(())
    }

    /// Takes a term, its parts first, in their order.
    fn take_term(&mut self, terms: &Terms, taken: &mut Taken, term: TermId) -> Result<TermId, Stop>
        requires { IsTerm terms.now term }
    {
        let mut waiting = Vec::new(self.alloc);
        let mut due = Due::Term(term);
        for _ in 0..u64::MAX {
            match part_due(terms, taken, due) {
                Some(part) => {
                    waiting.push(due)?;
                    due = part;
                }
                None => {
                    self.take_node(terms, taken, due)?;
                    match waiting.pop() {
                        Some(above) => due = above,
                        None => break,
                    }
                }
            }
        }
        taken.term(term)
    }

    /// Takes a formula.
    #[cycle(take_formula)]
    pub fn take_formula(
        &mut self,
        terms: &Terms,
        taken: &mut Taken,
        formula: FormulaId,
    ) -> Result<FormulaId, Stop>
        requires { IsFormula terms.now formula }
    {
        match terms.formula_node(formula) {
            FormulaNode::Le(left, right) => {
                let left = self.take_term(terms, taken, *left)?;
                let right = self.take_term(terms, taken, *right)?;
                self.le(left, right)
            }
            FormulaNode::Eq(left, right) => {
                let left = self.take_term(terms, taken, *left)?;
                let right = self.take_term(terms, taken, *right)?;
                self.eq(left, right)
            }
            FormulaNode::Not(formula) => {
                let formula = self.take_formula(terms, taken, *formula)?;
                self.not(formula)
            }
            FormulaNode::And(parts) => {
                let parts = self.take_formulas(terms, taken, parts)?;
                self.and(parts)
            }
            FormulaNode::Or(parts) => {
                let parts = self.take_formulas(terms, taken, parts)?;
                self.or(parts)
            }
            FormulaNode::Implies(left, right) => {
                let left = self.take_formula(terms, taken, *left)?;
                let right = self.take_formula(terms, taken, *right)?;
                self.implies(left, right)
            }
            FormulaNode::Forall(body) => {
                let body = self.take_formula(terms, taken, *body)?;
                self.forall(body)
            }
            FormulaNode::Exists(body) => {
                let body = self.take_formula(terms, taken, *body)?;
                self.exists(body)
            }
        }
    }

    /// Takes formulas.
    #[cycle(take_formula)]
    fn take_formulas(
        &mut self,
        terms: &Terms,
        taken: &mut Taken,
        formulas: &[FormulaId],
    ) -> Result<Vec<FormulaId>, Stop>
        requires { AreFormulas terms.now formulas.now }
    {
        let mut numbers = Vec::with_capacity(self.alloc, formulas.len())?;
        for formula in formulas {
            numbers.push(self.take_formula(terms, taken, *formula)?)?;
        }
        Ok(numbers)
    }
}
