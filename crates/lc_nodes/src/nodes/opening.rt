//! Instances of quantified formulas.

use super::Nodes;
use lc_farkas::Stop;
use lc_table::{ColExprId, FormulaId, FormulaNode, TermId, TermNode};
use std::alloc::Global;

/// What a formula is made by, and of how many parts.
#[derive(Clone, Copy)]
enum Connective {
    Le,
    Eq,
    Not,
    And(usize),
    Or(usize),
    Implies,
    Forall,
    Exists,
}

/// What a term is made by.
#[derive(Clone, Copy)]
enum Operator {
    Add,
    Subtract,
    Multiply(i64),
    Read,
}

/// What is still to be opened, or to be made of parts that were opened.
#[derive(Clone, Copy)]
enum Due {
    Formula(FormulaId),
    Term(TermId),
    FormulaBy(Connective),
    TermBy(Operator),
    Store,
}

/// A closed term is put in for the variable of a quantifier. What is still to be opened waits in a list, the next one last, and so
/// does what was opened, so that a deep formula takes nothing of the stack.
struct Opening {
    alloc: Global,
    term: TermId,
    /// How many quantifiers are around what is opened.
    depth: u32,
    due: Vec<Due>,
    terms: Vec<TermId>,
    columns: Vec<ColExprId>,
    formulas: Vec<FormulaId>,
}

impl Drop for Opening {
    fn drop(self) {
        let Opening {
            alloc: _,
            term: _,
            depth: _,
            due: _,
            terms: _,
            columns: _,
            formulas: _,
        } = self;
    }
}

impl Opening {
    fn new(alloc: Global, term: TermId) -> Opening {
        Opening {
            alloc,
            term,
            depth: 0,
            due: Vec::new(alloc),
            terms: Vec::new(alloc),
            columns: Vec::new(alloc),
            formulas: Vec::new(alloc),
        }
    }

    /// Puts off two terms, and then what is made of them.
    fn await_terms(&mut self, whole: Due, left: TermId, right: TermId) -> Result<(), Stop> {
        self.due.push(whole)?;
        self.due.push(Due::Term(right))?;
        self.due.push(Due::Term(left))?;
        Ok(())
    }

    /// Puts off formulas, and then what is made of them.
    fn await_parts(&mut self, whole: Connective, parts: &[FormulaId]) -> Result<(), Stop> {
        self.due.push(Due::FormulaBy(whole))?;
        for part in parts.iter().rev() {
            self.due.push(Due::Formula(*part))?;
        }
        Ok(())
    }

    /// Puts off the body of a quantifier.
    fn await_body(&mut self, whole: Connective, body: FormulaId) -> Result<(), Stop> {
        self.depth = self.depth.saturating_add(1);
        self.await_parts(whole, &[body])
    }

    /// The last term that was opened.
    fn term(&mut self) -> Result<TermId, Stop> {
        self.terms.pop().ok_or(Stop::Spent)
    }

    /// The last two terms that were opened.
    fn two_terms(&mut self) -> Result<(TermId, TermId), Stop> {
        let right = self.term()?;
        Ok((self.term()?, right))
    }

    /// The last column expression that was opened.
    fn column(&mut self) -> Result<ColExprId, Stop> {
        self.columns.pop().ok_or(Stop::Spent)
    }

    /// The last formula that was opened.
    fn formula(&mut self) -> Result<FormulaId, Stop> {
        self.formulas.pop().ok_or(Stop::Spent)
    }

    /// The last `count` formulas that were opened.
    fn parts(&mut self, count: usize) -> Result<Vec<FormulaId>, Stop> {
        let first = self.formulas.len().saturating_sub(count);
        let mut parts = Vec::with_capacity(self.alloc, count)?;
        for part in self.formulas.iter().skip(first) {
            parts.push(*part)?;
        }
        self.formulas.truncate(first);
        Ok(parts)
    }

    /// The body of a quantifier, which was opened last.
    fn body(&mut self) -> Result<FormulaId, Stop> {
        self.depth = self.depth.saturating_sub(1);
        self.formula()
    }
}

impl Nodes {
    /// The body of a quantifier, with a term for its variable in which no bound variable is loose.
    pub fn instantiate(&mut self, body: FormulaId, term: TermId) -> Result<FormulaId, Stop> {
        let mut opening = Opening::new(self.alloc, term);
        self.open_formula(body, &mut opening)?;
        for _ in 0..u64::MAX {
            match opening.due.pop() {
                Some(due) => self.open(due, &mut opening)?,
                None => return opening.formula(),
            }
        }
        Err(Stop::Spent)
    }

    /// Opens the next node, or makes it of its parts.
    fn open(&mut self, due: Due, opening: &mut Opening) -> Result<(), Stop> {
        match due {
            Due::Formula(formula) => self.open_formula(formula, opening),
            Due::Term(term) => self.open_term(term, opening),
            Due::FormulaBy(connective) => {
                let formula = self.formula_by(connective, opening)?;
                opening.formulas.push(formula)?;
                Ok(())
            }
            Due::TermBy(operator) => {
                let term = self.term_by(operator, opening)?;
                opening.terms.push(term)?;
                Ok(())
            }
            Due::Store => {
                let (index, value) = opening.two_terms()?;
                let column = self.store(opening.column()?, index, value)?;
                opening.columns.push(column)?;
                Ok(())
            }
        }
    }

    /// Puts the term into a formula: puts off its parts. One in which the variable does not occur keeps its number.
    fn open_formula(&self, formula: FormulaId, opening: &mut Opening) -> Result<(), Stop> {
        if self.formula_loose(formula) <= opening.depth {
            opening.formulas.push(formula)?;
            return Ok(());
        }
        match self.formula_node(formula) {
            Some(FormulaNode::Le(left, right)) => {
                opening.await_terms(Due::FormulaBy(Connective::Le), *left, *right)
            }
            Some(FormulaNode::Eq(left, right)) => {
                opening.await_terms(Due::FormulaBy(Connective::Eq), *left, *right)
            }
            Some(FormulaNode::Not(inner)) => opening.await_parts(Connective::Not, &[*inner]),
            Some(FormulaNode::And(parts)) => {
                opening.await_parts(Connective::And(parts.len()), parts)
            }
            Some(FormulaNode::Or(parts)) => opening.await_parts(Connective::Or(parts.len()), parts),
            Some(FormulaNode::Implies(left, right)) => {
                opening.await_parts(Connective::Implies, &[*left, *right])
            }
            Some(FormulaNode::Forall(body)) => opening.await_body(Connective::Forall, *body),
            Some(FormulaNode::Exists(body)) => opening.await_body(Connective::Exists, *body),
            None => {
                opening.formulas.push(formula)?;
                Ok(())
            }
        }
    }

    /// Makes a formula of parts that were opened.
    fn formula_by(
        &mut self,
        connective: Connective,
        opening: &mut Opening,
    ) -> Result<FormulaId, Stop> {
        match connective {
            Connective::Le => {
                let (left, right) = opening.two_terms()?;
                self.le(left, right)
            }
            Connective::Eq => {
                let (left, right) = opening.two_terms()?;
                self.eq(left, right)
            }
            Connective::Not => self.not(opening.formula()?),
            Connective::And(count) => self.and(opening.parts(count)?),
            Connective::Or(count) => self.or(opening.parts(count)?),
            Connective::Implies => {
                let right = opening.formula()?;
                self.implies(opening.formula()?, right)
            }
            Connective::Forall => self.forall(opening.body()?),
            Connective::Exists => self.exists(opening.body()?),
        }
    }

    /// Puts the term into a term: puts off its parts. One in which the variable does not occur keeps its number.
    fn open_term(&mut self, term: TermId, opening: &mut Opening) -> Result<(), Stop> {
        if self.term_loose(term) <= opening.depth {
            opening.terms.push(term)?;
            return Ok(());
        }
        match self.term_node(term) {
            Some(TermNode::Bound(number)) => {
                let opened = self.open_bound(number, opening)?;
                opening.terms.push(opened)?;
                Ok(())
            }
            Some(TermNode::Add(left, right)) => {
                opening.await_terms(Due::TermBy(Operator::Add), left, right)
            }
            Some(TermNode::Subtract(left, right)) => {
                opening.await_terms(Due::TermBy(Operator::Subtract), left, right)
            }
            Some(TermNode::Multiply(factor, term)) => {
                opening.due.push(Due::TermBy(Operator::Multiply(factor)))?;
                opening.due.push(Due::Term(term))?;
                Ok(())
            }
            Some(TermNode::Read(column, index)) => {
                opening.due.push(Due::TermBy(Operator::Read))?;
                opening.due.push(Due::Term(index))?;
                self.open_column(column, opening)
            }
            Some(TermNode::Number(_))
            | Some(TermNode::Variable(_))
            | Some(TermNode::Base(_))
            | Some(TermNode::Store(_, _, _))
            | Some(TermNode::Affine(_, _))
            | None => {
                opening.terms.push(term)?;
                Ok(())
            }
        }
    }

    /// What stands for a bound variable that is not one of the quantifiers inside.
    fn open_bound(&mut self, number: u32, opening: &Opening) -> Result<TermId, Stop> {
        if number <= opening.depth {
            Ok(opening.term)
        } else {
            self.bound(number.saturating_sub(1))
        }
    }

    /// Makes a term of parts that were opened.
    fn term_by(&mut self, operator: Operator, opening: &mut Opening) -> Result<TermId, Stop> {
        match operator {
            Operator::Add => {
                let (left, right) = opening.two_terms()?;
                self.add(left, right)
            }
            Operator::Subtract => {
                let (left, right) = opening.two_terms()?;
                self.subtract(left, right)
            }
            Operator::Multiply(factor) => self.multiply(factor, opening.term()?),
            Operator::Read => {
                let index = opening.term()?;
                self.read(opening.column()?, index)
            }
        }
    }

    /// Puts the term into a column expression: puts off its stores, the innermost first. Below its last store in which the
    /// variable occurs it stays as it is.
    fn open_column(&self, column: ColExprId, opening: &mut Opening) -> Result<(), Stop> {
        let mut rest = column;
        for _ in 0..self.parts.len() {
            if self.column_loose(rest) <= opening.depth {
                break;
            }
            let Some(TermNode::Store(below, index, value)) = self.column_node(rest) else {
                break;
            };
            opening.await_terms(Due::Store, index, value)?;
            rest = below;
        }
        opening.columns.push(rest)?;
        Ok(())
    }
}
