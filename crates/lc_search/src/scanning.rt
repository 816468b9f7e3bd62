//! Where columns are read and stored to in the body of a quantifier, and what is compared in it.

use lc_base::ColId;
use lc_farkas::Stop;
use lc_nodes::Nodes;
use lc_table::{ColExprId, FormulaId, FormulaNode, TermId, TermNode};
use std::alloc::Global;

/// An index under a base column, with the number of quantifiers of the body around it.
#[derive(Clone, Copy)]
pub(crate) struct Place {
    pub(crate) column: ColId,
    pub(crate) index: TermId,
    pub(crate) level: u32,
}

/// Two terms that are compared, with the number of quantifiers of the body that enclose the comparison.
#[derive(Clone, Copy)]
pub(crate) struct Comparison {
    pub(crate) left: TermId,
    pub(crate) right: TermId,
    pub(crate) level: u32,
}

/// What was found in the body of a quantifier.
#[derive(Drop)]
pub(crate) struct Scanned {
    pub(crate) indexes: Vec<Place>,
    pub(crate) comparisons: Vec<Comparison>,
}

/// A part of the body, round which so many of its quantifiers stand.
#[derive(Clone, Copy)]
struct Due {
    part: Part,
    level: u32,
}

#[derive(Clone, Copy)]
enum Part {
    Formula(FormulaId),
    Term(TermId),
    /// An index under a column, if it is under one.
    Index(Option<ColId>, TermId),
    /// The stores of a column expression, the first of which stores in this column.
    Stores(Option<ColId>, ColExprId),
}

/// What is still to be looked at. It waits in a list, the next one last, so that a deep body takes nothing of the stack.
struct Scan {
    due: Vec<Due>,
    found: Scanned,
}

impl Drop for Scan {
    fn drop(self) {
        let Scan { due: _, found: _ } = self;
    }
}

/// The indexes and the comparisons in a formula that have a variable from outside of it.
pub(crate) fn found_in(alloc: Global, nodes: &Nodes, formula: FormulaId) -> Result<Scanned, Stop> {
    let mut scan = Scan {
        due: Vec::new(alloc),
        found: Scanned {
            indexes: Vec::new(alloc),
            comparisons: Vec::new(alloc),
        },
    };
    scan.await_part(Part::Formula(formula), 0)?;
    for _ in 0..u64::MAX {
        match scan.due.pop() {
            Some(due) => scan.look_at(nodes, due)?,
            None => return Ok(scan.found()),
        }
    }
    Err(Stop::Spent)
}

impl Scan {
    /// What was found.
    fn found(self) -> Scanned {
        let Scan { due: _, found } = self;
        found
    }

    fn await_part(&mut self, part: Part, level: u32) -> Result<(), Stop> {
        self.due.push(Due { part, level })?;
        Ok(())
    }

    /// Puts off two terms.
    fn await_terms(&mut self, left: TermId, right: TermId, level: u32) -> Result<(), Stop> {
        self.await_part(Part::Term(right), level)?;
        self.await_part(Part::Term(left), level)
    }

    fn look_at(&mut self, nodes: &Nodes, due: Due) -> Result<(), Stop> {
        let level = due.level;
        match due.part {
            Part::Formula(formula) => self.look_at_formula(nodes, formula, level),
            Part::Term(term) => self.look_at_term(nodes, term, level),
            Part::Index(column, index) => self.look_at_index(nodes, column, index, level),
            Part::Stores(base, column) => self.look_at_store(nodes, base, column, level),
        }
    }

    /// Puts off the parts of a formula, if a variable from outside occurs in it.
    fn look_at_formula(
        &mut self,
        nodes: &Nodes,
        formula: FormulaId,
        level: u32,
    ) -> Result<(), Stop> {
        if nodes.formula_loose(formula) <= level {
            return Ok(());
        }
        match nodes.formula_node(formula) {
            Some(FormulaNode::Le(left, right)) | Some(FormulaNode::Eq(left, right)) => {
                let (left, right) = (*left, *right);
                self.found
                    .comparisons
                    .push(Comparison { left, right, level })?;
                self.await_terms(left, right, level)
            }
            Some(FormulaNode::Not(inner)) => self.await_part(Part::Formula(*inner), level),
            Some(FormulaNode::And(parts)) | Some(FormulaNode::Or(parts)) => {
                for part in parts.iter().rev() {
                    self.await_part(Part::Formula(*part), level)?;
                }
                Ok(())
            }
            Some(FormulaNode::Implies(left, right)) => {
                self.await_part(Part::Formula(*right), level)?;
                self.await_part(Part::Formula(*left), level)
            }
            Some(FormulaNode::Forall(body)) | Some(FormulaNode::Exists(body)) => {
                self.await_part(Part::Formula(*body), level.saturating_add(1))
            }
            None => Ok(()),
        }
    }

    /// Puts off the parts of a term, if a variable from outside occurs in it.
    fn look_at_term(&mut self, nodes: &Nodes, term: TermId, level: u32) -> Result<(), Stop> {
        if nodes.term_loose(term) <= level {
            return Ok(());
        }
        match nodes.term_node(term) {
            Some(TermNode::Add(left, right)) | Some(TermNode::Subtract(left, right)) => {
                self.await_terms(left, right, level)
            }
            Some(TermNode::Multiply(_, term)) => self.await_part(Part::Term(term), level),
            Some(TermNode::Read(column, index)) => {
                let base = nodes.base_of(column);
                self.await_part(Part::Stores(base, column), level)?;
                self.await_part(Part::Index(base, index), level)
            }
            _ => Ok(()),
        }
    }

    /// Takes an index in, if it is under a column, and puts off its parts.
    fn look_at_index(
        &mut self,
        nodes: &Nodes,
        column: Option<ColId>,
        index: TermId,
        level: u32,
    ) -> Result<(), Stop> {
        if nodes.term_loose(index) > level
            && let Some(column) = column
        {
            self.found.indexes.push(Place {
                column,
                index,
                level,
            })?;
        }
        self.await_part(Part::Term(index), level)
    }

    /// Puts off the index of a store and what it stores there, and then the stores below it.
    fn look_at_store(
        &mut self,
        nodes: &Nodes,
        base: Option<ColId>,
        column: ColExprId,
        level: u32,
    ) -> Result<(), Stop> {
        match nodes.column_node(column) {
            Some(TermNode::Store(below, index, stored)) => {
                self.await_part(Part::Stores(base, below), level)?;
                self.await_part(Part::Term(stored), level)?;
                self.await_part(Part::Index(base, index), level)
            }
            _ => Ok(()),
        }
    }
}
