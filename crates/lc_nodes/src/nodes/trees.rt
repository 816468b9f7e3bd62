//! The trees of nodes, with the variables of the search renamed. None is made that nests deeper than a text may: it could not be
//! printed. What is made of parts is made in functions of their own, so that each level takes little of the stack.

use super::Nodes;
use lc_base::{ColId, DEPTH_LIMIT};
use lc_farkas::Stop;
use lc_table::{ColExprId, FormulaId, FormulaNode, TermId, TermNode};
use lc_term::{ColExpr, Formula, Term};
use std::alloc::Global;

/// The name of a variable, which is its own number if it has no other.
fn name_of(names: &[u32], variable: u32) -> u32 {
    match names.get(variable as usize) {
        Some(name) => *name,
        None => variable,
    }
}

#[inline(never)]
fn boxed_term(alloc: Global, term: Term) -> Result<Box<Term>, Stop> {
    Ok(Box::new(alloc, term)?)
}

#[inline(never)]
fn boxed_formula(alloc: Global, formula: Formula) -> Result<Box<Formula>, Stop> {
    Ok(Box::new(alloc, formula)?)
}

/// A column expression with a value stored at an index.
#[inline(never)]
fn stored(
    alloc: Global,
    column: ColExpr,
    index: Box<Term>,
    value: Box<Term>,
) -> Result<ColExpr, Stop> {
    Ok(ColExpr::Store(Box::new(alloc, column)?, index, value))
}

/// Takes a formula out of its box, and appends it to others.
#[inline(never)]
fn push_out(trees: &mut Vec<Formula>, tree: Box<Formula>) -> Result<(), Stop> {
    trees.push(Box::into_inner(tree))?;
    Ok(())
}

impl Nodes {
    /// The tree of a term.
    pub fn term_tree(&self, names: &[u32], term: TermId) -> Result<Term, Stop> {
        Ok(Box::into_inner(self.term_within(names, term, DEPTH_LIMIT)?))
    }

    /// The tree of a column expression.
    pub fn column_tree(&self, names: &[u32], column: ColExprId) -> Result<ColExpr, Stop> {
        self.column_within(names, column, DEPTH_LIMIT)
    }

    /// The tree of a formula.
    pub fn formula_tree(&self, names: &[u32], formula: FormulaId) -> Result<Formula, Stop> {
        Ok(Box::into_inner(self.formula_within(names, formula, DEPTH_LIMIT)?))
    }

    /// The tree of a term, if it has at most `levels` levels.
    #[cycle(trees)]
    fn term_within(&self, names: &[u32], term: TermId, levels: usize) -> Result<Box<Term>, Stop> {
        if levels == 0 {
            return Err(Stop::Spent);
        }
        match self.term_node(term) {
            Some(TermNode::Add(left, right)) => {
                let left = self.term_within(names, left, levels - 1)?;
                let right = self.term_within(names, right, levels - 1)?;
                boxed_term(self.alloc, Term::Add(left, right))
            }
            Some(TermNode::Subtract(left, right)) => {
                let left = self.term_within(names, left, levels - 1)?;
                let right = self.term_within(names, right, levels - 1)?;
                boxed_term(self.alloc, Term::Subtract(left, right))
            }
            Some(TermNode::Multiply(factor, term)) => {
                let term = self.term_within(names, term, levels - 1)?;
                boxed_term(self.alloc, Term::Multiply(factor, term))
            }
            Some(TermNode::Read(column, index)) => {
                let index = self.term_within(names, index, levels - 1)?;
                self.read_within(names, column, index, levels - 1)
            }
            node => self.leaf_tree(names, node),
        }
    }

    /// The tree of a term without parts.
    #[inline(never)]
    fn leaf_tree(&self, names: &[u32], node: Option<TermNode>) -> Result<Box<Term>, Stop> {
        let tree = match node {
            Some(TermNode::Number(number)) => Term::Number(number),
            Some(TermNode::Variable(number)) => Term::Variable(name_of(names, number)),
            Some(TermNode::Bound(number)) => Term::Bound(number),
            _ => Term::Number(0),
        };
        boxed_term(self.alloc, tree)
    }

    /// The tree of a read at an index.
    #[cycle(trees)]
    #[inline(never)]
    fn read_within(
        &self,
        names: &[u32],
        column: ColExprId,
        index: Box<Term>,
        levels: usize,
    ) -> Result<Box<Term>, Stop> {
        let column = Box::new(self.alloc, self.column_within(names, column, levels)?)?;
        boxed_term(self.alloc, Term::Read(column, index))
    }

    /// The tree of a column expression, if what is in its stores has at most `levels` levels.
    #[cycle(trees)]
    fn column_within(
        &self,
        names: &[u32],
        column: ColExprId,
        levels: usize,
    ) -> Result<ColExpr, Stop> {
        let mut chain = self.chain(column)?;
        let mut tree = self.base_tree(chain.base);
        'stores: while let Some(store) = chain.stores.pop() {
            let index = self.term_within(names, store.index, levels)?;
            let value = self.term_within(names, store.value, levels)?;
            tree = stored(self.alloc, tree, index, value)?;
        }
        Ok(tree)
    }

    /// The tree of a column expression that is no store.
    fn base_tree(&self, base: ColExprId) -> ColExpr {
        match self.column_node(base) {
            Some(TermNode::Base(column)) => ColExpr::Base(column),
            Some(TermNode::Affine(slope, start)) => ColExpr::Affine(slope, start),
            _ => ColExpr::Base(ColId(0)),
        }
    }

    /// The tree of a formula, if it has at most `levels` levels.
    #[cycle(formula_trees)]
    fn formula_within(
        &self,
        names: &[u32],
        formula: FormulaId,
        levels: usize,
    ) -> Result<Box<Formula>, Stop> {
        if levels == 0 {
            return Err(Stop::Spent);
        }
        match self.formula_node(formula) {
            Some(FormulaNode::Not(inner)) => {
                let inner = self.formula_within(names, *inner, levels - 1)?;
                boxed_formula(self.alloc, Formula::Not(inner))
            }
            Some(FormulaNode::And(parts)) => {
                let parts = self.formulas_within(names, parts, levels - 1)?;
                boxed_formula(self.alloc, Formula::And(parts))
            }
            Some(FormulaNode::Or(parts)) => {
                let parts = self.formulas_within(names, parts, levels - 1)?;
                boxed_formula(self.alloc, Formula::Or(parts))
            }
            Some(FormulaNode::Implies(left, right)) => {
                let left = self.formula_within(names, *left, levels - 1)?;
                let right = self.formula_within(names, *right, levels - 1)?;
                boxed_formula(self.alloc, Formula::Implies(left, right))
            }
            Some(FormulaNode::Forall(body)) => {
                let body = self.formula_within(names, *body, levels - 1)?;
                boxed_formula(self.alloc, Formula::Forall(body))
            }
            Some(FormulaNode::Exists(body)) => {
                let body = self.formula_within(names, *body, levels - 1)?;
                boxed_formula(self.alloc, Formula::Exists(body))
            }
            node => self.comparison_tree(names, node, levels - 1),
        }
    }

    #[cycle(formula_trees)]
    #[inline(never)]
    fn formulas_within(
        &self,
        names: &[u32],
        formulas: &[FormulaId],
        levels: usize,
    ) -> Result<Vec<Formula>, Stop> {
        let mut trees = Vec::with_capacity(self.alloc, formulas.len())?;
        for formula in formulas {
            push_out(&mut trees, self.formula_within(names, *formula, levels)?)?;
        }
        Ok(trees)
    }

    /// The tree of a comparison, if its sides have at most `levels` levels.
    #[inline(never)]
    fn comparison_tree(
        &self,
        names: &[u32],
        node: Option<&FormulaNode>,
        levels: usize,
    ) -> Result<Box<Formula>, Stop> {
        let tree = match node {
            Some(FormulaNode::Le(left, right)) => {
                let left = self.term_within(names, *left, levels)?;
                let right = self.term_within(names, *right, levels)?;
                Formula::Le(Box::into_inner(left), Box::into_inner(right))
            }
            Some(FormulaNode::Eq(left, right)) => {
                let left = self.term_within(names, *left, levels)?;
                let right = self.term_within(names, *right, levels)?;
                Formula::Eq(Box::into_inner(left), Box::into_inner(right))
            }
            _ => Formula::And(Vec::new(self.alloc)),
        };
        boxed_formula(self.alloc, tree)
    }
}
