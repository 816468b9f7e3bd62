//! Nodes of terms, column expressions and formulas by number, each once, with what was learnt of them.

mod axioms;
mod building;
mod chains;
mod entering;
mod learning;
mod opening;
mod parts;
mod summing;
mod taking;
mod trees;

use crate::form::Form;
use indexmap::{IndexMap, IndexSet};
use lc_base::ColId;
use lc_farkas::Stop;
use lc_table::{ColExprId, FormulaId, FormulaNode, TermId, TermNode};
use std::alloc::Global;
pub use summing::narrow;
pub use taking::Taken;

/// How many stores of a column expression are followed for its indexes.
pub const STORES: u32 = 4000;

/// How large a node is, and how many quantifiers around it its bound variables ask for.
#[derive(Clone, Copy)]
struct Shape {
    size: u32,
    loose: u32,
}

impl Shape {
    /// Of a node without parts.
    const LEAF: Shape = Shape { size: 1, loose: 0 };

    /// Of a node with one part more.
    fn with(self, part: Shape) -> Shape {
        Shape {
            size: self.size.saturating_add(part.size),
            loose: self.loose.max(part.loose),
        }
    }

    /// Of a quantifier over this body.
    fn bound(self) -> Shape {
        Shape {
            size: self.size.saturating_add(1),
            loose: self.loose.saturating_sub(1),
        }
    }
}

/// The parts of a node that matter: its closed reads, the closed sides of its comparisons, and its free variables, each once and in
/// the order in which they come.
struct Learnt {
    reads: IndexSet<TermId>,
    compared: IndexSet<TermId>,
    variables: IndexSet<u32>,
}

impl Drop for Learnt {
    fn drop(self) {
        let Learnt {
            reads: _,
            compared: _,
            variables: _,
        } = self;
    }
}

/// A table of nodes. Each call of a number that it does not have answers something harmless.
pub struct Nodes {
    alloc: Global,
    parts: IndexSet<TermNode>,
    part_shapes: Vec<Shape>,
    formulas: IndexSet<FormulaNode>,
    formula_shapes: Vec<Shape>,
    learnt: IndexMap<FormulaId, Learnt>,
    learnt_terms: IndexMap<TermId, Learnt>,
    forms: IndexMap<TermId, Form>,
    gaps: IndexMap<FormulaId, Form>,
    alternatives: IndexMap<FormulaId, Vec<FormulaId>>,
}

impl Drop for Nodes {
    fn drop(self) {
        let Nodes {
            alloc: _,
            parts: _,
            part_shapes: _,
            formulas: _,
            formula_shapes: _,
            learnt: _,
            learnt_terms: _,
            forms: _,
            gaps: _,
            alternatives: _,
        } = self;
    }
}

/// The number of an entry.
fn number_of(place: usize) -> Result<u32, Stop> {
    u32::try_from(place).map_err(|_| Stop::OutOfMemory)
}

impl Nodes {
    /// No nodes.
    pub fn new(alloc: Global) -> Nodes {
        Nodes {
            alloc,
            parts: IndexSet::new(alloc),
            part_shapes: Vec::new(alloc),
            formulas: IndexSet::new(alloc),
            formula_shapes: Vec::new(alloc),
            learnt: IndexMap::new(alloc),
            learnt_terms: IndexMap::new(alloc),
            forms: IndexMap::new(alloc),
            gaps: IndexMap::new(alloc),
            alternatives: IndexMap::new(alloc),
        }
    }

    /// The node of a number, of a term or a column expression.
    pub fn part(&self, part: u32) -> Option<TermNode> {
        self.parts.get_index(part as usize).copied()
    }

    /// The node of a term.
    pub fn term_node(&self, term: TermId) -> Option<TermNode> {
        self.part(term.0)
    }

    /// The node of a column expression.
    pub fn column_node(&self, column: ColExprId) -> Option<TermNode> {
        self.part(column.0)
    }

    /// The node of a formula.
    pub fn formula_node(&self, formula: FormulaId) -> Option<&FormulaNode> {
        self.formulas.get_index(formula.0 as usize)
    }

    /// How many terms and column expressions there are: their numbers are below it.
    pub fn term_count(&self) -> usize {
        self.parts.len()
    }

    /// How many formulas there are: their numbers are below it.
    pub fn formula_count(&self) -> usize {
        self.formulas.len()
    }

    /// The shape of a term or a column expression.
    fn part_shape(&self, part: u32) -> Shape {
        match self.part_shapes.get(part as usize) {
            Some(shape) => *shape,
            None => Shape::LEAF,
        }
    }

    /// The shape of a formula.
    fn formula_shape(&self, formula: FormulaId) -> Shape {
        match self.formula_shapes.get(formula.0 as usize) {
            Some(shape) => *shape,
            None => Shape::LEAF,
        }
    }

    /// How many nodes a term has.
    pub fn term_size(&self, term: TermId) -> u32 {
        self.part_shape(term.0).size
    }

    /// How many nodes a formula has.
    pub fn formula_size(&self, formula: FormulaId) -> u32 {
        self.formula_shape(formula).size
    }

    /// How many quantifiers around a term its bound variables ask for; 0 for one without.
    pub fn term_loose(&self, term: TermId) -> u32 {
        self.part_shape(term.0).loose
    }

    /// How many quantifiers around a column expression its bound variables ask for.
    pub fn column_loose(&self, column: ColExprId) -> u32 {
        self.part_shape(column.0).loose
    }

    /// How many quantifiers around a formula its bound variables ask for, beside its own.
    pub fn formula_loose(&self, formula: FormulaId) -> u32 {
        self.formula_shape(formula).loose
    }

    /// The column that a column expression stores in; none of an affine one, and none below more stores than are followed.
    pub fn base_of(&self, column: ColExprId) -> Option<ColId> {
        let mut column = column;
        for _ in 0..STORES {
            match self.column_node(column) {
                Some(TermNode::Base(base)) => return Some(base),
                Some(TermNode::Store(before, _, _)) => column = before,
                _ => return None,
            }
        }
        None
    }

    /// The negation of a formula, if it is there.
    pub fn find_not(&self, formula: FormulaId) -> Option<FormulaId> {
        let node = FormulaNode::Not(formula);
        let place = self.formulas.get_index_of(&node)?;
        number_of(place).ok().map(FormulaId)
    }

    /// The number of a node, which is entered if it is not there.
    fn enter_part(&mut self, node: TermNode) -> Result<u32, Stop> {
        let (place, is_new) = self.parts.insert_full(node)?;
        if is_new {
            let shape = self.shape_of_part(node);
            self.part_shapes.push(shape)?;
        }
        number_of(place)
    }

    /// The shape of a node by those of its parts.
    fn shape_of_part(&self, node: TermNode) -> Shape {
        match node {
            TermNode::Number(_)
            | TermNode::Variable(_)
            | TermNode::Base(_)
            | TermNode::Affine(_, _) => Shape::LEAF,
            TermNode::Bound(number) => Shape {
                size: 1,
                loose: number.saturating_add(1),
            },
            TermNode::Add(left, right) | TermNode::Subtract(left, right) => Shape::LEAF
                .with(self.part_shape(left.0))
                .with(self.part_shape(right.0)),
            TermNode::Multiply(_, term) => Shape::LEAF.with(self.part_shape(term.0)),
            TermNode::Read(column, index) => Shape::LEAF
                .with(self.part_shape(column.0))
                .with(self.part_shape(index.0)),
            TermNode::Store(column, index, value) => Shape::LEAF
                .with(self.part_shape(column.0))
                .with(self.part_shape(index.0))
                .with(self.part_shape(value.0)),
        }
    }

    /// The number of a node of a formula, which is entered if it is not there.
    fn enter_node(&mut self, node: FormulaNode) -> Result<FormulaId, Stop> {
        let shape = self.shape_of_formula(&node);
        let (place, is_new) = self.formulas.insert_full(node)?;
        if is_new {
            self.formula_shapes.push(shape)?;
        }
        Ok(FormulaId(number_of(place)?))
    }

    /// The shape of a node of a formula by those of its parts.
    fn shape_of_formula(&self, node: &FormulaNode) -> Shape {
        match node {
            FormulaNode::Le(left, right) | FormulaNode::Eq(left, right) => Shape::LEAF
                .with(self.part_shape(left.0))
                .with(self.part_shape(right.0)),
            FormulaNode::Not(formula) => Shape::LEAF.with(self.formula_shape(*formula)),
            FormulaNode::And(parts) | FormulaNode::Or(parts) => self.shape_of_parts(parts),
            FormulaNode::Implies(left, right) => Shape::LEAF
                .with(self.formula_shape(*left))
                .with(self.formula_shape(*right)),
            FormulaNode::Forall(body) | FormulaNode::Exists(body) => {
                self.formula_shape(*body).bound()
            }
        }
    }

    /// The shape of a node with these parts.
    fn shape_of_parts(&self, parts: &[FormulaId]) -> Shape {
        let mut shape = Shape::LEAF;
        for part in parts {
            shape = shape.with(self.formula_shape(*part));
        }
        shape
    }
}
