//! Formulas that are entered once more: whether one is at the number where it is expected.
ghost use Rattle.std.specs.Prelude.{◌≡◌, IfSome, Some, slice_get, true};
ghost use Rattle.lc_term.specs.View.{term_of, column_of, formula_of};
ghost use Rattle.lc_table.specs.Nodes.{part_of, tree_of};
ghost use Rattle.lc_table.specs.Tables.{parts, formulas, HasTerm, HasColumn, HasFormula};

use crate::node::{ColExprId, FormulaId, FormulaNode, TermId, TermNode};
use crate::table::Terms;
use lc_term::{ColExpr, Formula, Term};

/// The two numbers that were entered last, of formulas or of stores. What is entered once more, in the same order, has numbers
/// that go up by the same steps, so the next number can be predicted.
#[derive(Clone, Copy)]
pub(crate) struct Expected {
    last: u32,
    before: u32,
}

impl Expected {
    /// Nothing was entered.
    pub(crate) fn first() -> Expected {
        Expected { last: 0, before: 0 }
    }

    /// As far after the last one as that is after the one before it: so are the stores of a chain.
    pub(crate) fn stepped(self) -> u32 {
        let step = self.last.saturating_sub(self.before);
        self.last.saturating_add(step)
    }

    /// After the last one: so are the formulas of a list.
    pub(crate) fn following(self) -> u32 {
        self.last.saturating_add(1)
    }

    /// This one was entered.
    pub(crate) fn note(&mut self, number: u32) {
        self.before = self.last;
        self.last = number;
    }
}

impl Terms {
    // Whether a term is at this number.
    fn is_term_at(&self, at: TermId, term: &Term) -> bool
        ensures { result ≡ true → HasTerm self.now at (term_of term.now) }
    {
        let Some(node) = self.part_at(at.0) else {
            return false;
        };
        match term {
            Term::Number(number) => match node {
                TermNode::Number(n) => n == *number,
                _ => false,
            },
            Term::Variable(number) => match node {
                TermNode::Variable(n) => n == *number,
                _ => false,
            },
            Term::Bound(number) => match node {
                TermNode::Bound(n) => n == *number,
                _ => false,
            },
            Term::Add(left, right) => match node {
                TermNode::Add(a, b) => self.is_term_at(a, left) && self.is_term_at(b, right),
                _ => false,
            },
            Term::Subtract(left, right) => match node {
                TermNode::Subtract(a, b) => self.is_term_at(a, left) && self.is_term_at(b, right),
                _ => false,
            },
            Term::Multiply(factor, term) => match node {
                TermNode::Multiply(n, a) => n == *factor && self.is_term_at(a, term),
                _ => false,
            },
            Term::Read(column, index) => match node {
                TermNode::Read(a, b) => self.is_column_at(a, column) && self.is_term_at(b, index),
                _ => false,
            },
        }
    }

    // Whether a column is at a number. A store is not looked for.
    fn is_column_at(&self, at: ColExprId, column: &ColExpr) -> bool
        ensures { result ≡ true → HasColumn self.now at (column_of column.now) }
    {
        let Some(node) = self.part_at(at.0) else {
            return false;
        };
        match column {
            ColExpr::Base(number) => match node {
                TermNode::Base(n) => n == *number,
                _ => false,
            },
            ColExpr::Affine(slope, start) => match node {
                TermNode::Affine(a, b) => a == *slope && b == *start,
                _ => false,
            },
            ColExpr::Store(..) => false,
        }
    }

    // Whether these two terms are at these two numbers.
    fn are_terms_at(&self, at: (TermId, TermId), left: &Term, right: &Term) -> bool
        ensures left { result ≡ true → HasTerm self.now at.0 (term_of left.now) }
        ensures right { result ≡ true → HasTerm self.now at.1 (term_of right.now) }
    {
        self.is_term_at(at.0, left) && self.is_term_at(at.1, right)
    }

    // The number where the next formula is expected, if it is this one, and compares two terms.
    pub(crate) fn expected_atom(&self, formula: &Formula) -> Option<FormulaId>
        ensures { IfSome result (λ k. HasFormula self.now k (formula_of formula.now)) }
    {
        let (number, node) = self.expected()?;
        let is_there = match formula {
            Formula::Le(left, right) => match node {
                FormulaNode::Le(a, b) => self.are_terms_at((*a, *b), left, right),
                _ => false,
            },
            Formula::Eq(left, right) => match node {
                FormulaNode::Eq(a, b) => self.are_terms_at((*a, *b), left, right),
                _ => false,
            },
            _ => false,
        };
        if is_there { Some(number) } else { None }
    }

    // The number where the next formula is expected, if it has this node.
    pub(crate) fn expected_node(&self, node: &FormulaNode) -> Option<FormulaId>
        ensures { IfSome result (λ k. slice_get (formulas self.now) k.0 ≡ Some (tree_of (parts self.now) (formulas self.now) node.now)) }
    {
        let (number, expected) = self.expected()?;
        if expected == node { Some(number) } else { None }
    }
}
