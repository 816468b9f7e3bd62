//! The table of terms, column expressions and formulas.
ghost use Rattle.std.specs.Prelude.{◌≡◌, IfOk, ◌↔◌};
ghost use Rattle.lc_table.specs.declared.node.TermId.{TermId};
ghost use Rattle.lc_table.specs.declared.node.ColExprId.{ColExprId};
ghost use Rattle.lc_table.specs.declared.node.FormulaId.{FormulaId};
ghost use Rattle.lc_table.specs.Tables.{term_in, column_in, formula_in, IsTerm, IsColumn, IsFormula};

use crate::again::Expected;
use crate::near::NearSet;
use crate::node::{ColExprId, FormulaId, FormulaNode, TermId, TermNode};
use lc_base::OutOfMemory;
use std::alloc::Global;
use std::hash::BuildHasherDefault;
use std::marker::Model;

/// The number of places for numbers and variables.
const LEAF_PLACES: usize = 8;

/// Terms, column expressions and formulas by number: each is stored once, and is made of others by their numbers.
/// So two numbers are equal exactly if their trees are, and what occurs often is kept once.
///
/// No call changes the tree of a number. A call that returns an error may leave more entries.
pub struct Terms {
    terms: NearSet<TermNode>,
    formulas: NearSet<FormulaNode>,
    /// Where the next formula is expected.
    next_formula: Expected,
    /// Where the next store is expected.
    next_store: Expected,
    /// The numbers of the numbers and variables that were entered last, by a place of each.
    leaves: [u32; LEAF_PLACES],
}

impl Model for Terms {
    ghost use Rattle.lc_table.specs.NodeTables.{Table, IsNodeTable};

    ghost Value = { Table };

    ghost view = { λ t. record { terms = t.terms.keys; formulas = t.formulas.keys } };

    ghost invariant = { λ t. IsNodeTable t.terms.keys t.formulas.keys };
}

// Written out and not derived, so that dropping a table is one call.
impl Drop for Terms {
    fn drop(self) {
        let Terms {
            terms: _,
            formulas: _,
            next_formula: _,
            next_store: _,
            leaves: _,
        } = self;
    }
}

impl Terms {
    ghost use Rattle.std.specs.Prelude.{◌≡◌, ◌+◌, ◌-◌, ◌^◌, ◌<◌, min, length, IfOk, IfSome, slice_get, Some, [], is_some, true, false, IsTrue, ◌↔◌};
    ghost use Rattle.lc_table.specs.Nodes.{part_of, PartFits, PartBelow, is_term_node, term_of_node, column_of_node, tree_of, TreeFits, PartsBelow};
    ghost use Rattle.lc_table.specs.Tables.{parts, formulas, term_in, column_in, formula_in, IsTerm, IsColumn, IsFormula, Keeps};

    /// No terms and no formulas.
    pub fn new(alloc: Global) -> Terms
        ensures parts { parts result ≡ [] }
        ensures formulas { formulas result ≡ [] }
    {
        Terms {
            terms: NearSet::with_hasher(alloc, BuildHasherDefault::new()),
            formulas: NearSet::with_hasher(alloc, BuildHasherDefault::new()),
            next_formula: Expected::first(),
            next_store: Expected::first(),
            leaves: [0; LEAF_PLACES],
        }
    }

    /// The memory that the table has its entries in.
    pub fn allocator(&self) -> Global {
        *self.terms.allocator()
    }

    /// How many entries there are, of terms, column expressions and formulas together.
    pub fn len(&self) -> usize
        ensures { result ≡ min (length (parts self.now) + length (formulas self.now)) (2 ^ 64 - 1) }
    {
        self.terms.len().saturating_add(self.formulas.len())
    }

    /// Makes room for `count` terms and column expressions in all, so that none has to move while they are entered.
    pub fn reserve(&mut self, count: usize) -> Result<(), OutOfMemory>
        ensures { Keeps self.old self.new }
    {
        let more = count.saturating_sub(self.terms.len());
        self.terms.reserve(more)?;
        Ok(())
    }

    // Makes room for a list of `count` formulas, and for those that they become when something is put in.
    pub(crate) fn reserve_formulas(&mut self, count: usize) -> Result<(), OutOfMemory>
        ensures { Keeps self.old self.new }
    {
        self.reserve(count)?;
        let both = count.saturating_mul(2);
        let more = both.saturating_sub(self.formulas.len());
        self.formulas.reserve(more)?;
        Ok(())
    }

    /// The number of a node of a term or a column expression, which is entered if it is not there.
    pub fn enter_part(&mut self, node: TermNode) -> Result<u32, OutOfMemory>
        requires { PartFits (parts self.old) node }
        ensures part { IfOk result (λ k. slice_get (parts self.new) k ≡ Some (part_of (parts self.old) node)) }
        ensures kept { Keeps self.old self.new }
    {
        let (index, _) = self.terms.insert_full(node)?;
        number_of(index)
    }

    // Enters a store in the same way; it is looked for where one is expected.
    pub(crate) fn enter_store(&mut self, node: TermNode) -> Result<u32, OutOfMemory>
        requires { PartFits (parts self.old) node }
        ensures part { IfOk result (λ k. slice_get (parts self.new) k ≡ Some (part_of (parts self.old) node)) }
        ensures kept { Keeps self.old self.new }
    {
        let expected = self.next_store.stepped();
        if self.is_part_at(expected, node) {
            self.next_store.note(expected);
            return Ok(expected);
        }
        let number = self.enter_part(node)?;
        self.next_store.note(number);
        Ok(number)
    }

    // Enters a number or a variable in the same way; it is looked for where one with this place was entered last.
    pub(crate) fn enter_leaf(&mut self, node: TermNode, place: usize) -> Result<u32, OutOfMemory>
        requires fits { PartFits (parts self.old) node }
        requires place { place < 8 }
        ensures part { IfOk result (λ k. slice_get (parts self.new) k ≡ Some (part_of (parts self.old) node)) }
        ensures kept { Keeps self.old self.new }
    {
        let last = self.leaves[place];
        if self.is_part_at(last, node) {
            return Ok(last);
        }
        let number = self.enter_part(node)?;
        self.leaves[place] = number;
        Ok(number)
    }

    /// The number of a node of a formula, which is entered if it is not there.
    pub fn enter_node(&mut self, node: FormulaNode) -> Result<u32, OutOfMemory>
        requires { TreeFits (parts self.old) (formulas self.old) node }
        ensures formula { IfOk result (λ k. slice_get (formulas self.new) k ≡ Some (tree_of (parts self.old) (formulas self.old) node)) }
        ensures kept { Keeps self.old self.new }
    {
        if let Some(number) = self.expected_node(&node) {
            self.note_entered(number);
            return Ok(number.0);
        }
        let (index, _) = self.formulas.insert_full(node)?;
        let number = number_of(index)?;
        self.next_formula.note(number);
        Ok(number)
    }

    // The number where the next formula is expected, and its node, if there is one.
    pub(crate) fn expected(&self) -> Option<(FormulaId, &FormulaNode)>
        ensures { IfSome result (λ p. slice_get (formulas self.now) p.0.0 ≡ Some (tree_of (parts self.now) (formulas self.now) p.1.now)) }
    {
        let next = self.next_formula.following();
        let node = self.formulas.get_index(next as usize)?;
        Some((FormulaId(next), node))
    }

    // This formula was entered, so the next one is expected after it.
    pub(crate) fn note_entered(&mut self, formula: FormulaId)
        ensures { self.new ≡ self.old }
    {
        self.next_formula.note(formula.0);
    }

    /// The node at a number, of a term or a column expression, if there is one.
    pub fn part_at(&self, part: u32) -> Option<TermNode>
        ensures { IfSome result (λ node. slice_get (parts self.now) part ≡ Some (part_of (parts self.now) node)) }
    {
        self.terms.get_index(part as usize).copied()
    }

    // Whether a term or a column expression with this node is at this number.
    fn is_part_at(&self, part: u32, node: TermNode) -> bool
        ensures { result ≡ true → slice_get (parts self.now) part ≡ Some (part_of (parts self.now) node) }
    {
        match self.part_at(part) {
            Some(found) => found == node,
            None => false,
        }
    }

    /// The node at a number, of a term or a column expression.
    pub fn part_node(&self, part: u32) -> TermNode
        requires { is_some (slice_get (parts self.now) part) ≡ true }
        ensures tree { slice_get (parts self.now) part ≡ Some (part_of (parts self.now) result) }
        ensures fits { PartFits (parts self.now) result }
        ensures below { PartBelow part result }
    {
        match self.terms.get_index(part as usize) {
            Some(node) => *node,
            None => unreachable!(),
        }
    }

    /// A term by its head and the numbers of its parts.
    pub fn term_node(&self, term: TermId) -> TermNode
        requires { IsTerm self.now term }
        ensures kind { is_term_node result ≡ true }
        ensures tree { term_in self.now term ≡ term_of_node (parts self.now) result }
        ensures fits { PartFits (parts self.now) result }
        ensures below { PartBelow term.0 result }
    {
        self.part_node(term.0)
    }

    /// A column expression by its head and the numbers of its parts.
    pub fn column_node(&self, column: ColExprId) -> TermNode
        requires { IsColumn self.now column }
        ensures kind { is_term_node result ≡ false }
        ensures tree { column_in self.now column ≡ column_of_node (parts self.now) result }
        ensures fits { PartFits (parts self.now) result }
        ensures below { PartBelow column.0 result }
    {
        self.part_node(column.0)
    }

    /// A formula by its head and the numbers of its parts.
    pub fn formula_node(&self, formula: FormulaId) -> &FormulaNode
        requires { IsFormula self.now formula }
        ensures tree { formula_in self.now formula ≡ tree_of (parts self.now) (formulas self.now) result.now }
        ensures fits { TreeFits (parts self.now) (formulas self.now) result.now }
        ensures below { PartsBelow formula.0 result.now }
    {
        match self.formulas.get_index(formula.0 as usize) {
            Some(node) => node,
            None => unreachable!(),
        }
    }

    /// Whether two numbers stand for the same term: they do if they are the same number.
    pub fn is_same_term(&self, left: TermId, right: TermId) -> bool
        requires left { IsTerm self.now left }
        requires right { IsTerm self.now right }
        ensures { IsTrue result ↔ (term_in self.now left ≡ term_in self.now right) }
    {
        let _ = &self.terms;
        left == right
    }

    /// Whether two numbers stand for the same column expression: they do if they are the same number.
    pub fn is_same_column(&self, left: ColExprId, right: ColExprId) -> bool
        requires left { IsColumn self.now left }
        requires right { IsColumn self.now right }
        ensures { IsTrue result ↔ (column_in self.now left ≡ column_in self.now right) }
    {
        let _ = &self.terms;
        left == right
    }

    /// Whether two numbers stand for the same formula: they do if they are the same number.
    pub fn is_same_formula(&self, left: FormulaId, right: FormulaId) -> bool
        requires left { IsFormula self.now left }
        requires right { IsFormula self.now right }
        ensures { IsTrue result ↔ (formula_in self.now left ≡ formula_in self.now right) }
    {
        let _ = &self.formulas;
        left == right
    }
}

/// Two numbers of a table are the same exactly if they stand for the same.
pub fn numbers_are_exact(terms: &Terms)
    ensures terms { (a b : TermId) → IsTerm terms.now a → IsTerm terms.now b → (a ≡ b) ↔ (term_in terms.now a ≡ term_in terms.now b) }
    ensures columns { (a b : ColExprId) → IsColumn terms.now a → IsColumn terms.now b → (a ≡ b) ↔ (column_in terms.now a ≡ column_in terms.now b) }
    ensures formulas { (a b : FormulaId) → IsFormula terms.now a → IsFormula terms.now b → (a ≡ b) ↔ (formula_in terms.now a ≡ formula_in terms.now b) }
{
    let _ = &terms.formulas;
}

// The number of an entry. Tables hold no more entries than there are numbers of 32 bits.
fn number_of(index: usize) -> Result<u32, OutOfMemory>
    ensures { IfOk result (λ k. k ≡ index) }
{
    u32::try_from(index).map_err(|_| OutOfMemory)
}
