//! What is known on a branch of the search.

mod activating;
mod assuming;
mod comparing;
mod probing;
mod proofs;
mod splitting;
mod undoing;

use crate::fact::{Fact, FactId, Made, Place, ProofId, Step};
use indexmap::{IndexMap, IndexSet};
use lc_base::ColId;
use lc_farkas::{Stop, Tableau};
use lc_nodes::Nodes;
use lc_table::{FormulaId, TermId};
use std::alloc::Global;
pub use undoing::{Mark, Trial};

/// How many pivots the tableau may do.
const PIVOTS: u64 = 10_000_000;

/// How many rows, summands and facts a search may look at, beside the steps that it may try.
const WORK: u64 = 300_000_000;

/// An index term of a column, with the least place of the facts that it stands in.
#[derive(Clone, Copy)]
pub struct Indexed {
    pub term: TermId,
    pub place: Place,
}

/// What was done on a branch, by a kind and two numbers of its caller's own.
#[derive(Clone, Copy, PartialEq, Eq, Hash)]
pub struct Done {
    pub kind: u32,
    pub first: u32,
    pub second: u32,
}

/// How a trial of a fact ended.
#[derive(Clone, Copy)]
pub enum Probed {
    Closed(ProofId),
    /// With this many parts open.
    Open(usize),
}

/// What a choice of branches comes to once each was tried.
#[derive(Drop)]
pub enum Weighed {
    /// No branch is open.
    Closed(ProofId),
    /// One is, the main one of the step.
    Unit(Step),
    Split(Step),
}

/// A change of an index table: the entry at a place of a column's list, and its place before; none if it was new.
#[derive(Clone, Copy)]
struct IndexChange {
    column: ColId,
    entry: usize,
    before: Option<Place>,
}

/// What is known: the facts that are live, the steps that made them, and the proofs of what was closed.
///
/// Any values of the public fields are lawful; what a mark does not count is not undone.
pub struct Known {
    pub alloc: Global,
    pub nodes: Nodes,
    pub tableau: Tableau,
    /// The facts of all numbers; it only grows.
    pub facts: Vec<Fact>,
    /// The facts that are live, by their formulas.
    pub have: IndexMap<FormulaId, FactId>,
    pub steps: Vec<Step>,
    pub proofs: Vec<Made>,
    pub disjunctions: Vec<FactId>,
    /// Axioms of columns that are disjunctions.
    pub axioms: Vec<FactId>,
    pub disequalities: Vec<FactId>,
    pub foralls: Vec<FactId>,
    /// The reads that are looked at, each with the place that it came by.
    pub active: IndexMap<TermId, Place>,
    /// The index terms of each column.
    pub indexes: IndexMap<ColId, Vec<Indexed>>,
    index_changes: Vec<IndexChange>,
    pub done: IndexSet<Done>,
    /// The variables of the goal.
    pub near: IndexSet<u32>,
    /// The number of the next variable.
    pub variables: u32,
    /// How many steps may still be tried.
    pub left: u64,
}

impl Drop for Known {
    fn drop(self) {
        let Known {
            alloc: _,
            nodes: _,
            tableau: _,
            facts: _,
            have: _,
            steps: _,
            proofs: _,
            disjunctions: _,
            axioms: _,
            disequalities: _,
            foralls: _,
            active: _,
            indexes: _,
            index_changes: _,
            done: _,
            near: _,
            variables: _,
            left: _,
        } = self;
    }
}

impl Known {
    /// Nothing known about `variables` variables.
    pub fn new(alloc: Global, variables: u32, budget: u64) -> Known {
        let mut tableau = Tableau::new(alloc, PIVOTS);
        tableau.allow(WORK);
        Known {
            alloc,
            nodes: Nodes::new(alloc),
            tableau,
            facts: Vec::new(alloc),
            have: IndexMap::new(alloc),
            steps: Vec::new(alloc),
            proofs: Vec::new(alloc),
            disjunctions: Vec::new(alloc),
            axioms: Vec::new(alloc),
            disequalities: Vec::new(alloc),
            foralls: Vec::new(alloc),
            active: IndexMap::new(alloc),
            indexes: IndexMap::new(alloc),
            index_changes: Vec::new(alloc),
            done: IndexSet::new(alloc),
            near: IndexSet::new(alloc),
            variables,
            left: budget,
        }
    }

    /// Counts a step that is tried.
    pub fn tick(&mut self) -> Result<(), Stop> {
        self.left = self.left.checked_sub(1).ok_or(Stop::Spent)?;
        Ok(())
    }

    /// A fact; a number that is none answers a harmless one.
    pub fn fact(&self, fact: FactId) -> Fact {
        match self.facts.get(fact) {
            Some(fact) => *fact,
            None => Fact {
                formula: FormulaId(u32::MAX),
                place: Place { rank: 0, depth: 0 },
                is_axiom: false,
            },
        }
    }

    /// The place of a fact.
    pub fn place(&self, fact: FactId) -> Place {
        self.fact(fact).place
    }

    /// The formula of a fact.
    pub fn formula(&self, fact: FactId) -> FormulaId {
        self.fact(fact).formula
    }

    /// A new number.
    fn add_fact(&mut self, fact: Fact) -> Result<FactId, Stop> {
        let number = self.facts.len();
        self.facts.push(fact)?;
        Ok(number)
    }

    /// A new fact, which is not live yet.
    pub fn new_fact(&mut self, formula: FormulaId, place: Place) -> Result<FactId, Stop> {
        self.add_fact(Fact {
            formula,
            place,
            is_axiom: false,
        })
    }

    /// A new fact that is an axiom of columns.
    pub fn new_axiom(&mut self, formula: FormulaId, place: Place) -> Result<FactId, Stop> {
        self.add_fact(Fact {
            formula,
            place,
            is_axiom: true,
        })
    }

    /// New facts of one place.
    fn new_facts(&mut self, formulas: &[FormulaId], place: Place) -> Result<Vec<FactId>, Stop> {
        let mut facts = Vec::with_capacity(self.alloc, formulas.len())?;
        for formula in formulas {
            facts.push(self.new_fact(*formula, place)?)?;
        }
        Ok(facts)
    }

    /// The live fact of a formula.
    pub fn has(&self, formula: FormulaId) -> Option<FactId> {
        self.have.get(&formula).copied()
    }

    /// The live fact of a formula's negation, or of what the formula denies.
    pub fn has_negation(&self, formula: FormulaId) -> Option<FactId> {
        if let Some(inner) = self.nodes.denied(formula)
            && let Some(fact) = self.has(inner)
        {
            return Some(fact);
        }
        self.has(self.nodes.find_not(formula)?)
    }

    /// Notes what is done on this branch. True: it was not yet.
    pub fn note(&mut self, done: Done) -> Result<bool, Stop> {
        Ok(self.done.insert(done)?)
    }
}
