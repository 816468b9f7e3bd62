//! Facts, the steps that made them, and proofs.

use lc_table::{ColExprId, FormulaId, TermId};

/// A fact, by its number.
pub type FactId = usize;

/// A proof, by its number.
pub type ProofId = usize;

/// How far a fact is from the goal: its rank, and how many instances are nested in it.
#[derive(Clone, Copy, PartialEq, Eq)]
pub struct Place {
    pub rank: i32,
    pub depth: i32,
}

impl Place {
    /// Whether it is nearer to the goal than another place.
    pub fn is_nearer(self, other: Place) -> bool {
        self.rank < other.rank || (self.rank == other.rank && self.depth < other.depth)
    }

    /// The place one rank farther.
    pub fn farther(self) -> Place {
        Place {
            rank: self.rank.saturating_add(1),
            depth: self.depth,
        }
    }
}

/// A formula that holds on some branch.
#[derive(Clone, Copy)]
pub struct Fact {
    pub formula: FormulaId,
    pub place: Place,
    /// Whether it is an axiom of columns.
    pub is_axiom: bool,
}

/// A multiple of a fact.
#[derive(Clone, Copy)]
pub struct Multiplier {
    pub fact: FactId,
    pub number: i64,
}

/// A rule of derivations, as lc_kernel has it, with facts for hypotheses.
#[derive(Clone, Copy)]
pub enum Rule {
    /// Multiples of these comparisons contradict each other; the multipliers are beside.
    Sum,
    /// The second is the negation of the first.
    Opposite(FactId, FactId),
    Split(FactId),
    Cases(FactId),
    Push(FactId),
    Instantiate(FactId, TermId),
    /// With the number of the new variable.
    Fresh(FactId, u32),
    Cut(FormulaId),
    /// The column before, the index and the value that is stored there, and the other index.
    Written(ColExprId, TermId, TermId, TermId),
    Same(ColExprId, TermId, TermId),
    Affine(i64, i64, TermId),
    Trichotomy(FactId),
    Divide(FactId, i64, FormulaId),
}

/// A proof in an arena: a rule, and below it a proof for each branch, in which the facts that the rule makes are known.
#[derive(Drop)]
pub struct Made {
    pub rule: Rule,
    /// The numbers of a sum.
    pub multiples: Vec<Multiplier>,
    /// The facts that are made in each branch.
    pub made: Vec<Vec<FactId>>,
    /// The proof of each branch, whose number is below its own.
    pub below: Vec<ProofId>,
    /// The facts that it needs and does not make itself, sorted.
    pub uses: Vec<FactId>,
}

/// A step that was taken or may be: a rule with its branches, some of them with proofs.
#[derive(Drop)]
pub struct Step {
    pub rule: Rule,
    /// The facts that the rule itself needs.
    pub needs: Vec<FactId>,
    /// The facts that are made in each branch.
    pub made: Vec<Vec<FactId>>,
    /// The proof of each branch that is closed.
    pub sides: Vec<Option<ProofId>>,
    /// The branch that is gone on with.
    pub main: usize,
}

impl Step {
    /// How many branches have no proof.
    pub fn open_count(&self) -> usize {
        let mut count: usize = 0;
        for side in &self.sides {
            if side.is_none() {
                count = count.saturating_add(1);
            }
        }
        count
    }

    /// Whether a branch has no proof.
    pub fn is_open(&self, branch: usize) -> bool {
        matches!(self.sides.get(branch), Some(None))
    }

    /// Gives a branch its proof.
    pub fn put_side(&mut self, branch: usize, proof: ProofId) {
        if let Some(side) = self.sides.get_mut(branch) {
            *side = Some(proof);
        }
    }

    /// The first fact of a branch.
    pub fn only_fact(&self, branch: usize) -> Option<FactId> {
        match self.made.get(branch) {
            Some(facts) => facts.first().copied(),
            None => None,
        }
    }

    /// The first branch without a proof; the first of all if there is none.
    pub fn first_open(&self) -> usize {
        for (place, side) in self.sides.iter().enumerate() {
            if side.is_none() {
                return place;
            }
        }
        0
    }
}
