//! The type of proofs: trees of steps.
ghost use Rattle.std.specs.Prelude.{◌≡◌, ◌-◌, ◌^◌, min};
ghost use Rattle.lc_kernel.specs.Proofs.{size};
ghost use Rattle.lc_kernel.specs.View.{proof_of};

use lc_term::{ColExpr, Formula, Term};

/// A proof: a step, and below it a proof for each branch that the step opens.
///
/// A step appends formulas to the hypotheses of each branch; hypotheses are numbered from 0, and the last of them is the
/// negation of what is shown.
#[derive(Drop)]
pub struct Proof {
    pub step: Step,
    pub branches: Vec<Proof>,
}

impl Proof {
    /// How many steps it has; `u64::MAX` stands for all greater numbers.
    pub fn step_count(&self) -> u64
        ensures { result ≡ min (size (proof_of self.now)) (2 ^ 64 - 1) }
    {
        let mut count: u64 = 1;
        for branch in &self.branches {
            count = count.saturating_add(branch.step_count());
        }
        count
    }
}

/// A step of a proof. A hypothesis is given by its number. Terms and formulas are in boxes, so that a list of steps without any
/// takes little.
pub enum Step {
    /// `(split h P)`: of `(and F ..)` one branch, with each F.
    Split {
        hypothesis: i64,
    },
    /// `(cases h P ..)`: of `(or F ..)` a branch for each F; of `(=> A B)` one with `(not A)` and one with `B`;
    /// of `(not (and F ..))` one with `(not F)` for each F.
    Cases {
        hypothesis: i64,
    },
    /// `(push h P)`: of `(not F)` one branch, with the negation pushed into F.
    Push {
        hypothesis: i64,
    },
    /// `(inst h T P)`: of `(forall x F)` one branch, with F where x is T.
    Instantiate {
        hypothesis: i64,
        term: Box<Term>,
    },
    /// `(fresh h P)`: of `(exists x F)` one branch, with F where x is a variable that was not in use.
    Fresh {
        hypothesis: i64,
    },
    /// `(cut F P Q)`: a branch with `(not F)` and one with `F`.
    Cut {
        formula: Box<Formula>,
    },
    /// `(written C i v j P)`: one branch, with the axiom of a stored value.
    Written {
        access: Box<StoredAccess>,
    },
    /// `(same C i j P)`: one branch, with the axiom of equal indexes.
    Same {
        access: Box<SameAccess>,
    },
    /// `(affine a b i P)`: one branch, with the axiom of the column that has `a * i + b` at i.
    Affine {
        slope: i64,
        start: i64,
        index: Box<Term>,
    },
    /// `(trich h P Q)`: of `(not (= a b))` a branch with `a < b` and one with `b < a`.
    Trichotomy {
        hypothesis: i64,
    },
    /// `(divide h k F P)`: of a `<=` one branch, with F, which is that `<=` divided by k and rounded.
    Divide {
        hypothesis: i64,
        divisor: i64,
        quotient: Box<Formula>,
    },
    /// `(sum (h k) ..)`: no branch; these multiples of comparisons contradict each other.
    Sum {
        multiples: Vec<Multiple>,
    },
    /// `(opposite h g)`: no branch; g is the negation of h.
    Opposite {
        hypothesis: i64,
        negation: i64,
    },
    /// `(open)`: never holds.
    Open,
}

// Written out and not derived, so that dropping a step is one call.
impl Drop for Step {
    fn drop(self) {
        match self {
            Step::Split { hypothesis: _ }
            | Step::Cases { hypothesis: _ }
            | Step::Push { hypothesis: _ }
            | Step::Fresh { hypothesis: _ }
            | Step::Trichotomy { hypothesis: _ } => {}
            Step::Instantiate {
                hypothesis: _,
                term: _,
            } => {}
            Step::Cut { formula: _ } => {}
            Step::Written { access: _ } => {}
            Step::Same { access: _ } => {}
            Step::Affine {
                slope: _,
                start: _,
                index: _,
            } => {}
            Step::Divide {
                hypothesis: _,
                divisor: _,
                quotient: _,
            } => {}
            Step::Sum { multiples: _ } => {}
            Step::Opposite {
                hypothesis: _,
                negation: _,
            } => {}
            Step::Open => {}
        }
    }
}

/// A value that is stored in a column at an index, and another index at which the column is read.
#[derive(Drop)]
pub struct StoredAccess {
    pub column: ColExpr,
    pub index: Term,
    pub value: Term,
    pub other: Term,
}

/// A column that is read at two indexes.
#[derive(Drop)]
pub struct SameAccess {
    pub column: ColExpr,
    pub index: Term,
    pub other: Term,
}

/// A multiple of a hypothesis.
#[derive(Clone, Copy, PartialEq, Eq)]
pub struct Multiple {
    pub hypothesis: i64,
    pub multiplier: i64,
}
