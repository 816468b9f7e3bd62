//! The way to a step of a proof.
ghost use Rattle.std.specs.Prelude.{◌≡◌, ◌+◌, ◌<◌, ◌^◌, ◌++◌, [], ◌∷◌, ℕ, List, IfOk, option_map};
ghost use Rattle.lc_term.specs.Syntax as S;
ghost use Rattle.lc_term.specs.View.{formula_of, formulas_of};
ghost use Rattle.lc_kernel.specs.Proofs as P;
ghost use Rattle.lc_kernel.specs.Proofs.{proofs, size};
ghost use Rattle.lc_kernel.specs.View.{proof_of, proofs_of};
ghost use Rattle.lc_proof_state.specs.Standing.{IsStanding, StandsGoal};
ghost use Rattle.lc_proof_state.specs.Walk.{branch_in, spot_at, spot_of, within_of};

use crate::forms::negated;
use crate::opened::opened_at;
use lc_base::OutOfMemory;
use lc_kernel::Proof;
use lc_term::{Formula, copy_formulas};
use std::alloc::Global;

/// What is at a step of a proof.
pub struct Standing<'a> {
    /// How many variables are in use.
    pub variables: u32,
    /// The hypotheses, by their numbers.
    pub hypotheses: Vec<Formula>,
    /// The part of the proof that begins with the step.
    pub proof: &'a Proof,
}

impl Drop for Standing<'_> {
    fn drop(self) {
        let Standing {
            variables: _,
            hypotheses: _,
            proof: _,
        } = self;
    }
}

/// A branch of a step, and a step of its proof.
#[derive(Clone, Copy)]
struct Within<'a> {
    place: usize,
    step: u32,
    proof: &'a Proof,
}

/// The branch that has this step of all.
fn branch_with(branches: &[Proof], step: u32) -> Option<Within<'_>>
    ensures { option_map within_of result ≡ branch_in (proofs (proofs_of branches.now)) 0 step }
{
    let mut left = step;
    for place in 0..branches.len() {
        let proof = &branches[place];
        let steps = proof.step_count();
        if u64::from(left) < steps {
            return Some(Within {
                place,
                step: left,
                proof,
            });
        }
        left -= steps as u32;
    }
    None
}

/// What is at a step of a proof, if its first step has these hypotheses.
#[cycle(standing)]
fn standing_in<'a>(
    alloc: Global,
    hypotheses: Vec<Formula>,
    variables: u32,
    proof: &'a Proof,
    step: u32,
) -> Result<Option<Standing<'a>>, OutOfMemory>
    requires { variables + size (proof_of proof.now) < 2 ^ 32 }
    ensures { IfOk result (λ found. option_map spot_of found ≡ spot_at variables (formulas_of hypotheses.items) (proof_of proof.entry.now) step) }
{
    let Some(below) = step.checked_sub(1) else {
        return Ok(Some(Standing {
            variables,
            hypotheses,
            proof,
        }));
    };
    let Some(within) = branch_with(&proof.branches, below) else {
        return Ok(None);
    };
    let Some(opened) = opened_at(alloc, &hypotheses, variables, &proof.step, within.place)? else {
        return Ok(None);
    };
    let (variables, hypotheses) = opened.behind(hypotheses)?;
    standing_in(alloc, hypotheses, variables, within.proof, within.step)
}

/// The hypotheses of a goal and, as the last of them, the negated goal.
fn assumed(
    alloc: Global,
    hypotheses: &[Formula],
    goal: &Formula,
) -> Result<Vec<Formula>, OutOfMemory>
    ensures { IfOk result (λ all. formulas_of all.items ≡ formulas_of hypotheses.now ++ S.Not (formula_of goal.now) ∷ []) }
{
    let mut all = copy_formulas(alloc, hypotheses)?;
    all.push(negated(alloc, goal)?)?;
    Ok(all)
}

/// What is at a step of a proof of a goal, if the steps before it hold.
///
/// Steps are numbered in preorder, from 0. If no step has the number, or one on the way to it opens no branch, the result may
/// be `None`.
pub fn stands_at<'a>(
    alloc: Global,
    variables: u32,
    hypotheses: &[Formula],
    goal: &Formula,
    proof: &'a Proof,
    step: u32,
) -> Result<Option<Standing<'a>>, OutOfMemory>
    requires { variables + size (proof_of proof.now) < 2 ^ 32 }
    ensures { IfOk result (λ found. (u : ℕ) (G : List S.Formula) (q : P.Proof) →
        StandsGoal variables (formulas_of hypotheses.now) (formula_of goal.now) (proof_of proof.entry.now) step u G q → IsStanding u G q found) }
{
    let assumed = assumed(alloc, hypotheses, goal)?;
    standing_in(alloc, assumed, variables, proof, step)
}
