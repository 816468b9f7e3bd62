//! Proofs: what there is at a step, and proofs with other columns.
ghost use Rattle.std.specs.Prelude.{◌≡◌, ◌<◌, ◌+◌, ◌^◌, List, ℕ, IfOk};
ghost use Rattle.lc_kernel.specs.Proofs.{Proof as Steps, size};
ghost use Rattle.lc_kernel.specs.View.{proof_of};
ghost use Rattle.lc_carry.specs.RenamedProofs.{is_covered, renamed};
ghost use Rattle.lc_carry.specs.Renaming.{column_for};
ghost use Rattle.lc_proof_state.specs.Standing.{IsStanding, StandsGoal};
ghost use Rattle.lc_term.specs.Syntax as S;
ghost use Rattle.lc_term.specs.View.{formula_of, formulas_of};

use lc_base::{ColId, OutOfMemory};
use lc_carry::{is_covered, renamed};
use lc_kernel::Proof;
use lc_proof_state::{Standing, stands_at};
use lc_term::Formula;
use std::alloc::Global;

/// What is reported of a step are the variables and hypotheses there, and the part of the proof that begins with it.
pub fn finding_a_step<'a>(
    alloc: Global,
    variables: u32,
    hypotheses: &[Formula],
    goal: &Formula,
    proof: &'a Proof,
    step: u32,
) -> Result<Option<Standing<'a>>, OutOfMemory>
    requires { variables + size (proof_of proof.now) < 2 ^ 32 }
    ensures { IfOk result (λ found. (u : ℕ) (G : List S.Formula) (q : Steps) →
        StandsGoal variables (formulas_of hypotheses.now) (formula_of goal.now) (proof_of proof.entry.now) step u G q → IsStanding u G q found) }
{
    stands_at(alloc, variables, hypotheses, goal, proof, step)
}

/// It is reported exactly whether there is a column in place of each that a proof names.
pub fn covering(columns: &[Option<ColId>], proof: &Proof) -> bool
    ensures { result ≡ is_covered (column_for columns.now) (proof_of proof.now) }
{
    is_covered(columns, proof)
}

/// Each column of a proof is replaced by the one in its place.
pub fn renaming(
    alloc: Global,
    columns: &[Option<ColId>],
    proof: &Proof,
) -> Result<Proof, OutOfMemory>
    ensures { IfOk result (λ made. proof_of made ≡ renamed (column_for columns.now) (proof_of proof.now)) }
{
    renamed(alloc, columns, proof)
}
