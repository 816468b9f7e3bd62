//! What a formula file says: as trees, as they are read, and with its formulas in a table.
ghost use Rattle.std.specs.Prelude.{◌≡◌, IfOk};
ghost use Rattle.lc_proof_text.specs.Files.{seen_claim, claim_in, AreEntered};

use lc_base::OutOfMemory;
use lc_kernel::{Goal, Hypotheses, Proof};
use lc_table::Terms;
use lc_term::Formula;
use std::alloc::Global;

/// What a formula file says, as it is read.
#[derive(Drop)]
pub(crate) struct ClaimTrees {
    pub(crate) variables: u32,
    pub(crate) hypotheses: Vec<Formula>,
    pub(crate) goal: Formula,
    pub(crate) proof: Proof,
}

/// What a formula file says: a goal, whose formulas are in a table, and its proof.
pub struct FormulaFile {
    pub terms: Terms,
    pub goal: Goal,
    pub proof: Proof,
}

// Written out and not derived, so that dropping it is one call.
impl Drop for FormulaFile {
    fn drop(self) {
        let FormulaFile {
            terms: _,
            goal: _,
            proof: _,
        } = self;
    }
}

/// Enters the goal and the hypotheses of a claim in a new table.
#[tactic(auto, using(lc_table::proofs::Later::are_formulas_still, lc_table::proofs::Later::formulas_still, lc_table::proofs::Later::formula_is))]
pub(crate) fn entered(alloc: Global, claim: ClaimTrees) -> Result<FormulaFile, OutOfMemory>
    ensures numbers { IfOk result AreEntered }
    ensures same { IfOk result (λ file. claim_in file ≡ seen_claim claim) }
{
    let ClaimTrees {
        variables,
        hypotheses,
        goal,
        proof,
    } = claim;
    let mut terms = Terms::new(alloc);
    let formulas = terms.enter_formulas(alloc, &hypotheses)?;
    let goal = terms.enter_formula(alloc, &goal)?;
    let hypotheses = Hypotheses::new(formulas)?;
    let goal = Goal {
        vars: variables,
        hypotheses,
        goal,
    };
    Ok(FormulaFile { terms, goal, proof })
}
