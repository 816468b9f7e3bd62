//! How a proof is checked against a goal: step by step, in preorder.
ghost use Rattle.std.specs.Prelude.{◌≡◌, ◌+◌, ◌<◌, ◌^◌, IsTrue, IfOk};
ghost use Rattle.lc_kernel.specs.Answers.{Proves};
ghost use Rattle.lc_kernel.specs.Below.{all_below, formula_below};
ghost use Rattle.lc_kernel.specs.Proofs.{size};
ghost use Rattle.lc_kernel.specs.View.{proof_of};
ghost use Rattle.lc_term.specs.Meaning.{Valid};
ghost use Rattle.lc_table.specs.Tables.{formula_in, formulas_in, IsFormula, AreFormulas, Keeps};

use crate::check::check;
use crate::fault::ProofFault;
use crate::goal::Goal;
use crate::proof::Proof;
use lc_table::Terms;
use std::alloc::Global;

// The room for formulas after the hypotheses of a goal: the negated goal, and what the first steps of a proof
// append. So most proofs are checked without a longer list.
const ROOM: usize = 16;

/// Checks that a proof derives a goal: its steps hold one after the other, from the hypotheses and, as the last of
/// them, the negated goal.
///
/// The variables of the goal are below its count of variables, and that count and the number of the proof's steps
/// are together at most 4,294,967,295. `Ok` is returned exactly for derivations, and then the hypotheses imply the
/// goal; `Bad` and `Large` name the first step, in preorder, that does not hold. Formulas that steps make are entered
/// in the table of the goal. Reads and appends of a step cost what they touch: branches share the hypotheses they have
/// in common, and those of the goal are not copied. The stack that is needed grows with the nesting of the proof.
#[tactic(auto, using(lc_table::proofs::Later::kept_on, lc_table::proofs::Later::keeps_itself))]
pub fn prove(terms: &mut Terms, alloc: Global, goal: &Goal, proof: &Proof) -> Result<(), ProofFault>
    requires numbers { AreFormulas terms.old goal.now.hypotheses × IsFormula terms.old goal.now.goal }
    requires hypotheses { IsTrue (all_below goal.now.vars (formulas_in terms.old goal.now.hypotheses)) }
    requires goal { IsTrue (formula_below goal.now.vars (formula_in terms.old goal.now.goal)) }
    requires steps { goal.now.vars + size (proof_of proof.now) < 2 ^ 32 }
    ensures table { Keeps terms.old terms.new }
    ensures exactly { Proves goal.now.vars (formulas_in terms.old goal.now.hypotheses) (formula_in terms.old goal.now.goal) (proof_of proof.now) result }
    ensures valid { IfOk result (λ _. Valid (formulas_in terms.old goal.now.hypotheses) (formula_in terms.old goal.now.goal)) }
{
    let negated = terms.not(goal.goal)?;
    let mut appended = Vec::with_capacity(alloc, ROOM)?;
    appended.push(negated)?;
    let given = goal.hypotheses.as_slice();
    check(alloc, terms, given, proof, &mut appended, goal.vars, 0)?;
    Ok(())
}
