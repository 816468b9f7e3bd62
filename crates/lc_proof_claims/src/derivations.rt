//! Derivations: which proofs are accepted, and what `prove` asks.
ghost use Rattle.std.specs.Prelude.{◌≡◌, ◌≤◌, ◌<◌, ◌+◌, ◌-◌, ◌^◌, ◌&&◌, IfOk, IsTrue, length, min, take};
ghost use Rattle.lc_kernel.specs.Answers.{Proves};
ghost use Rattle.lc_kernel.specs.Below.{all_below, formula_below};
ghost use Rattle.lc_kernel.specs.Proofs.{size};
ghost use Rattle.lc_kernel.specs.View.{proof_of};
ghost use Rattle.lc_table.specs.Tables.{AreFormulas, IsFormula, formula_in, formulas_in};
ghost use Rattle.lc_term.specs.Meaning.{Valid};

use lc_base::OutOfMemory;
use lc_kernel::{Goal, Hypotheses, Proof, ProofFault, prove};
use lc_table::Terms;
use std::alloc::Global;

/// A proof is accepted exactly if it derives its goal, which is valid then; else the first step that does not hold is reported.
pub fn proving(
    terms: &mut Terms,
    alloc: Global,
    goal: &Goal,
    proof: &Proof,
) -> Result<(), ProofFault>
    requires numbers { AreFormulas terms.old goal.now.hypotheses × IsFormula terms.old goal.now.goal }
    requires hypotheses { IsTrue (all_below goal.now.vars (formulas_in terms.old goal.now.hypotheses)) }
    requires goal { IsTrue (formula_below goal.now.vars (formula_in terms.old goal.now.goal)) }
    requires steps { goal.now.vars + size (proof_of proof.now) < 2 ^ 32 }
    ensures exactly { Proves goal.now.vars (formulas_in terms.old goal.now.hypotheses) (formula_in terms.old goal.now.goal) (proof_of proof.now) result }
    ensures valid { IfOk result (λ _. Valid (formulas_in terms.old goal.now.hypotheses) (formula_in terms.old goal.now.goal)) }
{
    prove(terms, alloc, goal, proof)
}

/// It is reported exactly whether each free variable of a goal is one of its own.
pub fn looking_at_variables(goal: &Goal, alloc: Global, terms: &Terms) -> Result<bool, OutOfMemory>
    requires hypotheses { AreFormulas terms.now goal.now.hypotheses }
    requires goal { IsFormula terms.now goal.now.goal }
    ensures { IfOk result (λ yes'. yes' ≡ (all_below goal.now.vars (formulas_in terms.now goal.now.hypotheses) && formula_below goal.now.vars (formula_in terms.now goal.now.goal))) }
{
    goal.uses_its_variables(alloc, terms)
}

/// The first hypotheses are `count` of them.
pub fn sharing_the_first(hypotheses: &Hypotheses, count: usize) -> Result<Hypotheses, OutOfMemory>
    requires { count ≤ length hypotheses.now }
    ensures { IfOk result (λ first. first ≡ take count hypotheses.now) }
{
    hypotheses.first(count)
}

/// Each step of a proof is counted.
pub fn counting_steps(proof: &Proof) -> u64
    ensures { result ≡ min (size (proof_of proof.now)) (2 ^ 64 - 1) }
{
    proof.step_count()
}
