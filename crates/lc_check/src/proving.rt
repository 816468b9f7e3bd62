//! Whether a proof proves a condition.
ghost use Rattle.std.specs.Prelude.{◌≡◌, ◌≤◌};
ghost use Rattle.lc_base.specs.Limits.{file_limit};
ghost use Rattle.lc_table.specs.Tables.{Keeps};
ghost use Rattle.lc_kernel.specs.Proofs.{size};
ghost use Rattle.lc_kernel.specs.View.{proof_of};
ghost use Rattle.lc_cond.specs.ConditionView.{condition_in, IsCondition};
ghost use Rattle.lc_check.specs.Answers.{IsBounded, fault_of, ProvesOne};

use lc_base::{Fault, Refusal};
use lc_cond::Condition;
use lc_kernel::{Proof, ProofFault, prove};
use lc_outline::Development;
use lc_table::Terms;
use std::alloc::Global;

/// The fault of the proof of the condition of this number.
fn fault_of(number: u64, fault: ProofFault) -> Fault
    ensures { result ≡ fault_of number fault }
{
    match fault {
        ProofFault::Bad { step, reason } => {
            let reason = reason.code();
            Fault::Refused(Refusal::Proof(number, u64::from(step), reason))
        }
        ProofFault::Large { step } => Fault::Refused(Refusal::Large(number, u64::from(step))),
        ProofFault::OutOfMemory => Fault::OutOfMemory,
    }
}

/// Whether the proof derives the condition of this number.
pub fn prove_one(
    alloc: Global,
    terms: &mut Terms,
    number: u64,
    condition: &Condition,
    proof: &Proof,
) -> Result<(), Fault>
    requires known { IsCondition terms.old condition.now }
    requires bounded { IsBounded (condition_in terms.old condition.now) }
    requires steps { size (proof_of proof.now) ≤ file_limit }
    ensures exactly { ProvesOne number (condition_in terms.old condition.now) (proof_of proof.now) result }
    ensures kept { Keeps terms.old terms.new }
{
    match prove(terms, alloc, &condition.goal, proof) {
        Ok(()) => Ok(()),
        Err(fault) => Err(fault_of(number, fault)),
    }
}

/// Finds out whether proofs prove conditions, as `prove_one` says of each.
pub trait Prover {
    ghost use Rattle.std.specs.Prelude.{◌≡◌, ◌≤◌};
    ghost use Rattle.lc_table.specs.Tables.{Keeps};
    ghost use Rattle.lc_kernel.specs.Proofs.{size};
    ghost use Rattle.lc_kernel.specs.View.{proof_of};
    ghost use Rattle.lc_cond.specs.ConditionView.{condition_in, IsCondition};
    ghost use Rattle.lc_check.specs.Answers.{IsBounded, ProvesOne};

    /// Whether the proof derives the condition of this number of a development.
    fn prove(
        &mut self,
        alloc: Global,
        development: &Development,
        terms: &mut Terms,
        number: u64,
        condition: &Condition,
        proof: &Proof,
    ) -> Result<(), Fault>
        requires known { IsCondition terms.old condition.now }
        requires bounded { IsBounded (condition_in terms.old condition.now) }
        requires steps { size (proof_of proof.now) ≤ file_limit }
        ensures exactly { ProvesOne number (condition_in terms.old condition.now) (proof_of proof.now) result }
        ensures kept { Keeps terms.old terms.new };

    /// Takes note of the condition of this number of a development, the first one of which there is no proof. By default nothing is done.
    fn miss(
        &mut self,
        alloc: Global,
        development: &Development,
        terms: &Terms,
        number: u64,
        condition: &Condition,
    )
        requires { IsCondition terms.now condition.now }
    {}
}

/// Calls `prove_one`, and does nothing else.
#[derive(Clone, Copy)]
pub struct Alone;

impl Prover for Alone {
    fn prove(
        &mut self,
        alloc: Global,
        _development: &Development,
        terms: &mut Terms,
        number: u64,
        condition: &Condition,
        proof: &Proof,
    ) -> Result<(), Fault> {
        prove_one(alloc, terms, number, condition, proof)
    }
}
