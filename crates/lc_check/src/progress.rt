//! The first refusal of proofs that come one after another, reported as soon as it is certain.

use crate::proving::Prover;
use crate::walk::Walk;
use lc_base::{Fault, OutOfMemory, Refusal};
use lc_cert::Entry;
use lc_kernel::Proof;
use lc_outline::Development;
use std::alloc::Global;

/// How far the conditions of a development are proved, by proofs whose numbers rise. Each call is given the same development.
pub(crate) struct Progress {
    walk: Walk,
    /// Why the proofs are refused, whatever comes after those that were taken.
    told: Option<Refusal>,
}

impl Drop for Progress {
    fn drop(self) {
        let Progress { walk: _, told: _ } = self;
    }
}

impl Progress {
    ghost use Rattle.std.specs.Prelude.{◌≡◌, ◌≤◌, List, [], ◌∷◌, ◌++◌, true, IfOk, OnOk, Option, None};
    ghost use Rattle.lc_base.specs.Limits.{file_limit};
    ghost use Rattle.lc_kernel.specs.Proofs.{size};
    ghost use Rattle.lc_kernel.specs.View.{proof_of};
    ghost use Rattle.lc_outline.specs.DevelopmentView.{development_view};
    ghost use Rattle.lc_cert.specs.Certificates.{Entry as Proved, is_rising};
    ghost use Rattle.lc_cert.specs.EntryView.{entry_of};
    ghost use Rattle.lc_cond.specs.Conditions.{conditions};
    ghost use Rattle.lc_check.specs.Answers.{CountsAll};
    ghost use Rattle.lc_check.specs.Progress.{IsProgress};
    ghost use Rattle.lc_check.specs.Walking.{HasNext, IsInTurn};

    /// No proof was taken.
    pub(crate) fn new(alloc: Global, development: &Development) -> Result<Progress, OutOfMemory>
        ensures { IfOk result (λ progress. IsProgress (development_view development.now) [] progress) }
    {
        let walk = Walk::new(alloc, development)?;
        Ok(Progress { walk, told: None })
    }

    /// Takes a proof of the next condition.
    fn prove_next<P: Prover>(
        &mut self,
        alloc: Global,
        development: &Development,
        prover: &mut P,
        proof: &Proof,
    ) -> Result<(), OutOfMemory>
        requires in_turn { (taken : List Proved) × IsInTurn (development_view development.now) taken self.old.walk }
        requires untold { self.old.told ≡ None }
        requires stands { HasNext self.old.walk }
        requires steps { size (proof_of proof.now) ≤ file_limit }
        ensures { OnOk result ((taken : List Proved) → IsInTurn (development_view development.now) taken self.old.walk →
            IsProgress (development_view development.now) (taken ++ (record { number = self.old.walk.next; proof = proof_of proof.now } ∷ [])) self.new) }
    {
        match self.walk.prove_next_by(alloc, development, prover, proof) {
            Ok(()) => Ok(()),
            Err(Fault::Refused(refusal)) => {
                self.told = Some(refusal);
                Ok(())
            }
            Err(Fault::OutOfMemory) => Err(OutOfMemory),
        }
    }

    /// Takes a proof, whose number is above those of all that were taken: it proves the next condition, or the reason why the
    /// proofs are refused is noted.
    pub(crate) fn take<P: Prover>(
        &mut self,
        alloc: Global,
        development: &Development,
        prover: &mut P,
        entry: &Entry,
    ) -> Result<(), OutOfMemory>
        requires known { (taken : List Proved) × IsProgress (development_view development.now) taken self.old }
        requires steps { size (proof_of entry.now.proof) ≤ file_limit }
        ensures { OnOk result ((taken : List Proved) → IsProgress (development_view development.now) taken self.old →
            IsProgress (development_view development.now) (taken ++ (entry_of entry.now ∷ [])) self.new) }
    {
        if self.told.is_some() {
            return Ok(());
        }
        if !self.walk.advance(alloc, development)? {
            self.told = Some(Refusal::Extra(entry.number));
            return Ok(());
        }
        if entry.number != self.walk.next {
            self.walk.report_missing(alloc, development, prover);
            self.told = Some(Refusal::Missing(self.walk.next));
            return Ok(());
        }
        self.prove_next(alloc, development, prover, &entry.proof)
    }

    /// How many conditions there are, if those that were taken are all proofs, and each condition is proved, and there is no
    /// other proof; else why they are refused.
    pub(crate) fn answer<P: Prover>(
        &mut self,
        alloc: Global,
        development: &Development,
        prover: &mut P,
    ) -> Result<u64, Fault>
        requires { (taken : List Proved) × IsProgress (development_view development.now) taken self.old }
        ensures { (taken : List Proved) → IsProgress (development_view development.now) taken self.old → is_rising None taken ≡ true →
            CountsAll taken (conditions (development_view development.now)) result }
    {
        if let Some(refusal) = self.told {
            return Err(Fault::Refused(refusal));
        }
        if self.walk.advance(alloc, development)? {
            self.walk.report_missing(alloc, development, prover);
            return Err(Fault::Refused(Refusal::Missing(self.walk.next)));
        }
        Ok(self.walk.next)
    }
}
