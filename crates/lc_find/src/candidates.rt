//! The proofs that are tried for a condition before one is sought: those that are given beside the hints, then those of the hints.
use crate::first_proofs::FirstProofs;
use lc_base::OutOfMemory;
use lc_cert::Entry;
use lc_kernel::Proof;
use std::alloc::Global;

/// Proofs that are given, followed by those of the hints.
pub(crate) struct Candidates<'a> {
    given: FirstProofs<'a>,
    hinted: FirstProofs<'a>,
}

impl Drop for Candidates<'_> {
    fn drop(self) {
        let Candidates {
            given: _,
            hinted: _,
        } = self;
    }
}

impl<'a> Candidates<'a> {
    ghost use Rattle.std.specs.Prelude.{◌≡◌, ◌++◌, IfOk, option_map};
    ghost use Rattle.lc_kernel.specs.View.{proof_of};
    ghost use Rattle.lc_cert.specs.Certificates.{proof_at};
    ghost use Rattle.lc_cert.specs.EntryView.{entries_of};
    ghost use Rattle.lc_find.specs.FirstView.{all_of};

    /// These proofs, those that are given before those of the hints.
    pub(crate) fn new(
        alloc: Global,
        given: &'a [Entry],
        hinted: &'a [Entry],
    ) -> Result<Candidates<'a>, OutOfMemory>
        ensures { IfOk result (λ first. all_of first ≡ entries_of given.now ++ entries_of hinted.now) }
    {
        let given = FirstProofs::new(alloc, given)?;
        let hinted = FirstProofs::new(alloc, hinted)?;
        Ok(Candidates { given, hinted })
    }

    /// The first proof of a number, if there is one.
    pub(crate) fn first(&self, number: u64) -> Option<&Proof>
        ensures { option_map (λ p. proof_of p.now) result ≡ proof_at (all_of self.now) number }
    {
        match self.given.first(number) {
            Some(proof) => Some(proof),
            None => self.hinted.first(number),
        }
    }
}
