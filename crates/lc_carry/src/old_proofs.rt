//! Proofs of the old development, by what conditions say.
use crate::columns::columns_between;
use crate::numbers::{Old, numbers_of};
use crate::proof::renamed;
use crate::text_numbers::TextNumbers;
use lc_base::{ColId, OutOfMemory};
use lc_cert::Certificate;
use lc_kernel::Proof;
use lc_outline::Development;
use std::alloc::Global;

/// The proofs of an old development that can be carried to a new one.
pub(crate) struct OldProofs<'a> {
    certificate: &'a Certificate,
    columns: Vec<Option<ColId>>,
    numbers: TextNumbers,
}

impl Drop for OldProofs<'_> {
    fn drop(self) {
        let OldProofs {
            certificate: _,
            columns: _,
            numbers: _,
        } = self;
    }
}

impl<'a> OldProofs<'a> {
    ghost use Rattle.std.specs.Prelude.{◌≡◌, ℕ, List, IfOk, option_map};
    ghost use Rattle.lc_carry.specs.Carried.{carried_proof};
    ghost use Rattle.lc_carry.specs.OldProofs.{proof_for};
    ghost use Rattle.lc_cert.specs.CertificateView.{entries_in};
    ghost use Rattle.lc_kernel.specs.View.{proof_of};
    ghost use Rattle.lc_outline.specs.DevelopmentView.{development_view};

    /// The proofs of an old development, whose certificate this is, that can be carried to a new one.
    pub(crate) fn new(
        alloc: Global,
        old: &Development,
        certificate: &'a Certificate,
        new: &Development,
    ) -> Result<OldProofs<'a>, OutOfMemory>
        ensures { IfOk result (λ proofs. (t : List ℕ) → proof_for proofs t ≡ carried_proof (development_view old.now) (entries_in certificate.now) (development_view new.now) t) }
    {
        let columns = columns_between(alloc, old, new)?;
        let numbers = numbers_of(
            alloc,
            &Old {
                development: old,
                certificate,
                columns: &columns,
            },
        )?;
        Ok(OldProofs {
            certificate,
            columns,
            numbers,
        })
    }

    /// The proof that is carried to a condition that says this, if there is one.
    pub(crate) fn proof(&self, alloc: Global, text: &[u8]) -> Result<Option<Proof>, OutOfMemory>
        ensures { IfOk result (λ proof. option_map proof_of proof ≡ proof_for self.now text.now) }
    {
        let Some(number) = self.numbers.number(alloc, text)? else {
            return Ok(None);
        };
        let Some(proof) = self.certificate.proof(number) else {
            return Ok(None);
        };
        Ok(Some(renamed(alloc, &self.columns, proof)?))
    }
}
