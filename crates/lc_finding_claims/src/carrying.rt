//! Proofs that are carried, and certificates that are found with them.
ghost use Rattle.std.specs.Prelude.{◌≡◌, ◌++◌, IfOk};
ghost use Rattle.lc_carry.specs.Carried.{carried};
ghost use Rattle.lc_cert.specs.CertificateView.{entries_in};
ghost use Rattle.lc_cert.specs.Certificates.{HaveFewSteps};
ghost use Rattle.lc_cert.specs.EntryView.{entries_of};
ghost use Rattle.lc_check.specs.VerdictView.{development_in};
ghost use Rattle.lc_find.specs.Certified.{IsCertifiedBy};
ghost use Rattle.lc_find.specs.Found.{Finds};
ghost use Rattle.lc_find.specs.GetsCarried.{GetsCarried};
ghost use Rattle.lc_hints.specs.HintView.{proofs_in};
ghost use Rattle.lc_outline.specs.DevelopmentView.{development_view};

use lc_base::OutOfMemory;
use lc_carry::carried_entries;
use lc_cert::{Certificate, Entry};
use lc_check::Accepted;
use lc_find::{FindFault, Hints, carry};
use lc_outline::Development;
use std::alloc::Global;

/// The proofs that are carried from an old development to a new one are exactly those that are defined.
pub fn carrying_proofs(
    alloc: Global,
    old: &Development,
    certificate: &Certificate,
    development: &Development,
) -> Result<Vec<Entry>, OutOfMemory>
    ensures exactly { IfOk result (λ entries. entries_of entries.items ≡ carried (development_view old.now) (entries_in certificate.now) (development_view development.now)) }
    ensures few { HaveFewSteps (entries_in certificate.now) → IfOk result (λ entries. HaveFewSteps (entries_of entries.items)) }
{
    carried_entries(alloc, old, certificate, development)
}

/// Proofs of an old certificate are tried before the hints, and are taken at conditions that stay the same.
pub fn carrying(
    alloc: Global,
    accepted: &Accepted,
    certificate: &Certificate,
    development: &Development,
    hints: &Hints,
    budget: u64,
) -> Result<Certificate, FindFault>
    requires { IsCertifiedBy (development_in accepted.now) (entries_in certificate.now) }
    ensures finds { let E = development_view development.now in
        Finds E (carried (development_in accepted.now) (entries_in certificate.now) E ++ proofs_in hints.now) budget result }
    ensures gets { IfOk result (λ c. GetsCarried (development_in accepted.now) (entries_in certificate.now) (development_view development.now) (entries_in c)) }
{
    carry(alloc, accepted, certificate, development, hints, budget)
}
