//! Certificates of a new development, from the proofs of an old one and from what is found.
ghost use Rattle.std.specs.Prelude.{◌++◌, IfOk};
ghost use Rattle.lc_carry.specs.Carried.{carried};
ghost use Rattle.lc_cert.specs.CertificateView.{entries_in};
ghost use Rattle.lc_check.specs.VerdictView.{development_in};
ghost use Rattle.lc_find.specs.Certified.{IsCertifiedBy};
ghost use Rattle.lc_find.specs.Found.{Finds};
ghost use Rattle.lc_find.specs.GetsCarried.{GetsCarried};
ghost use Rattle.lc_hints.specs.HintView.{proofs_in};
ghost use Rattle.lc_outline.specs.DevelopmentView.{development_view};

use crate::fault::FindFault;
use crate::finding::find_beside;
use crate::progress::{Progress, Silent};
use lc_carry::carried_entries;
use lc_carry::laws::{carried_proofs_derive, the_least_is_carried};
use lc_cert::laws::a_certificate_is_read_or_refused;
use lc_cert::{Certificate, Entry};
use lc_check::Accepted;
use lc_hints::Hints;
use lc_outline::Development;
use std::alloc::Global;

/// Finds a certificate of a new development, with the proofs of an accepted one, whose certificate this is. A condition that
/// says what an old one says is tried with the proof of that one, with the new development's columns of the same names: of the
/// least such old condition whose proof names only columns that there are. The others get proofs as by `find`.
///
/// If no two columns of the old development have one name, and the condition is the same but for the columns' numbers, that
/// proof holds and is in the certificate.
///
/// `certificate_text` of what is found is accepted by `check`, with any text of the new development. Faults are as of `find`.
pub fn carry(
    alloc: Global,
    accepted: &Accepted,
    certificate: &Certificate,
    development: &Development,
    hints: &Hints,
    budget: u64,
) -> Result<Certificate, FindFault>
    requires { IsCertifiedBy (development_in accepted.now) (entries_in certificate.now) }
    ensures finds { let E = development_view development.now in
        Finds E (carried (development_in accepted.now) (entries_in certificate.now) E ++ proofs_in hints.now) budget result }
    ensures gets { IfOk result (λ c. GetsCarried (development_in accepted.now) (entries_in certificate.now) (development_view development.now) (entries_in c)) }
{
    carry_with(
        alloc,
        accepted,
        certificate,
        development,
        hints,
        budget,
        &mut Silent,
    )
}

/// Says which conditions have carried proofs.
fn tell_carried<P: Progress>(carried: &[Entry], progress: &mut P) {
    for entry in carried {
        progress.carried(entry.number);
    }
}

/// As `carry`, and says which conditions have carried proofs, and how far it is: the number of each new condition, before a proof of it
/// is looked for.
pub fn carry_with<P: Progress>(
    alloc: Global,
    accepted: &Accepted,
    certificate: &Certificate,
    development: &Development,
    hints: &Hints,
    budget: u64,
    progress: &mut P,
) -> Result<Certificate, FindFault>
    requires { IsCertifiedBy (development_in accepted.now) (entries_in certificate.now) }
    ensures finds { let E = development_view development.now in
        Finds E (carried (development_in accepted.now) (entries_in certificate.now) E ++ proofs_in hints.now) budget result }
    ensures gets { IfOk result (λ c. GetsCarried (development_in accepted.now) (entries_in certificate.now) (development_view development.now) (entries_in c)) }
{
    a_certificate_is_read_or_refused();
    the_least_is_carried();
    carried_proofs_derive();
    let carried = carried_entries(alloc, accepted.development(), certificate, development)?;
    tell_carried(&carried, progress);
    find_beside(alloc, development, &carried, hints, budget, progress)
}
