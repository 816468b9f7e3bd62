//! Certificates that are found, and those of the library.
ghost use Rattle.std.specs.Prelude.{IfOk};
ghost use Rattle.lc_check.specs.Verdicts.{IsAccepted};
ghost use Rattle.lc_find.specs.Found.{Finds};
ghost use Rattle.lc_hints.specs.HintView.{proofs_in};
ghost use Rattle.lc_lib.specs.Certified.{IsCertificateAnswer};
ghost use Rattle.lc_lib_texts.specs.Texts.{development_bytes};
ghost use Rattle.lc_outline.specs.Development.{Development as Shown};
ghost use Rattle.lc_outline.specs.DevelopmentView.{development_view};

use lc_cert::{Certificate, Entry};
use lc_find::{FindFault, Hints, find};
use lc_lib::{Lib, certificate};
use lc_outline::Development;
use std::alloc::Global;

/// A certificate that is found is accepted, and has the first hint of each condition, if that holds; a fault names the first
/// condition without a proof.
pub fn finding(
    alloc: Global,
    development: &Development,
    hints: &Hints,
    budget: u64,
) -> Result<Certificate, FindFault>
    ensures { Finds (development_view development.now) (proofs_in hints.now) budget result }
{
    find(alloc, development, hints, budget)
}

/// The certificate of an object of the library is accepted, and is the one that its hints make.
pub fn certifying(alloc: Global, lib: Lib) -> Result<Vec<u8>, FindFault>
    ensures accepted { IfOk result (λ text. (D : Shown) × IsAccepted (development_bytes lib) text.items D) }
    ensures exactly { IsCertificateAnswer lib result }
{
    certificate(alloc, lib)
}
