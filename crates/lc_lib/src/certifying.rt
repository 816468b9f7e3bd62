//! The certificates of the library's objects, made of their hints.
ghost use Rattle.std.specs.Prelude.{IfOk};
ghost use Rattle.lc_outline.specs.Development.{Development as Shown};
ghost use Rattle.lc_outline.specs.DevelopmentView.{development_view};
ghost use Rattle.lc_check.specs.Verdicts.{IsAccepted};
ghost use Rattle.lc_hints.specs.HintView.{proofs_in};
ghost use Rattle.lc_lib.specs.Certified.{AreReadHints, IsByProofs, IsCertificateAnswer, IsReadDevelopment};
ghost use Rattle.lc_lib_texts.specs.Texts.{development_bytes};

use lc_base::{Fault, OutOfMemory};
use lc_cert::certificate_text;
use lc_find::{FindFault, find};
use lc_hints::{Hints, hints_of};
use lc_lib_texts::{Lib, development, hints};
use lc_outline::Development;
use lc_outline_text::development_of;
use std::alloc::Global;

/// The development of an object.
fn read_development(alloc: Global, lib: Lib) -> Result<Development, FindFault>
    ensures { IsReadDevelopment lib result }
{
    match development_of(alloc, development(lib)) {
        Ok(development) => Ok(development),
        Err(Fault::Refused(_)) => Err(FindFault::NotFound(0)),
        Err(Fault::OutOfMemory) => Err(FindFault::OutOfMemory),
    }
}

/// The hints of an object, for its development.
fn read_hints(alloc: Global, lib: Lib, development: &Development) -> Result<Hints, FindFault>
    ensures { AreReadHints lib (development_view development.now) result }
{
    match hints_of(alloc, development, hints(lib)) {
        Ok(hints) => Ok(hints),
        Err(Fault::Refused(_)) => Err(FindFault::NotFound(0)),
        Err(Fault::OutOfMemory) => Err(FindFault::OutOfMemory),
    }
}

/// The text of the certificate of a development that the proofs of its hints make. Nothing is sought.
fn certificate_by(
    alloc: Global,
    development: &Development,
    hints: &Hints,
) -> Result<Vec<u8>, FindFault>
    ensures { IsByProofs (development_view development.now) (proofs_in hints.now) result }
{
    let certificate = match find(alloc, development, hints, 0) {
        Ok(certificate) => certificate,
        Err(fault) => return Err(fault),
    };
    match certificate_text(alloc, development, &certificate) {
        Ok(text) => Ok(text),
        Err(OutOfMemory) => Err(FindFault::OutOfMemory),
    }
}

/// The text of the certificate of an object's development, which its hints make: `check` accepts it with the text of the
/// development, so the object is linearizable by its specification.
///
/// `NotFound(0)` says that a text of the library is no development or no hints, and `Budget(k)` that the hints do not prove
/// the condition k, or are too large. That neither is so is shown by running it.
pub fn certificate(alloc: Global, lib: Lib) -> Result<Vec<u8>, FindFault>
    ensures accepted { IfOk result (λ text. (D : Shown) × IsAccepted (development_bytes lib) text.items D) }
    ensures exactly { IsCertificateAnswer lib result }
{
    let development = match read_development(alloc, lib) {
        Ok(development) => development,
        Err(fault) => return Err(fault),
    };
    let hints = match read_hints(alloc, lib, &development) {
        Ok(hints) => hints,
        Err(fault) => return Err(fault),
    };
    certificate_by(alloc, &development, &hints)
}
