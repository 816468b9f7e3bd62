//! Developments that are accepted, to be run.
use lc_cert::certificate_text;
use lc_check::{Accepted, Verdict, check};
use lc_find::find;
use lc_hints::hints_of;
use lc_lib::{Lib, certificate, development};
use lc_outline_text::development_of;
use std::alloc::Global;
use std::sync::Arc;
use std::test::Fail;

/// Proof steps that are tried for each condition.
const BUDGET: u64 = 1_000_000;

fn accepted_with(alloc: Global, text: &[u8], certificate: &[u8]) -> Result<Arc<Accepted>, Fail> {
    match check(alloc, text, certificate)? {
        Verdict::Accepted(accepted) => Ok(Arc::new(alloc, accepted)?),
        Verdict::Refused(refusal) => Err(Fail::from(refusal)),
    }
}

/// An object of the library, with its certificate.
pub(crate) fn library(alloc: Global, lib: Lib) -> Result<Arc<Accepted>, Fail> {
    let certificate = certificate(alloc, lib)?;
    accepted_with(alloc, development(lib), &certificate)
}

/// An object of the library, with its certificate, if there is memory for it.
pub(crate) fn library_with_room(alloc: Global, lib: Lib) -> Option<Arc<Accepted>> {
    let certificate = certificate(alloc, lib).ok()?;
    match check(alloc, development(lib), &certificate) {
        Ok(Verdict::Accepted(accepted)) => Arc::new(alloc, accepted).ok(),
        Ok(Verdict::Refused(_)) | Err(_) => None,
    }
}

/// The development of this text, of a counter, with a certificate that is found for it.
pub(crate) fn found(alloc: Global, text: &[u8]) -> Result<Arc<Accepted>, Fail> {
    let development = development_of(alloc, text)?;
    let hints = hints_of(alloc, &development, b"(hints)")?;
    let certificate = find(alloc, &development, &hints, BUDGET)?;
    let certificate = certificate_text(alloc, &development, &certificate)?;
    accepted_with(alloc, text, &certificate)
}
