//! A caller of lc_find.
ghost use Rattle.std.specs.Prelude.{IfOk};
ghost use Rattle.lc_check.specs.Verdicts.{IsProvenBy};
ghost use Rattle.lc_outline.specs.DevelopmentView.{development_view};

use lc_cert::certificate_text;
use lc_find::{FindFault, Hints, find};
use lc_outline::Development;
use std::alloc::Global;

/// A certificate of `development`, found without hints: a text that `check` accepts with any text of the development.
pub fn found_certificate(alloc: Global, development: &Development) -> Result<Vec<u8>, FindFault>
    ensures { IfOk result (λ text. IsProvenBy (development_view development.now) text.items) }
{
    let certificate = find(alloc, development, &Hints::new(alloc), 1_000_000)?;
    Ok(certificate_text(alloc, development, &certificate)?)
}
