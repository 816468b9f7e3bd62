//! A caller of lc_check.
ghost use Rattle.std.specs.Prelude.{IfOk, IfSome};
ghost use Rattle.lc_check.specs.VerdictView.{development_in};
ghost use Rattle.lc_outline_text.specs.Developments.{file_reading};
ghost use Rattle.lc_reading.specs.Files.{Says};
ghost use Rattle.lc_sound.specs.Linearizable.{IsLinearizableObject};

use lc_base::OutOfMemory;
use lc_check::{Accepted, Verdict, check};
use std::alloc::Global;

/// The development that the file `development` says, if the file `certificate` proves that its object is linearizable.
pub fn proved_development(
    alloc: Global,
    development: &[u8],
    certificate: &[u8],
) -> Result<Option<Accepted>, OutOfMemory>
    ensures said { IfOk result (λ found. IfSome found (λ accepted. Says file_reading development.now (development_in accepted))) }
    ensures linearizable { IfOk result (λ found. IfSome found (λ accepted. let D = development_in accepted in IsLinearizableObject D.specification D.object)) }
{
    match check(alloc, development, certificate)? {
        Verdict::Accepted(accepted) => Ok(Some(accepted)),
        Verdict::Refused(_) => Ok(None),
    }
}
