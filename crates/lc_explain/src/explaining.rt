//! What is said of a refused file.
ghost use Rattle.std.specs.Prelude.{MatchOption, IfOk};
ghost use Rattle.lc_explain.specs.Told.{IsExplanation, TellsNoPlace};

use crate::kind::FileKind;
use crate::label::Label;
use crate::locating::located;
use crate::place::told_place;
use crate::wording::sentence_of;
use lc_base::{OutOfMemory, Refusal};
use std::alloc::Global;

/// Where and why a file of s-expressions is refused, with its line, if the refusal has an offset or an item of it: the codes 1
/// to 8. `kind` is what the file is read as, and `path` how the user calls it.
pub fn explanation(
    alloc: Global,
    path: &str,
    kind: FileKind,
    bytes: &[u8],
    refusal: &Refusal,
) -> Result<Option<Vec<u8>>, OutOfMemory>
    ensures { IfOk result (λ told. MatchOption told (TellsNoPlace refusal.now) (λ text. IsExplanation path.now bytes.now refusal.now text.items)) }
{
    let Some(place) = told_place(bytes, refusal) else {
        return Ok(None);
    };
    let sentence = sentence_of(kind, bytes, refusal, place);
    let sentence = format!(in alloc; "{sentence}")?;
    let text = located(alloc, path, bytes, place, Label::Error, &sentence)?;
    Ok(Some(text))
}
