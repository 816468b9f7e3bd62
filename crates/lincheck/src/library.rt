//! The command `library`.
ghost use Rattle.std.specs.Prelude.{◌≡◌, IfOk};
ghost use Rattle.lincheck.specs.Library.{AnswersCertificateOf, AnswersLibrary};

use crate::answer::{Answer, SUCCESS};
use crate::prove::told_unfound;
use lc_base::OutOfMemory;
use lc_lib::{FindFault, certificate};
use lc_lib_texts::{Lib, development, hints};
use lc_words::LibraryText;
use std::alloc::{AllocError, Global};

/// A text of the library, as it is.
fn told_text(alloc: Global, text: &[u8]) -> Result<Answer, AllocError>
    ensures { IfOk result (λ answer. (answer.text.items ≡ text.now) × (answer.status ≡ 0)) }
{
    Ok(Answer {
        text: text.to_vec(alloc)?,
        status: SUCCESS,
        why: None,
    })
}

/// The certificate that the hints of an object make; else the line that names a condition.
fn answer_certificate(alloc: Global, lib: Lib) -> Result<Answer, OutOfMemory>
    ensures { IfOk result (λ answer. AnswersCertificateOf lib answer.text.items answer.status) }
{
    match certificate(alloc, lib) {
        Ok(text) => Ok(Answer {
            text,
            status: SUCCESS,
            why: None,
        }),
        Err(FindFault::NotFound(number)) => told_unfound(alloc, "not-found", number),
        Err(FindFault::Budget(number)) => told_unfound(alloc, "budget", number),
        Err(FindFault::Large(number)) => told_unfound(alloc, "large", number),
        Err(FindFault::OutOfMemory) => Err(OutOfMemory),
    }
}

/// The answer of the command `library`: the text of an object that is asked for.
pub fn answer_library(alloc: Global, lib: Lib, text: LibraryText) -> Result<Answer, OutOfMemory>
    ensures { IfOk result (λ answer. AnswersLibrary lib text answer.text.items answer.status) }
{
    match text {
        LibraryText::Development => Ok(told_text(alloc, development(lib))?),
        LibraryText::Certificate => answer_certificate(alloc, lib),
        LibraryText::Hints => Ok(told_text(alloc, hints(lib))?),
    }
}
