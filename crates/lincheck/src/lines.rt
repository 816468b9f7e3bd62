//! The command `show` with `--lines`: a development over lines.
ghost use Rattle.std.specs.Prelude.{ℕ, List, IfOk, IsErr};
ghost use Rattle.lc_sexp.specs.Pieces.{WasFed};
ghost use Rattle.lincheck.specs.Lines.{AnswersLines, LaysOut};
ghost use Rattle.lincheck.specs.Reading.{OfFile};

use crate::answer::{Answer, Failure, SUCCESS, told_fault};
use crate::files::Files;
use crate::reading::feed_forms;
use lc_base::Fault;
use lc_layout::lay_out;
use lc_outline_text::development_in;
use lc_sexp::FormsReader;
use std::alloc::Global;

/// The file that a reader was fed, laid out, if it says a development; else its first refusal.
fn laid_out_fed(alloc: Global, reader: FormsReader) -> Result<Vec<u8>, Fault>
    ensures { (bytes : List ℕ) → WasFed reader bytes → LaysOut (λ text. text.items) bytes result }
{
    let forms = reader.finish()?;
    // The development goes before the text is made, so that both need not be held.
    development_in(alloc, &forms)?;
    Ok(lay_out(alloc, forms.cursor())?)
}

/// The answer of the command `show` with `--lines` to the file at a path: its forms over lines, if it says a development.
pub fn answer_lines<'a, F: Files>(
    alloc: Global,
    files: &mut F,
    path: &'a str,
) -> Result<Answer, Failure<'a>>
    ensures unread { F.CannotOpen files.old path.now → IsErr result }
    ensures answers { IfOk result (λ answer. OfFile (F.bytes_at files.old path.now) (λ file. AnswersLines file answer.text.items answer.status)) }
{
    let reader = feed_forms(alloc, files, path)?;
    match laid_out_fed(alloc, reader) {
        Ok(text) => Ok(Answer {
            text,
            status: SUCCESS,
            why: None,
        }),
        Err(fault) => Ok(told_fault(alloc, fault)?),
    }
}
