//! The command `prove`.
ghost use Rattle.std.specs.Prelude.{◌≡◌, ℕ, List, ◌∷◌, [], IfOk, IsErr};
ghost use Rattle.lc_sexp.specs.Pieces.{WasFed};
ghost use Rattle.lc_base.specs.Line.{line_of};
ghost use Rattle.lc_term.specs.Lists.{Every};
ghost use Rattle.lc_cert.specs.Printed.{EntryReadsBack};
ghost use Rattle.lc_hints.specs.Files.{IsAnswerTo};
ghost use Rattle.lc_hints.specs.HintView.{proofs_in};
ghost use Rattle.lc_outline.specs.DevelopmentView.{development_view};
ghost use Rattle.lc_words.specs.Tasks.{ProveWithHints, path_in, proving};
ghost use Rattle.lincheck.specs.Execution.{AnswersTask, IsUnread};
ghost use Rattle.lincheck.specs.Prove.{AnswersFound, AnswersHinted, AnswersHints, AnswersProve, OpensHints, ToldFound};
ghost use Rattle.lincheck.specs.Reading.{OfFile};

use crate::answer::{Answer, Failure, REFUSED, SUCCESS, Why, told_fault};
use crate::check::open_development;
use crate::files::Files;
use crate::reading::feed_forms;
use crate::telling::Telling;
use lc_base::{Fault, OutOfMemory, write_line};
use lc_cert::{Certificate, certificate_text};
use lc_find::{FindFault, find_with};
use lc_hints::{Hints, hints_in};
use lc_outline::Development;
use lc_sexp::FormsReader;
use std::alloc::Global;
use std::io::Write;

/// How many steps are tried for a condition.
pub const BUDGET: u64 = 1_000_000;

/// The line of a word and a condition's number.
pub fn told_unfound(alloc: Global, word: &str, number: u64) -> Result<Answer, OutOfMemory>
    ensures { IfOk result (λ answer. (answer.text.items ≡ line_of word.now (number ∷ [])) × (answer.status ≡ 1)) }
{
    Ok(Answer {
        text: write_line(alloc, word, &[number])?,
        status: REFUSED,
        why: Some(Why::Unfound(number)),
    })
}

/// A certificate as its text; else the line that names the first condition without a proof.
pub fn told_found(
    alloc: Global,
    development: &Development,
    found: &Result<Certificate, FindFault>,
) -> Result<Answer, OutOfMemory>
    ensures { IfOk result (λ answer. ToldFound (development_view development.now) found.now answer.text.items answer.status) }
{
    match found {
        Ok(certificate) => Ok(Answer {
            text: certificate_text(alloc, development, certificate)?,
            status: SUCCESS,
            why: None,
        }),
        Err(FindFault::NotFound(number)) => told_unfound(alloc, "not-found", *number),
        Err(FindFault::Budget(number)) => told_unfound(alloc, "budget", *number),
        Err(FindFault::Large(number)) => told_unfound(alloc, "large", *number),
        Err(FindFault::OutOfMemory) => Err(OutOfMemory),
    }
}

/// The answer of the finder with these hints.
fn answer_found<E: Write>(
    alloc: Global,
    development: &Development,
    hints: &Hints,
    telling: &mut Telling<'_, E>,
) -> Result<Answer, OutOfMemory>
    requires { Every (EntryReadsBack (development_view development.now)) (proofs_in hints.now) }
    ensures { IfOk result (λ answer. AnswersFound (development_view development.now) (proofs_in hints.now) answer.text.items answer.status) }
{
    let found = find_with(alloc, development, hints, BUDGET, telling);
    let answered = told_found(alloc, development, &found);
    telling.heard.keep_found(found);
    answered
}

/// The hints for a development in the file that a reader was fed; else their first refusal.
fn hints_fed(alloc: Global, development: &Development, reader: FormsReader) -> Result<Hints, Fault>
    requires { (bytes : List ℕ) × WasFed reader bytes }
    ensures answer { (bytes : List ℕ) → WasFed reader bytes → IsAnswerTo (development_view development.now) bytes result }
    ensures back { IfOk result (λ hints. Every (EntryReadsBack (development_view development.now)) (proofs_in hints)) }
{
    let forms = reader.finish()?;
    hints_in(alloc, development, forms)
}

/// The hints for a development in the file at a path; else the answer that tells its first refusal.
pub fn open_hints<'a, F: Files>(
    alloc: Global,
    files: &mut F,
    development: &Development,
    path: &'a str,
) -> Result<Result<Hints, Answer>, Failure<'a>>
    ensures unread { F.CannotOpen files.old path.now → IsErr result }
    ensures opens { IfOk result (λ opened. OfFile (F.bytes_at files.old path.now) (λ file. OpensHints (development_view development.now) file opened)) }
    ensures back { IfOk result (λ opened. IfOk opened (λ hints. Every (EntryReadsBack (development_view development.now)) (proofs_in hints))) }
{
    let reader = feed_forms(alloc, files, path)?;
    match hints_fed(alloc, development, reader) {
        Ok(hints) => Ok(Ok(hints)),
        Err(fault) => Ok(Err(told_fault(alloc, fault)?)),
    }
}

/// The answer to the hints at a path, for a development.
fn answer_hints<'a, F: Files, E: Write>(
    alloc: Global,
    files: &mut F,
    development: &Development,
    path: &'a str,
    telling: &mut Telling<'_, E>,
) -> Result<Answer, Failure<'a>>
    ensures unread { F.CannotOpen files.old path.now → IsErr result }
    ensures answers { IfOk result (λ answer. OfFile (F.bytes_at files.old path.now) (λ file. AnswersHints (development_view development.now) file answer.text.items answer.status)) }
{
    match open_hints(alloc, files, development, path)? {
        Ok(hints) => Ok(answer_found(alloc, development, &hints, telling)?),
        Err(answer) => Ok(answer),
    }
}

/// The answer to the development and the hints at two paths. If the development is refused, the hints are not opened.
fn answer_hinted<'a, F: Files, E: Write>(
    alloc: Global,
    files: &mut F,
    development: &'a str,
    hints: &'a str,
    telling: &mut Telling<'_, E>,
) -> Result<Answer, Failure<'a>>
    ensures unread { IsUnread (F.CannotOpen files.old) (F.bytes_at files.old) (ProveWithHints development.now hints.now) → IsErr result }
    ensures answers { IfOk result (λ answer. OfFile (F.bytes_at files.old development.now) (λ file. AnswersHinted file (F.bytes_at files.old hints.now) answer.text.items answer.status)) }
{
    match open_development(alloc, files, development)? {
        Ok(development) => {
            let answered = answer_hints(alloc, files, &development, hints, telling);
            telling.heard.keep_development(development);
            answered
        }
        Err(answer) => Ok(answer),
    }
}

/// The answer to the development at a path, without hints.
fn answer_unhinted<'a, F: Files, E: Write>(
    alloc: Global,
    files: &mut F,
    path: &'a str,
    telling: &mut Telling<'_, E>,
) -> Result<Answer, Failure<'a>>
    ensures unread { F.CannotOpen files.old path.now → IsErr result }
    ensures answers { IfOk result (λ answer. OfFile (F.bytes_at files.old path.now) (λ file. AnswersProve file answer.text.items answer.status)) }
{
    match open_development(alloc, files, path)? {
        Ok(development) => {
            let hints = Hints::new(alloc);
            let answered = answer_found(alloc, &development, &hints, telling);
            telling.heard.keep_development(development);
            Ok(answered?)
        }
        Err(answer) => Ok(answer),
    }
}

/// The answer of the command `prove` to the development at a path, with the hints at another, if there is one: the text of a
/// certificate, or the line that names the first condition for which no proof was found.
pub fn answer_prove<'a, F: Files, E: Write>(
    alloc: Global,
    files: &mut F,
    development: &'a str,
    hints: Option<&'a str>,
    telling: &mut Telling<'_, E>,
) -> Result<Answer, Failure<'a>>
    ensures unread { IsUnread (F.CannotOpen files.old) (F.bytes_at files.old) (proving development.now (path_in hints.entry)) → IsErr result }
    ensures answers { IfOk result (λ answer. AnswersTask (F.bytes_at files.old) (proving development.now (path_in hints.entry)) answer.text.items answer.status) }
{
    match hints {
        Some(path) => answer_hinted(alloc, files, development, path, telling),
        None => answer_unhinted(alloc, files, development, telling),
    }
}
