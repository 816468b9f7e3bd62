//! The command `complete`.
ghost use Rattle.std.specs.Prelude.{ℕ, List, IfOk, IsErr};
ghost use Rattle.lc_sexp.specs.Pieces.{WasFed};
ghost use Rattle.lc_complete.specs.Making.{IsAnswer};
ghost use Rattle.lc_outline.specs.DevelopmentView.{development_view};
ghost use Rattle.lincheck.specs.Complete.{AnswersComplete, TellsMade};
ghost use Rattle.lincheck.specs.Reading.{OfFile};

use crate::answer::{Answer, Failure, REFUSED, SUCCESS, Why, told_fault};
use crate::files::Files;
use crate::prove::BUDGET;
use crate::reading::feed_forms;
use crate::telling::{Heard, Telling};
use crate::unfound::unfound_from;
use lc_base::{Fault, OutOfMemory, write_line};
use lc_complete::{Made, complete};
use lc_find::{FindFault, find_with};
use lc_hints::Hints;
use lc_sexp::FormsReader;
use std::alloc::Global;
use std::io::Write;

/// How many steps are tried for a condition of a guess.
const TRIED: u64 = 20_000;

/// The short development in the file that a reader was fed, made whole; else its first refusal.
fn made_fed<E: Write>(
    alloc: Global,
    reader: FormsReader,
    budget: u64,
    telling: &mut Telling<'_, E>,
) -> Result<Made, Fault>
    ensures { (bytes : List ℕ) → WasFed reader bytes → IsAnswer bytes result }
{
    let forms = reader.finish()?;
    complete(alloc, &forms, budget.min(TRIED), telling)
}

/// The number of the condition that a fault of the finder names.
fn number_of(fault: FindFault) -> Option<u64> {
    match fault {
        FindFault::NotFound(number) | FindFault::Budget(number) | FindFault::Large(number) => {
            Some(number)
        }
        FindFault::OutOfMemory => None,
    }
}

/// What was made, with a last line that counts the conditions of which no proof was found; the first has this number.
fn told_incomplete(
    alloc: Global,
    made: Made,
    first: u64,
    budget: u64,
    heard: &mut Heard,
) -> Result<Answer, OutOfMemory>
    ensures { IfOk result (λ answer. TellsMade (development_view made.development) made.text.items answer.text.items answer.status) }
{
    let others = unfound_from(alloc, &made.development, first.saturating_add(1), budget)?;
    let Made {
        mut text,
        development,
    } = made;
    heard.keep_made(development, &text);
    let line = write_line(alloc, "; incomplete", &[others.saturating_add(1)])?;
    text.extend_from_slice(&line)?;
    Ok(Answer {
        text,
        status: REFUSED,
        why: Some(Why::Unfound(first)),
    })
}

/// What was made: with status 0 if a certificate of it was found.
fn told_made<E: Write>(
    alloc: Global,
    made: Made,
    budget: u64,
    telling: &mut Telling<'_, E>,
) -> Result<Answer, OutOfMemory>
    ensures { IfOk result (λ answer. TellsMade (development_view made.development) made.text.items answer.text.items answer.status) }
{
    let hints = Hints::new(alloc);
    match find_with(alloc, &made.development, &hints, budget, telling) {
        Ok(_) => {
            let Made { text, .. } = made;
            Ok(Answer {
                text,
                status: SUCCESS,
                why: None,
            })
        }
        Err(fault) => match number_of(fault) {
            Some(first) => told_incomplete(alloc, made, first, budget, telling.heard),
            None => Err(OutOfMemory),
        },
    }
}

/// The answer of the command `complete` to the short development at a path: a development that completes it, over lines. If no certificate of
/// it is found, in at most `budget` steps for a condition, a last line says of how many conditions no proof was found.
pub fn answer_complete<'a, F: Files, E: Write>(
    alloc: Global,
    files: &mut F,
    path: &'a str,
    budget: Option<u64>,
    telling: &mut Telling<'_, E>,
) -> Result<Answer, Failure<'a>>
    ensures unread { F.CannotOpen files.old path.now → IsErr result }
    ensures answers { IfOk result (λ answer. OfFile (F.bytes_at files.old path.now) (λ file. AnswersComplete file answer.text.items answer.status)) }
{
    let budget = budget.unwrap_or(BUDGET);
    let reader = feed_forms(alloc, files, path)?;
    match made_fed(alloc, reader, budget, telling) {
        Ok(made) => {
            let answer = told_made(alloc, made, budget, telling)?;
            Ok(answer)
        }
        Err(fault) => Ok(told_fault(alloc, fault)?),
    }
}
