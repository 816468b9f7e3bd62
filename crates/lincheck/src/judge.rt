//! The command `judge`.
ghost use Rattle.std.specs.Prelude.{◌≡◌, ℕ, List, IfOk, IsErr};
ghost use Rattle.lc_sexp.specs.Pieces.{WasFed};
ghost use Rattle.lc_reading.specs.Files.{IsAnswerTo};
ghost use Rattle.lc_seq.specs.TextView.{specification_of};
ghost use Rattle.lc_spec_text.specs.Specifications.{first_reading};
ghost use Rattle.lc_words.specs.Tasks.{JudgeHistory};
ghost use Rattle.lincheck.specs.Execution.{IsUnread};
ghost use Rattle.lincheck.specs.Judge.{AnswersHistory, AnswersJudge, IsJudgement, ToldJudgement, judgement_of};
ghost use Rattle.lincheck.specs.Reading.{OfFile};

use crate::answer::{Answer, Failure, REFUSED, told, told_fault};
use crate::files::Files;
use crate::reading::{feed_forms, read_file};
use lc_base::{Fault, OutOfMemory, Refusal, write_line};
use lc_hist::history_from_json;
use lc_history::{JudgeFault, judge};
use lc_seq::TextSpec;
use lc_sexp::FormsReader;
use lc_spec_text::spec_in;
use std::alloc::Global;

/// What is said of an order that is not refused.
#[derive(Clone, Copy)]
pub enum Judgement {
    /// It linearizes the history.
    Linearizable,
    /// A number that the specification reaches leaves 64 bits, so nothing is said.
    Overflow,
}

/// What the judge of an order answers, as a judgement.
fn judgement_of(judged: Result<(), JudgeFault>) -> Result<Judgement, Fault>
    ensures { result ≡ judgement_of judged }
{
    match judged {
        Ok(()) => Ok(Judgement::Linearizable),
        Err(JudgeFault::Order { place, reason }) => {
            Err(Fault::Refused(Refusal::Order(place, reason.code())))
        }
        Err(JudgeFault::Overflow) => Ok(Judgement::Overflow),
        Err(JudgeFault::OutOfMemory) => Err(Fault::OutOfMemory),
    }
}

/// Whether the order that a history's text says linearizes its history, by a specification; else the first refusal.
pub fn judge_history(alloc: Global, spec: &TextSpec, bytes: &[u8]) -> Result<Judgement, Fault>
    ensures { IsJudgement (specification_of spec.now) bytes.now result }
{
    let (history, order) = history_from_json(alloc, spec, bytes)?;
    judgement_of(judge(alloc, spec, &history, &order))
}

/// The line of a judgement, or of the refusal.
fn tell_judgement(alloc: Global, judgement: Result<Judgement, Fault>) -> Result<Answer, OutOfMemory>
    ensures { IfOk result (λ answer. ToldJudgement judgement answer.text.items answer.status) }
{
    match judgement {
        Ok(Judgement::Linearizable) => told(alloc, "linearizable", Ok(())),
        Ok(Judgement::Overflow) => {
            Ok(Answer {
                text: write_line(alloc, "overflow", &[])?,
                status: REFUSED,
                why: None,
            })
        }
        Err(fault) => told_fault(alloc, fault),
    }
}

/// The answer to the history at a path, by a specification.
fn answer_history<'a, F: Files>(
    alloc: Global,
    files: &mut F,
    spec: &TextSpec,
    path: &'a str,
) -> Result<Answer, Failure<'a>>
    ensures unread { F.CannotOpen files.old path.now → IsErr result }
    ensures answers { IfOk result (λ answer. OfFile (F.bytes_at files.old path.now) (λ file. AnswersHistory (specification_of spec.now) file answer.text.items answer.status)) }
{
    let bytes = read_file(alloc, files, path)?;
    let judgement = judge_history(alloc, spec, &bytes);
    Ok(tell_judgement(alloc, judgement)?)
}

/// The specification in the file that a reader was fed; else its first refusal.
pub fn spec_fed(alloc: Global, reader: FormsReader) -> Result<TextSpec, Fault>
    ensures { (bytes : List ℕ) → WasFed reader bytes → IsAnswerTo specification_of first_reading bytes result }
{
    let forms = reader.finish()?;
    spec_in(alloc, forms)
}

/// The answer of the command `judge` to the development and the history at two paths. If the development is
/// refused, the history is not opened.
pub fn answer_judge<'a, F: Files>(
    alloc: Global,
    files: &mut F,
    development: &'a str,
    history: &'a str,
) -> Result<Answer, Failure<'a>>
    ensures unread { IsUnread (F.CannotOpen files.old) (F.bytes_at files.old) (JudgeHistory development.now history.now) → IsErr result }
    ensures answers { IfOk result (λ answer. OfFile (F.bytes_at files.old development.now) (λ file. AnswersJudge file (F.bytes_at files.old history.now) answer.text.items answer.status)) }
{
    let reader = feed_forms(alloc, files, development)?;
    match spec_fed(alloc, reader) {
        Ok(spec) => answer_history(alloc, files, &spec, history),
        Err(fault) => Ok(told_fault(alloc, fault)?),
    }
}
