//! The command `check`.
ghost use Rattle.std.specs.Prelude.{◌≡◌, ℕ, List, IfOk, IsErr};
ghost use Rattle.lc_sexp.specs.Pieces.{WasFed};
ghost use Rattle.lc_reading.specs.Files.{IsAnswerTo};
ghost use Rattle.lc_outline.specs.DevelopmentView.{development_view};
ghost use Rattle.lc_outline_text.specs.Developments.{file_reading};
ghost use Rattle.lc_check.specs.VerdictView.{development_in};
ghost use Rattle.lc_words.specs.Tasks.{CheckCertificate};
ghost use Rattle.lincheck.specs.Check.{AnswersCertificate, AnswersCheck, OpensAs, TellsFinished, TellsVerdict, accepted_line};
ghost use Rattle.lincheck.specs.Execution.{IsUnread};
ghost use Rattle.lincheck.specs.Reading.{OfFile};

use crate::answer::{Answer, Failure, SUCCESS, told_fault};
use crate::files::Files;
use crate::reading::{feed_file, feed_forms};
use crate::sink::Proving;
use crate::telling::{Noting, Telling};
use crate::workers::answer_by_workers;
use lc_base::{Fault, OutOfMemory, write_line};
use lc_check::{Accepted, CertificateSession, Finished, Verdict};
use lc_outline::Development;
use lc_outline_text::development_in;
use lc_sexp::FormsReader;
use std::alloc::Global;
use std::io::Write;
use std::sync::Wait;
use std::thread::Threads;

/// The development in the file that a reader was fed; else its first refusal.
fn development_fed(alloc: Global, reader: FormsReader) -> Result<Development, Fault>
    ensures { (bytes : List ℕ) → WasFed reader bytes → IsAnswerTo development_view file_reading bytes result }
{
    let forms = reader.finish()?;
    development_in(alloc, &forms)
}

/// The development in the file at a path; else the answer that tells its first refusal.
pub fn open_development<'a, F: Files>(
    alloc: Global,
    files: &mut F,
    path: &'a str,
) -> Result<Result<Development, Answer>, Failure<'a>>
    ensures keeps { (other : List ℕ) → F.bytes_at files.new other ≡ F.bytes_at files.old other }
    ensures closed { (other : List ℕ) → F.CannotOpen files.old other → F.CannotOpen files.new other }
    ensures unread { F.CannotOpen files.old path.now → IsErr result }
    ensures opens { IfOk result (λ opened. OfFile (F.bytes_at files.old path.now) (λ file. OpensAs file opened)) }
{
    let reader = feed_forms(alloc, files, path)?;
    match development_fed(alloc, reader) {
        Ok(development) => Ok(Ok(development)),
        Err(fault) => Ok(Err(told_fault(alloc, fault)?)),
    }
}

/// The line `accepted`, with the name of the object and the number of the conditions.
fn accepted_line(alloc: Global, accepted: &Accepted) -> Result<Vec<u8>, OutOfMemory>
    ensures { IfOk result (λ line. line.items ≡ accepted_line (development_in accepted.now)) }
{
    let mut word = String::new(alloc);
    word.push_str("accepted ")?;
    word.push_str(accepted.name())?;
    write_line(alloc, &word, &[accepted.count()])
}

/// A verdict, reported by its line and status.
pub(crate) fn tell_verdict(alloc: Global, verdict: &Verdict) -> Result<Answer, OutOfMemory>
    ensures { IfOk result (λ answer. TellsVerdict verdict.now answer.text.items answer.status) }
{
    match verdict {
        Verdict::Accepted(accepted) => Ok(Answer {
            text: accepted_line(alloc, accepted)?,
            status: SUCCESS,
            why: None,
        }),
        Verdict::Refused(refusal) => told_fault(alloc, Fault::Refused(*refusal)),
    }
}

/// What a session comes to, reported by its line and status.
pub(crate) fn tell_finished(alloc: Global, finished: &Finished) -> Result<Answer, OutOfMemory>
    ensures { IfOk result (λ answer. TellsFinished finished.now answer.text.items answer.status) }
{
    match finished {
        Finished::Accepted(accepted) => Ok(Answer {
            text: accepted_line(alloc, accepted)?,
            status: SUCCESS,
            why: None,
        }),
        Finished::Refused(refusal, _) => told_fault(alloc, Fault::Refused(*refusal)),
    }
}

/// The answer to the certificate at a path, of a development. Its proofs are checked as they are read.
fn answer_certificate<'a, F: Files, E: Write>(
    alloc: Global,
    files: &mut F,
    development: Development,
    path: &'a str,
    telling: &mut Telling<'_, E>,
) -> Result<Answer, Failure<'a>>
    ensures unread { F.CannotOpen files.old path.now → IsErr result }
    ensures answers { IfOk result (λ answer. OfFile (F.bytes_at files.old path.now) (λ file. AnswersCertificate (development_view development) file answer.text.items answer.status)) }
{
    let (is_asked, is_kept) = (telling.is_asked, telling.is_kept);
    let prover = Noting::new(alloc, &development, &mut *telling.err, is_asked, is_kept)?;
    let session = CertificateSession::new(alloc, development)?;
    let mut proving = Proving { session, prover };
    feed_file(files, path, &mut proving)?;
    let Proving {
        session,
        mut prover,
    } = proving;
    let finished = session.finish_by(&mut prover)?;
    let flaw = prover.flaw();
    let answer = tell_finished(alloc, &finished)?;
    telling.heard.keep_finished(finished, flaw);
    Ok(answer)
}

/// The answer to the certificate at a path, of a development, by `workers` workers, if a number is given; and says how many
/// conditions are proved, if that is asked for.
fn answer_said<'a, R: Threads + Wait + Sync, F: Files, E: Write>(
    rt: &R,
    alloc: Global,
    files: &mut F,
    development: Development,
    path: &'a str,
    workers: Option<u64>,
    telling: &mut Telling<'_, E>,
) -> Result<Answer, Failure<'a>>
    ensures unread { F.CannotOpen files.old path.now → IsErr result }
    ensures answers { IfOk result (λ answer. OfFile (F.bytes_at files.old path.now) (λ file. AnswersCertificate (development_view development) file answer.text.items answer.status)) }
{
    match workers {
        Some(workers) if workers != 1 && !telling.is_asked => {
            answer_by_workers(rt, alloc, files, development, path, workers)
        }
        _ => answer_certificate(alloc, files, development, path, telling),
    }
}

/// The answer of the command `check` to the development and the certificate at two paths: it is the same for every number of
/// workers. If the development is refused, the certificate is not opened.
pub fn answer_check<'a, R: Threads + Wait + Sync, F: Files, E: Write>(
    rt: &R,
    alloc: Global,
    files: &mut F,
    development: &'a str,
    certificate: &'a str,
    workers: Option<u64>,
    telling: &mut Telling<'_, E>,
) -> Result<Answer, Failure<'a>>
    ensures unread { IsUnread (F.CannotOpen files.old) (F.bytes_at files.old) (CheckCertificate development.now certificate.now) → IsErr result }
    ensures answers { IfOk result (λ answer. OfFile (F.bytes_at files.old development.now) (λ file. AnswersCheck file (F.bytes_at files.old certificate.now) answer.text.items answer.status)) }
{
    match open_development(alloc, files, development)? {
        Ok(development) => {
            answer_said(rt, alloc, files, development, certificate, workers, telling)
        }
        Err(answer) => Ok(answer),
    }
}
