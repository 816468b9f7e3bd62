//! The command `check` with more than one worker.
ghost use Rattle.std.specs.Prelude.{IfOk, IsErr};
ghost use Rattle.lc_outline.specs.DevelopmentView.{development_view};
ghost use Rattle.lincheck.specs.Check.{AnswersCertificate};
ghost use Rattle.lincheck.specs.Reading.{OfFile};

use crate::answer::{Answer, Failure};
use crate::check::tell_verdict;
use crate::files::Files;
use crate::reading::read_file;
use lc_outline::Development;
use lc_pool::{NoGate, check_certificate_with};
use std::alloc::Global;
use std::sync::Wait;
use std::thread::Threads;

/// The answer to the certificate at a path, of a development, by `workers` workers. It is read whole before its proofs are checked.
pub(crate) fn answer_by_workers<'a, R: Threads + Wait + Sync, F: Files>(
    rt: &R,
    alloc: Global,
    files: &mut F,
    development: Development,
    path: &'a str,
    workers: u64,
) -> Result<Answer, Failure<'a>>
    ensures unread { F.CannotOpen files.old path.now → IsErr result }
    ensures answers { IfOk result (λ answer. OfFile (F.bytes_at files.old path.now) (λ file. AnswersCertificate (development_view development) file answer.text.items answer.status)) }
{
    let cert = read_file(alloc, files, path)?;
    let verdict = check_certificate_with(rt, alloc, development, &cert, workers, &NoGate)?;
    Ok(tell_verdict(alloc, &verdict)?)
}
