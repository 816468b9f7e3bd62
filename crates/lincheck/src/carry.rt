//! The command `carry`.
ghost use Rattle.std.specs.Prelude.{◌≡◌, ◌++◌, ℕ, List, IfOk, IfSome, IsErr};
ghost use Rattle.lc_carry.specs.Carried.{carried};
ghost use Rattle.lc_cert.specs.CertificateView.{entries_in};
ghost use Rattle.lc_check.specs.VerdictView.{development_in};
ghost use Rattle.lc_check.specs.Verdicts.{IsProvenBy};
ghost use Rattle.lc_hints.specs.HintView.{proofs_in};
ghost use Rattle.lc_outline.specs.DevelopmentView.{development_view};
ghost use Rattle.lincheck.specs.Carry.{AnswersChanged, AnswersSought, OpensCertificate, OpensOld, AnswersWith, IsCertified, IsUnreadNew, hints_at};
ghost use Rattle.lc_words.specs.Tasks.{CheckCertificate, carrying, path_in};
ghost use Rattle.lincheck.specs.Execution.{AnswersTask, IsUnread};
ghost use Rattle.lincheck.specs.Reading.{OfFile};

use crate::answer::{Answer, Failure, told_fault};
use crate::check::open_development;
use crate::files::Files;
use crate::prove::{BUDGET, open_hints, told_found};
use crate::reading::read_file;
use crate::telling::{Noting, Telling};
use lc_base::{Fault, OutOfMemory};
use lc_cert::laws::a_certificate_is_read_or_refused;
use lc_cert::{Certificate, certificate_of};
use lc_check::{Accepted, CertificateSession, Finished};
use lc_find::carry_with;
use lc_hints::Hints;
use lc_outline::Development;
use std::alloc::Global;
use std::io::Write;

/// A development that is accepted, and its certificate.
pub struct Old {
    pub accepted: Accepted,
    pub certificate: Certificate,
}

impl Drop for Old {
    fn drop(self) {
        let Old {
            accepted: _,
            certificate: _,
        } = self;
    }
}

/// The certificate that a file is, of a development that is accepted by it.
fn old_of(
    alloc: Global,
    accepted: Accepted,
    cert: &[u8],
) -> Result<Result<Old, Answer>, OutOfMemory>
    requires { IsProvenBy (development_in accepted) cert.now }
    ensures opens { IfOk result (OpensCertificate (development_in accepted) cert.now) }
    ensures certified { IfOk result (λ opened. IfOk opened IsCertified) }
{
    a_certificate_is_read_or_refused();
    match certificate_of(alloc, accepted.development(), cert) {
        Ok(certificate) => Ok(Ok(Old {
            accepted,
            certificate,
        })),
        Err(fault) => Ok(Err(told_fault(alloc, fault)?)),
    }
}

/// A development and its certificate, if the file is one that is accepted; else the answer that tells its refusal, and the development
/// is kept for those who ask for more.
fn accept_certificate<E: Write>(
    alloc: Global,
    development: Development,
    cert: &[u8],
    telling: &mut Telling<'_, E>,
) -> Result<Result<Old, Answer>, OutOfMemory>
    ensures opens { IfOk result (OpensCertificate (development_view development) cert.now) }
    ensures certified { IfOk result (λ opened. IfOk opened IsCertified) }
{
    let (is_asked, is_kept) = (false, telling.is_kept);
    let mut prover = Noting::new(alloc, &development, &mut *telling.err, is_asked, is_kept)?;
    let mut session = CertificateSession::new(alloc, development)?;
    session.feed_by(&mut prover, cert)?;
    let finished = session.finish_by(&mut prover)?;
    let flaw = prover.flaw();
    match finished {
        Finished::Accepted(accepted) => old_of(alloc, accepted, cert),
        Finished::Refused(refusal, development) => {
            telling.heard.keep_refused(development, flaw);
            Ok(Err(told_fault(alloc, Fault::Refused(refusal))?))
        }
    }
}

/// The certificate at a path, of a development; else the answer that tells its refusal.
fn open_certificate<'a, F: Files, E: Write>(
    alloc: Global,
    files: &mut F,
    development: Development,
    path: &'a str,
    telling: &mut Telling<'_, E>,
) -> Result<Result<Old, Answer>, Failure<'a>>
    ensures keeps { (other : List ℕ) → F.bytes_at files.new other ≡ F.bytes_at files.old other }
    ensures closed { (other : List ℕ) → F.CannotOpen files.old other → F.CannotOpen files.new other }
    ensures unread { F.CannotOpen files.old path.now → IsErr result }
    ensures opens { IfOk result (λ opened. OfFile (F.bytes_at files.old path.now) (λ file. OpensCertificate (development_view development) file opened)) }
    ensures certified { IfOk result (λ opened. IfOk opened IsCertified) }
{
    let bytes = read_file(alloc, files, path)?;
    Ok(accept_certificate(alloc, development, &bytes, telling)?)
}

/// The development and its certificate at two paths; else the answer that tells the first refusal. If the development is
/// refused, the certificate is not opened.
fn open_old<'a, F: Files, E: Write>(
    alloc: Global,
    files: &mut F,
    development: &'a str,
    certificate: &'a str,
    telling: &mut Telling<'_, E>,
) -> Result<Result<Old, Answer>, Failure<'a>>
    ensures keeps { (other : List ℕ) → F.bytes_at files.new other ≡ F.bytes_at files.old other }
    ensures closed { (other : List ℕ) → F.CannotOpen files.old other → F.CannotOpen files.new other }
    ensures unread { IsUnread (F.CannotOpen files.old) (F.bytes_at files.old) (CheckCertificate development.now certificate.now) → IsErr result }
    ensures opens { IfOk result (λ opened. OfFile (F.bytes_at files.old development.now) (λ file. OpensOld file (F.bytes_at files.old certificate.now) opened)) }
    ensures certified { IfOk result (λ opened. IfOk opened IsCertified) }
{
    match open_development(alloc, files, development)? {
        Ok(development) => open_certificate(alloc, files, development, certificate, telling),
        Err(answer) => Ok(Err(answer)),
    }
}

/// The answer for a new development with these hints.
fn answer_carried<E: Write>(
    alloc: Global,
    old: &Old,
    development: &Development,
    hints: &Hints,
    telling: &mut Telling<'_, E>,
) -> Result<Answer, OutOfMemory>
    requires { IsCertified old.now }
    ensures { let E = development_view development.now in
        IfOk result (λ answer. AnswersSought E (carried (development_in old.now.accepted) (entries_in old.now.certificate) E ++ proofs_in hints.now) answer.text.items answer.status) }
{
    let found = carry_with(
        alloc,
        &old.accepted,
        &old.certificate,
        development,
        hints,
        BUDGET,
        telling,
    );
    let answered = told_found(alloc, development, &found);
    telling.heard.keep_found(found);
    answered
}

/// The answer for a new development, with the hints at a path, if there is one.
fn answer_development<'a, F: Files, E: Write>(
    alloc: Global,
    files: &mut F,
    old: &Old,
    development: &Development,
    hints: Option<&'a str>,
    telling: &mut Telling<'_, E>,
) -> Result<Answer, Failure<'a>>
    requires { IsCertified old.now }
    ensures unread { IfSome (path_in hints.entry) (λ path. F.CannotOpen files.old path) → IfSome (path_in hints.entry) (λ path. IsErr result) }
    ensures answers { let E = development_view development.now in
        IfOk result (λ answer. AnswersWith (hints_at (F.bytes_at files.old) (path_in hints.entry)) E (carried (development_in old.now.accepted) (entries_in old.now.certificate) E) answer.text.items answer.status) }
{
    match hints {
        None => {
            let none = Hints::new(alloc);
            Ok(answer_carried(alloc, old, development, &none, telling)?)
        }
        Some(path) => match open_hints(alloc, files, development, path)? {
            Ok(hints) => Ok(answer_carried(alloc, old, development, &hints, telling)?),
            Err(answer) => Ok(answer),
        },
    }
}

/// The answer for the new development at a path. If it is refused, the hints are not opened.
fn answer_new<'a, F: Files, E: Write>(
    alloc: Global,
    files: &mut F,
    old: &Old,
    new: &'a str,
    hints: Option<&'a str>,
    telling: &mut Telling<'_, E>,
) -> Result<Answer, Failure<'a>>
    requires { IsCertified old.now }
    ensures unread { IsUnreadNew (F.CannotOpen files.old) (F.bytes_at files.old) new.now (path_in hints.entry) → IsErr result }
    ensures answers { IfOk result (λ answer. OfFile (F.bytes_at files.old new.now) (λ file. AnswersChanged (AnswersWith (hints_at (F.bytes_at files.old) (path_in hints.entry)))
        (development_in old.now.accepted) (entries_in old.now.certificate) file answer.text.items answer.status)) }
{
    match open_development(alloc, files, new)? {
        Ok(development) => {
            let answered = answer_development(alloc, files, old, &development, hints, telling);
            telling.heard.keep_development(development);
            answered
        }
        Err(answer) => Ok(answer),
    }
}

/// The answer of the command `carry` to an old development and its certificate at two paths, and a new development at another,
/// with the hints at a further one, if there is one: the text of a certificate of the new development; or the line that names the
/// first condition for which no proof was found. Files are opened in this order, and none after a refusal.
pub fn answer_carry<'a, F: Files, E: Write>(
    alloc: Global,
    files: &mut F,
    old: &'a str,
    certificate: &'a str,
    new: &'a str,
    hints: Option<&'a str>,
    telling: &mut Telling<'_, E>,
) -> Result<Answer, Failure<'a>>
    ensures unread { IsUnread (F.CannotOpen files.old) (F.bytes_at files.old) (carrying old.now certificate.now new.now (path_in hints.entry)) → IsErr result }
    ensures answers { IfOk result (λ answer. AnswersTask (F.bytes_at files.old) (carrying old.now certificate.now new.now (path_in hints.entry)) answer.text.items answer.status) }
{
    match open_old(alloc, files, old, certificate, telling)? {
        Ok(old) => answer_new(alloc, files, &old, new, hints, telling),
        Err(answer) => Ok(answer),
    }
}
