//! A development and a certificate that come as files, with one verdict at the end.
use crate::certificate_session::CertificateSession;
use crate::verdict::Verdict;
use lc_base::{Fault, OutOfMemory, Refusal};
use lc_outline_text::development_of;
use std::alloc::Global;

#[derive(Drop)]
enum State {
    /// The development file is refused.
    Refused(Refusal),
    UnderWay(CertificateSession),
}

/// A development file, and a certificate file that comes in pieces. What is wrong, of either, is reported by `finish`, as
/// `check` reports it for two whole files. That is one verdict for each pair of files (`two_files_have_one_verdict`), so it
/// is the same however the certificate was cut. Once out of memory it returns `OutOfMemory` from then on.
#[derive(Drop)]
pub struct Session {
    state: State,
}

impl Session {
    ghost use Rattle.std.specs.Prelude.{◌≡◌, ◌++◌, ℕ, List, [], true, false, IfOk, OnOk, is_err};
    ghost use Rattle.lc_reading.specs.Files.{Says};
    ghost use Rattle.lc_outline_text.specs.Developments.{file_reading};
    ghost use Rattle.lc_sound.specs.Linearizable.{IsLinearizableObject};
    ghost use Rattle.lc_check.specs.Sessions.{IsFed, is_spent};
    ghost use Rattle.lc_check.specs.VerdictView.{IsVerdict, IfAccepted};

    /// A session of this development file, which has been fed nothing of a certificate.
    pub fn new(alloc: Global, dev: &[u8]) -> Result<Session, OutOfMemory>
        ensures start { IfOk result (λ session. IsFed dev.now [] session) }
        ensures memory { IfOk result (λ session. is_spent session ≡ false) }
    {
        let state = match development_of(alloc, dev) {
            Ok(development) => State::UnderWay(CertificateSession::new(alloc, development)?),
            Err(Fault::Refused(refusal)) => State::Refused(refusal),
            Err(Fault::OutOfMemory) => return Err(OutOfMemory),
        };
        Ok(Session { state })
    }

    /// Takes the next piece of the certificate, which may be empty. If the development is refused, nothing is read.
    pub fn feed(&mut self, piece: &[u8]) -> Result<(), OutOfMemory>
        ensures fed { OnOk result ((dev fed : List ℕ) → IsFed dev fed self.old → IsFed dev (fed ++ piece.now) self.new) }
        ensures spent { is_spent self.new ≡ is_err result }
        ensures never_again { is_spent self.old ≡ true → is_err result ≡ true }
    {
        match &mut self.state {
            State::Refused(_) => Ok(()),
            State::UnderWay(session) => session.feed(piece),
        }
    }

    /// The verdict on the two files, when the certificate ends here, as `check` says.
    pub fn finish(self) -> Result<Verdict, OutOfMemory>
        ensures exactly { (dev cert : List ℕ) → IsFed dev cert self → IfOk result (IsVerdict dev cert) }
        ensures linearizable { IfAccepted result (λ D. ((dev cert : List ℕ) → IsFed dev cert self → Says file_reading dev D) × IsLinearizableObject D.specification D.object) }
        ensures never_again { is_spent self ≡ true → is_err result ≡ true }
    {
        match self.state {
            State::Refused(refusal) => Ok(Verdict::Refused(refusal)),
            State::UnderWay(session) => session.finish(),
        }
    }
}
