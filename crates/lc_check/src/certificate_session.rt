//! A certificate of a development that was read, checked in pieces.
ghost use Rattle.std.specs.Prelude.{◌++◌, ℕ, List, Err, IfOk, OnOk};
ghost use Rattle.lc_outline.specs.DevelopmentView.{development_view};
ghost use Rattle.lc_sound.specs.Linearizable.{IsLinearizableObject};
ghost use Rattle.lc_check.specs.UpTo.{IsUpTo};
ghost use Rattle.lc_check.specs.VerdictView.{IsCountOn, IsFinishedOn, IfFinished};

use crate::progress::Progress;
use crate::proving::{Alone, Prover};
use crate::verdict::{Accepted, Finished, Verdict};
use lc_base::{Fault, OutOfMemory};
use lc_cert::CertReader;
use lc_outline::Development;
use std::alloc::Global;
use std::marker::Model;

/// How far the certificate was read and proved.
struct Stage {
    alloc: Global,
    development: Development,
    reader: CertReader,
    progress: Progress,
    out_of_memory: bool,
}

impl Drop for Stage {
    fn drop(self) {
        let Stage {
            alloc: _,
            development: _,
            reader: _,
            progress: _,
            out_of_memory: _,
        } = self;
    }
}

/// A development, and a certificate of it that comes in pieces. Each proof is checked as soon as it has ended, and
/// dropped; the conditions are made part by part. What is wrong is reported by `finish`, as `check` reports it
/// of a whole certificate, however the file was cut. Once out of memory it returns `OutOfMemory` from then on.
#[derive(Drop)]
pub struct CertificateSession {
    stage: Stage,
}

impl Model for CertificateSession {
    ghost use Rattle.std.specs.Prelude.{◌≡◌, ℕ, List, false};
    ghost use Rattle.lc_check.specs.declared.certificate_session.Stage.{Stage};
    ghost use Rattle.lc_check.specs.contracts.certificate_session.Stage as stage_contracts;

    ghost Value = { Stage };

    ghost coded = { stage_contracts.the_row.coded };

    ghost use Rattle.lc_outline.specs.DevelopmentView.{development_view};
    ghost use Rattle.lc_check.specs.UpTo.{IsUpTo};

    ghost view = { λ s. s.stage };

    ghost invariant = { λ s. s.stage.out_of_memory ≡ false → (fed : List ℕ) × IsUpTo (development_view s.stage.development) fed s.stage.reader s.stage.progress };
}

/// Reads the next piece, and takes all proofs that have ended.
pub(crate) fn feed_all<P: Prover>(
    alloc: Global,
    development: &Development,
    prover: &mut P,
    reader: &mut CertReader,
    progress: &mut Progress,
    piece: &[u8],
) -> Result<(), OutOfMemory>
    requires { (fed : List ℕ) × IsUpTo (development_view development.now) fed reader.old progress.old }
    ensures { OnOk result ((fed : List ℕ) → IsUpTo (development_view development.now) fed reader.old progress.old →
        IsUpTo (development_view development.now) (fed ++ piece.now) reader.new progress.new) }
{
    reader.feed(development, piece)?;
    'entries: loop {
        let Some(entry) = reader.take() else {
            return Ok(());
        };
        progress.take(alloc, development, prover, &entry)?;
    }
}

/// How many conditions a development has, if the certificate file, which ends here, proves each of them and nothing else; else its
/// refusal.
pub(crate) fn counted<P: Prover>(
    alloc: Global,
    development: &Development,
    prover: &mut P,
    reader: CertReader,
    progress: &mut Progress,
) -> Result<u64, Fault>
    requires { (cert : List ℕ) × IsUpTo (development_view development.now) cert reader progress.old }
    ensures { (cert : List ℕ) → IsUpTo (development_view development.now) cert reader progress.old → IsCountOn (development_view development.now) cert result }
{
    if let Err(fault) = reader.finish(development) {
        return Err(fault);
    }
    progress.answer(alloc, development, prover)
}

// What a session comes to that is refused for this reason.
fn declined(development: Development, fault: Fault) -> Result<Finished, OutOfMemory>
    ensures exactly { (cert : List ℕ) → IsCountOn (development_view development) cert (Err fault) → IfOk result (IsFinishedOn (development_view development) cert) }
    ensures linearizable { IfFinished result (λ D. IsLinearizableObject D.specification D.object) }
{
    match fault {
        Fault::Refused(refusal) => Ok(Finished::Refused(refusal, development)),
        Fault::OutOfMemory => Err(OutOfMemory),
    }
}

/// What a session of a development comes to, given how many conditions are proved, or why not.
fn finished(development: Development, count: Result<u64, Fault>) -> Result<Finished, OutOfMemory>
    requires { (cert : List ℕ) × IsCountOn (development_view development) cert count }
    ensures exactly { (cert : List ℕ) → IsCountOn (development_view development) cert count → IfOk result (IsFinishedOn (development_view development) cert) }
    ensures linearizable { IfFinished result (λ D. IsLinearizableObject D.specification D.object) }
{
    match count {
        Ok(count) => Ok(Finished::Accepted(Accepted::proven(development, count))),
        Err(fault) => declined(development, fault),
    }
}

impl Stage {
    ghost use Rattle.std.specs.Prelude.{ℕ, List, IfOk};
    ghost use Rattle.lc_outline.specs.DevelopmentView.{development_view};
    ghost use Rattle.lc_sound.specs.Linearizable.{IsLinearizableObject};
    ghost use Rattle.lc_check.specs.UpTo.{IsUpTo};
    ghost use Rattle.lc_check.specs.VerdictView.{IsFinishedOn, IfFinished};

    /// What the development and the certificate file, which ends here, come to.
    fn ended<P: Prover>(self, prover: &mut P) -> Result<Finished, OutOfMemory>
        requires { (fed : List ℕ) × IsUpTo (development_view self.development) fed self.reader self.progress }
        ensures exactly { (cert : List ℕ) → IsUpTo (development_view self.development) cert self.reader self.progress → IfOk result (IsFinishedOn (development_view self.development) cert) }
        ensures linearizable { IfFinished result (λ D. IsLinearizableObject D.specification D.object) }
    {
        let Stage {
            alloc,
            development,
            reader,
            mut progress,
            out_of_memory: _,
        } = self;
        let count = counted(alloc, &development, prover, reader, &mut progress);
        finished(development, count)
    }
}

impl CertificateSession {
    ghost use Rattle.std.specs.Prelude.{◌≡◌, ◌++◌, ℕ, List, [], true, false, IfOk, OnOk, is_err};
    ghost use Rattle.lc_outline.specs.Development.{Development as Shown};
    ghost use Rattle.lc_outline.specs.DevelopmentView.{development_view};
    ghost use Rattle.lc_sound.specs.Linearizable.{IsLinearizableObject};
    ghost use Rattle.lc_check.specs.Stages.{IsFedOn, is_spent_on};
    ghost use Rattle.lc_check.specs.VerdictView.{IsFinishedOn, IsVerdictOn, IfAccepted, IfFinished};

    /// A session of this development, which has been fed nothing.
    pub fn new(alloc: Global, development: Development) -> Result<CertificateSession, OutOfMemory>
        ensures start { IfOk result (λ session. IsFedOn (development_view development) [] session) }
        ensures memory { IfOk result (λ session. is_spent_on session ≡ false) }
    {
        let reader = CertReader::new(alloc, &development)?;
        let progress = Progress::new(alloc, &development)?;
        Ok(CertificateSession {
            stage: Stage {
                alloc,
                development,
                reader,
                progress,
                out_of_memory: false,
            },
        })
    }

    /// Takes the next piece of the certificate, which may be empty.
    pub fn feed(&mut self, piece: &[u8]) -> Result<(), OutOfMemory>
        ensures fed { OnOk result ((D : Shown) → (fed : List ℕ) → IsFedOn D fed self.old → IsFedOn D (fed ++ piece.now) self.new) }
        ensures spent { is_spent_on self.new ≡ is_err result }
        ensures never_again { is_spent_on self.old ≡ true → is_err result ≡ true }
    {
        self.feed_by(&mut Alone, piece)
    }

    /// Takes the next piece of the certificate, which may be empty. This prover finds out whether its proofs hold.
    pub fn feed_by<P: Prover>(&mut self, prover: &mut P, piece: &[u8]) -> Result<(), OutOfMemory>
        ensures fed { OnOk result ((D : Shown) → (fed : List ℕ) → IsFedOn D fed self.old → IsFedOn D (fed ++ piece.now) self.new) }
        ensures spent { is_spent_on self.new ≡ is_err result }
        ensures never_again { is_spent_on self.old ≡ true → is_err result ≡ true }
    {
        if self.stage.out_of_memory {
            return Err(OutOfMemory);
        }
        self.stage.out_of_memory = true;
        feed_all(
            self.stage.alloc,
            &self.stage.development,
            prover,
            &mut self.stage.reader,
            &mut self.stage.progress,
            piece,
        )?;
        self.stage.out_of_memory = false;
        Ok(())
    }

    /// The verdict on the development and the certificate file, which ends here, as `check` says.
    pub fn finish(self) -> Result<Verdict, OutOfMemory>
        ensures exactly { (D : Shown) → (cert : List ℕ) → IsFedOn D cert self → IfOk result (IsVerdictOn D cert) }
        ensures linearizable { IfAccepted result (λ D. IsLinearizableObject D.specification D.object) }
        ensures never_again { is_spent_on self ≡ true → is_err result ≡ true }
    {
        let finished = self.finish_by(&mut Alone)?;
        match finished {
            Finished::Accepted(accepted) => Ok(Verdict::Accepted(accepted)),
            Finished::Refused(refusal, _) => Ok(Verdict::Refused(refusal)),
        }
    }

    /// The verdict, as `finish` says; the development is handed back if it is not accepted. If the certificate ends before a condition, this
    /// prover is told which.
    pub fn finish_by<P: Prover>(self, prover: &mut P) -> Result<Finished, OutOfMemory>
        ensures exactly { (D : Shown) → (cert : List ℕ) → IsFedOn D cert self → IfOk result (IsFinishedOn D cert) }
        ensures linearizable { IfFinished result (λ D. IsLinearizableObject D.specification D.object) }
        ensures never_again { is_spent_on self ≡ true → is_err result ≡ true }
    {
        if self.stage.out_of_memory {
            return Err(OutOfMemory);
        }
        self.stage.ended(prover)
    }
}
