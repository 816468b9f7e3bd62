//! The verdict on whole files: sessions of one piece.
ghost use Rattle.std.specs.Prelude.{IfOk};
ghost use Rattle.lc_reading.specs.Files.{Says};
ghost use Rattle.lc_outline.specs.DevelopmentView.{development_view};
ghost use Rattle.lc_outline_text.specs.Developments.{file_reading};
ghost use Rattle.lc_sound.specs.Linearizable.{IsLinearizableObject};
ghost use Rattle.lc_check.specs.VerdictView.{IsVerdict, IfAccepted, IsCountOn};

use crate::certificate_session::{counted, feed_all};
use crate::progress::Progress;
use crate::proving::Alone;
use crate::session::Session;
use crate::verdict::Verdict;
use lc_base::{Fault, OutOfMemory};
use lc_cert::CertReader;
use lc_outline::Development;
use std::alloc::Global;

/// The verdict on a development file and a certificate file.
///
/// They are accepted if the one is a development, and the other a certificate of it with a derivation of each of its
/// conditions and no other proof. Then the development that is accepted is the one that the file says, and for every number of
/// clients and every list of single-access steps of its object the history of calls and returns is linearizable by its
/// specification. Else they are refused: with the first refusal of the development file; else so, for the first of these that
/// is: `CertText` or `CertShape` of the certificate file; of the least condition that has no proof `Missing`, or whose proof does not
/// hold `Proof` or `Large` with the first step that does not; `Extra` with the least number of a proof that no condition has.
/// `OutOfMemory` says nothing about the files.
pub fn check(alloc: Global, dev: &[u8], cert: &[u8]) -> Result<Verdict, OutOfMemory>
    ensures exactly { IfOk result (IsVerdict dev.now cert.now) }
    ensures linearizable { IfAccepted result (λ D. Says file_reading dev.now D × IsLinearizableObject D.specification D.object) }
{
    let mut session = Session::new(alloc, dev)?;
    session.feed(cert)?;
    session.finish()
}

/// How many conditions a development has, if a file is a certificate of it that is accepted; else the refusal that `check`
/// tells of the file. `OutOfMemory` says nothing about the file.
pub fn proven_count(alloc: Global, development: &Development, cert: &[u8]) -> Result<u64, Fault>
    ensures { IsCountOn (development_view development.now) cert.now result }
{
    let mut reader = CertReader::new(alloc, development)?;
    let mut progress = Progress::new(alloc, development)?;
    feed_all(
        alloc,
        development,
        &mut Alone,
        &mut reader,
        &mut progress,
        cert,
    )?;
    counted(alloc, development, &mut Alone, reader, &mut progress)
}
