//! The verdict on a development file and a certificate file, by many workers.
ghost use Rattle.std.specs.Prelude.{◌≡◌, ℕ, IfOk, IfSome, IsTrue, length};
ghost use Rattle.lc_reading.specs.Files.{Says};
ghost use Rattle.lc_outline.specs.DevelopmentView.{development_view};
ghost use Rattle.lc_outline_text.specs.Developments.{file_reading};
ghost use Rattle.lc_cert.specs.OneByOne.{IsFrame};
ghost use Rattle.lc_cond.specs.Conditions.{conditions};
ghost use Rattle.lc_cond.specs.Numbering.{IsNumbering};
ghost use Rattle.lc_sound.specs.Linearizable.{IsLinearizableObject};
ghost use Rattle.lc_check.specs.Verdicts.{IsProvenBy};
ghost use Rattle.lc_check.specs.VerdictView.{IsVerdict, IsVerdictOn, IfAccepted};
ghost use Rattle.lc_pool.specs.Desks.{development_in, IsKnownIn};
ghost use Rattle.lc_pool.specs.Known.{at_place};
ghost use Rattle.lc_pool.specs.Marks.{AllHold};

use crate::cutting::{Cuts, cut};
use crate::desk::{Desk, Files};
use crate::framing::is_framed;
use crate::gate::Gate;
use crate::gated::Gated;
use crate::laws::known_entries_prove_the_development;
use crate::pool::pooled;
use crate::work::Work;
use lc_base::{Fault, OutOfMemory};
use lc_check::{Accepted, CertificateSession, Verdict};
use lc_cond::Numbering;
use lc_outline::Development;
use lc_outline_text::development_of;
use std::alloc::Global;
use std::marker::Brand;
use std::sync::Wait;
use std::thread;
use std::thread::Threads;

/// A desk for each of `workers` workers.
fn desks<'a, W: Work>(
    alloc: Global,
    files: Files<'a>,
    workers: u64,
) -> Result<Vec<Desk<'a, W>>, OutOfMemory>
    requires numbering { IsNumbering (development_in files) files.numbering.now }
    requires known { (k : ℕ) → IsKnownIn files k → W.holds k }
{
    let mut desks = Vec::new(alloc);
    for _worker in 0..workers {
        desks.push(Desk::new(alloc, files)?)?;
    }
    Ok(desks)
}

/// Whether all conditions are proved by the entries of their numbers, as `workers` workers find.
fn all_proved<W: Work + Send + Sync, R: Threads + Wait + Sync, G: Gate + Sync>(
    rt: &R,
    alloc: Global,
    gate: &G,
    files: Files<'_>,
    workers: u64,
) -> Result<bool, OutOfMemory>
    requires numbering { IsNumbering (development_in files) files.numbering.now }
    requires known { (k : ℕ) → IsKnownIn files k → W.holds k }
    ensures { IfOk result (λ all. IsTrue all → AllHold W.holds (length (conditions (development_in files.entry)))) }
{
    let desks: Vec<Desk<'_, W>> = desks(alloc, files, workers)?;
    let mut last: Desk<'_, W> = Desk::new(alloc, files)?;
    pooled(rt, alloc, gate, desks, &mut last, files.numbering.count())
}

/// Whether the cuts fit a certificate of `count` conditions, and what is around them is that of one.
fn are_framed(
    alloc: Global,
    development: &Development,
    cert: &[u8],
    cuts: &Cuts,
    count: u64,
) -> Result<bool, OutOfMemory>
    ensures frame { IfOk result (λ b. IsTrue b → IsFrame (development_view development.now) cert.now (at_place cuts.now.places.items 0) (at_place cuts.now.places.items count)) }
    ensures first { IfOk result (λ b. IsTrue b → at_place cuts.now.items.items 0 ≡ 3) }
{
    let count = count as usize;
    if cuts.places.len() <= count || cuts.items.is_empty() || cuts.items[0] != 3 {
        return Ok(false);
    }
    is_framed(alloc, development, cert, cuts.places[0], cuts.places[count])
}

/// The cuts of a certificate, if it may be one, and the parts of the conditions of a development. Threads of their own cut.
fn cut_and_number<R: Threads + Sync>(
    rt: &R,
    alloc: Global,
    development: &Development,
    cert: &[u8],
    workers: u64,
) -> Result<(Option<Cuts>, Numbering), OutOfMemory>
    ensures { IfOk result (λ both. IsNumbering (development_view development.now) both.1) }
{
    let (cuts, numbering) = thread::join(
        rt,
        || cut(rt, alloc, cert, workers),
        || Numbering::new(alloc, development),
    );
    Ok((cuts?, numbering?))
}

/// How many conditions the development has, if the file, cut before it is read, is found to prove them all.
fn proven_in_pieces<R: Threads + Wait + Sync, G: Gate + Sync>(
    rt: &R,
    alloc: Global,
    gate: &G,
    development: &Development,
    cert: &[u8],
    workers: u64,
) -> Result<Option<u64>, OutOfMemory>
    ensures { let d = development_view development.now in
        IfOk result (λ count. IfSome count (λ n. (n ≡ length (conditions d)) × IsProvenBy d cert.now)) }
{
    let (cuts, numbering) = cut_and_number(rt, alloc, development, cert, workers)?;
    let Some(cuts) = cuts else {
        return Ok(None);
    };
    let count = numbering.count();
    if !are_framed(alloc, development, cert, &cuts, count)? {
        return Ok(None);
    }
    let files = Files {
        development,
        numbering: &numbering,
        file: cert,
        places: &cuts.places,
        items: &cuts.items,
    };
    if all_proved::<Brand, R, G>(rt, alloc, gate, files, workers)? {
        known_entries_prove_the_development();
        return Ok(Some(count));
    }
    Ok(None)
}

/// The same, if there is more than one worker: a lone one reads the certificate as it is, which needs no cuts.
fn proven_by_workers<R: Threads + Wait + Sync, G: Gate + Sync>(
    rt: &R,
    alloc: Global,
    gate: &G,
    development: &Development,
    cert: &[u8],
    workers: u64,
) -> Result<Option<u64>, OutOfMemory>
    ensures { let d = development_view development.now in
        IfOk result (λ count. IfSome count (λ n. (n ≡ length (conditions d)) × IsProvenBy d cert.now)) }
{
    if workers > 1 {
        proven_in_pieces(rt, alloc, gate, development, cert, workers)
    } else {
        Ok(None)
    }
}

/// The verdict on a development and a certificate file, which is read and checked whole.
fn check_whole<R: Wait, G: Gate>(
    rt: &R,
    alloc: Global,
    gate: &G,
    development: Development,
    cert: &[u8],
) -> Result<Verdict, OutOfMemory>
    ensures exactly { IfOk result (IsVerdictOn (development_view development) cert.now) }
    ensures linearizable { IfAccepted result (λ D. IsLinearizableObject D.specification D.object) }
{
    let mut session = CertificateSession::new(alloc, development)?;
    session.feed_by(&mut Gated { rt, gate }, cert)?;
    session.finish()
}

/// The verdict on a development and a certificate file, as a `CertificateSession` fed with it says, by `workers` workers. The gate is
/// called around the check of each condition, by whoever makes it.
///
/// Only acceptance is found by the workers: whatever else comes up, the certificate is read and checked whole.
pub fn check_certificate_with<R: Threads + Wait + Sync, G: Gate + Sync>(
    rt: &R,
    alloc: Global,
    development: Development,
    cert: &[u8],
    workers: u64,
    gate: &G,
) -> Result<Verdict, OutOfMemory>
    ensures exactly { IfOk result (IsVerdictOn (development_view development) cert.now) }
    ensures linearizable { IfAccepted result (λ D. IsLinearizableObject D.specification D.object) }
{
    let count = proven_by_workers(rt, alloc, gate, &development, cert, workers)?;
    match count {
        Some(count) => Ok(Verdict::Accepted(Accepted::proven(development, count))),
        None => check_whole(rt, alloc, gate, development, cert),
    }
}

/// The verdict on a development file and a certificate file, as `check` says it, by `workers` workers. The gate is called
/// round the check of each condition, by whoever makes it.
pub fn check_with<R: Threads + Wait + Sync, G: Gate + Sync>(
    rt: &R,
    alloc: Global,
    dev: &[u8],
    cert: &[u8],
    workers: u64,
    gate: &G,
) -> Result<Verdict, OutOfMemory>
    ensures exactly { IfOk result (IsVerdict dev.now cert.now) }
    ensures linearizable { IfAccepted result (λ D. Says file_reading dev.now D × IsLinearizableObject D.specification D.object) }
{
    match development_of(alloc, dev) {
        Ok(development) => check_certificate_with(rt, alloc, development, cert, workers, gate),
        Err(Fault::Refused(refusal)) => Ok(Verdict::Refused(refusal)),
        Err(Fault::OutOfMemory) => Err(OutOfMemory),
    }
}
