//! Verdicts by many workers, and numbers that many workers check.
ghost use Rattle.std.specs.Prelude.{IfOk, IsTrue};
ghost use Rattle.lc_check.specs.VerdictView.{IfAccepted, IsVerdict, IsVerdictOn};
ghost use Rattle.lc_outline.specs.DevelopmentView.{development_view};
ghost use Rattle.lc_outline_text.specs.Developments.{file_reading};
ghost use Rattle.lc_pool.specs.Marks.{AllHold};
ghost use Rattle.lc_reading.specs.Files.{Says};
ghost use Rattle.lc_sound.specs.Linearizable.{IsLinearizableObject};

use lc_base::OutOfMemory;
use lc_check::Verdict;
use lc_outline::Development;
use lc_pool::{Checker, Gate, Work, check_certificate_with, check_with, pooled};
use std::alloc::Global;
use std::sync::Wait;
use std::thread::Threads;

/// Two files have the verdict of `check`, by any number of workers and under any gate.
pub fn checking_by_workers<R: Threads + Wait + Sync, G: Gate + Sync>(
    rt: &R,
    alloc: Global,
    dev: &[u8],
    cert: &[u8],
    workers: u64,
    gate: &G,
) -> Result<Verdict, OutOfMemory>
    ensures exactly { IfOk result (IsVerdict dev.now cert.now) }
    ensures linearizable { IfAccepted result (λ D. Says file_reading dev.now D × IsLinearizableObject D.specification D.object) }
{
    check_with(rt, alloc, dev, cert, workers, gate)
}

/// A development that was read and a certificate file have the verdict of a session, by any number of workers.
pub fn checking_a_certificate_by_workers<R: Threads + Wait + Sync, G: Gate + Sync>(
    rt: &R,
    alloc: Global,
    development: Development,
    cert: &[u8],
    workers: u64,
    gate: &G,
) -> Result<Verdict, OutOfMemory>
    ensures exactly { IfOk result (IsVerdictOn (development_view development) cert.now) }
    ensures linearizable { IfAccepted result (λ D. IsLinearizableObject D.specification D.object) }
{
    check_certificate_with(rt, alloc, development, cert, workers, gate)
}

/// If `true` is returned, all numbers below `count` hold.
pub fn pooling<
    W: Work + Send + Sync,
    R: Threads + Wait + Sync,
    G: Gate + Sync,
    C: Checker<W> + Drop + Send,
>(
    rt: &R,
    alloc: Global,
    gate: &G,
    desks: Vec<C>,
    last: &mut C,
    count: u64,
) -> Result<bool, OutOfMemory>
    ensures { IfOk result (λ all. IsTrue all → AllHold W.holds count) }
{
    pooled(rt, alloc, gate, desks, last, count)
}
