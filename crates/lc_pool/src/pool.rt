//! All numbers, checked by many workers.
ghost use Rattle.std.specs.Prelude.{IfOk, IsTrue};
ghost use Rattle.lc_pool.specs.Marks.{AllHold};

use crate::collecting::{Table, collect, mark_all};
use crate::gate::Gate;
use crate::lanes::{Board, deal, work};
use crate::work::{Checker, Known, Work};
use lc_base::OutOfMemory;
use std::alloc::Global;
use std::sync::Wait;
use std::thread;
use std::thread::Threads;

/// Whether all numbers below the count hold: each is checked at one of the desks, which have a thread each, and what is
/// missing then at the last one. A thread that cannot be made is done without. False says nothing of the numbers.
pub fn pooled<
    W: Work + Send + Sync,
    R: Threads + Wait + Sync,
    G: Gate + Sync,
    C: Checker<W> + Drop + Send,
>(
    rt: &R,
    alloc: Global,
    gate: &G,
    desks: Vec<C>,
    last: &mut C,
    count: u64,
) -> Result<bool, OutOfMemory>
    ensures { IfOk result (λ all. IsTrue all → AllHold W.holds count) }
{
    let mut table: Table<W> = Table::new(alloc, count)?;
    let board = Board::new();
    let lanes = deal(alloc, &board, count, desks)?;
    let found: Vec<Vec<Known<W>>> = thread::map_vec(
        rt,
        lanes,
        &|lane| -> Vec<Known<W>> { work(rt, alloc, gate, &board, lane) },
    )?;
    if board.has_failed() {
        return Ok(false);
    }
    mark_all(&mut table, &found);
    collect(rt, alloc, gate, last, &table, count)
}
