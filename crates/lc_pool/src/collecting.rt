//! What came back from the workers, and what is still missing.
ghost use Rattle.std.specs.Prelude.{IfOk, IsTrue};
ghost use Rattle.lc_pool.specs.Marks.{AllHold};

use crate::gate::Gate;
use crate::work::{Checker, Known, Work, holds_under};
use lc_base::OutOfMemory;
use std::alloc::Global;
use std::marker::{Model, PhantomData};
use std::sync::Wait;

/// Which numbers are known to hold.
#[derive(Drop)]
pub(crate) struct Table<W: Work> {
    rows: Vec<bool>,
    of: PhantomData<W>,
}

impl<W: Work> Model for Table<W> {
    ghost use Rattle.std.specs.Prelude.{List, Bool};

    ghost Value = { List Bool };

    ghost use Rattle.lc_pool.specs.Marks.{AreKnown};

    ghost view = { λ t. t.rows.items };

    ghost invariant = { λ t. AreKnown W.holds t.rows.items };
}

impl<W: Work> Table<W> {
    ghost use Rattle.std.specs.Prelude.{◌≡◌, IfOk, IsTrue, length};

    /// A table of `count` numbers, with nothing known about them.
    pub(crate) fn new(alloc: Global, count: u64) -> Result<Table<W>, OutOfMemory>
        ensures { IfOk result (λ t. length t ≡ count) }
    {
        let mut rows = Vec::new(alloc);
        for _k in 0..count {
            rows.push(false)?;
        }
        Ok(Table {
            rows,
            of: PhantomData,
        })
    }

    /// Marks a number. One that is not in the table, and one that was marked, changes nothing.
    pub(crate) fn mark(&mut self, found: &Known<W>)
        ensures { length self.new ≡ length self.old }
    {
        let place = found.number() as usize;
        if place < self.rows.len() {
            self.rows[place] = true;
        }
    }

    /// Whether a number is marked.
    fn has(&self, number: u64) -> bool
        ensures { IsTrue result → W.holds number }
    {
        match self.rows.get(number as usize) {
            Some(known) => *known,
            None => false,
        }
    }
}

/// Marks all that was found.
pub(crate) fn mark_all<W: Work>(table: &mut Table<W>, found: &[Vec<Known<W>>]) {
    for known in found {
        for number in known {
            table.mark(number);
        }
    }
}

/// Whether a number holds: it is marked, or is checked here.
fn holds_here<W: Work, R: Wait, G: Gate, C: Checker<W>>(
    rt: &R,
    alloc: Global,
    gate: &G,
    checker: &mut C,
    table: &Table<W>,
    number: u64,
) -> Result<bool, OutOfMemory>
    ensures { IfOk result (λ good. IsTrue good → W.holds number) }
{
    if table.has(number) {
        return Ok(true);
    }
    holds_under(rt, alloc, gate, checker, number)
}

/// Whether all numbers below the count hold: those that are not marked are checked here.
pub(crate) fn collect<W: Work, R: Wait, G: Gate, C: Checker<W>>(
    rt: &R,
    alloc: Global,
    gate: &G,
    checker: &mut C,
    table: &Table<W>,
    count: u64,
) -> Result<bool, OutOfMemory>
    ensures { IfOk result (λ all. IsTrue all → AllHold W.holds count) }
{
    for number in 0..count {
        if !holds_here(rt, alloc, gate, checker, table, number)? {
            return Ok(false);
        }
    }
    Ok(true)
}
