//! Objects of the library, run by one client: what its calls are answered is what it did before.
use crate::accepting::library;
use crate::running::{Scenario, end_of, hand_in, plays};
use lc_lib::Lib;
use lc_run::{RunFault, Runner, Seat};
use std::alloc::Global;
use std::sync::Wait;
use std::sync::ledger::Ledger;
use std::test::Fail;
use std::thread::Threads;

/// More turns than a call takes that no other one comes between.
const TURNS: u64 = 1_000;

/// A call, and what it should return.
#[derive(Clone, Copy)]
struct Asked<'a> {
    operation: u32,
    given: &'a [i64],
    wanted: &'a [i64],
}

fn asking<'a>(operation: u32, given: &'a [i64], wanted: &'a [i64]) -> Asked<'a> {
    Asked {
        operation,
        given,
        wanted,
    }
}

/// One client makes these calls: each returns what it should, and all of them are in the order.
#[derive(Clone, Copy)]
struct Alone<'a> {
    calls: &'a [Asked<'a>],
}

impl Scenario for Alone<'_> {
    fn plays<J: Ledger + Sync, R: Threads + Wait + Sync>(
        &self,
        rt: &R,
        _alloc: Global,
        runner: Runner<J>,
        mut seats: Vec<Seat<J>>,
    ) -> Result<bool, RunFault> {
        let Some(mut seat) = seats.pop() else {
            return Ok(false);
        };
        for asked in self.calls {
            let end = end_of(rt, &runner, &mut seat, asked.operation, asked.given, TURNS);
            if !end.returned(asked.wanted) {
                return Ok(false);
            }
        }
        hand_in(&mut seats, seat)?;
        match runner.finish(seats) {
            Ok(log) => Ok(log.order.len() == self.calls.len()),
            Err(_) => Ok(false),
        }
    }
}

/// Whether calls of an object of the library by one client return what they should.
fn answers<R: Threads + Wait + Sync>(
    rt: &R,
    alloc: Global,
    lib: Lib,
    calls: &[Asked<'_>],
) -> Result<bool, Fail> {
    let accepted = library(alloc, lib)?;
    let answered = plays(rt, alloc, accepted, 1, &Alone { calls })?;
    Ok(answered)
}

#[test]
fn a_counter_counts(rt: HostRuntime) -> Result<(), Fail> {
    let calls = [
        asking(0, &[], &[0]),
        asking(0, &[], &[1]),
        asking(1, &[], &[2]),
    ];
    assert!(rt; answers(&rt, rt.alloc(), Lib::Counter, calls.as_slice())?);
    Ok(())
}

#[test]
fn a_stack_gives_back_what_was_pushed(rt: HostRuntime) -> Result<(), Fail> {
    let calls = [
        asking(0, &[5], &[]),
        asking(1, &[], &[1, 5]),
        asking(1, &[], &[0, 0]),
    ];
    assert!(rt; answers(&rt, rt.alloc(), Lib::Stack, calls.as_slice())?);
    Ok(())
}

#[test]
fn a_queue_gives_back_what_came_in(rt: HostRuntime) -> Result<(), Fail> {
    let calls = [
        asking(0, &[5], &[]),
        asking(1, &[], &[1, 5]),
        asking(1, &[], &[0, 0]),
    ];
    assert!(rt; answers(&rt, rt.alloc(), Lib::Queue, calls.as_slice())?);
    Ok(())
}

#[test]
fn a_lock_is_released_by_its_holder(rt: HostRuntime) -> Result<(), Fail> {
    let calls = [
        asking(0, &[], &[]),
        asking(1, &[], &[1]),
        asking(1, &[], &[0]),
    ];
    assert!(rt; answers(&rt, rt.alloc(), Lib::Lock, calls.as_slice())?);
    Ok(())
}

#[test]
fn a_snapshot_shows_what_was_written(rt: HostRuntime) -> Result<(), Fail> {
    let calls = [asking(0, &[3], &[]), asking(2, &[], &[3, 0])];
    assert!(rt; answers(&rt, rt.alloc(), Lib::Snapshot, calls.as_slice())?);
    Ok(())
}

#[test]
fn a_combining_counter_counts(rt: HostRuntime) -> Result<(), Fail> {
    let calls = [asking(0, &[], &[0]), asking(0, &[], &[1])];
    assert!(rt; answers(&rt, rt.alloc(), Lib::Combining, calls.as_slice())?);
    Ok(())
}
