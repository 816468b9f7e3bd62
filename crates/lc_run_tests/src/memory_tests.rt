//! With any one allocation refused: `OutOfMemory`, with nothing changed, and then the answer; or the answer at once.
ghost use Rattle.std.specs.Prelude.{◌≡◌};

use crate::accepting::library_with_room;
use crate::running::{End, Scenario, end_of, hand_in, plays};
use lc_base::OpId;
use lc_check::Accepted;
use lc_lib::Lib;
use lc_run::{RunFault, Runner, Seat, Shared, Unfinished, Why};
use std::alloc::Global;
use std::marker::Brand;
use std::sync::ledger::{Blank, Ledger};
use std::sync::{Arc, Wait};
use std::test::Fail;
use std::thread::Threads;

/// How many labels are held, and how many the seat has.
fn counts<J: Ledger>(shared: &Shared<J>, seat: &Seat<J>) -> (usize, usize) {
    (shared.labels().len(), seat.labels().len())
}

/// Whether a call begins, if need be at the second time, if the first changed nothing.
fn begins<J: Ledger>(shared: &mut Shared<J>, seat: &mut Seat<J>) -> bool {
    let before = counts(shared, seat);
    match shared.take_begin(seat, OpId(0), &[]) {
        Ok(()) => true,
        Err(fault) => {
            let same = counts(shared, seat) == before;
            (fault == RunFault::OutOfMemory) & same & shared.take_begin(seat, OpId(0), &[]).is_ok()
        }
    }
}

/// Whether a step is taken, if need be at the second time, if the first changed nothing.
fn steps<J: Ledger>(shared: &mut Shared<J>, seat: &mut Seat<J>) -> bool {
    let before = counts(shared, seat);
    match shared.take_step(seat) {
        Ok(()) => true,
        Err(fault) => {
            let same = counts(shared, seat) == before;
            (fault == RunFault::OutOfMemory) & same & shared.take_step(seat).is_ok()
        }
    }
}

/// Whether a call of a counter begins, goes on and returns.
fn calls<J: Ledger>(alloc: Global, blank: Blank, accepted: Arc<Accepted>) -> Result<bool, RunFault>
    requires name { blank.name ≡ J.name }
    requires parts { (blank.parts ≡ J.parts) × (blank.parts ≡ 64) }
{
    let made: Result<(Shared<J>, Vec<Seat<J>>), RunFault> = Shared::new(alloc, blank, accepted, 1);
    let (mut shared, mut seats) = made?;
    let Some(mut seat) = seats.pop() else {
        return Ok(false);
    };
    let begun = begins(&mut shared, &mut seat);
    let loaded = steps(&mut shared, &mut seat);
    let swapped = steps(&mut shared, &mut seat);
    let returned = steps(&mut shared, &mut seat);
    Ok(begun & loaded & swapped & returned & (counts(&shared, &seat) == (4, 4)))
}

/// A run with one call is finished, if need be at the second time, if runner and seats came back.
#[derive(Clone, Copy)]
struct Finished;

impl Scenario for Finished {
    fn plays<J: Ledger + Sync, R: Threads + Wait + Sync>(
        &self,
        rt: &R,
        _alloc: Global,
        runner: Runner<J>,
        mut seats: Vec<Seat<J>>,
    ) -> Result<bool, RunFault> {
        let Some(mut seat) = seats.pop() else {
            return Ok(false);
        };
        if let End::Fault(fault) = end_of(rt, &runner, &mut seat, 0, &[], 1_000) {
            return Err(fault);
        }
        hand_in(&mut seats, seat)?;
        let Err(unfinished) = runner.finish(seats) else {
            return Ok(true);
        };
        let Unfinished { runner, seats, why } = unfinished;
        Ok((why == Why::OutOfMemory) & (seats.len() == 3) & runner.finish(seats).is_ok())
    }
}

/// Whether that is so, or memory was wanted before.
fn is_so_or_want(answer: Result<bool, RunFault>) -> bool {
    matches!(answer, Ok(true) | Err(RunFault::OutOfMemory))
}

#[test]
fn steps_with_memory_refused(rt: HostRuntime) -> Result<(), Fail> {
    let Some(accepted) = library_with_room(rt.alloc(), Lib::Counter) else {
        return Ok(());
    };
    let called = calls::<Brand>(rt.alloc(), Blank::new(64), accepted);
    assert!(rt; is_so_or_want(called));
    Ok(())
}

#[test]
fn the_end_with_memory_refused(rt: HostRuntime) -> Result<(), Fail> {
    let Some(accepted) = library_with_room(rt.alloc(), Lib::Counter) else {
        return Ok(());
    };
    let ended = plays(&rt, rt.alloc(), accepted, 3, &Finished);
    assert!(rt; is_so_or_want(ended));
    Ok(())
}
