//! Clients that stop in a call: they take no more steps, or a number leaves 64 bits.
use crate::accepting::{found, library};
use crate::running::{Back, Scenario, end_of, given_back, hand_in, is_order, plays};
use lc_lib::Lib;
use lc_run::{RunFault, Runner, Seat};
use std::alloc::Global;
use std::sync::Wait;
use std::sync::ledger::Ledger;
use std::test::Fail;
use std::thread::Threads;

/// A counter whose step that marks an increase adds one to the greatest number of 64 bits.
const OVERFLOWING: &str = "(spec counter (abstract (v 0 0))
  (op inc () 1 (branch (and) ((v 0 (+ (rd v 0) 1))) ((rd v 0)))))
(object counter (array cell (c 0 0)) (aux (h 0 9223372036854775807))
  (action add () (and (= (rd pend self) 1) (= (rd op self) 0))
    (c 0 (+ (rd c 0) 1)) (v 0 (+ (rd v 0) 1))
    (pend self 2) (rep1 self (rd v 0)) (h 0 (+ (rd h 0) 1)))
  (invariant (tied (= (rd c 0) (rd v 0))))
  (idle)
  (body inc (x)
    (point p0 (load cell 0 (x) p1) (assert (= (rd pend self) 1)))
    (point p1 (cas cell 0 (x) ((+ x 1)) p2 p0)
      (assert (= (rd pend self) 1)) (on then (add) (lin) (set h 0 (+ (rd h 0) 1))))
    (point p2 (return x)
      (assert (= (rd pend self) 2) (= (rd rep1 self) x)))))";

/// A client of a counter that stopped between its load and its replacement holds no other one up. Without its seat the run is not
/// finished; with it the run is, and its call has no place in the order.
#[derive(Clone, Copy)]
struct Left;

impl Scenario for Left {
    fn plays<J: Ledger + Sync, R: Threads + Wait + Sync>(
        &self,
        rt: &R,
        _alloc: Global,
        runner: Runner<J>,
        mut seats: Vec<Seat<J>>,
    ) -> Result<bool, RunFault> {
        let (Some(mut going), Some(mut stopped)) = (seats.pop(), seats.pop()) else {
            return Ok(false);
        };
        let spent = end_of(rt, &runner, &mut stopped, 0, &[], 1).is_spent();
        let first = end_of(rt, &runner, &mut going, 0, &[], 3).returned(&[0]);
        let second = end_of(rt, &runner, &mut going, 0, &[], 3).returned(&[1]);
        hand_in(&mut seats, going)?;
        let Some(Back { runner, mut seats }) = given_back(runner, seats, 0) else {
            return Ok(false);
        };
        hand_in(&mut seats, stopped)?;
        match runner.finish(seats) {
            Ok(log) => {
                let whole = log.labels.len() == 10;
                Ok(spent & first & second & whole & is_order(&log, &[(1, 0), (1, 1)]))
            }
            Err(_) => Ok(false),
        }
    }
}

/// A client of the combining counter that stopped after its announcement is helped: its call is in the order, and comes first.
#[derive(Clone, Copy)]
struct Helped;

impl Scenario for Helped {
    fn plays<J: Ledger + Sync, R: Threads + Wait + Sync>(
        &self,
        rt: &R,
        _alloc: Global,
        runner: Runner<J>,
        mut seats: Vec<Seat<J>>,
    ) -> Result<bool, RunFault> {
        let (Some(mut helping), Some(mut stopped)) = (seats.pop(), seats.pop()) else {
            return Ok(false);
        };
        let spent = end_of(rt, &runner, &mut stopped, 0, &[], 3).is_spent();
        let returned = end_of(rt, &runner, &mut helping, 0, &[], 1_000).returned(&[1]);
        hand_in(&mut seats, stopped)?;
        hand_in(&mut seats, helping)?;
        match runner.finish(seats) {
            Ok(log) => Ok(spent & returned & is_order(&log, &[(0, 0), (1, 1)])),
            Err(_) => Ok(false),
        }
    }
}

/// A step on which a number leaves 64 bits is refused, also when it is asked for again, and nothing of it is kept.
#[derive(Clone, Copy)]
struct Overflowing;

impl Scenario for Overflowing {
    fn plays<J: Ledger + Sync, R: Threads + Wait + Sync>(
        &self,
        rt: &R,
        _alloc: Global,
        runner: Runner<J>,
        mut seats: Vec<Seat<J>>,
    ) -> Result<bool, RunFault> {
        let Some(mut seat) = seats.pop() else {
            return Ok(false);
        };
        let first = end_of(rt, &runner, &mut seat, 0, &[], 1_000).is_fault(RunFault::Overflow);
        let made = seat.labels().len();
        let again = matches!(runner.step(rt, &mut seat), Err(RunFault::Overflow));
        let same = seat.labels().len() == made;
        hand_in(&mut seats, seat)?;
        match runner.finish(seats) {
            Ok(log) => Ok(first & again & same & log.order.is_empty() & (log.labels.len() == made)),
            Err(_) => Ok(false),
        }
    }
}

/// The turns of a client that waits for another one.
const TURNS: u64 = 10_000;

/// Three clients that wait for others in turn spend their turns, and all their steps are there at the end.
#[derive(Clone, Copy)]
struct Waiting;

impl Scenario for Waiting {
    fn plays<J: Ledger + Sync, R: Threads + Wait + Sync>(
        &self,
        rt: &R,
        _alloc: Global,
        runner: Runner<J>,
        mut seats: Vec<Seat<J>>,
    ) -> Result<bool, RunFault> {
        let (Some(mut last), Some(mut middle), Some(mut first)) = (
            seats.pop(),
            seats.pop(),
            seats.pop(),
        ) else {
            return Ok(false);
        };
        let first_waits = end_of(rt, &runner, &mut first, 0, &[0], TURNS).is_spent();
        let second_waits = end_of(rt, &runner, &mut middle, 0, &[2], TURNS).is_spent();
        let last_waits = end_of(rt, &runner, &mut last, 0, &[4], TURNS).is_spent();
        let wait = first_waits & second_waits & last_waits;
        hand_in(&mut seats, last)?;
        hand_in(&mut seats, middle)?;
        hand_in(&mut seats, first)?;
        match runner.finish(seats) {
            Ok(log) => {
                let whole = log.labels.len() == 30_003;
                Ok(wait & whole & is_order(&log, &[(0, 1), (1, 1), (2, 1)]))
            }
            Err(_) => Ok(false),
        }
    }
}

#[test]
fn a_stopped_client_holds_no_other_up(rt: HostRuntime) -> Result<(), Fail> {
    let accepted = library(rt.alloc(), Lib::Counter)?;
    assert!(rt; plays(&rt, rt.alloc(), accepted, 2, &Left)?);
    Ok(())
}

#[test]
fn a_stopped_client_is_helped(rt: HostRuntime) -> Result<(), Fail> {
    let accepted = library(rt.alloc(), Lib::Combining)?;
    assert!(rt; plays(&rt, rt.alloc(), accepted, 2, &Helped)?);
    Ok(())
}

#[test]
fn a_step_that_overflows_is_refused(rt: HostRuntime) -> Result<(), Fail> {
    let accepted = found(rt.alloc(), OVERFLOWING.as_bytes())?;
    assert!(rt; plays(&rt, rt.alloc(), accepted, 1, &Overflowing)?);
    Ok(())
}

#[test]
fn all_steps_of_clients_that_wait_are_kept(rt: HostRuntime) -> Result<(), Fail> {
    let accepted = library(rt.alloc(), Lib::Rendezvous)?;
    assert!(rt; plays(&rt, rt.alloc(), accepted, 3, &Waiting)?);
    Ok(())
}
