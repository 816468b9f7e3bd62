//! Runs that are not finished, since seats are missing, and then are.
use crate::accepting::library;
use crate::running::{Back, Scenario, given_back, hand_in, plays};
use lc_lib::Lib;
use lc_run::{RunFault, Runner, Seat};
use std::alloc::Global;
use std::sync::Wait;
use std::sync::ledger::Ledger;
use std::test::Fail;
use std::thread::Threads;

/// With the first seat of two the second is missing; with both the run is finished.
#[derive(Clone, Copy)]
struct OneOfTwo;

impl Scenario for OneOfTwo {
    fn plays<J: Ledger + Sync, R: Threads + Wait + Sync>(
        &self,
        _rt: &R,
        _alloc: Global,
        runner: Runner<J>,
        mut seats: Vec<Seat<J>>,
    ) -> Result<bool, RunFault> {
        let Some(second) = seats.pop() else {
            return Ok(false);
        };
        let Some(Back { runner, mut seats }) = given_back(runner, seats, 1) else {
            return Ok(false);
        };
        hand_in(&mut seats, second)?;
        Ok(runner.finish(seats).is_ok())
    }
}

/// With no seat of three the first is missing, with the last and the first the second; with all, in any order, the run is finished.
#[derive(Clone, Copy)]
struct SomeOfThree;

impl Scenario for SomeOfThree {
    fn plays<J: Ledger + Sync, R: Threads + Wait + Sync>(
        &self,
        _rt: &R,
        _alloc: Global,
        runner: Runner<J>,
        mut seats: Vec<Seat<J>>,
    ) -> Result<bool, RunFault> {
        let (Some(last), Some(middle), Some(first)) = (seats.pop(), seats.pop(), seats.pop()) else {
            return Ok(false);
        };
        let Some(Back { runner, mut seats }) = given_back(runner, seats, 0) else {
            return Ok(false);
        };
        hand_in(&mut seats, last)?;
        hand_in(&mut seats, first)?;
        let Some(Back { runner, mut seats }) = given_back(runner, seats, 1) else {
            return Ok(false);
        };
        hand_in(&mut seats, middle)?;
        Ok(runner.finish(seats).is_ok())
    }
}

#[test]
fn the_seat_that_is_missing_is_told(rt: HostRuntime) -> Result<(), Fail> {
    let accepted = library(rt.alloc(), Lib::Counter)?;
    assert!(rt; plays(&rt, rt.alloc(), accepted, 2, &OneOfTwo)?);
    Ok(())
}

#[test]
fn the_least_seat_that_is_missing_is_told(rt: HostRuntime) -> Result<(), Fail> {
    let accepted = library(rt.alloc(), Lib::Counter)?;
    assert!(rt; plays(&rt, rt.alloc(), accepted, 3, &SomeOfThree)?);
    Ok(())
}
