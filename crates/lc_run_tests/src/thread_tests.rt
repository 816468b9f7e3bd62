//! Clients in threads of their own.
ghost use Rattle.std.specs.Prelude.{◌≡◌};

use crate::accepting::library;
use crate::running::{End, end_of, hand_in};
use lc_check::Accepted;
use lc_lib::Lib;
use lc_run::{RunFault, Runner, Seat};
use std::alloc::Global;
use std::marker::Brand;
use std::sync::ledger::{Blank, Ledger};
use std::sync::{Arc, Wait};
use std::test::Fail;
use std::thread;
use std::thread::Threads;

/// More turns than a call takes before the other client gets on.
const TURNS: u64 = 400_000;

/// A client's seat, and the first number of each reply that it got; none if a call was not answered.
#[derive(Drop)]
struct Answered<J: Ledger> {
    seat: Seat<J>,
    numbers: Option<Vec<i64>>,
}

/// The first number of each reply, when the first operation is called so often with these numbers.
fn numbers_of<J: Ledger, R: Wait>(
    rt: &R,
    alloc: Global,
    runner: &Runner<J>,
    seat: &mut Seat<J>,
    given: &[i64],
    times: u32,
) -> Option<Vec<i64>> {
    let mut numbers = Vec::new(alloc);
    for _ in 0..times {
        match end_of(rt, runner, seat, 0, given, TURNS) {
            End::Returned(reply) => numbers.push(*reply.first()?).ok()?,
            End::Spent | End::Fault(_) => return None,
        }
    }
    Some(numbers)
}

fn calls_answered<J: Ledger, R: Wait>(
    rt: &R,
    alloc: Global,
    runner: &Runner<J>,
    seat: Seat<J>,
    given: &[i64],
    times: u32,
) -> Answered<J> {
    let mut seat = seat;
    let numbers = numbers_of(rt, alloc, runner, &mut seat, given, times);
    Answered { seat, numbers }
}

/// How two clients, each in a thread of its own, are answered, with what each gives to its calls.
fn both_answered<J: Ledger + Sync, R: Threads + Wait + Sync>(
    rt: &R,
    alloc: Global,
    runner: &Runner<J>,
    seats: (Seat<J>, Seat<J>),
    given: (&[i64], &[i64]),
    times: u32,
) -> (Answered<J>, Answered<J>) {
    let (first, second) = seats;
    let (ours, theirs) = given;
    thread::join(
        rt,
        move || calls_answered(rt, alloc, runner, first, ours, times),
        move || calls_answered(rt, alloc, runner, second, theirs, times),
    )
}

/// Whether the numbers of two lists are those from 0 on, each once, as many as there are.
fn are_all_numbers(mut numbers: Vec<i64>, others: &[i64]) -> Result<bool, RunFault> {
    numbers.extend_from_slice(others)?;
    numbers.sort()?;
    for (place, number) in numbers.iter().enumerate() {
        if i64::try_from(place) != Ok(*number) {
            return Ok(false);
        }
    }
    Ok(true)
}

/// Two clients that count in threads of their own get each number once, and one of them then gets how many there are.
fn both_count<J: Ledger + Sync, R: Threads + Wait + Sync>(
    rt: &R,
    alloc: Global,
    blank: Blank,
    accepted: Arc<Accepted>,
) -> Result<bool, RunFault>
    requires name { blank.name ≡ J.name }
    requires parts { (blank.parts ≡ J.parts) × (blank.parts ≡ 64) }
{
    let made: Result<(Runner<J>, Vec<Seat<J>>), RunFault> = Runner::new(alloc, blank, accepted, 2);
    let (runner, mut seats) = made?;
    let (Some(second), Some(first)) = (seats.pop(), seats.pop()) else {
        return Ok(false);
    };
    let clients = (first, second);
    let (first, second) = both_answered(rt, alloc, &runner, clients, (&[], &[]), 100);
    let mut counting = first.seat;
    let end = end_of(rt, &runner, &mut counting, 1, &[], TURNS);
    hand_in(&mut seats, counting)?;
    hand_in(&mut seats, second.seat)?;
    let (Some(ours), Some(theirs)) = (first.numbers, second.numbers) else {
        return Ok(false);
    };
    let all = are_all_numbers(ours, &theirs)?;
    match runner.finish(seats) {
        Ok(log) => Ok(all & end.returned(&[200]) & (log.order.len() == 201)),
        Err(_) => Ok(false),
    }
}

/// Two clients, each in a thread of its own, meet.
fn both_meet<J: Ledger + Sync, R: Threads + Wait + Sync>(
    rt: &R,
    alloc: Global,
    blank: Blank,
    accepted: Arc<Accepted>,
) -> Result<bool, RunFault>
    requires name { blank.name ≡ J.name }
    requires parts { (blank.parts ≡ J.parts) × (blank.parts ≡ 64) }
{
    let made: Result<(Runner<J>, Vec<Seat<J>>), RunFault> = Runner::new(alloc, blank, accepted, 2);
    let (runner, mut seats) = made?;
    let (Some(second), Some(first)) = (seats.pop(), seats.pop()) else {
        return Ok(false);
    };
    let (first, second) = both_answered(rt, alloc, &runner, (first, second), (&[0], &[1]), 1);
    let (Some(ours), Some(theirs)) = (first.numbers, second.numbers) else {
        return Ok(false);
    };
    Ok((ours.as_slice() == [1].as_slice()) & (theirs.as_slice() == [1].as_slice()))
}

#[test]
fn two_threads_count(rt: HostRuntime) -> Result<(), Fail> {
    let accepted = library(rt.alloc(), Lib::Counter)?;
    let counted = both_count::<Brand, HostRuntime>(&rt, rt.alloc(), Blank::new(64), accepted)?;
    assert!(rt; counted);
    Ok(())
}

#[test]
fn two_threads_meet(rt: HostRuntime) -> Result<(), Fail> {
    let accepted = library(rt.alloc(), Lib::Rendezvous)?;
    let met = both_meet::<Brand, HostRuntime>(&rt, rt.alloc(), Blank::new(64), accepted)?;
    assert!(rt; met);
    Ok(())
}
