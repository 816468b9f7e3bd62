//! Runs, each with a ledger of its own.
ghost use Rattle.std.specs.Prelude.{◌≡◌};

use lc_base::OpId;
use lc_check::Accepted;
use lc_run::{Called, RunFault, RunLog, Runner, Seat, Unfinished, Why};
use std::alloc::{AllocError, Global};
use std::marker::Brand;
use std::sync::ledger::{Blank, Ledger};
use std::sync::{Arc, Wait};
use std::thread::Threads;

/// What clients do in a run.
pub(crate) trait Scenario {
    /// Whether the run goes as it should, which begins with this runner and these seats.
    fn plays<J: Ledger + Sync, R: Threads + Wait + Sync>(
        &self,
        rt: &R,
        alloc: Global,
        runner: Runner<J>,
        seats: Vec<Seat<J>>,
    ) -> Result<bool, RunFault>;
}

fn begun<J: Ledger + Sync, R: Threads + Wait + Sync, S: Scenario>(
    rt: &R,
    alloc: Global,
    blank: Blank,
    accepted: Arc<Accepted>,
    clients: u32,
    scenario: &S,
) -> Result<bool, RunFault>
    requires name { blank.name ≡ J.name }
    requires parts { (blank.parts ≡ J.parts) × (blank.parts ≡ 64) }
{
    let made: Result<(Runner<J>, Vec<Seat<J>>), RunFault> = Runner::new(
        alloc, blank, accepted, clients,
    );
    let (runner, seats) = made?;
    scenario.plays(rt, alloc, runner, seats)
}

/// Whether a run by `clients` clients goes as it should.
pub(crate) fn plays<R: Threads + Wait + Sync, S: Scenario>(
    rt: &R,
    alloc: Global,
    accepted: Arc<Accepted>,
    clients: u32,
    scenario: &S,
) -> Result<bool, RunFault> {
    begun::<Brand, R, S>(rt, alloc, Blank::new(64), accepted, clients, scenario)
}

/// One seat more that is handed in.
pub(crate) fn hand_in<J: Ledger>(seats: &mut Vec<Seat<J>>, seat: Seat<J>) -> Result<(), RunFault> {
    match seats.push(seat) {
        Ok(()) => Ok(()),
        Err(failed) => Err(AllocError::from(failed).into()),
    }
}

/// What comes back, if a seat is missing.
#[derive(Drop)]
pub(crate) struct Back<J: Ledger> {
    pub(crate) runner: Runner<J>,
    pub(crate) seats: Vec<Seat<J>>,
}

/// Runner and seats, if they come back because the seat of this client is missing.
pub(crate) fn given_back<J: Ledger>(
    runner: Runner<J>,
    seats: Vec<Seat<J>>,
    client: u32,
) -> Option<Back<J>> {
    let Err(unfinished) = runner.finish(seats) else {
        return None;
    };
    let Unfinished { runner, seats, why } = unfinished;
    if why == Why::SeatMissing(client) {
        Some(Back { runner, seats })
    } else {
        None
    }
}

/// How a call ended.
#[derive(Drop)]
pub(crate) enum End {
    Returned(Vec<i64>),
    Spent,
    Fault(RunFault),
}

impl End {
    /// Whether it returned these numbers.
    pub(crate) fn returned(&self, numbers: &[i64]) -> bool {
        match self {
            End::Returned(reply) => reply.as_slice() == numbers,
            End::Spent | End::Fault(_) => false,
        }
    }

    /// Whether its turns were spent.
    pub(crate) fn is_spent(&self) -> bool {
        matches!(self, End::Spent)
    }

    /// Whether it could not go on, for this reason.
    pub(crate) fn is_fault(&self, fault: RunFault) -> bool {
        match self {
            End::Fault(told) => *told == fault,
            End::Returned(_) | End::Spent => false,
        }
    }
}

/// How a client's call of an operation ends.
pub(crate) fn end_of<J: Ledger, R: Wait>(
    rt: &R,
    runner: &Runner<J>,
    seat: &mut Seat<J>,
    operation: u32,
    given: &[i64],
    turns: u64,
) -> End {
    match runner.call(rt, seat, OpId(operation), given, turns) {
        Ok(Called::Returned(reply)) => End::Returned(reply),
        Ok(Called::TurnsSpent) => End::Spent,
        Err(fault) => End::Fault(fault),
    }
}

/// Whether the entries of the order are calls of these clients, with these replies.
pub(crate) fn is_order(log: &RunLog, wanted: &[(u32, i64)]) -> bool {
    let mut rest = wanted;
    for done in &log.order {
        let Some(((client, number), others)) = rest.split_first() else {
            return false;
        };
        if done.client != *client || done.reply.first() != Some(number) {
            return false;
        }
        rest = others;
    }
    rest.is_empty()
}
