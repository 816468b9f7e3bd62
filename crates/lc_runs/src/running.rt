//! Steps of a client of the counter, and the end of a run.
ghost use Rattle.std.specs.Prelude.{◌≡◌};

use anyhow::{Context, bail};
use lc_base::OpId;
use lc_check::Accepted;
use lc_run::{Called, RunFault, RunLog, Runner, Seat, Shared, Unfinished, Why};
use std::marker::Brand;
use std::sync::ledger::{Blank, Ledger};
use std::sync::{Arc, Wait};

/// How many labels are held, and how many the seat has.
fn counts<J: Ledger>(shared: &Shared<J>, seat: &Seat<J>) -> (usize, usize) {
    (shared.labels().len(), seat.labels().len())
}

/// Begins a call, once more if memory ran out and nothing has changed.
fn begin<J: Ledger>(shared: &mut Shared<J>, seat: &mut Seat<J>) -> Result<(), RunFault> {
    let before = counts(shared, seat);
    match shared.take_begin(seat, OpId(0), &[]) {
        Err(RunFault::OutOfMemory) if counts(shared, seat) == before => {
            shared.take_begin(seat, OpId(0), &[])
        }
        told => told,
    }
}

/// Takes a step, once more if memory ran out and nothing has changed.
fn step<J: Ledger>(shared: &mut Shared<J>, seat: &mut Seat<J>) -> Result<(), RunFault> {
    let before = counts(shared, seat);
    match shared.take_step(seat) {
        Err(RunFault::OutOfMemory) if counts(shared, seat) == before => shared.take_step(seat),
        told => told,
    }
}

/// Prints how many labels a call of the counter leaves, where each step is one.
fn print_steps_by<J: Ledger, R: Print + AllocGlobal>(
    rt: &R,
    blank: Blank,
    accepted: Arc<Accepted>,
) -> anyhow::Result<()>
    requires name { blank.name ≡ J.name }
    requires parts { (blank.parts ≡ J.parts) × (blank.parts ≡ 64) }
{
    let made: Result<(Shared<J>, Vec<Seat<J>>), RunFault> = Shared::new(
        rt.alloc(),
        blank,
        accepted,
        1,
    );
    let (mut shared, mut seats) = made?;
    let mut seat = seats.pop().context("there is a seat")?;
    print!(rt; "steps: ")?;
    begin(&mut shared, &mut seat)?;
    for _ in 0..3 {
        step(&mut shared, &mut seat)?;
    }
    println!(rt; "a call of {} labels", shared.labels().len())?;
    Ok(())
}

pub fn print_steps<R: Print + AllocGlobal>(rt: &R, accepted: Arc<Accepted>) -> anyhow::Result<()> {
    print_steps_by::<Brand, R>(rt, Blank::new(64), accepted)
}

/// Hands in the seats, once more if memory ran out and all came back.
fn finished<J: Ledger>(runner: Runner<J>, seats: Vec<Seat<J>>) -> Result<RunLog, Why> {
    let Unfinished { runner, seats, why } = match runner.finish(seats) {
        Ok(log) => return Ok(log),
        Err(unfinished) => unfinished,
    };
    if why != Why::OutOfMemory {
        return Err(why);
    }
    match runner.finish(seats) {
        Ok(log) => Ok(log),
        Err(unfinished) => Err(unfinished.why),
    }
}

/// Prints how many calls the order of a run has, in which a client makes one.
fn print_finish_by<J: Ledger, R: Print + AllocGlobal + Wait>(
    rt: &R,
    blank: Blank,
    accepted: Arc<Accepted>,
) -> anyhow::Result<()>
    requires name { blank.name ≡ J.name }
    requires parts { (blank.parts ≡ J.parts) × (blank.parts ≡ 64) }
{
    let made: Result<(Runner<J>, Vec<Seat<J>>), RunFault> = Runner::new(
        rt.alloc(),
        blank,
        accepted,
        2,
    );
    let (runner, mut seats) = made?;
    let mut seat = seats.pop().context("there is a seat")?;
    if let Called::TurnsSpent = runner.call(rt, &mut seat, OpId(0), &[], 100)? {
        bail!("the call does not return");
    }
    seats.push(seat)?;
    print!(rt; "finish: ")?;
    let Ok(log) = finished(runner, seats) else {
        bail!("the run is not finished");
    };
    println!(rt; "calls in the order: {}", log.order.len())?;
    Ok(())
}

pub fn print_finish<R: Print + AllocGlobal + Wait>(
    rt: &R,
    accepted: Arc<Accepted>,
) -> anyhow::Result<()> {
    print_finish_by::<Brand, R>(rt, Blank::new(64), accepted)
}
