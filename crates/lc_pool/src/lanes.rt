//! How numbers are dealt out, and taken.
use crate::gate::Gate;
use crate::work::{Checker, Known, Work, known_under};
use crossbeam_deque::{Steal, Stealer, Worker};
use lc_base::OutOfMemory;
use std::alloc::Global;
use std::sync::Wait;
use std::sync::atomic::{AtomicBool, AtomicU64, Ordering};
use std::thread;

/// Consecutive numbers of which no check has begun: from the one on, and before the other.
#[derive(Clone, Copy)]
struct Run {
    from: u64,
    to: u64,
}

// How many numbers a run has when it is dealt, at most. A slot of a deque takes much more memory than a number.
const RUN: u64 = 64;

/// What all workers see.
#[derive(Drop)]
pub(crate) struct Board {
    /// Whether a number was found that does not hold, or memory ran out, so that the others need not be checked.
    failed: AtomicBool,
    /// How many runs there are, those included that a worker has taken and not yet put back.
    runs: AtomicU64,
}

impl Board {
    /// A board that says nothing yet.
    pub(crate) fn new() -> Board {
        Board {
            failed: AtomicBool::new(false),
            runs: AtomicU64::new(0),
        }
    }

    /// No number need be checked any more.
    fn fail(&self) {
        self.failed.store(true, Ordering::SeqCst);
    }

    /// Whether a number was found that does not hold, or memory ran out.
    pub(crate) fn has_failed(&self) -> bool {
        self.failed.load(Ordering::SeqCst)
    }
}

/// What one worker begins with: the runs that were dealt to it, and how it takes those of the others.
#[derive(Drop)]
pub(crate) struct Lane<C> {
    own: Worker<Run>,
    others: Vec<Stealer<Run>>,
    desk: C,
}

/// What the deques gave.
#[derive(Clone, Copy)]
enum Taken {
    Run(Run),
    Nothing,
    TryAgain,
}

fn steal_from(others: &[Stealer<Run>]) -> Taken {
    let mut taken = Taken::Nothing;
    for other in others {
        match other.steal() {
            Steal::Success(run) => return Taken::Run(run),
            Steal::Retry => taken = Taken::TryAgain,
            Steal::Empty => {}
        }
    }
    taken
}

/// A deque of the numbers from the one to the other, in runs; its worker pops the first one first.
fn filled(alloc: Global, board: &Board, from: u64, to: u64) -> Result<Worker<Run>, OutOfMemory> {
    let runs = u64::saturating_sub(to, from).div_ceil(RUN);
    let mut own = Worker::new_lifo(alloc, runs as usize)?;
    for before in (0..runs).rev() {
        let first = u64::saturating_add(from, u64::saturating_mul(before, RUN));
        let run = Run {
            from: first,
            to: to.min(u64::saturating_add(first, RUN)),
        };
        if own.push(run).is_err() {
            return Err(OutOfMemory);
        }
        board.runs.fetch_add(1, Ordering::SeqCst);
    }
    Ok(own)
}

/// A handle on each deque but the one at this place.
fn others_of(
    alloc: Global,
    stealers: &[Stealer<Run>],
    place: usize,
) -> Result<Vec<Stealer<Run>>, OutOfMemory> {
    let mut others = Vec::new(alloc);
    for (at, stealer) in stealers.iter().enumerate() {
        if at != place {
            others.push(stealer.clone()?)?;
        }
    }
    Ok(others)
}

/// A deque for each worker, with the numbers below the count in runs.
fn owners(
    alloc: Global,
    board: &Board,
    count: u64,
    workers: u64,
) -> Result<Vec<Worker<Run>>, OutOfMemory> {
    let mut owners = Vec::new(alloc);
    let each = count.checked_div(workers).unwrap_or(count);
    let mut from = 0;
    for worker in 0..workers {
        let to = if worker + 1 == workers {
            count
        } else {
            count.min(u64::saturating_add(from, each))
        };
        owners.push(filled(alloc, board, from, to)?)?;
        from = to;
    }
    Ok(owners)
}

fn stealers_of(alloc: Global, owners: &[Worker<Run>]) -> Result<Vec<Stealer<Run>>, OutOfMemory> {
    let mut stealers = Vec::new(alloc);
    for own in owners {
        stealers.push(own.stealer()?)?;
    }
    Ok(stealers)
}

/// Deals the numbers below the count to the desks.
pub(crate) fn deal<C: Drop>(
    alloc: Global,
    board: &Board,
    count: u64,
    desks: Vec<C>,
) -> Result<Vec<Lane<C>>, OutOfMemory> {
    let owners = owners(alloc, board, count, desks.len() as u64)?;
    let stealers = stealers_of(alloc, &owners)?;
    let mut lanes = Vec::new(alloc);
    for (own, desk) in owners.into_iter().zip(desks) {
        let others = others_of(alloc, &stealers, lanes.len())?;
        lanes.push(Lane { own, others, desk })?;
    }
    Ok(lanes)
}

/// The next run.
fn next(own: &mut Worker<Run>, others: &[Stealer<Run>]) -> Taken {
    match own.pop() {
        Some(run) => Taken::Run(run),
        None => steal_from(others),
    }
}

/// Puts back what is left of a run without its first number, so that any worker can take it; whether there was memory.
fn put_back_rest(own: &mut Worker<Run>, board: &Board, run: Run) -> bool {
    let rest = Run {
        from: u64::saturating_add(run.from, 1),
        to: run.to,
    };
    if rest.from < rest.to && own.push(rest).is_ok() {
        return true;
    }
    board.runs.fetch_sub(1, Ordering::SeqCst);
    rest.from >= rest.to
}

/// Checks numbers until the check of each has begun, one does not hold, here or elsewhere, or memory runs out.
pub(crate) fn work<W: Work, R: Wait, G: Gate, C: Checker<W> + Drop>(
    rt: &R,
    alloc: Global,
    gate: &G,
    board: &Board,
    lane: Lane<C>,
) -> Vec<Known<W>> {
    let Lane {
        mut own,
        others,
        mut desk,
    } = lane;
    let mut found = Vec::new(alloc);
    for _ in rt.forever() {
        if board.has_failed() {
            break;
        }
        match next(&mut own, &others) {
            Taken::Run(run) => {
                if !put_back_rest(&mut own, board, run) {
                    board.fail();
                    break;
                }
                let Ok(Some(known)) = known_under(rt, alloc, gate, &mut desk, run.from) else {
                    board.fail();
                    break;
                };
                if found.push(known).is_err() {
                    board.fail();
                    break;
                }
            }
            Taken::Nothing if board.runs.load(Ordering::SeqCst) == 0 => break,
            // Another worker has taken a run, and is about to put back what is left of it.
            Taken::Nothing | Taken::TryAgain => thread::yield_now(),
        }
    }
    found
}
