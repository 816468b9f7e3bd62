//! A run by a plan, from its beginning to its history.
ghost use Rattle.std.specs.Prelude.{◌≡◌, ◌<◌, [], All, IfOk, IfSome, length};
ghost use Rattle.std.specs.Arc.{arc_value};
ghost use Rattle.lc_base.specs.Limits.{seat_limit};
ghost use Rattle.lc_check.specs.VerdictView.{development_in};
ghost use Rattle.lc_plan.specs.View.{plan_of};
ghost use Rattle.lc_run.specs.Locked.{labels_made};
ghost use Rattle.lc_run.specs.Running.{clients_of, development_of};
ghost use Rattle.lc_crew.specs.Members.{AreEndsOf, HasMadeAll, HasMadeAllIf};
ghost use Rattle.lc_crew.specs.Ran.{AreAllEnded, IsRunOf};

use crate::drawn::play_drawn;
use crate::ended::Ended;
use crate::member::Member;
use crate::phase::play_phase;
use crate::stop::Stop;
use lc_base::SEAT_LIMIT;
use lc_check::Accepted;
use lc_plan::Plan;
use lc_random::SplitMix64;
use lc_run::{RunFault, RunLog, Runner, Seat};
use std::alloc::Global;
use std::marker::Brand;
use std::sync::ledger::{Blank, Ledger};
use std::sync::{Arc, Wait};
use std::thread::Threads;

/// What came of a plan: what has run, and how each client came to its end, by clients.
#[derive(Drop)]
pub struct Ran {
    pub log: RunLog,
    pub ends: Vec<Ended>,
}

// The clients of these seats.
fn crew_of<J: Ledger>(alloc: Global, seats: Vec<Seat<J>>) -> Result<Vec<Member<J>>, Stop>
    requires { All (λ seat. labels_made seat ≡ []) seats.items }
    ensures { IfOk result (λ crew. All (HasMadeAll []) crew.items) }
{
    let mut crew = Vec::new(alloc);
    for seat in seats {
        crew.push(Member::new(seat))?;
    }
    Ok(crew)
}

// A place for each client of a plan, and each client at its own.
fn placed<J: Ledger>(
    alloc: Global,
    crew: Vec<Member<J>>,
    plan: &Plan,
) -> Result<Vec<Option<Member<J>>>, Stop>
    requires { All (HasMadeAll (plan_of plan.now).phases) crew.items }
    ensures { IfOk result (λ places. All (HasMadeAllIf (plan_of plan.now).phases) places.items) }
{
    let mut places = Vec::new(alloc);
    for _client in 0..plan.clients {
        places.push(None)?;
    }
    for member in crew {
        let place = member.client() as usize;
        if place < places.len() {
            places[place] = Some(member);
        }
    }
    Ok(places)
}

// The seats of a crew, and how its clients came to their ends.
#[derive(Drop)]
struct Parted<J: Ledger> {
    seats: Vec<Seat<J>>,
    ends: Vec<Ended>,
}

// Each client's seat, and its end, if all clients are there, each at its place.
fn parts_of<J: Ledger>(
    alloc: Global,
    crew: Vec<Option<Member<J>>>,
    plan: &Plan,
) -> Result<Parted<J>, Stop>
    requires { All (HasMadeAllIf (plan_of plan.now).phases) crew.items }
    ensures ends { IfOk result (λ parted. AreEndsOf (plan_of plan.now).phases parted.seats.items parted.ends.items) }
    ensures all { IfOk result (λ parted. AreAllEnded plan.now.clients parted.ends.items) }
{
    let mut seats = Vec::new(alloc);
    let mut ends = Vec::new(alloc);
    for member in crew {
        let Some(member) = member else {
            return Err(Stop::Mismatch);
        };
        let (seat, ended) = member.into_parts();
        if ended.client as usize != ends.len() {
            return Err(Stop::Mismatch);
        }
        seats.push(seat)?;
        ends.push(ended)?;
    }
    if ends.len() != plan.clients as usize {
        return Err(Stop::Mismatch);
    }
    Ok(Parted { seats, ends })
}

// What came of a plan, if its clients have made all their calls.
fn finished<J: Ledger>(
    alloc: Global,
    runner: Runner<J>,
    crew: Vec<Member<J>>,
    plan: &Plan,
) -> Result<Ran, Stop>
    requires made { All (HasMadeAll (plan_of plan.now).phases) crew.items }
    requires clients { clients_of runner ≡ plan.now.clients }
    ensures { IfOk result (IsRunOf (development_of runner) plan.now.clients (plan_of plan.now).phases) }
{
    let places = placed(alloc, crew, plan)?;
    let parted = parts_of(alloc, places, plan)?;
    let Parted { seats, ends } = parted;
    match runner.finish(seats) {
        Ok(log) => Ok(Ran { log, ends }),
        Err(unfinished) => Err(Stop::from(unfinished.why)),
    }
}

// A runner for the clients of a plan, which have made nothing.
fn started<J: Ledger>(
    alloc: Global,
    blank: Blank,
    accepted: Arc<Accepted>,
    plan: &Plan,
) -> Result<(Runner<J>, Vec<Member<J>>), Stop>
    requires name { blank.name ≡ J.name }
    requires parts { (blank.parts ≡ J.parts) × (blank.parts ≡ seat_limit) }
    ensures development { IfOk result (λ r. development_of r.0 ≡ development_in (arc_value accepted)) }
    ensures clients { IfOk result (λ r. clients_of r.0 ≡ plan.now.clients) }
    ensures crew { IfOk result (λ r. All (HasMadeAll []) r.1.items) }
{
    let made: Result<(Runner<J>, Vec<Seat<J>>), RunFault> = Runner::new(
        alloc,
        blank,
        accepted,
        plan.clients,
    );
    let (runner, seats) = made?;
    Ok((runner, crew_of(alloc, seats)?))
}

/// Runs an accepted development by a plan, with this ledger: the phases come one after another, and in each its clients make their
/// calls side by side, in threads. What has run has an order that linearizes its history.
pub fn run_with<J: Ledger + Sync, R: Threads + Wait + Sync>(
    rt: &R,
    alloc: Global,
    blank: Blank,
    accepted: Arc<Accepted>,
    plan: &Plan,
) -> Result<Ran, Stop>
    requires name { blank.name ≡ J.name }
    requires parts { (blank.parts ≡ J.parts) × (blank.parts ≡ seat_limit) }
    ensures { IfOk result (IsRunOf (development_in (arc_value accepted)) plan.now.clients (plan_of plan.now).phases) }
{
    let (runner, mut crew) = started::<J>(alloc, blank, accepted, plan)?;
    for number in 0..plan.phases.len() {
        crew = play_phase(rt, alloc, &runner, crew, plan, number)?;
    }
    finished(alloc, runner, crew, plan)
}

/// Runs an accepted development by a plan, as `run_with` does with a ledger of its own.
pub fn run<R: Threads + Wait + Sync>(
    rt: &R,
    alloc: Global,
    accepted: Arc<Accepted>,
    plan: &Plan,
) -> Result<Ran, Stop>
    ensures { IfOk result (IsRunOf (development_in (arc_value accepted)) plan.now.clients (plan_of plan.now).phases) }
{
    run_with::<Brand, R>(rt, alloc, Blank::new(u64::from(SEAT_LIMIT)), accepted, plan)
}

/// Runs an accepted development by a plan, with this ledger, in one thread: the phases come one after another, and in each one turn of
/// one client at a time, which is drawn from the seed among those that make a further call in it. So what runs depends on the
/// development, the plan and the seed alone.
pub fn run_drawn_with<J: Ledger, R: Wait>(
    rt: &R,
    alloc: Global,
    blank: Blank,
    accepted: Arc<Accepted>,
    plan: &Plan,
    seed: u64,
) -> Result<Ran, Stop>
    requires name { blank.name ≡ J.name }
    requires parts { (blank.parts ≡ J.parts) × (blank.parts ≡ seat_limit) }
    ensures { IfOk result (IsRunOf (development_in (arc_value accepted)) plan.now.clients (plan_of plan.now).phases) }
{
    let (runner, mut crew) = started::<J>(alloc, blank, accepted, plan)?;
    let mut random = SplitMix64::new(seed);
    for number in 0..plan.phases.len() {
        crew = play_drawn(rt, alloc, &runner, crew, plan, number, &mut random)?;
    }
    finished(alloc, runner, crew, plan)
}

/// Runs an accepted development by a plan and a seed, as `run_drawn_with` does with a ledger of its own.
pub fn run_drawn<R: Wait>(
    rt: &R,
    alloc: Global,
    accepted: Arc<Accepted>,
    plan: &Plan,
    seed: u64,
) -> Result<Ran, Stop>
    ensures { IfOk result (IsRunOf (development_in (arc_value accepted)) plan.now.clients (plan_of plan.now).phases) }
{
    run_drawn_with::<Brand, R>(
        rt,
        alloc,
        Blank::new(u64::from(SEAT_LIMIT)),
        accepted,
        plan,
        seed,
    )
}
