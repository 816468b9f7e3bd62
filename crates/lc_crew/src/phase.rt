//! A phase of a plan: its clients make their calls side by side.
ghost use Rattle.std.specs.Prelude.{◌≡◌, ◌+◌, ◌<◌, All, IfOk, length, map};
ghost use Rattle.lc_plan.specs.View.{script_of};
ghost use Rattle.lc_crew.specs.Members.{HasMadeAll};
ghost use Rattle.lc_crew.specs.Phases.{has_script, phases_to, IsToMake};

use crate::member::Member;
use crate::stop::Stop;
use lc_plan::{Plan, Script};
use lc_run::Runner;
use std::alloc::Global;
use std::snapshot::Snapshot;
use std::sync::Wait;
use std::sync::ledger::Ledger;
use std::thread;
use std::thread::{Promise, PromisedHandle, Threads};

// What a client has made that comes back from a thread: its calls of the first phases of a plan.
#[derive(Drop)]
struct MakesTo {
    plan: Snapshot<Plan>,
    phases: usize,
}

impl<J: Ledger> Promise<Result<Member<J>, Stop>> for MakesTo {
    ghost use Rattle.std.specs.Prelude.{IfOk};
    ghost use Rattle.lc_crew.specs.Members.{HasMadeAll};
    ghost use Rattle.lc_crew.specs.Phases.{phases_to};

    ghost kept_by = { λ p r. IfOk r (HasMadeAll (phases_to p.plan.value p.phases)) };
}

// Whether a client makes a call in a phase.
fn has_script(phase: &[Script], client: u32) -> bool
    ensures { result ≡ has_script client (map script_of phase.now) }
{
    for script in phase {
        if script.client == client {
            return true;
        }
    }
    false
}

// The clients of a crew, by whether they make a call in a phase.
#[derive(Drop)]
struct Cast<J: Ledger> {
    playing: Vec<Member<J>>,
    resting: Vec<Member<J>>,
}

// Who makes a call in the next phase; who does not has made its calls of that phase too.
fn cast_of<J: Ledger>(
    alloc: Global,
    crew: Vec<Member<J>>,
    plan: &Plan,
    number: usize,
) -> Result<Cast<J>, Stop>
    requires below { number < length plan.now.phases.items }
    requires made { All (HasMadeAll (phases_to plan.now number)) crew.items }
    ensures playing { IfOk result (λ cast. All (HasMadeAll (phases_to plan.now number)) cast.playing.items) }
    ensures resting { IfOk result (λ cast. All (HasMadeAll (phases_to plan.now (number + 1))) cast.resting.items) }
{
    let mut playing = Vec::new(alloc);
    let mut resting = Vec::new(alloc);
    for member in crew {
        if has_script(&plan.phases[number], member.client()) {
            playing.push(member)?;
        } else {
            resting.push(member)?;
        }
    }
    Ok(Cast { playing, resting })
}

// A client when it has made its calls of the next phase.
fn play_on<J: Ledger, R: Wait>(
    rt: &R,
    runner: &Runner<J>,
    member: Member<J>,
    plan: &Plan,
    number: usize,
) -> Result<Member<J>, Stop>
    requires below { number < length plan.now.phases.items }
    requires made { HasMadeAll (phases_to plan.now number) member }
    ensures { IfOk result (HasMadeAll (phases_to plan.now (number + 1))) }
{
    member.plays_phase(rt, runner, &plan.phases[number])
}

// These clients, and those that threads hand back when they have made their calls of the first phases.
fn joined<J: Ledger, R: Threads>(
    rt: &R,
    threads: Vec<PromisedHandle<Result<Member<J>, Stop>, MakesTo>>,
    crew: Vec<Member<J>>,
    _plan: &Plan,
    _phases: usize,
) -> Result<Vec<Member<J>>, Stop>
    requires threads { All (IsToMake _plan.now _phases) threads.items }
    requires crew { All (HasMadeAll (phases_to _plan.now _phases)) crew.items }
    ensures { IfOk result (λ after. All (HasMadeAll (phases_to _plan.now _phases)) after.items) }
{
    let mut after = crew;
    for thread in threads {
        after.push(thread.join(rt)?)?;
    }
    Ok(after)
}

/// The clients when they have made their calls of the next phase, each that makes some in a thread of its own; all threads have
/// ended then.
pub(crate) fn play_phase<J: Ledger + Sync, R: Threads + Wait + Sync>(
    rt: &R,
    alloc: Global,
    runner: &Runner<J>,
    crew: Vec<Member<J>>,
    plan: &Plan,
    number: usize,
) -> Result<Vec<Member<J>>, Stop>
    requires below { number < length plan.now.phases.items }
    requires made { All (HasMadeAll (phases_to plan.now number)) crew.items }
    ensures { IfOk result (λ after. All (HasMadeAll (phases_to plan.now (number + 1))) after.items) }
{
    let cast = cast_of(alloc, crew, plan, number)?;
    let Cast { playing, resting } = cast;
    // A scope costs calls of the system, also if it has no thread.
    if playing.is_empty() {
        return Ok(resting);
    }
    thread::scope(
        thread::scope_env(),
        rt,
        |scope| -> Result<Vec<Member<J>>, Stop>
            requires below { number < length plan.now.phases.items }
            requires playing { All (HasMadeAll (phases_to plan.now number)) playing.items }
            requires resting { All (HasMadeAll (phases_to plan.now (number + 1))) resting.items }
            ensures { IfOk result (λ after. All (HasMadeAll (phases_to plan.entry.now (number + 1))) after.items) }
        {
            let mut threads = Vec::new(alloc);
            for member in playing {
                let promise = MakesTo {
                    plan: Snapshot::of(plan),
                    phases: number + 1,
                };
                match scope.spawn_with(
                    promise,
                    move || -> Result<Member<J>, Stop>
                        requires below { number < length plan.now.phases.items }
                        requires made { HasMadeAll (phases_to plan.now number) member }
                        ensures { IfOk result (HasMadeAll (phases_to plan.entry.now (number + 1))) }
                    { play_on(rt, runner, member, plan, number) },
                ) {
                    Ok(thread) => threads.push(thread)?,
                    Err(_) => return Err(Stop::NoThread),
                }
            }
            joined(rt, threads, resting, plan, number + 1)
        },
    )
}
