//! Runs by plans.
ghost use Rattle.std.specs.Prelude.{◌≡◌, IfOk};
ghost use Rattle.std.specs.Arc.{arc_value};
ghost use Rattle.lc_check.specs.VerdictView.{development_in};
ghost use Rattle.lc_crew.specs.Halts.{word_of};
ghost use Rattle.lc_crew.specs.Ran.{IsRunOf};
ghost use Rattle.lc_plan.specs.View.{plan_of};

use lc_check::Accepted;
use lc_crew::{Halt, Ran, Stop, run, run_drawn};
use lc_plan::Plan;
use std::alloc::Global;
use std::sync::{Arc, Wait};
use std::thread::Threads;

/// What comes of a plan is a run of the accepted development by as many clients as the plan has, and the end of each of them, which made
/// the calls that the plan has for it.
pub fn running<R: Threads + Wait + Sync>(
    rt: &R,
    alloc: Global,
    accepted: Arc<Accepted>,
    plan: &Plan,
) -> Result<Ran, Stop>
    ensures { IfOk result (IsRunOf (development_in (arc_value accepted)) plan.now.clients (plan_of plan.now).phases) }
{
    run(rt, alloc, accepted, plan)
}

/// So it is if whose turn it is is drawn from a seed.
pub fn running_drawn<R: Wait>(
    rt: &R,
    alloc: Global,
    accepted: Arc<Accepted>,
    plan: &Plan,
    seed: u64,
) -> Result<Ran, Stop>
    ensures { IfOk result (IsRunOf (development_in (arc_value accepted)) plan.now.clients (plan_of plan.now).phases) }
{
    run_drawn(rt, alloc, accepted, plan, seed)
}

/// A halt has the word that is defined.
pub fn naming_a_halt(halt: Halt) -> &'static str
    ensures { result.now ≡ word_of halt }
{
    halt.word()
}
