//! Where a client stands that makes its calls one turn at a time.
ghost use Rattle.std.specs.Prelude.{◌≡◌, ℕ, IfOk, List};
ghost use Rattle.lc_machine.specs.Step.{Event};
ghost use Rattle.lc_plan.specs.View.{calls_of};
ghost use Rattle.lc_run.specs.Locked.{client_in, labels_made};
ghost use Rattle.lc_sound.specs.Instrumented.{Label};
ghost use Rattle.lc_crew.specs.Playing.{event_of};
ghost use Rattle.lc_crew.specs.Turns.{going_on, IsWithin, StandsSo};

use crate::halt::Halt;
use crate::member::halt_at;
use crate::stop::Stop;
use lc_plan::Calls;
use lc_run::{Progress, RunFault, Runner, Seat};
use std::sync::Wait;
use std::sync::ledger::Ledger;

/// Where a client stands.
#[derive(Clone, Copy, Debug, PartialEq, Eq)]
pub(crate) enum Stand {
    /// In no call.
    Between,
    /// In a call, which has the next turn and so many more.
    Within(u32),
    /// It makes no further call.
    Halted(Halt),
}

// Where a client stands in a call that has so many turns left.
fn going_on(left: u32) -> Stand
    ensures { result ≡ going_on left }
{
    match left.checked_sub(1) {
        None => Stand::Halted(Halt::Spent),
        Some(more) => Stand::Within(more),
    }
}

/// Where a client stands that was to begin one of these calls.
pub(crate) fn begin<J: Ledger, R: Wait>(
    rt: &R,
    runner: &Runner<J>,
    seat: &mut Seat<J>,
    calls: &Calls,
) -> Result<Stand, Stop>
    ensures stands { IfOk result (λ stand. StandsSo stand calls.now.turns (event_of (calls_of calls.now)) (client_in seat.old) (labels_made seat.old) (labels_made seat.new)) }
    ensures same { client_in seat.new ≡ client_in seat.old }
{
    match runner.begin(rt, seat, calls.call.op, &calls.call.numbers) {
        Ok(()) => Ok(going_on(calls.turns)),
        Err(RunFault::Full) => Ok(Stand::Halted(Halt::Full)),
        Err(fault) => Err(Stop::from(fault)),
    }
}

/// Where a client stands that was to take a step of its call, which has so many turns more.
pub(crate) fn step<J: Ledger, R: Wait>(
    rt: &R,
    runner: &Runner<J>,
    seat: &mut Seat<J>,
    left: u32,
) -> Result<Stand, Stop>
    ensures stands { IfOk result (λ stand. (turns : ℕ) (call : Event) (before : List Label) → IsWithin left turns call (client_in seat.old) before (labels_made seat.old)
        → StandsSo stand turns call (client_in seat.old) before (labels_made seat.new)) }
    ensures same { client_in seat.new ≡ client_in seat.old }
{
    match runner.step(rt, seat) {
        Ok(Progress::Running) => Ok(going_on(left)),
        Ok(Progress::Returned(_)) => Ok(Stand::Between),
        Err(fault) => Ok(Stand::Halted(halt_at(fault)?)),
    }
}
