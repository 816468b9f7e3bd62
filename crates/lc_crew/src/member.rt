//! A client of a run, which makes the calls of its scripts.
ghost use Rattle.std.specs.Prelude.{◌≡◌, false, true, IfOk, map};
ghost use Rattle.lc_machine.specs.Step.{Invoked};
ghost use Rattle.lc_plan.specs.View.{calls_of};
ghost use Rattle.lc_run.specs.Labels.{is_unfinished};
ghost use Rattle.lc_run.specs.Locked.{client_in, labels_made};
ghost use Rattle.lc_crew.specs.Halts.{fits};
ghost use Rattle.lc_crew.specs.Playing.{HasMadeOne, HasMadeCalls, HasPlayed, IsHaltAt, halt_behind};

use crate::ended::Ended;
use crate::halt::Halt;
use crate::stop::Stop;
use lc_plan::{Calls, Script};
use lc_run::{Called, RunFault, Runner, Seat};
use lc_seq::TextCall;
use std::sync::Wait;
use std::sync::ledger::Ledger;

/// A client of a run: its seat, and why it makes no further call, if it makes none.
#[derive(Drop)]
pub struct Member<J: Ledger> {
    seat: Seat<J>,
    halt: Option<Halt>,
    ghost fit: { fits halt (is_unfinished (labels_made seat)) ≡ true },
}

/// Why a client makes no further call after this fault of one; or why there is nothing to hand out.
pub(crate) fn halt_at(fault: RunFault) -> Result<Halt, Stop>
    ensures { IfOk result (λ halt. IsHaltAt fault halt) }
{
    match fault {
        RunFault::Overflow => Ok(Halt::Overflow),
        RunFault::Full => Ok(Halt::Full),
        RunFault::Clients
        | RunFault::Busy
        | RunFault::Idle
        | RunFault::NoOp
        | RunFault::Arity
        | RunFault::Mismatch
        | RunFault::OutOfMemory => Err(Stop::from(fault)),
    }
}

// Why no further call is made after one that came to this.
fn halt_behind(called: &Called) -> Option<Halt>
    ensures { result ≡ halt_behind called.now }
{
    match called {
        Called::Returned(_) => None,
        Called::TurnsSpent => Some(Halt::Spent),
    }
}

// One call of at most `turns` turns; and why no further one is made, if it did not return.
fn make_call<J: Ledger, R: Wait>(
    rt: &R,
    runner: &Runner<J>,
    seat: &mut Seat<J>,
    call: &TextCall,
    turns: u32,
) -> Result<Option<Halt>, Stop>
    ensures made { IfOk result (λ halt. HasMadeOne halt turns (Invoked call.now.op.0 call.now.numbers.items) (client_in seat.old) (labels_made seat.old) (labels_made seat.new)) }
    ensures fit { IfOk result (λ halt. fits halt (is_unfinished (labels_made seat.new)) ≡ true) }
    ensures same { client_in seat.new ≡ client_in seat.old }
{
    match runner.call(rt, seat, call.op, &call.numbers, u64::from(turns)) {
        Ok(called) => Ok(halt_behind(&called)),
        Err(fault) => Ok(Some(halt_at(fault)?)),
    }
}

// A call as often as a step of a script says; and why no further one is made, if one did not return.
fn make_calls<J: Ledger, R: Wait>(
    rt: &R,
    runner: &Runner<J>,
    seat: &mut Seat<J>,
    calls: &Calls,
) -> Result<Option<Halt>, Stop>
    requires { is_unfinished (labels_made seat.old) ≡ false }
    ensures made { IfOk result (λ halt. HasMadeCalls halt (calls_of calls.now) (client_in seat.old) (labels_made seat.old) (labels_made seat.new)) }
    ensures fit { IfOk result (λ halt. fits halt (is_unfinished (labels_made seat.new)) ≡ true) }
    ensures same { client_in seat.new ≡ client_in seat.old }
{
    for _time in 0..calls.count {
        if let Some(halt) = make_call(rt, runner, seat, &calls.call, calls.turns)? {
            return Ok(Some(halt));
        }
    }
    Ok(None)
}

// The calls of a script, one after another; and why no further one is made, if one did not return.
fn play<J: Ledger, R: Wait>(
    rt: &R,
    runner: &Runner<J>,
    seat: &mut Seat<J>,
    script: &Script,
) -> Result<Option<Halt>, Stop>
    requires { is_unfinished (labels_made seat.old) ≡ false }
    ensures played { IfOk result (λ halt. HasPlayed halt (map calls_of script.now.calls.items) (client_in seat.old) (labels_made seat.old) (labels_made seat.new)) }
    ensures fit { IfOk result (λ halt. fits halt (is_unfinished (labels_made seat.new)) ≡ true) }
    ensures same { client_in seat.new ≡ client_in seat.old }
{
    for calls in &script.calls {
        if let Some(halt) = make_calls(rt, runner, seat, calls)? {
            return Ok(Some(halt));
        }
    }
    Ok(None)
}

impl<J: Ledger> Member<J> {
    ghost use Rattle.std.specs.Prelude.{◌≡◌, [], true, None, IfOk, map};
    ghost use Rattle.lc_plan.specs.View.{script_of};
    ghost use Rattle.lc_run.specs.Labels.{is_unfinished};
    ghost use Rattle.lc_run.specs.Locked.{client_in, labels_made};
    ghost use Rattle.lc_crew.specs.Halts.{fits};
    ghost use Rattle.lc_crew.specs.Members.{Plays, client_of, halt_of, made_by};
    ghost use Rattle.lc_crew.specs.Playing.{calls_in};

    /// The client of a seat that has made nothing.
    pub(crate) fn new(seat: Seat<J>) -> Member<J>
        requires { labels_made seat ≡ [] }
        ensures client { client_of result ≡ client_in seat }
        ensures halt { halt_of result ≡ None }
        ensures made { made_by result ≡ [] }
    {
        Member { seat, halt: None }
    }

    /// The client of a seat that makes no further call for this reason, if there is one.
    pub(crate) fn halted(seat: Seat<J>, halt: Option<Halt>) -> Member<J>
        requires { fits halt (is_unfinished (labels_made seat)) ≡ true }
        ensures client { client_of result ≡ client_in seat }
        ensures halt { halt_of result ≡ halt }
        ensures made { made_by result ≡ labels_made seat }
    {
        Member { seat, halt }
    }

    /// Which client it is.
    pub(crate) fn client(&self) -> u32
        ensures { result ≡ client_of self.now }
    {
        self.seat.client()
    }

    /// The client when it has made the calls of a script, unless it makes no further one.
    pub(crate) fn plays<R: Wait>(
        self,
        rt: &R,
        runner: &Runner<J>,
        script: &Script,
    ) -> Result<Member<J>, Stop>
        ensures plays { IfOk result (Plays (script_of script.now).calls self) }
        ensures same { IfOk result (λ after. client_of after ≡ client_of self) }
    {
        let Member { mut seat, halt } = self;
        if halt.is_some() {
            return Ok(Member { seat, halt });
        }
        let halt = play(rt, runner, &mut seat, script)?;
        Ok(Member { seat, halt })
    }

    /// The client when it has made its calls of a phase, unless it makes no further one.
    pub(crate) fn plays_phase<R: Wait>(
        self,
        rt: &R,
        runner: &Runner<J>,
        phase: &[Script],
    ) -> Result<Member<J>, Stop>
        ensures plays { IfOk result (Plays (calls_in (client_of self) (map script_of phase.now)) self) }
        ensures same { IfOk result (λ after. client_of after ≡ client_of self) }
    {
        let mut member = self;
        for script in phase {
            if script.client != member.client() {
                continue;
            }
            member = member.plays(rt, runner, script)?;
        }
        Ok(member)
    }

    /// Its seat, and how it came to its end.
    pub(crate) fn into_parts(self) -> (Seat<J>, Ended)
        ensures seat { client_in result.0 ≡ client_of self }
        ensures labels { labels_made result.0 ≡ made_by self }
        ensures client { result.1.client ≡ client_of self }
        ensures halt { result.1.halt ≡ halt_of self }
    {
        let Member { seat, halt } = self;
        let client = seat.client();
        (seat, Ended { client, halt })
    }
}
