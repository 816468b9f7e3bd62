//! A client in a phase, which makes its calls there one turn at a time.
ghost use Rattle.std.specs.Prelude.{◌≡◌};
ghost use Rattle.lc_crew.specs.Turns.{halt_in, stand_before};

use crate::due::{Due, dues_in, first_due, next_due};
use crate::halt::Halt;
use crate::member::Member;
use crate::stand::{Stand, begin, step};
use crate::stop::Stop;
use lc_plan::Plan;
use lc_run::{Runner, Seat};
use std::alloc::Global;
use std::sync::Wait;
use std::sync::ledger::Ledger;
use std::vec::IntoIter;

/// A client in a phase: its seat, where it stands, what it calls now or next, and what it calls then.
#[derive(Drop)]
pub(crate) struct Player<'p, J: Ledger> {
    seat: Seat<J>,
    stand: Stand,
    due: Option<Due<'p>>,
    rest: IntoIter<Due<'p>>,
}

// Where a client stands before a phase.
fn stand_before(halt: Option<Halt>) -> Stand
    ensures { result ≡ stand_before halt }
{
    match halt {
        None => Stand::Between,
        Some(halt) => Stand::Halted(halt),
    }
}

// Why a client that stands so makes no further call, if it is not for that it has made all.
fn halt_in(stand: Stand) -> Option<Halt>
    ensures { result ≡ halt_in stand }
{
    match stand {
        Stand::Between | Stand::Within(_) => None,
        Stand::Halted(halt) => Some(halt),
    }
}

impl<'p, J: Ledger> Player<'p, J> {
    ghost use Rattle.std.specs.Prelude.{◌≡◌, ◌+◌, ◌<◌, true, List, Some, IfOk, OnOk, length};
    ghost use Rattle.lc_plan.specs.Plans.{Script};
    ghost use Rattle.lc_crew.specs.Members.{HasMadeAll};
    ghost use Rattle.lc_crew.specs.Phases.{phases_to};
    ghost use Rattle.lc_crew.specs.Turns.{has_ended, HasTurned, IsOnWay};
    ghost use Rattle.lc_crew.specs.declared.stand.Stand.TheVariants.{Between};

    /// A client before it makes its calls of the next phase.
    pub(crate) fn new(
        alloc: Global,
        member: Member<J>,
        plan: &'p Plan,
        number: usize,
    ) -> Result<Player<'p, J>, Stop>
        requires below { number < length plan.now.phases.items }
        requires made { HasMadeAll (phases_to plan.now number) member }
        ensures { IfOk result (IsOnWay (phases_to plan.now (number + 1))) }
    {
        let (seat, ended) = member.into_parts();
        let mut rest = dues_in(alloc, &plan.phases[number], ended.client)?.into_iter();
        let due = first_due(&mut rest);
        Ok(Player {
            seat,
            stand: stand_before(ended.halt),
            due,
            rest,
        })
    }

    /// Whether it makes no further call in the phase.
    pub(crate) fn has_ended(&self) -> bool
        ensures { result ≡ has_ended self.now }
    {
        match self.stand {
            Stand::Between => self.due.is_none(),
            Stand::Within(_) => false,
            Stand::Halted(_) => true,
        }
    }

    // Its turn, if it makes a further call: where it stands then in the call that it calls now or next.
    fn turn_of<R: Wait>(&mut self, rt: &R, runner: &Runner<J>) -> Result<Option<Stand>, Stop>
        ensures { IfOk result (λ turn. (phases : List (List Script)) → IsOnWay phases self.old → HasTurned phases turn self.new) }
    {
        let Some(due) = self.due else {
            return Ok(None);
        };
        match self.stand {
            Stand::Between => Ok(Some(begin(rt, runner, &mut self.seat, due.calls)?)),
            Stand::Within(left) => Ok(Some(step(rt, runner, &mut self.seat, left)?)),
            Stand::Halted(_) => Ok(None),
        }
    }

    // The call has returned.
    fn go_on(&mut self)
        ensures { (phases : List (List Script)) → HasTurned phases (Some Between) self.old → IsOnWay phases self.new }
    {
        let Some(due) = self.due else {
            return;
        };
        self.due = next_due(due, &mut self.rest);
        self.stand = Stand::Between;
    }

    // It stands so after its turn.
    fn come_to(&mut self, stand: Stand)
        ensures { (phases : List (List Script)) → HasTurned phases (Some stand) self.old → IsOnWay phases self.new }
    {
        match stand {
            Stand::Between => self.go_on(),
            _ => self.stand = stand,
        }
    }

    /// It takes a turn, if it makes a further call in the phase.
    pub(crate) fn take_turn<R: Wait>(&mut self, rt: &R, runner: &Runner<J>) -> Result<(), Stop>
        ensures { OnOk result ((phases : List (List Script)) → IsOnWay phases self.old → IsOnWay phases self.new) }
    {
        if let Some(stand) = self.turn_of(rt, runner)? {
            self.come_to(stand);
        }
        Ok(())
    }

    /// The client when it makes no further call in the phase.
    pub(crate) fn into_member(self, _plan: &Plan, _phases: usize) -> Member<J>
        requires ended { has_ended self ≡ true }
        requires way { IsOnWay (phases_to _plan.now _phases) self }
        ensures { HasMadeAll (phases_to _plan.now _phases) result }
    {
        let Player {
            seat,
            stand,
            due: _,
            rest: _,
        } = self;
        Member::halted(seat, halt_in(stand))
    }
}
