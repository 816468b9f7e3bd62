//! A phase of a plan in one thread: whose turn it is is drawn.
ghost use Rattle.std.specs.Prelude.{◌+◌, ◌<◌, All, IfOk, length};
ghost use Rattle.lc_crew.specs.Members.{HasMadeAll};
ghost use Rattle.lc_crew.specs.Phases.{phases_to};
ghost use Rattle.lc_crew.specs.Turns.{IsOnWay};

use crate::member::Member;
use crate::player::Player;
use crate::stop::Stop;
use lc_plan::Plan;
use lc_random::SplitMix64;
use lc_run::Runner;
use std::alloc::Global;
use std::sync::Wait;
use std::sync::ledger::Ledger;

// The clients of a crew in a phase, by whether they make a further call in it.
#[derive(Drop)]
struct Players<'p, J: Ledger> {
    going: Vec<Player<'p, J>>,
    ended: Vec<Member<J>>,
}

// The clients before they make their calls of the next phase.
fn players_of<'p, J: Ledger>(
    alloc: Global,
    crew: Vec<Member<J>>,
    plan: &'p Plan,
    number: usize,
) -> Result<Players<'p, J>, Stop>
    requires below { number < length plan.now.phases.items }
    requires made { All (HasMadeAll (phases_to plan.now number)) crew.items }
    ensures going { IfOk result (λ players. All (IsOnWay (phases_to plan.now (number + 1))) players.going.items) }
    ensures ended { IfOk result (λ players. All (HasMadeAll (phases_to plan.now (number + 1))) players.ended.items) }
{
    let mut going = Vec::new(alloc);
    let mut ended = Vec::new(alloc);
    for member in crew {
        let player = Player::new(alloc, member, plan, number)?;
        if player.has_ended() {
            ended.push(player.into_member(plan, number + 1))?;
        } else {
            going.push(player)?;
        }
    }
    Ok(Players { going, ended })
}

/// The clients when they have made their calls of the next phase, one turn of one of them at a time. Whose it is is drawn among those
/// that make a further call in it, in the order of the crew.
pub(crate) fn play_drawn<J: Ledger, R: Wait>(
    rt: &R,
    alloc: Global,
    runner: &Runner<J>,
    crew: Vec<Member<J>>,
    plan: &Plan,
    number: usize,
    random: &mut SplitMix64,
) -> Result<Vec<Member<J>>, Stop>
    requires below { number < length plan.now.phases.items }
    requires made { All (HasMadeAll (phases_to plan.now number)) crew.items }
    ensures { IfOk result (λ after. All (HasMadeAll (phases_to plan.now (number + 1))) after.items) }
{
    let players = players_of(alloc, crew, plan, number)?;
    let Players {
        mut going,
        mut ended,
    } = players;
    for _turn in rt.forever() {
        if going.is_empty() {
            break;
        }
        let place = random.place(going.len());
        let mut player = going.remove(place);
        player.take_turn(rt, runner)?;
        if player.has_ended() {
            ended.push(player.into_member(plan, number + 1))?;
        } else {
            going.insert(place, player)?;
        }
    }
    Ok(ended)
}
