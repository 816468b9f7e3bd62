//! The action that a step is.
ghost use Rattle.std.specs.Prelude.{◌≡◌, ◌∷◌, [], pos, Some, length, option_map, IfOk};
ghost use Rattle.lc_term.specs.State.{state_of, column_count};
ghost use Rattle.lc_object.specs.declared.instr.EdgeKind.TheVariants.{Next};
ghost use Rattle.lc_machine.specs.Step.{Moved};
ghost use Rattle.lc_machine.specs.View.{variables_of};
ghost use Rattle.lc_rider.specs.Rider.{argument};
ghost use Rattle.lc_outline.specs.Development.{on_at};
ghost use Rattle.lc_outline.specs.DevelopmentView.{on_of};
ghost use Rattle.lc_acting.specs.Attempts.{IsAttempt, IsOnly, development_of, world_of, event_of};
ghost use Rattle.lc_acting.specs.Acting.{IsActionOn, IsAtReturn, IsActing};

use crate::attempt::Attempt;
use crate::evaluating::numbers_of;
use crate::placing::place_of;
use lc_base::{OpId, OutOfMemory, PointId};
use lc_cond::on_at;
use lc_machine::Place;
use lc_object::EdgeKind;
use lc_outline::On;
use lc_steps::What;
use lc_term::{Env, State};
use std::alloc::Global;

/// An action, by its place among those of a development, which `enter` and `leave` follow; and what it is given.
#[derive(Drop)]
pub struct Acting {
    pub action: usize,
    pub numbers: Vec<i64>,
}

// The action that is said at an edge.
fn acting_said(
    alloc: Global,
    on: &On,
    state: &State,
    env: &Env,
) -> Result<Option<Acting>, OutOfMemory>
    ensures { IfOk result (IsOnly (IsActionOn (column_count state.now) (state_of state.now) env.now.values.items (Some (on_of on.now)))) }
{
    match numbers_of(alloc, &on.arguments, state, env)? {
        None => Ok(None),
        Some(numbers) => Ok(Some(Acting {
            action: on.action.0 as usize,
            numbers,
        })),
    }
}

// The same, if anything is said.
fn acting_on(
    alloc: Global,
    on: Option<&On>,
    state: &State,
    env: &Env,
) -> Result<Option<Acting>, OutOfMemory>
    ensures { IfOk result (IsOnly (IsActionOn (column_count state.now) (state_of state.now) env.now.values.items (option_map (λ o. on_of o.now) on.entry))) }
{
    match on {
        None => Ok(None),
        Some(on) => acting_said(alloc, on, state, env),
    }
}

// The same at a return, which is `leave` if nothing is said.
fn acting_at_return(
    alloc: Global,
    attempt: &Attempt<'_>,
    on: Option<&On>,
    env: &Env,
) -> Result<Option<Acting>, OutOfMemory>
    requires { IsAttempt attempt.now }
    ensures { IfOk result (IsOnly (IsAtReturn (development_of attempt.now) (world_of attempt.now) attempt.now.client (event_of attempt.now) env.now.values.items (option_map (λ o. on_of o.now) on.entry))) }
{
    match on {
        None => Ok(Some(Acting {
            action: attempt.development.parts().actions.len() + 1,
            numbers: Vec::new(alloc),
        })),
        Some(on) => acting_said(alloc, on, attempt.state, env),
    }
}

// The number of this place, or 0 if there is none.
fn argument(numbers: &[i64], place: usize) -> i64
    ensures { result ≡ argument numbers.now place }
{
    match numbers.get(place) {
        Some(number) => *number,
        None => 0,
    }
}

// `enter`, as a call of an operation begins with these numbers.
fn entering(
    alloc: Global,
    attempt: &Attempt<'_>,
    operation: OpId,
    given: &[i64],
) -> Result<Acting, OutOfMemory>
    ensures action { IfOk result (λ a. a.action ≡ length (development_of attempt.now).actions) }
    ensures numbers { IfOk result (λ a. a.numbers.items ≡ pos operation.0 ∷ argument given.now 0 ∷ argument given.now 1 ∷ argument given.now 2 ∷ []) }
{
    let mut numbers = Vec::with_capacity(alloc, 4)?;
    numbers.push(i64::from(operation.0))?;
    numbers.push(argument(given, 0))?;
    numbers.push(argument(given, 1))?;
    numbers.push(argument(given, 2))?;
    Ok(Acting {
        action: attempt.development.parts().actions.len(),
        numbers,
    })
}

// What a client does that goes by an edge of a point.
fn passing(
    alloc: Global,
    attempt: &Attempt<'_>,
    point: PointId,
    edge: EdgeKind,
) -> Result<Option<Acting>, OutOfMemory>
    requires { IsAttempt attempt.now }
    ensures { IfOk result (IsOnly (IsActing (development_of attempt.now) (world_of attempt.now) attempt.now.client (event_of attempt.now) (Some (Moved point.0 edge)))) }
{
    match place_of(attempt.clients, attempt.client) {
        None => Ok(None),
        Some(place) => {
            if place.point.0 != point.0 {
                return Ok(None);
            }
            let on = on_at(attempt.development, point, edge);
            acting_on(alloc, on, attempt.state, &place.variables)
        }
    }
}

// What a client does whose call returns from this place.
fn leaving(
    alloc: Global,
    attempt: &Attempt<'_>,
    place: &Place,
) -> Result<Option<Acting>, OutOfMemory>
    requires { IsAttempt attempt.now }
    ensures { IfOk result (IsOnly (IsAtReturn (development_of attempt.now) (world_of attempt.now) attempt.now.client (event_of attempt.now) (variables_of place.now) (on_at (development_of attempt.now) place.now.point.0 Next))) }
{
    let on = on_at(attempt.development, place.point, EdgeKind::Next);
    acting_at_return(alloc, attempt, on, &place.variables)
}

/// The action that a step is.
pub fn action_of(alloc: Global, attempt: &Attempt<'_>) -> Result<Option<Acting>, OutOfMemory>
    requires { IsAttempt attempt.now }
    ensures { IfOk result (IsOnly (IsActing (development_of attempt.now) (world_of attempt.now) attempt.now.client (event_of attempt.now) (event_of attempt.now))) }
{
    match attempt.what {
        None => Ok(None),
        Some(What::Invoked { operation, numbers }) => {
            Ok(Some(entering(alloc, attempt, *operation, numbers)?))
        }
        Some(What::Moved { point, edge }) => passing(alloc, attempt, *point, *edge),
        Some(What::Returned(_)) => match place_of(attempt.clients, attempt.client) {
            None => Ok(None),
            Some(place) => leaving(alloc, attempt, place),
        },
    }
}
