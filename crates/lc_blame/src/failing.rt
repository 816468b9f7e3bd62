//! Whether a condition fails in a world, with numbers that clients have there.
ghost use Rattle.std.specs.Prelude.{◌≡◌, ◌++◌, ◌∷◌, pos, Some, None, IfOk, option_map};
ghost use Rattle.lc_term.specs.Lists.{Every};
ghost use Rattle.lc_term.specs.State.{state_of};
ghost use Rattle.lc_table.specs.Tables.{IsFormula, AreFormulas, formula_in, formulas_in};
ghost use Rattle.lc_machine.specs.Step.{IsClient};
ghost use Rattle.lc_machine.specs.View.{client_of};
ghost use Rattle.lc_machine.specs.World.{In};
ghost use Rattle.lc_cond.specs.Conditions.{NoPassage, ByAction};
ghost use Rattle.lc_cond.specs.ConditionView.{condition_in, IsCondition};
ghost use Rattle.lc_stages.specs.Stages.{numbers_at};
ghost use Rattle.lc_watch.specs.Watched.{Fails};
ghost use Rattle.lc_acting.specs.Attempts.{IsAttempt, IsOnly, SaysSo, development_of, world_of, event_of};
ghost use Rattle.lc_blame.specs.Attempts.{FailsAtEntry};
ghost use Rattle.lc_acting.specs.Acting.{IsActing};
ghost use Rattle.lc_blame.specs.Blame.{FailsWith, FailsAmong, FailsThere, HasBeside, HaveNumbers, point_of};

use crate::placing::{is_at, joined_numbers, own_numbers};
use lc_acting::{Acting, Attempt, call_numbers, place_of};
use lc_base::{OpId, OutOfMemory, PointId};
use lc_cond::{Condition, Passage};
use lc_copy::formula_tree;
use lc_look::{Seen, look};
use lc_machine::Client;
use lc_steps::{What, body_of};
use lc_table::{FormulaId, Terms};
use lc_term::{Env, State};
use std::alloc::Global;

// A condition in the table that has its formulas.
#[derive(Clone, Copy)]
struct Asked<'a> {
    pub terms: &'a Terms,
    pub condition: &'a Condition,
}

// Whether a formula is seen not to hold.
fn fails(
    alloc: Global,
    terms: &Terms,
    formula: FormulaId,
    state: &State,
    env: &Env,
    tried: &[i64],
) -> Result<bool, OutOfMemory>
    requires { IsFormula terms.now formula }
    ensures { IfOk result (λ answer. SaysSo answer (Fails tried.now (state_of state.now) env.now.values.items (formula_in terms.now formula))) }
{
    let tree = formula_tree(terms, alloc, formula)?;
    match look(alloc, &tree, state, env, tried)? {
        Seen::No => Ok(true),
        Seen::Yes | Seen::Open => Ok(false),
    }
}

// Whether none of these is.
fn none_fails(
    alloc: Global,
    terms: &Terms,
    formulas: &[FormulaId],
    state: &State,
    env: &Env,
    tried: &[i64],
) -> Result<bool, OutOfMemory>
    requires { AreFormulas terms.now formulas.now }
    ensures { IfOk result (λ answer. SaysSo answer (Every (λ h. Fails tried.now (state_of state.now) env.now.values.items h → ⊥) (formulas_in terms.now formulas.now))) }
{
    for formula in formulas {
        let failed = fails(alloc, terms, *formula, state, env, tried)?;
        if failed {
            return Ok(false);
        }
    }
    Ok(true)
}

// Whether a condition fails with these numbers of its variables.
fn fails_with(
    alloc: Global,
    attempt: &Attempt<'_>,
    asked: &Asked<'_>,
    env: &Env,
) -> Result<bool, OutOfMemory>
    requires { IsCondition asked.now.terms.now asked.now.condition.now }
    ensures { IfOk result (λ answer. SaysSo answer (FailsWith attempt.now.tried.now (state_of attempt.now.state.now) env.now.values.items (condition_in asked.now.terms.now asked.now.condition.now))) }
{
    let goal = &asked.condition.goal;
    let failed = fails(
        alloc,
        asked.terms,
        goal.goal,
        attempt.state,
        env,
        attempt.tried,
    )?;
    if failed {
        let hypotheses = goal.hypotheses.as_slice();
        none_fails(
            alloc,
            asked.terms,
            hypotheses,
            attempt.state,
            env,
            attempt.tried,
        )
    } else {
        Ok(false)
    }
}

// Whether a condition about the start fails, whichever client's number its second variable has.
fn fails_at_start(
    alloc: Global,
    attempt: &Attempt<'_>,
    asked: &Asked<'_>,
) -> Result<bool, OutOfMemory>
    requires attempt { IsAttempt attempt.now }
    requires asked { IsCondition asked.now.terms.now asked.now.condition.now }
    ensures { let D = development_of attempt.now in
        let w = world_of attempt.now in
        IfOk result (λ answer. SaysSo answer (FailsAmong attempt.now.tried.now w.columns (HaveNumbers D w attempt.now.client (event_of attempt.now) NoPassage None)
        (condition_in asked.now.terms.now asked.now.condition.now))) }
{
    let count = attempt.clients.len() as u32;
    for client in 0..count {
        let env = own_numbers(alloc, count, client)?;
        let failed = fails_with(alloc, attempt, asked, &env)?;
        if failed {
            return Ok(true);
        }
    }
    Ok(false)
}

// Whether a condition about a call that begins at this point fails, if this operation begins there.
fn fails_at_entry(
    alloc: Global,
    attempt: &Attempt<'_>,
    asked: &Asked<'_>,
    point: PointId,
    operation: OpId,
    numbers: &[i64],
) -> Result<bool, OutOfMemory>
    requires attempt { IsAttempt attempt.now }
    requires asked { IsCondition asked.now.terms.now asked.now.condition.now }
    ensures { let D = development_of attempt.now in
        let w = world_of attempt.now in
        IfOk result (λ answer. SaysSo answer (FailsAtEntry D w attempt.now.client attempt.now.tried.now point.0 operation.0 numbers.now (condition_in asked.now.terms.now asked.now.condition.now))) }
{
    match body_of(attempt.development, operation) {
        None => Ok(false),
        Some(body) => {
            if body.entry.0 != point.0 {
                return Ok(false);
            }
            let count = attempt.clients.len() as u32;
            let env = call_numbers(alloc, count, attempt.client, numbers)?;
            fails_with(alloc, attempt, asked, &env)
        }
    }
}

// The same, if the step begins a call.
fn fails_at_call(
    alloc: Global,
    attempt: &Attempt<'_>,
    asked: &Asked<'_>,
    point: PointId,
) -> Result<bool, OutOfMemory>
    requires attempt { IsAttempt attempt.now }
    requires asked { IsCondition asked.now.terms.now asked.now.condition.now }
    ensures { let D = development_of attempt.now in
        let w = world_of attempt.now in
        IfOk result (λ answer. SaysSo answer (FailsAmong attempt.now.tried.now w.columns (HaveNumbers D w attempt.now.client (event_of attempt.now) NoPassage (Some point.0))
        (condition_in asked.now.terms.now asked.now.condition.now))) }
{
    match attempt.what {
        Some(What::Invoked { operation, numbers }) => {
            fails_at_entry(alloc, attempt, asked, point, *operation, numbers)
        }
        None | Some(What::Moved { .. } | What::Returned(_)) => Ok(false),
    }
}

// Whether a condition about an edge of this point fails, if the client is there.
fn fails_on_edge(
    alloc: Global,
    attempt: &Attempt<'_>,
    asked: &Asked<'_>,
    point: PointId,
) -> Result<bool, OutOfMemory>
    requires attempt { IsAttempt attempt.now }
    requires asked { IsCondition asked.now.terms.now asked.now.condition.now }
    ensures { let w = world_of attempt.now in
        IfOk result (λ answer. SaysSo answer (FailsAmong attempt.now.tried.now w.columns (λ vs. IsClient w attempt.now.client (In point.0 vs)) (condition_in asked.now.terms.now asked.now.condition.now))) }
{
    match place_of(attempt.clients, attempt.client) {
        None => Ok(false),
        Some(place) => {
            if place.point.0 != point.0 {
                return Ok(false);
            }
            fails_with(alloc, attempt, asked, &place.variables)
        }
    }
}

// Whether a condition about a client at this point fails with the numbers of this client, if it is there and another one than that which acts.
fn fails_of(
    alloc: Global,
    attempt: &Attempt<'_>,
    asked: &Asked<'_>,
    point: Option<PointId>,
    given: &[i64],
    number: u32,
    client: &Client,
) -> Result<bool, OutOfMemory>
    requires attempt { IsAttempt attempt.now }
    requires asked { IsCondition asked.now.terms.now asked.now.condition.now }
    ensures { let D = development_of attempt.now in
        let w = world_of attempt.now in
        let k = client_of client.now in
        IfOk result (λ answer. SaysSo answer ((number ≡ attempt.now.client → ⊥) × (point_of k ≡ option_map (λ p. p.0) point)
        × FailsWith attempt.now.tried.now w.columns (numbers_at D w number k ++ pos attempt.now.client ∷ given.now) (condition_in asked.now.terms.now asked.now.condition.now))) }
{
    if number == attempt.client {
        return Ok(false);
    }
    let stands = is_at(client, point);
    if !stands {
        return Ok(false);
    }
    let count = attempt.clients.len() as u32;
    let env = joined_numbers(alloc, count, number, client, attempt.client, given)?;
    fails_with(alloc, attempt, asked, &env)
}

// Whether a condition about a client at this point fails with the numbers of some client that is there, beside one that acts.
fn fails_beside(
    alloc: Global,
    attempt: &Attempt<'_>,
    asked: &Asked<'_>,
    point: Option<PointId>,
    given: &[i64],
) -> Result<bool, OutOfMemory>
    requires attempt { IsAttempt attempt.now }
    requires asked { IsCondition asked.now.terms.now asked.now.condition.now }
    ensures { let D = development_of attempt.now in
        let w = world_of attempt.now in
        IfOk result (λ answer. SaysSo answer (FailsAmong attempt.now.tried.now w.columns (HasBeside D w attempt.now.client (event_of attempt.now) (option_map (λ p. p.0) point) given.now)
        (condition_in asked.now.terms.now asked.now.condition.now))) }
{
    let clients = attempt.clients;
    for (i, client) in clients.iter().enumerate() {
        let failed = fails_of(alloc, attempt, asked, point, given, i as u32, client)?;
        if failed {
            return Ok(true);
        }
    }
    Ok(false)
}

// The same under the action of this place, if the step is that.
fn fails_under(
    alloc: Global,
    attempt: &Attempt<'_>,
    asked: &Asked<'_>,
    point: Option<PointId>,
    acting: &Option<Acting>,
    action: usize,
) -> Result<bool, OutOfMemory>
    requires attempt { IsAttempt attempt.now }
    requires acting { IsOnly (IsActing (development_of attempt.now) (world_of attempt.now) attempt.now.client (event_of attempt.now) (event_of attempt.now)) acting.now }
    requires asked { IsCondition asked.now.terms.now asked.now.condition.now }
    ensures { let D = development_of attempt.now in
        let w = world_of attempt.now in
        IfOk result (λ answer. SaysSo answer (FailsAmong attempt.now.tried.now w.columns (HaveNumbers D w attempt.now.client (event_of attempt.now) (ByAction action) (option_map (λ p. p.0) point))
        (condition_in asked.now.terms.now asked.now.condition.now))) }
{
    match acting {
        None => Ok(false),
        Some(acting) => {
            if acting.action != action {
                return Ok(false);
            }
            fails_beside(alloc, attempt, asked, point, &acting.numbers)
        }
    }
}

/// Whether a condition fails where a client takes a step, which is this action.
pub(crate) fn fails_there(
    alloc: Global,
    attempt: &Attempt<'_>,
    acting: &Option<Acting>,
    terms: &Terms,
    condition: &Condition,
) -> Result<bool, OutOfMemory>
    requires attempt { IsAttempt attempt.now }
    requires acting { IsOnly (IsActing (development_of attempt.now) (world_of attempt.now) attempt.now.client (event_of attempt.now) (event_of attempt.now)) acting.now }
    requires asked { IsCondition terms.now condition.now }
    ensures { IfOk result (λ answer. SaysSo answer (FailsThere (development_of attempt.now) (world_of attempt.now) attempt.now.client (event_of attempt.now) attempt.now.tried.now (condition_in terms.now condition.now))) }
{
    let asked = &Asked { terms, condition };
    let place = condition.place;
    match place.passage {
        Passage::Nothing => match place.point {
            None => fails_at_start(alloc, attempt, asked),
            Some(point) => fails_at_call(alloc, attempt, asked, point),
        },
        Passage::Edge(_) => match place.point {
            None => Ok(false),
            Some(point) => fails_on_edge(alloc, attempt, asked, point),
        },
        Passage::Action(action) => {
            fails_under(alloc, attempt, asked, place.point, acting, action)
        }
    }
}
