//! Whether a goal fails in a state.
ghost use Rattle.std.specs.Prelude.{◌≡◌, ◌↔◌, IsTrue};
ghost use Rattle.lc_term.specs.Lists.{Every};
ghost use Rattle.lc_term.specs.Places.{is_known};
ghost use Rattle.lc_term.specs.State.{column_count, variable_count};
ghost use Rattle.lc_term.specs.Truth.{is_ground};
ghost use Rattle.lc_term.specs.View.{formula_of, formulas_of};
ghost use Rattle.lc_proof_state.specs.Failing.{Fails, FailsButForQuantifiers, IsRefuted, IsSeen, IsSeenIfGround};

use lc_term::{Env, Formula, State, eval, formula_is_known, is_ground_of_quantifiers};

/// What is known of a goal in a state.
#[derive(Clone, Copy, PartialEq, Eq)]
pub enum Failing {
    /// The hypotheses hold and the goal does not.
    Fails,
    /// So it is but for the hypotheses with quantifiers, which are not evaluated.
    FailsButForQuantifiers,
    /// Something else was evaluated, or could not be.
    Unknown,
}

/// Whether a formula has no quantifier, and knows no other columns and variables than those of a state and an environment.
fn can_be_evaluated(formula: &Formula, state: &State, env: &Env) -> bool
    ensures { IsTrue result ↔ IsTrue (is_ground (formula_of formula.now)) × IsTrue (is_known (column_count state.now) (variable_count env.now) (formula_of formula.now)) }
{
    is_ground_of_quantifiers(formula)
        && formula_is_known(formula, state.column_count(), env.values.len())
}

/// Whether a formula is evaluated, and holds.
fn is_seen(formula: &Formula, state: &State, env: &Env) -> bool
    ensures { IsTrue result ↔ IsSeen state.now env.now (formula_of formula.now) }
{
    if !can_be_evaluated(formula, state, env) {
        return false;
    }
    match eval(formula, state, env) {
        Ok(answer) => answer,
        Err(_) => false,
    }
}

/// Whether a formula is evaluated, and does not hold.
pub(crate) fn is_refuted(formula: &Formula, state: &State, env: &Env) -> bool
    ensures { IsTrue result ↔ IsRefuted state.now env.now (formula_of formula.now) }
{
    if !can_be_evaluated(formula, state, env) {
        return false;
    }
    match eval(formula, state, env) {
        Ok(answer) => !answer,
        Err(_) => false,
    }
}

/// Whether each of these is evaluated, and holds.
fn are_seen(formulas: &[Formula], state: &State, env: &Env) -> bool
    ensures { IsTrue result ↔ Every (IsSeen state.now env.now) (formulas_of formulas.now) }
{
    for formula in formulas {
        if !is_seen(formula, state, env) {
            return false;
        }
    }
    true
}

/// Whether a formula is evaluated and holds, if it has no quantifier.
fn is_seen_if_ground(formula: &Formula, state: &State, env: &Env) -> bool
    ensures { IsTrue result ↔ IsSeenIfGround state.now env.now (formula_of formula.now) }
{
    !is_ground_of_quantifiers(formula) || is_seen(formula, state, env)
}

/// Whether each of these is evaluated and holds that has no quantifier.
fn are_seen_if_ground(formulas: &[Formula], state: &State, env: &Env) -> bool
    ensures { IsTrue result ↔ Every (IsSeenIfGround state.now env.now) (formulas_of formulas.now) }
{
    for formula in formulas {
        if !is_seen_if_ground(formula, state, env) {
            return false;
        }
    }
    true
}

/// Whether a goal fails in a state: its hypotheses and the goal are evaluated there.
pub(crate) fn failing_in(
    hypotheses: &[Formula],
    goal: &Formula,
    state: &State,
    env: &Env,
) -> Failing
    ensures fails { result ≡ Failing.Fails ↔ Fails state.now env.now (formulas_of hypotheses.now) (formula_of goal.now) }
    ensures but { result ≡ Failing.FailsButForQuantifiers → FailsButForQuantifiers state.now env.now (formulas_of hypotheses.now) (formula_of goal.now) }
    ensures unknown { FailsButForQuantifiers state.now env.now (formulas_of hypotheses.now) (formula_of goal.now) → result ≡ Failing.Unknown → ⊥ }
{
    if !is_refuted(goal, state, env) {
        return Failing::Unknown;
    }
    if are_seen(hypotheses, state, env) {
        return Failing::Fails;
    }
    if are_seen_if_ground(hypotheses, state, env) {
        return Failing::FailsButForQuantifiers;
    }
    Failing::Unknown
}
