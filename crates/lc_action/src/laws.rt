//! What holds of actions. Each function is a law: it does nothing, and its contract is the law.
ghost use Rattle.std.specs.Prelude.{◌≡◌, ◌↔◌, ℕ, List};
ghost use Rattle.lc_term.specs.Meaning.{State, Env, outside, column, Holds};
ghost use Rattle.lc_term.specs.Syntax.{Term};
ghost use Rattle.lc_term.specs.Updates.{stored_all, writes_of, values_of, variable};
ghost use Rattle.lc_action.specs.Action.{Action, acting_variables, post_columns, guard_for};

/// In every state the columns after an action are what its updates leave, all taken in that state and stored in their order;
/// and its guard, said for a client and arguments, holds exactly if the action's guard holds for their numbers.
pub fn actions_do_their_updates()
    ensures columns { (s : State) (e : Env) (a : Action) (actor : Term) (arguments : List Term) (c : ℕ) →
        column s e outside (post_columns a actor arguments c)
        ≡ stored_all s (writes_of s (variable (values_of s e (acting_variables actor arguments))) a.updates) c }
    ensures guard { (s : State) (e : Env) (a : Action) (actor : Term) (arguments : List Term) →
        Holds s e outside (guard_for a actor arguments) ↔ Holds s (variable (values_of s e (acting_variables actor arguments))) outside a.guard }
{}
