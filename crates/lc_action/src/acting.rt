//! An action by a client with its arguments: its guard, and the columns after it.
ghost use Rattle.std.specs.Prelude.{◌≡◌, IfOk, IsTrue, map};
ghost use Rattle.lc_term.specs.Lists.{Every};
ghost use Rattle.lc_term.specs.Places.{is_closed};
ghost use Rattle.lc_term.specs.View.{term_of, formula_of};
ghost use Rattle.lc_action.specs.Action.{acting_variables, post_columns, guard_for};
ghost use Rattle.lc_action.specs.ActionView.{action_of};
ghost use Rattle.lc_action.specs.Telling.{columns_in};

use crate::action::Action;
use crate::stored_columns::store_together;
use crate::telling::{Before, told};
use lc_base::{ColId, OutOfMemory};
use lc_term::{ColExpr, Formula, Term};
use std::alloc::Global;

// The variables of an action: the number of clients, the client that acts, and the arguments.
fn acting_variables(
    alloc: Global,
    actor: &Term,
    arguments: &[Term],
) -> Result<Vec<Term>, OutOfMemory>
    ensures { IfOk result (λ ts. map term_of ts.items ≡ acting_variables (term_of actor.now) (map term_of arguments.now)) }
{
    let mut variables = Vec::new(alloc);
    variables.push(Term::Variable(0))?;
    variables.push(actor.try_clone(alloc)?)?;
    for argument in arguments {
        variables.push(argument.try_clone(alloc)?)?;
    }
    Ok(variables)
}

/// The columns after an action by this client with these arguments, over the columns before: those in which it stores,
/// each with what it holds then.
pub fn post_columns(
    alloc: Global,
    action: &Action,
    actor: &Term,
    arguments: &[Term],
) -> Result<Vec<(ColId, ColExpr)>, OutOfMemory>
    ensures { IfOk result (λ columns. columns_in columns.items ≡ post_columns (action_of action.now) (term_of actor.now) (map term_of arguments.now)) }
{
    let variables = acting_variables(alloc, actor, arguments)?;
    let before = Before {
        columns: &[],
        variables: &variables,
    };
    store_together(alloc, before, &action.updates)
}

/// An action's guard, for this client and these arguments.
pub fn guard_for(
    alloc: Global,
    action: &Action,
    actor: &Term,
    arguments: &[Term],
) -> Result<Formula, OutOfMemory>
    requires actor { IsTrue (is_closed (term_of actor.now)) }
    requires arguments { Every (λ t. IsTrue (is_closed (term_of t))) arguments.now }
    ensures { IfOk result (λ guard. formula_of guard ≡ guard_for (action_of action.now) (term_of actor.now) (map term_of arguments.now)) }
{
    let variables = acting_variables(alloc, actor, arguments)?;
    let before = Before {
        columns: &[],
        variables: &variables,
    };
    told(alloc, &action.guard, before)
}
