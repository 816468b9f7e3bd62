//! Actions, the columns after them, and what the columns hold at first.
ghost use Rattle.std.specs.Prelude.{◌≡◌, ℕ, pos, map, slice_index_or, IfOk, IsTrue};
ghost use Rattle.lc_action.specs.Action as A;
ghost use Rattle.lc_action.specs.ActionView.{action_of, first_of};
ghost use Rattle.lc_action.specs.Telling.{columns_in};
ghost use Rattle.lc_term.specs.Lists.{Every};
ghost use Rattle.lc_term.specs.Places.{is_closed};
ghost use Rattle.lc_term.specs.Said.{put, puts, said};
ghost use Rattle.lc_term.specs.Syntax.{Affine};
ghost use Rattle.lc_term.specs.UpdateView.{updates_of};
ghost use Rattle.lc_term.specs.View.{term_of, column_of, formula_of};
ghost use Rattle.lc_tie.specs.Tie.{affine_of, start_column};
ghost use Rattle.lc_tie.specs.TieView.{numbers_in};

use lc_action::{Action, Before, SystemColumns, enter, guard_for, leave, store, store_more};
use lc_base::{ColId, OutOfMemory};
use lc_term::{ColExpr, Formula, Term, Update};
use lc_tie::Tie;
use std::alloc::Global;

/// `enter` is what the beginning of a call does to the system columns.
pub fn entering(alloc: Global, system: SystemColumns) -> Result<Action, OutOfMemory>
    ensures { IfOk result (λ action. action_of action ≡ A.enter (first_of system)) }
{
    enter(alloc, system)
}

/// `leave` is what the end of a call does to the system columns.
pub fn leaving(alloc: Global, system: SystemColumns) -> Result<Action, OutOfMemory>
    ensures { IfOk result (λ action. action_of action ≡ A.leave (first_of system)) }
{
    leave(alloc, system)
}

/// An action's guard is said for the client that acts and for its arguments.
pub fn guarding(
    alloc: Global,
    action: &Action,
    actor: &Term,
    arguments: &[Term],
) -> Result<Formula, OutOfMemory>
    requires actor { IsTrue (is_closed (term_of actor.now)) }
    requires arguments { Every (λ t. IsTrue (is_closed (term_of t))) arguments.now }
    ensures { IfOk result (λ guard. formula_of guard ≡ A.guard_for (action_of action.now) (term_of actor.now) (map term_of arguments.now)) }
{
    guard_for(alloc, action, actor, arguments)
}

/// A store goes on top of those before it.
pub fn storing(
    alloc: Global,
    columns: Vec<(ColId, ColExpr)>,
    column: ColId,
    index: Term,
    value: Term,
) -> Result<Vec<(ColId, ColExpr)>, OutOfMemory>
    ensures { IfOk result (λ after. columns_in after.items ≡ put (columns_in columns.items) (record { column = column.0; index = term_of index; value = term_of value })) }
{
    store(alloc, columns, column, index, value)
}

/// Updates take their indexes and values in the columns before all of them.
pub fn storing_together(
    alloc: Global,
    before: Before<'_>,
    stored: Vec<(ColId, ColExpr)>,
    updates: &[Update],
) -> Result<Vec<(ColId, ColExpr)>, OutOfMemory>
    ensures { IfOk result (λ after. columns_in after.items ≡ puts (columns_in stored.items)
        (map (said (columns_in before.entry.columns.now) (map term_of before.entry.variables.now)) (updates_of updates.now))) }
{
    store_more(alloc, before, stored, updates)
}

/// A tie says what each column holds at first.
pub fn beginning_columns(tie: &Tie, alloc: Global) -> Result<Vec<ColExpr>, OutOfMemory>
    ensures listed { IfOk result (λ columns. map column_of columns.items ≡ map affine_of (numbers_in tie.now)) }
    ensures each { IfOk result (λ columns. (c : ℕ) → slice_index_or (map column_of columns.items) c (Affine (pos 0) (pos 0)) ≡ start_column (numbers_in tie.now) c) }
{
    tie.initial_columns(alloc)
}
