//! What updates store, as numbers.
ghost use Rattle.std.specs.Prelude.{◌≡◌, IfOk, MatchOption};
ghost use Rattle.lc_term.specs.Lists.{Every};
ghost use Rattle.lc_term.specs.State.{state_of, env_of, column_count};
ghost use Rattle.lc_term.specs.UpdateView.{update_of, updates_of, write_view, writes_view};
ghost use Rattle.lc_term.specs.Updates as U;
ghost use Rattle.lc_acting.specs.NoAction.{IsUpdate};

use crate::evaluating::number_of;
use lc_base::OutOfMemory;
use lc_term::{Env, State, Update, Write};
use std::alloc::Global;

// What an update stores, if its column is there and its terms are evaluated.
fn write_of(update: &Update, state: &State, env: &Env) -> Option<Write>
    ensures { let s = state_of state.now in
        MatchOption result (IsUpdate (column_count state.now) s env.now.values.items (update_of update.now) → ⊥)
        (λ w. IsUpdate (column_count state.now) s env.now.values.items (update_of update.now) × (write_view w ≡ U.write_of s (env_of env.now) (update_of update.now))) }
{
    if update.column.0 as usize >= state.column_count() {
        return None;
    }
    match number_of(&update.index, state, env) {
        None => None,
        Some(index) => match number_of(&update.value, state, env) {
            None => None,
            Some(value) => Some(Write {
                column: update.column,
                index,
                value,
            }),
        },
    }
}

/// What updates store together, if their columns are there and their terms are evaluated.
pub(crate) fn writes_of(
    alloc: Global,
    updates: &[Update],
    state: &State,
    env: &Env,
) -> Result<Option<Vec<Write>>, OutOfMemory>
    ensures { let s = state_of state.now in
        IfOk result (λ found. MatchOption found (Every (IsUpdate (column_count state.now) s env.now.values.items) (updates_of updates.now) → ⊥)
        (λ writes. Every (IsUpdate (column_count state.now) s env.now.values.items) (updates_of updates.now) × (writes_view writes.items ≡ U.writes_of s (env_of env.now) (updates_of updates.now)))) }
{
    let mut writes = Vec::with_capacity(alloc, updates.len())?;
    for update in updates {
        match write_of(update, state, env) {
            None => return Ok(None),
            Some(write) => writes.push(write)?,
        }
    }
    Ok(Some(writes))
}
