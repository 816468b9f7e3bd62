//! What a branch stores and replies, computed in 64 bits.
ghost use Rattle.std.specs.Prelude.{◌≡◌, ◌+◌, ◌++◌, true, IfOk, IfSome, length, map};
ghost use Rattle.std.specs.List.{list_all};
ghost use Rattle.lc_term.specs.Places.{known, term_passes};
ghost use Rattle.lc_term.specs.State.{state_of, env_of, column_count, variable_count};
ghost use Rattle.lc_term.specs.View.{term_of};
ghost use Rattle.lc_term.specs.Computed.{IsComputed};
ghost use Rattle.lc_term.specs.Reached.{TermsFit};
ghost use Rattle.lc_term.specs.Updates.{UpdatesFit, AreWithin, writes_of, values_of};
ghost use Rattle.lc_term.specs.UpdateView.{updates_of, writes_view};
ghost use Rattle.lc_seq.specs.Run.{seq_says, outcome_of, outcome_in};
ghost use Rattle.lc_seq.specs.Specification.{update_is_resolved, branch_is_resolved, chosen};
ghost use Rattle.lc_seq.specs.SpecView.{branch_of, branches_of, choice_of};
ghost use Rattle.lc_seq.specs.TextStep.{run, RunFits, call_env};

use crate::choice::Pick;
use crate::fault::SeqFault;
use crate::specification::Branch;
use lc_base::OutOfMemory;
use lc_term::{Env, EvalFault, State, Term, Update, Write, eval, eval_term};
use std::alloc::Global;

/// What a branch stores, in order, and what it replies.
#[derive(Drop)]
pub struct Outcome {
    pub writes: Vec<Write>,
    pub replies: Vec<i64>,
}

/// The variables of a branch at a client's call, with these numbers given for its parameters.
pub fn call_env(
    alloc: Global,
    client: u32,
    numbers: &[i64],
    given: &[i64],
) -> Result<Env, OutOfMemory>
    ensures env { IfOk result (λ env. env_of env ≡ call_env client (numbers.now ++ given.now)) }
    ensures count { IfOk result (λ env. variable_count env ≡ 2 + length numbers.now + length given.now) }
{
    let mut values = Vec::new(alloc);
    values.push(0)?;
    values.push(i64::from(client))?;
    values.extend_from_slice(numbers)?;
    values.extend_from_slice(given)?;
    Ok(Env { values })
}

/// The numbers of terms. `Overflow` is returned exactly if a number that is reached does not fit.
pub fn values_of(
    alloc: Global,
    terms: &[Term],
    state: &State,
    env: &Env,
) -> Result<Vec<i64>, SeqFault>
    requires { list_all (term_passes (known (column_count state.now) (variable_count env.now))) (map term_of terms.now) ≡ true }
    ensures { IsComputed seq_says (λ numbers. numbers.items) (TermsFit (state_of state.now) (env_of env.now) (map term_of terms.now)) (values_of (state_of state.now) (env_of env.now) (map term_of terms.now)) result }
{
    let mut values = Vec::new(alloc);
    for term in terms {
        let value = eval_term(term, state, env)?;
        values.push(value)?;
    }
    Ok(values)
}

/// What updates store, in order: indexes and values are those of the state before any of them. `Overflow` is returned
/// exactly if a number that is reached does not fit.
pub fn writes_of(
    alloc: Global,
    updates: &[Update],
    state: &State,
    env: &Env,
) -> Result<Vec<Write>, SeqFault>
    requires { list_all (update_is_resolved (column_count state.now) (variable_count env.now)) (updates_of updates.now) ≡ true }
    ensures computed { IsComputed seq_says (λ writes. writes_view writes.items) (UpdatesFit (state_of state.now) (env_of env.now) (updates_of updates.now)) (writes_of (state_of state.now) (env_of env.now) (updates_of updates.now)) result }
    ensures columns { IfOk result (λ writes. AreWithin (column_count state.now) (writes_view writes.items)) }
{
    let mut writes = Vec::new(alloc);
    for update in updates {
        let index = eval_term(&update.index, state, env)?;
        let value = eval_term(&update.value, state, env)?;
        writes.push(Write {
            column: update.column,
            index,
            value,
        })?;
    }
    Ok(writes)
}

fn run_branch(alloc: Global, branch: &Branch, state: &State, env: &Env) -> Result<Outcome, SeqFault>
    requires { branch_is_resolved (column_count state.now) (variable_count env.now) (branch_of branch.now) ≡ true }
    ensures { let b = branch_of branch.now in
        let s = state_of state.now in
        let e = env_of env.now in
        IsComputed seq_says outcome_of (UpdatesFit s e b.updates × TermsFit s e b.replies) (writes_of s e b.updates, values_of s e b.replies) result }
{
    let writes = writes_of(alloc, &branch.updates, state, env)?;
    let replies = values_of(alloc, &branch.replies, state, env)?;
    Ok(Outcome { writes, replies })
}

/// What the first branch stores and replies whose guard holds, of those that a choice leaves, if there is one. Nothing is
/// stored. `Overflow` is returned exactly if a number that is reached does not fit: guards of these up to that one, then
/// its updates, then its replies.
pub fn run(
    alloc: Global,
    branches: &[Branch],
    pick: &Pick,
    state: &State,
    env: &Env,
) -> Result<Option<Outcome>, SeqFault>
    requires { list_all (branch_is_resolved (column_count state.now) (variable_count env.now)) (chosen (choice_of pick.now) (branches_of branches.now)) ≡ true }
    ensures computed { let bs = chosen (choice_of pick.now) (branches_of branches.now) in
        IsComputed seq_says outcome_in (RunFits (state_of state.now) (env_of env.now) bs) (run (state_of state.now) (env_of env.now) bs) result }
    ensures columns { IfOk result (λ found. IfSome found (λ outcome. AreWithin (column_count state.now) (writes_view outcome.writes.items))) }
{
    for branch in branches {
        if !branch.label.agrees(pick) {
            continue;
        }
        if eval(&branch.guard, state, env)? {
            let outcome = run_branch(alloc, branch, state, env)?;
            return Ok(Some(outcome));
        }
    }
    Ok(None)
}
