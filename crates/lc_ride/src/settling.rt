//! The branch that a client's call takes, with what it stores and replies.
ghost use Rattle.std.specs.Prelude.{◌≡◌, ◌+◌, ◌<◌, ◌≤◌, ◌^◌, ◌++◌, length, map, take, pos, OnOk, IfOk, IfErr, IfSome};
ghost use Rattle.lc_term.specs.Lists.{Every};
ghost use Rattle.lc_term.specs.State.{state_of, env_of, column_count, variable_count};
ghost use Rattle.lc_term.specs.SystemColumns as columns;
ghost use Rattle.lc_term.specs.Computed.{IsComputed};
ghost use Rattle.lc_term.specs.Updates.{AreWithin, row};
ghost use Rattle.lc_term.specs.UpdateView.{writes_view};
ghost use Rattle.lc_action.specs.ActionView.{first_of};
ghost use Rattle.lc_seq.specs.Run.{seq_says, outcome_in};
ghost use Rattle.lc_seq.specs.SpecView.{branches_of, operations_of, choice_of};
ghost use Rattle.lc_seq.specs.Branches.{op_branches, arity};
ghost use Rattle.lc_seq.specs.TextStep.{call_env};
ghost use Rattle.lc_rider.specs.Rider.{arguments_in};
ghost use Rattle.lc_ride.specs.Riding.{taken};
ghost use Rattle.lc_ride.specs.RidingFits.{CellsFit, CallFits, TakenFits};
ghost use Rattle.lc_ride.specs.Calls.{HasRoom};

use crate::marks::stands;
use lc_action::SystemColumns;
use lc_base::{ColId, OpId};
use lc_seq::{Branch, Operation, Outcome, Pick, SeqFault, run};
use lc_term::{Env, State};
use std::alloc::Global;

/// The call that a client is in, of one of these operations, and the places of the system columns.
#[derive(Clone, Copy)]
pub(crate) struct Call<'a> {
    pub operations: &'a [Operation],
    pub system: SystemColumns,
    pub client: u64,
    pub operation: OpId,
}

// The branches of an operation.
fn branches_at(operations: &[Operation], operation: OpId) -> &[Branch]
    ensures { branches_of result.now ≡ op_branches (operations_of operations.now) operation.0 }
{
    match operations.get(operation.0 as usize) {
        Some(operation) => &operation.branches,
        None => &[],
    }
}

// How many numbers a call of an operation is given.
fn arity(operations: &[Operation], operation: OpId) -> usize
    ensures { result ≡ arity (operations_of operations.now) operation.0 }
{
    match operations.get(operation.0 as usize) {
        Some(operation) => operation.arguments.len(),
        None => 0,
    }
}

// Appends the numbers in a client's cell of these columns to other numbers.
fn push_cells(
    state: &State,
    columns: &[ColId],
    client: u64,
    numbers: &mut Vec<i64>,
) -> Result<(), SeqFault>
    requires there { Every (λ c. c.0 < column_count state.now) columns.now }
    requires client { client < 2 ^ 63 }
    ensures ok { OnOk result (CellsFit (state_of state.now) (map (λ c. c.0) columns.now) (pos client)) }
    ensures numbers { OnOk result (numbers.new.items ≡ numbers.old.items ++ row (state_of state.now) (map (λ c. c.0) columns.now) (pos client)) }
    ensures err { IfErr result (λ fault. seq_says fault (CellsFit (state_of state.now) (map (λ c. c.0) columns.now) (pos client))) }
{
    for column in columns {
        numbers.push(state.read(*column, client as i64)?)?;
    }
    Ok(())
}

// The variables of a branch at a client's call, as the columns have it, with these numbers given for its parameters.
fn call_env(alloc: Global, call: Call<'_>, state: &State, given: &[i64]) -> Result<Env, SeqFault>
    requires { HasRoom call (column_count state.now) }
    ensures env { let ops = operations_of call.entry.operations.now in
        let m = state_of state.now in
        let first = first_of call.entry.system in
        IsComputed seq_says env_of (CellsFit m (take (arity ops call.entry.operation.0) (columns.arg_columns first)) (pos call.entry.client)) (call_env call.entry.client (arguments_in ops first m call.entry.client call.entry.operation.0 ++ given.now)) result }
    ensures count { IfOk result (λ env. variable_count env ≡ 2 + arity (operations_of call.entry.operations.now) call.entry.operation.0 + length given.now) }
{
    let columns = call.system.arguments();
    let columns = &columns[..arity(call.operations, call.operation)];
    let mut values = Vec::new(alloc);
    values.push(0)?;
    values.push(call.client as i64)?;
    push_cells(state, columns, call.client, &mut values)?;
    values.extend_from_slice(given)?;
    Ok(Env { values })
}

/// What the branch stores and replies that a client's call takes under a choice, if the call is not settled.
pub(crate) fn taken(
    alloc: Global,
    call: Call<'_>,
    state: &State,
    pick: &Pick,
) -> Result<Option<Outcome>, SeqFault>
    requires { HasRoom call (column_count state.now) }
    ensures computed { let ops = operations_of call.entry.operations.now in
        let m = state_of state.now in
        let first = first_of call.entry.system in
        IsComputed seq_says outcome_in (TakenFits ops first m call.entry.client call.entry.operation.0 (choice_of pick.now)) (taken ops first m call.entry.client call.entry.operation.0 (choice_of pick.now)) result }
    ensures columns { IfOk result (λ found. IfSome found (λ outcome. AreWithin (column_count state.now) (writes_view outcome.writes.items))) }
{
    if !stands(state, call.system.pend(), call.client, 1)? {
        return Ok(None);
    }
    let env = call_env(alloc, call, state, pick.numbers())?;
    let branches = branches_at(call.operations, call.operation);
    run(alloc, branches, pick, state, &env)
}
