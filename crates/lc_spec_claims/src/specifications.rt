//! Specifications in text, as sequential objects.
ghost use Rattle.std.specs.Prelude.{◌≡◌, ◌↔◌, ◌+◌, ◌++◌, ℤ, List, true, IfOk, IfSome, IsSome, MatchOption, length};
ghost use Rattle.std.specs.List.{list_all};
ghost use Rattle.lc_base.specs.Name.{bytes_of};
ghost use Rattle.lc_seq.specs.Applied.{IsApplied};
ghost use Rattle.lc_seq.specs.Run.{seq_says, outcome_in};
ghost use Rattle.lc_seq.specs.Sequential.{Call};
ghost use Rattle.lc_seq.specs.SpecView.{branches_of, choice_of, columns_of, label_of, operations_of, text_call_of};
ghost use Rattle.lc_seq.specs.Specification.{agree, are_resolved, branch_is_resolved, chosen, has_call};
ghost use Rattle.lc_seq.specs.TextStep.{run, RunFits, TextFits, call_env, text_step};
ghost use Rattle.lc_seq.specs.TextView.{specification_of, text_state_of, IsStateOf};
ghost use Rattle.lc_term.specs.Computed.{IsComputed};
ghost use Rattle.lc_term.specs.State.{state_of, env_of, column_count, variable_count};
ghost use Rattle.lc_term.specs.Updates.{AreWithin};
ghost use Rattle.lc_term.specs.UpdateView.{writes_view};

use lc_base::{Name, OutOfMemory};
use lc_seq::{
    Branch, Column, Label, Operation, Outcome, Pick, SeqFault, SeqObject, TextCall, TextSpec,
    TextState, call_env, run,
};
use lc_term::{Env, State};
use std::alloc::Global;

/// Parts are a specification exactly if each column and variable is declared, and names of operations differ.
pub fn making_a_specification(
    name: Name,
    columns: Vec<Column>,
    operations: Vec<Operation>,
) -> Option<TextSpec>
    ensures resolved { IsSome result ↔ (are_resolved (length columns.items) (operations_of operations.items) ≡ true) }
    ensures value { IfSome result (λ spec. specification_of spec ≡ record { name = bytes_of name; columns = columns_of columns.items; operations = operations_of operations.items }) }
{
    TextSpec::new(name, columns, operations)
}

/// A choice leaves the branches without a name, or the one that it names, with its count of numbers.
pub fn choosing(label: &Label, pick: &Pick) -> bool
    ensures { result ≡ agree (label_of label.now) (choice_of pick.now) }
{
    label.agrees(pick)
}

/// The variables of a branch are the client, the arguments, and the choice's numbers after them.
pub fn binding(
    alloc: Global,
    client: u32,
    arguments: &[i64],
    given: &[i64],
) -> Result<Env, OutOfMemory>
    ensures env { IfOk result (λ env. env_of env ≡ call_env client (arguments.now ++ given.now)) }
    ensures count { IfOk result (λ env. variable_count env ≡ 2 + length arguments.now + length given.now) }
{
    call_env(alloc, client, arguments, given)
}

/// Of the branches that a choice leaves, the first is taken whose guard holds.
pub fn running(
    alloc: Global,
    branches: &[Branch],
    pick: &Pick,
    state: &State,
    env: &Env,
) -> Result<Option<Outcome>, SeqFault>
    requires { list_all (branch_is_resolved (column_count state.now) (variable_count env.now)) (chosen (choice_of pick.now) (branches_of branches.now)) ≡ true }
    ensures computed { let bs = chosen (choice_of pick.now) (branches_of branches.now) in
        IsComputed seq_says outcome_in (RunFits (state_of state.now) (env_of env.now) bs) (run (state_of state.now) (env_of env.now) bs) result }
    ensures columns { IfOk result (λ found. IfSome found (λ outcome. AreWithin (column_count state.now) (writes_view outcome.writes.items))) }
{
    run(alloc, branches, pick, state, env)
}

/// A call of a specification takes the step that is given under its choice, with its reply, or none.
pub fn applying(
    alloc: Global,
    spec: &TextSpec,
    state: &mut TextState,
    client: u32,
    call: &TextCall,
    choice: &Pick,
) -> Result<Option<Vec<i64>>, SeqFault>
    requires { IsStateOf (length spec.now.columns.items) state.old }
    ensures applied { let operations = (specification_of spec.now).operations in
        let s = text_state_of state.old in
        let its = text_call_of call.now in
        IsApplied (λ reply. reply.items) (text_step operations s client its (choice_of choice.now)) (TextFits operations s client its (choice_of choice.now)) s (text_state_of state.new) result }
    ensures state { IsStateOf (length spec.now.columns.items) state.new }
{
    spec.apply(alloc, state, client, call, choice)
}

/// A call is found by its code and its numbers, if the specification has it.
pub fn finding_a_call(
    alloc: Global,
    spec: &TextSpec,
    code: u32,
    given: &[i64],
) -> Result<Option<TextCall>, OutOfMemory>
    ensures { let call : Call = record { op = code; numbers = given.now } in
        let operations = (specification_of spec.now).operations in
        IfOk result (λ found. MatchOption found (has_call operations call ≡ true → ⊥) (λ its. (has_call operations call ≡ true) × (text_call_of its ≡ call))) }
{
    spec.call_of(alloc, code, given)
}

/// A reply has its numbers.
pub fn numbering(alloc: Global, spec: &TextSpec, reply: &Vec<i64>) -> Result<Vec<i64>, OutOfMemory>
    ensures { IfOk result (λ given. given.items ≡ reply.now.items) }
{
    spec.numbers_of(alloc, reply)
}
