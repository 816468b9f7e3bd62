//! What a mark does: it settles a call, or notes its reply.
ghost use Rattle.std.specs.Prelude.{◌≡◌, ◌<◌, ◌≤◌, ◌^◌, [], ◌∷◌, true, pos, OnOk, OkIff, IfErr, IsTrue, FitsSigned, ◌↔◌, ◌≤ℤ◌};
ghost use Rattle.std.specs.Int.{w64};
ghost use Rattle.std.specs.Ordering.{int_eq};
ghost use Rattle.lc_base.specs.Limits.{argument_limit};
ghost use Rattle.lc_term.specs.SystemColumns.{op_column};
ghost use Rattle.lc_seq.specs.Run.{seq_says};
ghost use Rattle.lc_term.specs.State.{env_of, variable_count};
ghost use Rattle.lc_term.specs.UpdateView.{update_of, writes_view};
ghost use Rattle.lc_term.specs.Updates.{UpdatesFit, stored_all, write_of};
ghost use Rattle.lc_action.specs.ActionView.{first_of};
ghost use Rattle.lc_ride.specs.Drafts.{written_in_draft, saved_in_draft, draft_columns};
ghost use Rattle.lc_seq.specs.Specification.{update_is_resolved};
ghost use Rattle.lc_seq.specs.SpecView.{operations_of, choice_of};
ghost use Rattle.lc_seq.specs.Branches.{arity};
ghost use Rattle.lc_ride.specs.Calls.{HasRoom, Settles, Notes, Helps};
ghost use Rattle.lc_ride.specs.Riding.{help};
ghost use Rattle.lc_ride.specs.RidingFits.{HelpFits};
ghost use Rattle.lc_ride.specs.RideView.{AreThere, IsRidden};

use crate::draft::Draft;
use crate::marks::{Mark, mark_writes, note_writes, stands};
use crate::settling::{Call, taken};
use lc_action::SystemColumns;
use lc_base::OpId;
use lc_seq::{Operation, Outcome, Pick, SeqFault};
use lc_term::{Env, EvalFault, Update, Write, eval_term};
use std::alloc::Global;

/// A client's call takes effect under a choice, if it is not settled and a branch is taken.
pub(crate) fn settle(
    alloc: Global,
    call: Call<'_>,
    draft: &mut Draft,
    pick: Pick,
    marks: &mut Vec<Mark>,
) -> Result<bool, SeqFault>
    requires { HasRoom call (draft_columns draft.old) }
    ensures done { Settles call.entry (written_in_draft draft.old) (choice_of pick) marks.old.items marks.new.items (written_in_draft draft.new) result }
    ensures saved { saved_in_draft draft.new ≡ saved_in_draft draft.old }
    ensures columns { draft_columns draft.new ≡ draft_columns draft.old }
{
    let found = taken(alloc, call, draft.state(), &pick)?;
    let outcome = match found {
        None => return Ok(false),
        Some(outcome) => outcome,
    };
    draft.write_all(&outcome.writes)?;
    draft.write_all(&mark_writes(alloc, call.system, call.client, &outcome.replies)?)?;
    marks.push(Mark {
        client: call.client,
        note: false,
        choice: pick,
        reply: outcome.replies,
    })?;
    Ok(true)
}

/// The reply of a client's call is noted under a choice, if it is not settled and a branch is taken that stores nothing.
pub(crate) fn note(
    alloc: Global,
    call: Call<'_>,
    draft: &mut Draft,
    pick: Pick,
    marks: &mut Vec<Mark>,
) -> Result<bool, SeqFault>
    requires { HasRoom call (draft_columns draft.old) }
    ensures done { Notes call.entry (written_in_draft draft.old) (choice_of pick) marks.old.items marks.new.items (written_in_draft draft.new) result }
    ensures saved { saved_in_draft draft.new ≡ saved_in_draft draft.old }
    ensures columns { draft_columns draft.new ≡ draft_columns draft.old }
{
    let found = taken(alloc, call, draft.state(), &pick)?;
    let outcome = match found {
        None => return Ok(false),
        Some(outcome) => outcome,
    };
    if !stores_nothing(&outcome) {
        return Ok(false);
    }
    draft.write_all(&note_writes(alloc, call.system, call.client, &outcome.replies)?)?;
    marks.push(Mark {
        client: call.client,
        note: true,
        choice: pick,
        reply: outcome.replies,
    })?;
    Ok(true)
}

// Whether the call that a client is in is of this operation.
fn is_named(draft: &Draft, call: Call<'_>) -> Result<bool, EvalFault>
    requires { HasRoom call (draft_columns draft.now) }
    ensures { let cell = written_in_draft draft.now (op_column (first_of call.entry.system)) (pos call.entry.client) in OkIff result (FitsSigned w64 cell) (int_eq cell (pos call.entry.operation.0)) }
{
    stands(
        draft.state(),
        call.system.operation(),
        call.client,
        i64::from(call.operation.0),
    )
}

// The client of this number.
fn client_of(number: i64) -> u64
    requires { pos 0 ≤ℤ number }
    ensures same { pos result ≡ number }
    ensures small { result < 2 ^ 63 }
{
    number as u64
}

// Whether a branch stores nothing.
fn stores_nothing(outcome: &Outcome) -> bool
    ensures { IsTrue result ↔ (writes_view outcome.now.writes.items ≡ []) }
{
    outcome.writes.is_empty()
}

// The call of this operation by a client takes effect.
fn help_client(
    alloc: Global,
    call: Call<'_>,
    draft: &mut Draft,
    pick: Pick,
    marks: &mut Vec<Mark>,
) -> Result<bool, SeqFault>
    requires { HasRoom call (draft_columns draft.old) }
    ensures done { Helps call.entry (written_in_draft draft.old) (choice_of pick) marks.old.items marks.new.items (written_in_draft draft.new) result }
    ensures saved { saved_in_draft draft.new ≡ saved_in_draft draft.old }
    ensures columns { draft_columns draft.new ≡ draft_columns draft.old }
{
    if !is_named(draft, call)? {
        return Ok(false);
    }
    settle(alloc, call, draft, pick, marks)
}

/// The call of this operation by the client of this number takes effect, if there is one.
pub(crate) fn help(
    alloc: Global,
    operations: &[Operation],
    system: SystemColumns,
    draft: &mut Draft,
    client: i64,
    operation: OpId,
    pick: Pick,
    marks: &mut Vec<Mark>,
) -> Result<bool, SeqFault>
    requires there { AreThere (operations_of operations.now) (first_of system) (draft_columns draft.old) }
    requires few { arity (operations_of operations.now) operation.0 ≤ argument_limit }
    ensures done { let ops = operations_of operations.now in
        let m = written_in_draft draft.old in
        let first = first_of system in
        IsRidden (HelpFits ops first m client operation.0 (choice_of pick)) (help ops first m client operation.0 (choice_of pick)) marks.old.items marks.new.items (written_in_draft draft.new) result }
    ensures saved { saved_in_draft draft.new ≡ saved_in_draft draft.old }
    ensures columns { draft_columns draft.new ≡ draft_columns draft.old }
{
    if client < 0 {
        return Ok(false);
    }
    let client = client_of(client);
    let call = Call {
        operations,
        system,
        client,
        operation,
    };
    help_client(alloc, call, draft, pick, marks)
}

/// A value is stored.
pub(crate) fn assign(draft: &mut Draft, env: &Env, update: &Update) -> Result<(), SeqFault>
    requires { update_is_resolved (draft_columns draft.old) (variable_count env.now) (update_of update.now) ≡ true }
    ensures ok { OnOk result (UpdatesFit (written_in_draft draft.old) (env_of env.now) (update_of update.now ∷ [])) }
    ensures stored { OnOk result (written_in_draft draft.new ≡ stored_all (written_in_draft draft.old) (write_of (written_in_draft draft.old) (env_of env.now) (update_of update.now) ∷ [])) }
    ensures err { IfErr result (λ fault. seq_says fault (UpdatesFit (written_in_draft draft.old) (env_of env.now) (update_of update.now ∷ []))) }
    ensures saved { saved_in_draft draft.new ≡ saved_in_draft draft.old }
    ensures columns { draft_columns draft.new ≡ draft_columns draft.old }
{
    let index = eval_term(&update.index, draft.state(), env)?;
    let value = eval_term(&update.value, draft.state(), env)?;
    draft.write_all(&[Write {
        column: update.column,
        index,
        value,
    }])?;
    Ok(())
}
