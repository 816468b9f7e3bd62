//! Specifications in text, as objects for which an order is searched.
ghost use Rattle.std.specs.Prelude.{◌≡◌, ℕ, ℤ, List, IfOk, IsTrue};
ghost use Rattle.lc_term.specs.Meaning.{State};
ghost use Rattle.lc_term.specs.State.{state_of};
ghost use Rattle.lc_seq.specs.Sequential.{Choice, Step};
ghost use Rattle.lc_seq.specs.SpecView.{choice_of, columns_of, text_call_of};
ghost use Rattle.lc_seq.specs.TextStep.{start_of, text_step};
ghost use Rattle.lc_seq.specs.TextView.{specification_of};
ghost use Rattle.lc_order.specs.Drafts.{IsDraft};
ghost use Rattle.lc_order.specs.Listed.{IsListed};
ghost use Rattle.lc_order.specs.Reading.{OnlyReads};
ghost use Rattle.lc_order.specs.Steps.{IsAfter, IsStep, replied_by};

use lc_base::OutOfMemory;
use lc_order::{Listed, Searchable, Stepped, TextDraft};
use lc_seq::{Pick, SeqFault, TextCall, TextSpec};
use lc_term::Write;
use std::alloc::Global;

/// A specification begins with a draft of the state in which it starts.
pub fn beginning(alloc: Global, spec: &TextSpec) -> Result<TextDraft, OutOfMemory>
    ensures start { IfOk result (λ draft. state_of draft.cells ≡ start_of (specification_of spec.now).columns) }
    ensures draft { IfOk result (IsDraft (specification_of spec.now).columns) }
{
    spec.begin(alloc)
}

/// A copy stands for the same state.
pub fn copying(alloc: Global, spec: &TextSpec, draft: &TextDraft) -> Result<TextDraft, OutOfMemory>
    requires { IsDraft (specification_of spec.now).columns draft.now }
    ensures meaning { IfOk result (λ copy. state_of copy.cells ≡ state_of draft.now.cells) }
    ensures draft { IfOk result (IsDraft (specification_of spec.now).columns) }
{
    spec.copied(alloc, draft)
}

/// A step leads a draft to the state to which the specification's step leads, with its reply; or there is none.
pub fn stepping(
    alloc: Global,
    spec: &TextSpec,
    draft: &mut TextDraft,
    client: u32,
    call: &TextCall,
    choice: &Pick,
) -> Result<Option<Stepped<Vec<i64>, Vec<Write>>>, SeqFault>
    requires { IsDraft (specification_of spec.now).columns draft.old }
    ensures { let s = state_of draft.old.cells in
        IsStep (replied_by (λ reply. reply.items)) (text_step (specification_of spec.now).operations s client (text_call_of call.now) (choice_of choice.now)) s (state_of draft.new.cells) (IsDraft (specification_of spec.now).columns draft.new) result }
{
    spec.step(alloc, draft, client, call, choice)
}

/// A step that is taken on a copy leads to a draft of the state to which the specification's step leads, with the reply if the call returned; or
/// there is no such step.
pub fn stepping_a_copy(
    alloc: Global,
    spec: &TextSpec,
    draft: &TextDraft,
    client: u32,
    call: &TextCall,
    choice: &Pick,
    returned: bool,
    reply: &[i64],
) -> Result<Option<TextDraft>, SeqFault>
    requires { IsDraft (specification_of spec.now).columns draft.now }
    ensures { IsAfter (text_step (specification_of spec.now).operations) (λ draft. state_of draft.cells) (IsDraft (specification_of spec.now).columns) (state_of draft.now.cells) client (text_call_of call.now) (choice_of choice.now) returned reply.now result }
{
    spec.after(alloc, draft, client, call, choice, returned, reply)
}

/// Drafts that are said to be the same stand for the same state.
pub fn comparing(spec: &TextSpec, a: &TextDraft, b: &TextDraft) -> bool
    requires a { IsDraft (specification_of spec.now).columns a.now }
    requires b { IsDraft (specification_of spec.now).columns b.now }
    ensures { IsTrue result → state_of a.now.cells ≡ state_of b.now.cells }
{
    spec.are_same(a, b)
}

/// If choices are said to be all, each step that the call takes, and that gives its reply, is taken under one of them.
pub fn listing(
    alloc: Global,
    spec: &TextSpec,
    call: &TextCall,
    returned: bool,
    reply: &[i64],
) -> Result<Listed<Pick>, OutOfMemory>
    ensures { let step = text_step (specification_of spec.now).operations in
        IfOk result (λ listed. IsTrue listed.all → (s : State) (client : ℕ) (choice : Choice) (t : State) (given : List ℤ) →
        Step step s client (text_call_of call.now) choice t given → (IsTrue returned → given ≡ reply.now) → IsListed step choice_of s client (text_call_of call.now) t given listed.choices.items) }
{
    spec.choices(alloc, call, returned, reply)
}

/// No step of a call that is said to only read leads to another state.
pub fn reading(spec: &TextSpec, call: &TextCall) -> bool
    ensures { IsTrue result → OnlyReads (text_step (specification_of spec.now).operations) (text_call_of call.now) }
{
    spec.only_reads(call)
}
