//! What a sequential object is, as a trait.
use crate::fault::SeqFault;
use lc_base::OutOfMemory;
use std::alloc::Global;

/// An object that is called by one client at a time. A call has a code, which is the number of its operation, and
/// numbers; a reply is known by its numbers, so two replies with equal numbers are equal.
pub trait SeqObject {
    ghost use Rattle.std.specs.Prelude.{◌≡◌, ◌↔◌, ℕ, List, ℤ, Option, true, IsTrue, IfOk, MatchOption};
    ghost use Rattle.lc_seq.specs.Sequential.{Call, Choice, Sequential, Step};
    ghost use Rattle.lc_seq.specs.Applied.{IsApplied};

    /// What the object keeps between calls.
    type State: Drop;
    /// An operation with the numbers that it is given.
    type Call: Eq + Drop;
    /// How the call's branch is chosen.
    type Choice: Drop;
    /// What a call answers.
    type Reply: Eq + Drop;

    /// What a state stands for.
    ghost Meaning: { Type 0 };

    ghost meaning: { Self.State → Meaning };

    /// A state belongs to the object.
    ghost HasState: { Self → Self.State → Type 0 };

    /// What a call stands for.
    ghost call_meant: { Self.Call → Call };

    /// What a choice stands for.
    ghost choice_meant: { Self.Choice → Choice };

    /// The numbers of a reply.
    ghost numbers: { Self.Reply → List ℤ };

    /// The object has a call.
    ghost HasCall: { Self → Call → Type 0 };

    /// The state in which it starts.
    ghost start: { Self → Meaning };

    /// What a call does under a choice.
    ghost step: { Self → Sequential Meaning };

    /// Every number that is reached when a client's call is applied to a state under a choice fits.
    ghost Fits: { Self → Meaning → ℕ → Call → Choice → Type 0 };

    /// The state in which the object starts.
    fn initial(&self, alloc: Global) -> Result<Self::State, OutOfMemory>
        ensures start { IfOk result (λ state. meaning state ≡ start self.now) }
        ensures state { IfOk result (HasState self.now) };

    /// Applies a client's call to a state under a choice: a reply, or none if the object allows no step. Without a reply the
    /// state stays as it was. `Overflow` is returned exactly if a number that is reached does not fit.
    fn apply(
        &self,
        alloc: Global,
        state: &mut Self::State,
        client: u32,
        call: &Self::Call,
        choice: &Self::Choice,
    ) -> Result<Option<Self::Reply>, SeqFault>
        requires { HasState self.now state.old }
        ensures applied { IsApplied numbers (step self.now (meaning state.old) client (call_meant call.now) (choice_meant choice.now)) (Fits self.now (meaning state.old) client (call_meant call.now) (choice_meant choice.now)) (meaning state.old) (meaning state.new) result }
        ensures state { HasState self.now state.new };

    /// The call of this code and these numbers, if the object has one.
    fn call_of(
        &self,
        alloc: Global,
        code: u32,
        given: &[i64],
    ) -> Result<Option<Self::Call>, OutOfMemory>
        ensures { let call : Call = record { op = code; numbers = given.now } in
            IfOk result (λ found. MatchOption found (HasCall self.now call → ⊥) (λ its. HasCall self.now call × (call_meant its ≡ call))) };

    /// Whether a call is the one of this code and these numbers, be there such a call or not.
    fn is_call(&self, call: &Self::Call, code: u32, given: &[i64]) -> bool
        ensures { let its : Call = record { op = code; numbers = given.now } in IsTrue result ↔ (call_meant call.now ≡ its) };

    /// The numbers of a reply.
    fn numbers_of(&self, alloc: Global, reply: &Self::Reply) -> Result<Vec<i64>, OutOfMemory>
        ensures { IfOk result (λ given. given.items ≡ numbers reply.now) };

    /// Calls are equal where they stand for the same.
    ghost equal_calls: { (a b : Self.Call) → (Self.Call.eq a b ≡ true) ↔ (call_meant a ≡ call_meant b) };

    /// Replies are equal if their numbers are.
    ghost equal_replies: { (a b : Self.Reply) → (Self.Reply.eq a b ≡ true) ↔ (numbers a ≡ numbers b) };

    /// Only a call that the object has takes a step.
    ghost steps_by_calls: { (object : Self) (s : Meaning) (client : ℕ) (call : Call) (choice : Choice) (t : Meaning) (reply : List ℤ) → Step (step object) s client call choice t reply → HasCall object call };
}
