//! Laws of the definitions: functions without effect, whose contracts are the laws.
ghost use Rattle.std.specs.Prelude.{ℕ, ◌<◌, ◌∷◌, List, take};
ghost use Rattle.lc_seq.specs.Sequential.{Step};
ghost use Rattle.lc_history.specs.History.{Event, Entry, Linearizes, is_return, count};
ghost use Rattle.lc_history.specs.WellFormed.{IsWellFormed};
ghost use Rattle.lc_order.specs.Completion.{Completes, IsNext};
ghost use Rattle.lc_order.specs.Reading.{OnlyReads};

use lc_history::laws::tests_are_exact;
use lc_seq::SeqObject;

/// What linearizes a history completes it from its start: each of its entries, in turn, is a call that no call without an
/// entry before it precedes.
pub fn what_linearizes_completes<S: SeqObject>()
    ensures { (object : S) (history : List Event) (order : List Entry) → IsWellFormed history →
        Linearizes (S.step object) (S.start object) history order → Completes (S.step object) history (λ _. 0) (S.start object) order }
{
    tests_are_exact::<S>();
}

/// A call that only reads, returned, may have the next place, and gives its reply here, may have it: if there is a
/// completion, there is one that begins with it.
pub fn a_read_may_come_first<S: SeqObject>()
    ensures { (object : S) (history : List Event) (n : ℕ → ℕ) (s : S.Meaning) (e : Entry) (rest : List Entry) → IsNext history n e → n e.client < count (is_return e.client) history →
        OnlyReads (S.step object) e.call → Step (S.step object) s e.client e.call e.choice s e.reply → Completes (S.step object) history n s rest →
        (others : List Entry) × Completes (S.step object) history n s (e ∷ others) }
{}

/// If a history can be completed, so can each front of it.
pub fn a_front_can_be_completed<S: SeqObject>()
    ensures { (object : S) (history : List Event) (m : ℕ) (n : ℕ → ℕ) (s : S.Meaning) (rest : List Entry) →
        Completes (S.step object) history n s rest → (others : List Entry) × Completes (S.step object) (take m history) n s others }
{}
