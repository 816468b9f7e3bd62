//! Laws of the definitions: functions without effect, whose contracts are the laws.
ghost use Rattle.std.specs.Prelude.{◌≡◌, ◌↔◌, List, Result};
ghost use Rattle.lc_history.specs.History.{Event, Entry, Linearizes};
ghost use Rattle.lc_history.specs.Shadowed.{with_choices};
ghost use Rattle.lc_history.specs.WellFormed.{IsWellFormed};
ghost use Rattle.lc_history.specs.Judged.{IsJudged, IsTold};
ghost use Rattle.lc_history.specs.Tests.{PassesEach};
ghost use Rattle.lc_history.specs.declared.judging.JudgeFault.{JudgeFault};

use lc_seq::{SeqObject, Shadows};

/// An order linearizes a history exactly if it passes each test.
pub fn tests_are_exact<S: SeqObject>()
    ensures { (object : S) (history : List Event) (order : List Entry) → IsWellFormed history →
        Linearizes (S.step object) (S.start object) history order ↔ PassesEach (S.step object) (S.start object) history order }
{}

/// Two answers of the judge to one order are the same, unless one is `OutOfMemory`.
pub fn an_order_has_one_judgement<S: SeqObject>()
    ensures { (object : S) (history : List Event) (order : List Entry) (answer other : Result (Unit {0}) JudgeFault) →
        IsJudged (S.step object) (S.Fits object) (S.start object) history order answer → IsTold answer →
        IsJudged (S.step object) (S.Fits object) (S.start object) history order other → IsTold other → answer ≡ other }
{}

/// An order that linearizes a history for an object does so, under the choices that stand for its own, for an object that
/// follows it.
pub fn shadowed<A: SeqObject, B: Shadows<A>>()
    ensures { (shadow : B) (object : A) (history : List Event) (order : List Entry) → B.Follows shadow object →
        Linearizes (A.step object) (A.start object) history order →
        Linearizes (B.SeqObject.step shadow) (B.SeqObject.start shadow) history (with_choices B.choice_for order) }
{}
