//! A caller of lc_history.
ghost use Rattle.std.specs.Prelude.{◌↔◌, IfOk, IsTrue};
ghost use Rattle.lc_history.specs.Histories.{events_in};
ghost use Rattle.lc_history.specs.History.{Linearizes};
ghost use Rattle.lc_history.specs.View.{entries_in};

use lc_history::{Done, History, JudgeFault, judge};
use lc_seq::SeqObject;
use std::alloc::Global;

/// Whether `order` linearizes `history` for `object`. Nothing is known if a number overflows or memory runs out.
pub fn is_linearized<S: SeqObject>(
    alloc: Global,
    object: &S,
    history: &History,
    order: &[Done<S::Call, S::Choice, S::Reply>],
) -> Result<bool, JudgeFault>
    ensures { IfOk result (λ yes. IsTrue yes ↔ Linearizes (S.step object.now) (S.start object.now) (events_in history.now) (entries_in S.call_meant S.choice_meant S.numbers order.now)) }
{
    match judge(alloc, object, history, order) {
        Ok(()) => Ok(true),
        Err(JudgeFault::Order { .. }) => Ok(false),
        Err(fault) => Err(fault),
    }
}
