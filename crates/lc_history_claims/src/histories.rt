//! Histories, the judge of orders, and their texts.
ghost use Rattle.std.specs.Prelude.{◌≡◌, IfOk};
ghost use Rattle.lc_history.specs.Histories.{events_in, IsHistory};
ghost use Rattle.lc_hist.specs.JsonHistories.{IsHistoryOf};
ghost use Rattle.lc_hist.specs.JsonWritten.{history_text, SaysOnly};
ghost use Rattle.lc_history.specs.Judged.{IsJudged};
ghost use Rattle.lc_history.specs.View.{entries_in, events_of, entries_view};
ghost use Rattle.lc_seq.specs.TextView.{specification_of};

use lc_base::{Fault, OutOfMemory};
use lc_hist::{history_from_json, history_to_json};
use lc_history::{Done, Event, History, HistoryFault, JudgeFault, judge};
use lc_seq::{Pick, SeqObject, TextCall, TextSpec};
use std::alloc::Global;

/// Events are a history if each is in turn; otherwise the first that is out of turn is reported.
pub fn making_a_history(alloc: Global, events: Vec<Event>) -> Result<History, HistoryFault>
    ensures { IsHistory (events_of events.items) result }
{
    History::new(alloc, events)
}

/// An order is accepted if it linearizes the history; otherwise the first test that it does not pass is reported.
pub fn judging<S: SeqObject>(
    alloc: Global,
    object: &S,
    history: &History,
    order: &[Done<S::Call, S::Choice, S::Reply>],
) -> Result<(), JudgeFault>
    ensures { IsJudged (S.step object.now) (S.Fits object.now) (S.start object.now) (events_in history.now) (entries_in S.call_meant S.choice_meant S.numbers order.now) result }
{
    judge(alloc, object, history, order)
}

/// For a text, the history and the order that it says are returned, or its first item that is wrong.
pub fn reading_a_history(
    alloc: Global,
    spec: &TextSpec,
    bytes: &[u8],
) -> Result<(History, Vec<Done<TextCall, Pick, Vec<i64>>>), Fault>
    ensures { IsHistoryOf (specification_of spec.now).operations bytes.now result }
{
    history_from_json(alloc, spec, bytes)
}

/// A history and an order are written as is defined, and what is written says no other.
pub fn writing_a_history(
    alloc: Global,
    spec: &TextSpec,
    history: &History,
    order: &[Done<TextCall, Pick, Vec<i64>>],
) -> Result<Vec<u8>, OutOfMemory>
    ensures text { IfOk result (λ bytes. bytes.items ≡ history_text (specification_of spec.now).operations (events_in history.now) (entries_view order.now)) }
    ensures reads_back { IfOk result (λ bytes. SaysOnly (specification_of spec.now).operations bytes.items (events_in history.now) (entries_view order.now)) }
{
    history_to_json(alloc, spec, history, order)
}
