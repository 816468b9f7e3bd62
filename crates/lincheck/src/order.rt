//! The command `order`.
ghost use Rattle.std.specs.Prelude.{◌≡◌, IfOk, IsErr};
ghost use Rattle.lc_base.specs.Line.{line_of};
ghost use Rattle.lc_history.specs.Histories.{events_in};
ghost use Rattle.lc_history.specs.View.{entries_view};
ghost use Rattle.lc_seq.specs.TextView.{specification_of};
ghost use Rattle.lc_words.specs.Tasks.{FindOrder};
ghost use Rattle.lincheck.specs.Execution.{IsUnread};
ghost use Rattle.lincheck.specs.Order.{AnswersOrder, AnswersOrdered, ToldDecision, ordered_text};
ghost use Rattle.lincheck.specs.Reading.{OfFile};

use crate::answer::{Answer, Failure, REFUSED, SUCCESS, Why, told_fault};
use crate::files::Files;
use crate::judge::spec_fed;
use crate::reading::{feed_forms, read_file};
use lc_base::{OutOfMemory, write_line};
use lc_hist::{history_to_json, recorded_from_json};
use lc_history::{Done, History};
use lc_order::{Decision, decide};
use lc_seq::{Pick, TextCall, TextSpec};
use std::alloc::Global;

/// How many nodes of a search are looked at, if no number is given.
pub const BUDGET: u64 = 10_000_000;

/// How an order is looked for, and told.
#[derive(Clone, Copy)]
pub struct Search {
    /// The word alone is told, and no order.
    pub check: bool,
    /// How many nodes are looked at, if a number is given.
    pub budget: Option<u64>,
}

/// Why no order is told of a history of which this is decided, over so many nodes.
pub fn why_of(decision: &Decision<TextCall, Pick, Vec<i64>>, budget: u64) -> Option<Why> {
    match decision {
        Decision::Order(_) => None,
        Decision::NotLinearizable(front) => Some(Why::Unordered(*front as u64)),
        Decision::Unknown => Some(Why::UntriedChoices),
        Decision::Overflow => Some(Why::Overflow),
        Decision::Budget => Some(Why::GivenUp(budget)),
    }
}

/// What is printed of a history with an order that linearizes it.
fn ordered_text(
    alloc: Global,
    spec: &TextSpec,
    history: &History,
    order: &[Done<TextCall, Pick, Vec<i64>>],
    check: bool,
) -> Result<Vec<u8>, OutOfMemory>
    ensures { IfOk result (λ text. text.items ≡ ordered_text check (specification_of spec.now).operations (events_in history.now) (entries_view order.now)) }
{
    if check {
        return write_line(alloc, "linearizable", &[]);
    }
    let mut text = history_to_json(alloc, spec, history, order)?;
    text.push(b'\n')?;
    Ok(text)
}

/// An answer of one line, that no order was found.
fn told_word(
    alloc: Global,
    word: &str,
    numbers: &[u64],
    why: Option<Why>,
) -> Result<Answer, OutOfMemory>
    ensures { IfOk result (λ answer. (answer.text.items ≡ line_of word.now numbers.now) × (answer.status ≡ 1)) }
{
    Ok(Answer {
        text: write_line(alloc, word, numbers)?,
        status: REFUSED,
        why,
    })
}

/// The answer that tells what is decided of a history, and why no order is told.
fn tell_decision(
    alloc: Global,
    spec: &TextSpec,
    history: &History,
    decision: &Decision<TextCall, Pick, Vec<i64>>,
    check: bool,
    why: Option<Why>,
) -> Result<Answer, OutOfMemory>
    ensures { IfOk result (λ answer. ToldDecision check (specification_of spec.now).operations (events_in history.now) decision.now answer.text.items answer.status) }
{
    match decision {
        Decision::Order(order) => Ok(Answer {
            text: ordered_text(alloc, spec, history, order, check)?,
            status: SUCCESS,
            why,
        }),
        Decision::NotLinearizable(front) => {
            told_word(alloc, "not linearizable", &[*front as u64], why)
        }
        Decision::Unknown => told_word(alloc, "unknown", &[], why),
        Decision::Overflow => told_word(alloc, "overflow", &[], why),
        Decision::Budget => told_word(alloc, "budget", &[], why),
    }
}

/// The answer to the history that a text says, by a specification; else the one that tells the first item that is wrong.
#[tactic(auto, using(crate::proofs::Ordered::recorded_told, crate::proofs::Ordered::recorded_refused))]
fn order_of(
    alloc: Global,
    spec: &TextSpec,
    bytes: &[u8],
    search: Search,
) -> Result<Answer, OutOfMemory>
    ensures { IfOk result (λ answer. AnswersOrdered search.check (specification_of spec.now) bytes.now answer.text.items answer.status) }
{
    match recorded_from_json(alloc, spec, bytes) {
        Ok((history, given)) => {
            let budget = search.budget.unwrap_or(BUDGET);
            let decision = decide(alloc, spec, &history, given, budget)?;
            let why = why_of(&decision, budget);
            tell_decision(alloc, spec, &history, &decision, search.check, why)
        }
        Err(fault) => told_fault(alloc, fault),
    }
}

/// The answer to the history at a path, by a specification.
fn answer_ordered<'a, F: Files>(
    alloc: Global,
    files: &mut F,
    spec: &TextSpec,
    path: &'a str,
    search: Search,
) -> Result<Answer, Failure<'a>>
    ensures unread { F.CannotOpen files.old path.now → IsErr result }
    ensures answers { IfOk result (λ answer. OfFile (F.bytes_at files.old path.now) (λ file. AnswersOrdered search.check (specification_of spec.now) file answer.text.items answer.status)) }
{
    let bytes = read_file(alloc, files, path)?;
    Ok(order_of(alloc, spec, &bytes, search)?)
}

/// The answer of the command `order` to the development and the history at two paths. If the development is refused, the history
/// is not opened.
pub fn answer_order<'a, F: Files>(
    alloc: Global,
    files: &mut F,
    development: &'a str,
    history: &'a str,
    search: Search,
) -> Result<Answer, Failure<'a>>
    ensures unread { IsUnread (F.CannotOpen files.old) (F.bytes_at files.old) (FindOrder development.now history.now search.check search.budget) → IsErr result }
    ensures answers { IfOk result (λ answer. OfFile (F.bytes_at files.old development.now) (λ file. AnswersOrder search.check file (F.bytes_at files.old history.now) answer.text.items answer.status)) }
{
    let reader = feed_forms(alloc, files, development)?;
    match spec_fed(alloc, reader) {
        Ok(spec) => answer_ordered(alloc, files, &spec, history, search),
        Err(fault) => Ok(told_fault(alloc, fault)?),
    }
}
