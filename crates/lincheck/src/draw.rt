//! The command `draw`.
ghost use Rattle.std.specs.Prelude.{◌≡◌, ℕ, List, Option, IfOk, IsErr};
ghost use Rattle.lc_draw.specs.Stretches.{IsDrawnRound};
ghost use Rattle.lc_history.specs.Histories.{events_in};
ghost use Rattle.lc_history.specs.View.{entries_view};
ghost use Rattle.lc_seq.specs.TextView.{specification_of};
ghost use Rattle.lc_words.specs.Tasks.{DrawHistory};
ghost use Rattle.lincheck.specs.Draw.{AnswersDraw, AnswersDrawn, AnswersShown, DrawsGiven, IsShown, ToldRound, front_found, is_traced, order_found};
ghost use Rattle.lincheck.specs.Execution.{IsUnread};
ghost use Rattle.lincheck.specs.Reading.{OfFile};

use crate::answer::{Answer, Failure, REFUSED, SUCCESS, Why, told_fault};
use crate::files::Files;
use crate::judge::spec_fed;
use crate::order::{BUDGET, why_of};
use crate::reading::{feed_forms, read_file};
use lc_base::{FILE_LIMIT, OutOfMemory, write_line};
use lc_draw::{drawing, drawing_round};
use lc_hist::recorded_from_json;
use lc_history::{Done, History};
use lc_order::{Decision, decide};
use lc_page::{page, trace_page};
use lc_seq::{Pick, TextCall, TextSpec};
use lc_words::Shown;
use std::alloc::Global;

/// The drawing of what is near the mark of the entry at a place; or the word that there is none.
fn round_told(
    alloc: Global,
    spec: &TextSpec,
    history: &History,
    order: &[Done<TextCall, Pick, Vec<i64>>],
    place: u64,
    width: u64,
    why: Option<Why>,
) -> Result<Answer, OutOfMemory>
    ensures { IfOk result (λ answer. (found : Option (List ℕ)) × IsDrawnRound (events_in history.now) (entries_view order.now) place width found × ToldRound found answer.text.items answer.status) }
{
    let found = drawing_round(alloc, spec, history, order, place as usize, width as usize)?;
    match found {
        Some(text) => Ok(Answer {
            text: text.into_bytes(),
            status: SUCCESS,
            why,
        }),
        None => Ok(Answer {
            text: write_line(alloc, "no-such-place", &[])?,
            status: REFUSED,
            why: why.or(Some(Why::NoMark(place))),
        }),
    }
}

/// The drawing of a history with an order, and with the number of first events that no order linearizes, if it is known; or the page
/// that draws the history with the order, or the drawing of what is near an entry.
fn drawn(
    alloc: Global,
    spec: &TextSpec,
    history: &History,
    order: &[Done<TextCall, Pick, Vec<i64>>],
    front: Option<usize>,
    why: Option<Why>,
    shown: Shown,
) -> Result<Answer, OutOfMemory>
    ensures { IfOk result (λ answer. IsShown shown (specification_of spec.now).operations (events_in history.now) (entries_view order.now) front answer.text.items answer.status) }
{
    let text = match shown {
        Shown::Whole => drawing(alloc, spec, history, order, front)?.into_bytes(),
        Shown::Page => page(alloc, spec, history, order)?,
        Shown::Around(place, width) => {
            return round_told(alloc, spec, history, order, place, width, why);
        }
    };
    Ok(Answer {
        text,
        status: SUCCESS,
        why,
    })
}

/// The drawing of a history of which this is decided.
fn decision_drawn(
    alloc: Global,
    spec: &TextSpec,
    history: &History,
    decision: &Decision<TextCall, Pick, Vec<i64>>,
    shown: Shown,
) -> Result<Answer, OutOfMemory>
    ensures { IfOk result (λ answer. IsShown shown (specification_of spec.now).operations (events_in history.now) (order_found decision.now) (front_found decision.now) answer.text.items answer.status) }
{
    let why = why_of(decision, BUDGET);
    match decision {
        Decision::Order(order) => drawn(alloc, spec, history, order, None, why, shown),
        Decision::NotLinearizable(front) => {
            drawn(alloc, spec, history, &[], Some(*front), why, shown)
        }
        Decision::Unknown | Decision::Overflow | Decision::Budget => {
            drawn(alloc, spec, history, &[], None, why, shown)
        }
    }
}

/// The drawing of a history with the order that is given; if that has no entries, with what is decided of the history.
fn given_drawn(
    alloc: Global,
    spec: &TextSpec,
    history: &History,
    given: &[Done<TextCall, Pick, Vec<i64>>],
    shown: Shown,
) -> Result<Answer, OutOfMemory>
    ensures { IfOk result (λ answer. DrawsGiven shown (specification_of spec.now) (events_in history.now) (entries_view given.now) answer.text.items answer.status) }
{
    if given.is_empty() {
        let decision = decide(alloc, spec, history, Vec::new(alloc), BUDGET)?;
        return decision_drawn(alloc, spec, history, &decision, shown);
    }
    drawn(alloc, spec, history, given, None, None, shown)
}

/// The picture of the history that a text says, by a specification; else the answer that tells the first item that is wrong.
fn picture_of(
    alloc: Global,
    spec: &TextSpec,
    bytes: &[u8],
    shown: Shown,
) -> Result<Answer, OutOfMemory>
    ensures { IfOk result (λ answer. AnswersDrawn shown (specification_of spec.now) bytes.now answer.text.items answer.status) }
{
    match recorded_from_json(alloc, spec, bytes) {
        Ok((history, given)) => given_drawn(alloc, spec, &history, &given, shown),
        Err(fault) => told_fault(alloc, fault),
    }
}

/// Whether bytes are to be drawn as the lines of a trace: for a page, and by how they begin.
fn is_traced(shown: Shown, bytes: &[u8]) -> bool
    ensures { result ≡ is_traced shown bytes.now }
{
    match shown {
        Shown::Page => { bytes.starts_with(b"linearizable ") && bytes.len() as u64 <= FILE_LIMIT }
        Shown::Whole | Shown::Around(_, _) => false,
    }
}

/// The page of a trace, if the bytes are to be drawn as one; else what is to be shown of the history that they say.
fn shown_of(
    alloc: Global,
    spec: &TextSpec,
    bytes: &[u8],
    shown: Shown,
) -> Result<Answer, OutOfMemory>
    ensures { IfOk result (λ answer. AnswersShown shown (specification_of spec.now) bytes.now answer.text.items answer.status) }
{
    if !is_traced(shown, bytes) {
        return picture_of(alloc, spec, bytes, shown);
    }
    let text = trace_page(alloc, bytes)?;
    Ok(Answer {
        text,
        status: SUCCESS,
        why: None,
    })
}

/// The answer to the history or the trace at a path, by a specification.
fn answer_drawn<'a, F: Files>(
    alloc: Global,
    files: &mut F,
    spec: &TextSpec,
    path: &'a str,
    shown: Shown,
) -> Result<Answer, Failure<'a>>
    ensures unread { F.CannotOpen files.old path.now → IsErr result }
    ensures answers { IfOk result (λ answer. OfFile (F.bytes_at files.old path.now) (λ file. AnswersShown shown (specification_of spec.now) file answer.text.items answer.status)) }
{
    let bytes = read_file(alloc, files, path)?;
    Ok(shown_of(alloc, spec, &bytes, shown)?)
}

/// The answer of the command `draw` to the development and the history or the trace at two paths. If the development is refused, the history
/// is not opened.
pub fn answer_draw<'a, F: Files>(
    alloc: Global,
    files: &mut F,
    development: &'a str,
    history: &'a str,
    shown: Shown,
) -> Result<Answer, Failure<'a>>
    ensures unread { IsUnread (F.CannotOpen files.old) (F.bytes_at files.old) (DrawHistory development.now history.now shown) → IsErr result }
    ensures answers { IfOk result (λ answer. OfFile (F.bytes_at files.old development.now) (λ file. AnswersDraw shown file (F.bytes_at files.old history.now) answer.text.items answer.status)) }
{
    let reader = feed_forms(alloc, files, development)?;
    match spec_fed(alloc, reader) {
        Ok(spec) => answer_drawn(alloc, files, &spec, history, shown),
        Err(fault) => Ok(told_fault(alloc, fault)?),
    }
}
