//! The drawing of a history.
ghost use Rattle.std.specs.Prelude.{◌≡◌, [], IfOk, map, option_map, string_bytes, take, vec_len};
ghost use Rattle.lc_history.specs.Histories.{events_in};
ghost use Rattle.lc_history.specs.History.{count};
ghost use Rattle.lc_history.specs.View.{entries_view};
ghost use Rattle.lc_draw.specs.Counting.{AreTurns};
ghost use Rattle.lc_draw.specs.Drawings.{Draws, IsDrawing, event_in, marked};
ghost use Rattle.lc_draw.specs.Stretches.{IsDrawnRound, IsPart, count_such, is_within};

use crate::calls::{Calls, calls_of, note_entries, numbers_of};
use crate::places::{Bar, Cut, Mark, bars_of, cut_of, marks_of, put_bars};
use crate::rounds::mark_at;
use crate::stretches::{Stretch, calls_held, end_of, stretch_between};
use crate::svg::{
    Sheet, begin_sheet, end_sheet, push_bars, push_caption, push_cut, push_lanes, push_marks,
    push_order, push_sheet, push_style,
};
use lc_base::OutOfMemory;
use lc_history::{Done, History, JudgeFault, Reason, judge};
use lc_seq::{Pick, TextCall, TextSpec};
use std::alloc::Global;

/// What is said of an order, and at which place.
#[derive(Clone, Copy)]
pub(crate) enum Judged {
    Linearizes,
    Fails { place: usize, reason: Reason },
    /// No order linearizes so many first events.
    Unordered(usize),
    /// There is no order that could be judged, and calls returned.
    Orderless,
    LeavesNumbers,
}

/// What the judge says of an order, unless it is known that there is none.
fn judgement_of(
    alloc: Global,
    spec: &TextSpec,
    history: &History,
    order: &[Done<TextCall, Pick, Vec<i64>>],
    event: Option<usize>,
) -> Result<Judged, OutOfMemory> {
    if let Some(number) = event {
        return Ok(Judged::Unordered(number));
    }
    match judge(alloc, spec, history, order) {
        Ok(()) => Ok(Judged::Linearizes),
        Err(JudgeFault::Order { .. }) if order.is_empty() => Ok(Judged::Orderless),
        Err(JudgeFault::Order { place, reason }) => Ok(Judged::Fails {
            place: place as usize,
            reason,
        }),
        Err(JudgeFault::Overflow) => Ok(Judged::LeavesNumbers),
        Err(JudgeFault::OutOfMemory) => Err(OutOfMemory),
    }
}

/// At which place the events have the beginning of the call that is at fault, if the fault is that a later entry's call precedes it;
/// or the event up to which no order linearizes the history, if that is known.
fn fault_from(bars: &[Bar], bar_of_entry: &[Option<usize>], judged: Judged) -> usize {
    let place = match judged {
        Judged::Unordered(number) => return number.saturating_sub(1),
        Judged::Fails {
            place,
            reason: Reason::Preceded,
        } => place,
        _ => return 0,
    };
    let number = bar_of_entry.get(place).copied().unwrap_or(None);
    let bar = number.and_then(|number| bars.get(number));
    bar.map_or(0, |bar| bar.begun_at)
}

/// Whether a bar is what makes the order no linearization: the entry's call; a call without an entry, if one is missing; or
/// the call of a later entry that returned before the entry's call began, at the place `from` of the events. If there is no order, it
/// is the call that returns there.
pub(crate) fn is_at_fault(bar: &Bar, judged: Judged, from: usize) -> bool {
    let (place, reason) = match judged {
        Judged::Fails { place, reason } => (place, reason),
        Judged::Unordered(_) => return bar.returned_at.is_some_and(|at| at == from),
        Judged::Linearizes | Judged::Orderless | Judged::LeavesNumbers => return false,
    };
    match bar.place {
        Some(own) => own == place || own > place && bar.returned_at.is_some_and(|at| at < from),
        None => matches!(reason, Reason::MissingCall) && bar.returned_at.is_some(),
    }
}

/// What is on a drawing, and where.
struct Laid<'a> {
    bars: Vec<Bar>,
    /// Which of the bars are drawn.
    held: Vec<bool>,
    marks: Vec<Mark>,
    calls: Calls<'a>,
    sheet: Sheet,
    /// The line behind the event up to which no order linearizes the history, if that is known.
    cut: Option<Cut>,
    /// Where the fault is, if it is one of order.
    fault: usize,
}

impl Drop for Laid<'_> {
    fn drop(self) {
        let Laid {
            bars: _,
            held: _,
            marks: _,
            calls: _,
            sheet: _,
            cut: _,
            fault: _,
        } = self;
    }
}

// Where the calls of a history and the entries of an order are to be, as far as they lie in a stretch of the events.
fn laid_out<'a>(
    alloc: Global,
    spec: &TextSpec,
    history: &'a History,
    order: &'a [Done<TextCall, Pick, Vec<i64>>],
    judged: Judged,
    event: Option<usize>,
    stretch: &Stretch,
) -> Result<Laid<'a>, OutOfMemory>
    requires { AreTurns (take stretch.now.until (events_in history.now)) (take stretch.now.from (events_in history.now)) stretch.now.begun.entries stretch.now.returned.entries }
    ensures lengths { IfOk result (λ laid. vec_len laid.bars ≡ vec_len laid.held) }
    ensures bars { IfOk result (λ laid. count (λ is. is) laid.held.items ≡ count_such (is_within stretch.now.from stretch.now.until (events_in history.now)) (events_in history.now)) }
    ensures marks { IfOk result (λ laid. map (λ mark. mark.place) laid.marks.items ≡ marked (is_within stretch.now.from stretch.now.until (events_in history.now)) [] 0 (entries_view order.now)) }
    ensures cut { IfOk result (λ laid. option_map (λ cut. cut.number) laid.cut ≡ event_in (events_in history.now) event) }
{
    let mut calls = calls_of(alloc, history.events())?;
    let held = calls_held(alloc, history.events(), stretch)?;
    let bar_of_entry = numbers_of(alloc, &calls, order, stretch)?;
    note_entries(&mut calls.calls, order, &bar_of_entry);
    let mut bars = bars_of(alloc, spec.operations(), &calls)?;
    let across = put_bars(&mut bars, &calls.call_of_event, &held);
    let marks = marks_of(alloc, &bars, &bar_of_entry)?;
    let cut = cut_of(&bars, history.events(), &calls.call_of_event, event);
    let fault = fault_from(&bars, &bar_of_entry, judged);
    let sheet = Sheet::new(across, calls.turns.len());
    Ok(Laid {
        bars,
        held,
        marks,
        calls,
        sheet,
        cut,
        fault,
    })
}

// What is laid out, as SVG text.
fn laid_text(alloc: Global, laid: &Laid<'_>, judged: Judged) -> Result<String, OutOfMemory>
    requires { vec_len laid.now.bars ≡ vec_len laid.now.held }
    ensures { IfOk result (λ text. Draws (count (λ is. is) laid.now.held.items) (map (λ mark. mark.place) laid.now.marks.items) (option_map (λ cut. cut.number) laid.now.cut) (string_bytes text)) }
{
    let mut out = String::new(alloc);
    begin_sheet(&mut out, laid.sheet.width, laid.sheet.height)?;
    push_style(&mut out)?;
    push_sheet(&mut out, laid.sheet.width, laid.sheet.height)?;
    push_lanes(&mut out, laid.sheet, &laid.calls.turns)?;
    push_bars(&mut out, &laid.bars, &laid.held, judged, laid.fault)?;
    push_order(&mut out, &laid.marks)?;
    push_marks(&mut out, &laid.marks)?;
    push_cut(&mut out, laid.sheet, laid.cut)?;
    push_caption(alloc, &mut out, laid.sheet, judged)?;
    end_sheet(&mut out)?;
    Ok(out)
}

// The drawing of what lies in a stretch, from behind so many events to behind so many.
fn part_drawn(
    alloc: Global,
    spec: &TextSpec,
    history: &History,
    order: &[Done<TextCall, Pick, Vec<i64>>],
    event: Option<usize>,
    stretch: &Stretch,
) -> Result<String, OutOfMemory>
    requires { AreTurns (take stretch.now.until (events_in history.now)) (take stretch.now.from (events_in history.now)) stretch.now.begun.entries stretch.now.returned.entries }
    ensures { IfOk result (λ text. IsPart stretch.now.from stretch.now.until (events_in history.now) (entries_view order.now) event (string_bytes text)) }
{
    let judged = judgement_of(alloc, spec, history, order, event)?;
    let laid = laid_out(alloc, spec, history, order, judged, event, stretch)?;
    let text = laid_text(alloc, &laid, judged)?;
    Ok(text)
}

/// The drawing of a history with an order, as SVG text, without a script: a lane for each client, in which a bar goes from each
/// call to its return, open at the right if it has not returned; and in the bars the entries of the order as marks with their
/// places, from 0, joined by a line that goes only to the right if no later entry's call precedes another. What makes the
/// order no linearization of the history stands out, and the reason is below. If it is known that no order linearizes the events up
/// to one, that one's number, from 1, may be given: then a line is behind it, and that there is no order is said below.
pub fn drawing(
    alloc: Global,
    spec: &TextSpec,
    history: &History,
    order: &[Done<TextCall, Pick, Vec<i64>>],
    event: Option<usize>,
) -> Result<String, OutOfMemory>
    ensures { IfOk result (λ text. IsDrawing (events_in history.now) (entries_view order.now) event (string_bytes text)) }
{
    let count = history.events().len();
    let all = stretch_between(alloc, history.events(), 0, count)?;
    let text = part_drawn(alloc, spec, history, order, event, &all)?;
    Ok(text)
}

/// The part of the drawing of a history with an order that lies round the mark of the entry at a place: the calls of whose bars a
/// part is within `width` events before the mark and behind it, each from its beginning to its return, and the marks of their
/// entries, with the places that these have in the whole order. None if there is no mark with this place.
pub fn drawing_round(
    alloc: Global,
    spec: &TextSpec,
    history: &History,
    order: &[Done<TextCall, Pick, Vec<i64>>],
    place: usize,
    width: usize,
) -> Result<Option<String>, OutOfMemory>
    ensures { IfOk result (λ found. IsDrawnRound (events_in history.now) (entries_view order.now) place width (option_map (λ text. string_bytes text) found)) }
{
    let Some(at) = mark_at(alloc, history.events(), order, place)? else {
        return Ok(None);
    };
    let from = at.saturating_sub(width);
    let until = end_of(history.events(), at, width);
    let stretch = stretch_between(alloc, history.events(), from, until)?;
    let text = part_drawn(alloc, spec, history, order, None, &stretch)?;
    Ok(Some(text))
}
