//! Where bars and marks are, from left to right.
ghost use Rattle.std.specs.Prelude.{◌≡◌, ◌<◌, ◌++◌, All, IfOk, IfSome, OnOk, false, length, map, option_map, slice_get, vec_len};
ghost use Rattle.std.specs.Option.{option_map_or};
ghost use Rattle.lc_history.specs.View.{events_of};
ghost use Rattle.lc_draw.specs.Counting.{numbered_places, place_at};
ghost use Rattle.lc_draw.specs.Drawings.{event_in};

use crate::calls::Calls;
use crate::texts::{Plain, call_text};
use lc_base::OutOfMemory;
use lc_history::Event;
use lc_seq::Operation;
use std::alloc::Global;

/// How far an event is after the one before it, at least.
const STEP: u64 = 24;

/// The width of a character.
const CHARACTER: u64 = 8;

/// What is left free in a bar, beside its text.
const AROUND: u64 = 16;

/// How far into a bar its mark is, at least, and before its end.
const INTO: u64 = 8;

/// A call, as it is drawn.
#[derive(Drop)]
pub(crate) struct Bar {
    /// The number of its lane, from 0 above.
    pub(crate) lane: usize,
    pub(crate) text: Plain,
    /// How far to the right it begins and ends, in units of the drawing.
    pub(crate) begins: u64,
    pub(crate) ends: u64,
    /// At which place the events have its beginning, and its return, if it has returned.
    pub(crate) begun_at: usize,
    pub(crate) returned_at: Option<usize>,
    /// The place of its entry in the order, if it has one.
    pub(crate) place: Option<usize>,
}

/// An entry of the order, as it is drawn.
#[derive(Clone, Copy)]
pub(crate) struct Mark {
    pub(crate) place: usize,
    pub(crate) lane: usize,
    /// How far to the right it is.
    pub(crate) across: u64,
}

/// The line behind an event, as it is drawn: its number, from 1, and how far to the right it is.
#[derive(Clone, Copy)]
pub(crate) struct Cut {
    pub(crate) number: usize,
    pub(crate) across: u64,
}

/// The bars of calls, none of which is put anywhere.
pub(crate) fn bars_of(
    alloc: Global,
    operations: &[Operation],
    calls: &Calls<'_>,
) -> Result<Vec<Bar>, OutOfMemory>
    ensures { IfOk result (λ bars. vec_len bars ≡ vec_len calls.now.calls) }
{
    let mut bars = Vec::new(alloc);
    for call in &calls.calls {
        bars.push(Bar {
            lane: calls.turns.get_index_of(&call.client).unwrap_or(0),
            text: call_text(alloc, operations, call)?,
            begins: 0,
            ends: 0,
            begun_at: call.begins,
            returned_at: call.returns,
            place: call.place,
        })?;
    }
    Ok(bars)
}

/// How wide a bar is, so that its text has room.
fn width_of(bar: &Bar) -> u64 {
    (bar.text.len() as u64)
        .saturating_mul(CHARACTER)
        .saturating_add(AROUND)
}

/// Puts the next event of a call after what is there up to now, and returns where it is: an end leaves room for the text.
fn put_event(bar: &mut Bar, behind: u64) -> u64 {
    let next = behind.saturating_add(STEP);
    if bar.begins == 0 {
        bar.begins = next;
        bar.ends = next.saturating_add(width_of(bar));
        return next;
    }
    bar.ends = next.max(bar.begins.saturating_add(width_of(bar)));
    bar.ends
}

/// Whether the bar of a number is held.
pub(crate) fn is_held(held: &[bool], number: usize) -> bool
    ensures { result ≡ option_map_or (λ is. is) (slice_get held.now number) false }
{
    held.get(number).copied().unwrap_or(false)
}

/// Puts the bars that are held where their events are, in the order of the events, and returns where the drawing ends.
pub(crate) fn put_bars(bars: &mut [Bar], bar_of_event: &[usize], held: &[bool]) -> u64
    ensures { length bars.new ≡ length bars.old }
{
    let mut behind = 0;
    for number in bar_of_event {
        if is_held(held, *number) {
            if let Some(bar) = bars.get_mut(*number) {
                behind = put_event(bar, behind);
            }
        }
    }
    let mut last = behind.saturating_add(STEP);
    for bar in &*bars {
        last = last.max(bar.ends);
    }
    for bar in &mut *bars {
        if bar.returned_at.is_none() {
            bar.ends = last;
        }
    }
    last
}

// Marks an entry, if it has a bar: as far to the right as the mark before it, or farther, if its bar goes that far. Returns how far
// to the right marks are by then.
fn mark_entry(
    marks: &mut Vec<Mark>,
    bars: &[Bar],
    place: usize,
    number: Option<usize>,
    behind: u64,
) -> Result<u64, OutOfMemory>
    requires { IfSome number (λ n. n < length bars.now) }
    ensures { OnOk result (map (λ mark. mark.place) marks.new.items ≡ map (λ mark. mark.place) marks.old.items ++ place_at place number) }
{
    let Some(number) = number else {
        return Ok(behind);
    };
    let bar = &bars[number];
    let first = bar.begins.saturating_add(INTO);
    let last = bar.ends.saturating_sub(INTO);
    let across = first.max(behind).min(last);
    let mark = Mark {
        place,
        lane: bar.lane,
        across,
    };
    marks.push(mark)?;
    Ok(behind.max(across))
}

/// The marks of entries that have bars.
pub(crate) fn marks_of(
    alloc: Global,
    bars: &[Bar],
    bar_of_entry: &[Option<usize>],
) -> Result<Vec<Mark>, OutOfMemory>
    requires { All (λ number. IfSome number (λ n. n < length bars.now)) bar_of_entry.now }
    ensures { IfOk result (λ marks. map (λ mark. mark.place) marks.items ≡ numbered_places 0 bar_of_entry.now) }
{
    let mut marks = Vec::new(alloc);
    let mut behind = 0;
    for (place, number) in bar_of_entry.iter().enumerate() {
        behind = mark_entry(&mut marks, bars, place, *number, behind)?;
    }
    Ok(marks)
}

/// How far to the right the event at a place is.
fn event_across(bars: &[Bar], bar_of_event: &[usize], place: usize, begins: bool) -> u64 {
    let number = bar_of_event.get(place).copied();
    let Some(bar) = number.and_then(|number| bars.get(number)) else {
        return 0;
    };
    if begins { bar.begins } else { bar.ends }
}

/// The line behind the event of a number, from 1, if there is one.
pub(crate) fn cut_of(
    bars: &[Bar],
    events: &[Event],
    bar_of_event: &[usize],
    number: Option<usize>,
) -> Option<Cut>
    ensures { option_map (λ cut. cut.number) result ≡ event_in (events_of events.now) number }
{
    let number = number?;
    let place = number.checked_sub(1)?;
    let event = events.get(place)?;
    Some(Cut {
        number,
        across: event_across(bars, bar_of_event, place, event.begins()),
    })
}
