//! Drawings of histories.
ghost use Rattle.std.specs.Prelude.{IfOk, option_map, string_bytes};
ghost use Rattle.lc_draw.specs.Drawings.{IsDrawing};
ghost use Rattle.lc_draw.specs.Stretches.{IsDrawnRound};
ghost use Rattle.lc_history.specs.Histories.{events_in};
ghost use Rattle.lc_history.specs.View.{entries_view};

use lc_base::OutOfMemory;
use lc_draw::{drawing, drawing_round};
use lc_history::{Done, History};
use lc_seq::{Pick, TextCall, TextSpec};
use std::alloc::Global;

/// A drawing has a bar for each call of the history, a mark for each entry of the order that has a call, and a line behind the event
/// whose number is given.
pub fn drawing_a_history(
    alloc: Global,
    spec: &TextSpec,
    history: &History,
    order: &[Done<TextCall, Pick, Vec<i64>>],
    event: Option<usize>,
) -> Result<String, OutOfMemory>
    ensures { IfOk result (λ text. IsDrawing (events_in history.now) (entries_view order.now) event (string_bytes text)) }
{
    drawing(alloc, spec, history, order, event)
}

/// A part of a drawing has the calls that lie within so many events before a mark and behind it, and their marks with the places of the
/// whole order; and there is none if no mark has the place.
pub fn drawing_round_a_mark(
    alloc: Global,
    spec: &TextSpec,
    history: &History,
    order: &[Done<TextCall, Pick, Vec<i64>>],
    place: usize,
    width: usize,
) -> Result<Option<String>, OutOfMemory>
    ensures { IfOk result (λ found. IsDrawnRound (events_in history.now) (entries_view order.now) place width (option_map (λ text. string_bytes text) found)) }
{
    drawing_round(alloc, spec, history, order, place, width)
}
