//! Pages of histories and of traces.
ghost use Rattle.std.specs.Prelude.{IfOk};
ghost use Rattle.lc_history.specs.Histories.{events_in};
ghost use Rattle.lc_history.specs.View.{entries_view};
ghost use Rattle.lc_page.specs.Pages.{IsPage, IsTracePage};
ghost use Rattle.lc_seq.specs.TextView.{specification_of};

use lc_base::OutOfMemory;
use lc_history::{Done, History};
use lc_page::{page, trace_page};
use lc_seq::{Pick, TextCall, TextSpec};
use std::alloc::Global;

/// A page has this history and this order as its data, without markup.
pub fn paging_a_history(
    alloc: Global,
    spec: &TextSpec,
    history: &History,
    order: &[Done<TextCall, Pick, Vec<i64>>],
) -> Result<Vec<u8>, OutOfMemory>
    ensures { IfOk result (λ text. IsPage (specification_of spec.now).operations (events_in history.now) (entries_view order.now) text.items) }
{
    page(alloc, spec, history, order)
}

/// A page has the lines of this trace as its data, without markup.
pub fn paging_a_trace(alloc: Global, trace: &[u8]) -> Result<Vec<u8>, OutOfMemory>
    ensures { IfOk result (λ text. IsTracePage trace.now text.items) }
{
    trace_page(alloc, trace)
}
