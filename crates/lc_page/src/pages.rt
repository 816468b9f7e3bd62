//! The page of a history.
ghost use Rattle.std.specs.Prelude.{◌≡◌, IfOk};
ghost use Rattle.lc_history.specs.Histories.{events_in};
ghost use Rattle.lc_history.specs.View.{entries_view};
ghost use Rattle.lc_seq.specs.TextView.{specification_of};
ghost use Rattle.lc_page.specs.Pages.{IsPage, page_with};
ghost use Rattle.lc_page.specs.Unmarked.{unmarked};

use crate::escaping::push_unmarked;
use crate::head::HEAD;
use crate::said::said_of;
use crate::tail::TAIL;
use lc_base::OutOfMemory;
use lc_hist::history_to_json;
use lc_history::{Done, History};
use lc_seq::{Pick, TextCall, TextSpec};
use std::alloc::Global;

// The page with these bytes as its data.
fn page_with(alloc: Global, bytes: &[u8]) -> Result<Vec<u8>, OutOfMemory>
    ensures { IfOk result (λ text. text.items ≡ page_with (unmarked bytes.now)) }
{
    let mut text = Vec::new(alloc);
    text.extend_from_slice(HEAD)?;
    push_unmarked(&mut text, bytes)?;
    text.extend_from_slice(TAIL)?;
    Ok(text)
}

/// A page for a browser, in one file and without anything from elsewhere, that draws a history with an order: a lane for each client,
/// a bar for each call, a mark with its place for each entry of the order; and says of each what it stores in the state of the
/// specification, and whether the order linearizes the history.
pub fn page(
    alloc: Global,
    spec: &TextSpec,
    history: &History,
    order: &[Done<TextCall, Pick, Vec<i64>>],
) -> Result<Vec<u8>, OutOfMemory>
    ensures { IfOk result (λ text. IsPage (specification_of spec.now).operations (events_in history.now) (entries_view order.now) text.items) }
{
    let mut data = Vec::new(alloc);
    data.extend_from_slice(b"{\"history\":")?;
    data.extend_from_slice(&history_to_json(alloc, spec, history, order)?)?;
    data.extend_from_slice(&said_of(alloc, spec, history, order)?)?;
    page_with(alloc, &data)
}
