//! The page of a trace.
ghost use Rattle.std.specs.Prelude.{◌≡◌, IfOk};
ghost use Rattle.lc_page.specs.Pages.{IsTracePage, trace_page_with};
ghost use Rattle.lc_page.specs.Unmarked.{unmarked};

use crate::escaping::push_unmarked;
use crate::head::HEAD;
use crate::steps::STEPS_TAIL;
use lc_base::OutOfMemory;
use std::alloc::Global;

// The page with these bytes as its lines.
fn lines_framed(alloc: Global, lines: &[u8]) -> Result<Vec<u8>, OutOfMemory>
    ensures { IfOk result (λ text. text.items ≡ trace_page_with (unmarked lines.now)) }
{
    let mut text = Vec::new(alloc);
    text.extend_from_slice(HEAD)?;
    push_unmarked(&mut text, lines)?;
    text.extend_from_slice(STEPS_TAIL)?;
    Ok(text)
}

/// A page for a browser, in one file and without anything from elsewhere, that draws the lines of a trace: a lane for each client, a
/// box for each step, a mark with its place for each entry of the order; and says of each step which cells it changes. What is no line
/// of a trace is not drawn.
pub fn trace_page(alloc: Global, trace: &[u8]) -> Result<Vec<u8>, OutOfMemory>
    ensures { IfOk result (λ text. IsTracePage trace.now text.items) }
{
    let text = lines_framed(alloc, trace)?;
    Ok(text)
}
