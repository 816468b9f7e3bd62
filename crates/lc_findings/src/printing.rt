//! A run, as it is printed.
ghost use Rattle.std.specs.Prelude.{◌≡◌, ◌≤◌, IfOk};
ghost use Rattle.lc_base.specs.Limits.{seat_limit};
ghost use Rattle.lc_hist.specs.JsonWritten.{history_text};
ghost use Rattle.lc_machine.specs.World.{World};
ghost use Rattle.lc_outline.specs.DevelopmentView.{development_view};
ghost use Rattle.lc_run.specs.LabelView.{labels_of};
ghost use Rattle.lc_sound.specs.Instrumented.{IsRun, history};
ghost use Rattle.lc_sound.specs.Order.{order};
ghost use Rattle.lc_findings.specs.Printed.{PrintsRun};

use lc_base::OutOfMemory;
use lc_hist::history_to_json;
use lc_outline::Development;
use lc_run::{Label, record_of};
use lc_trace::{TraceFault, trace};
use std::alloc::Global;

// The history of a run, with the order of its marks.
fn history_of(
    alloc: Global,
    development: &Development,
    labels: &[Label],
    clients: u32,
) -> Result<Vec<u8>, OutOfMemory>
    requires run { (w : World) × IsRun (development_view development.now) clients (labels_of labels.now) w }
    requires few { clients ≤ seat_limit }
    ensures { let D = development_view development.now in
        IfOk result (λ text. text.items ≡ history_text D.specification.operations (history (labels_of labels.now)) (order (labels_of labels.now))) }
{
    let recorded = record_of(alloc, development, labels, clients)?;
    let specification = &development.parts().specification;
    let text = history_to_json(alloc, specification, &recorded.history, &recorded.order)?;
    Ok(text)
}

/// The steps of a run, each on a line, with the cells that it changes; and, on a line, its history with the order of its marks.
pub(crate) fn run_text(
    alloc: Global,
    development: &Development,
    labels: &[Label],
    clients: u32,
) -> Result<Vec<u8>, TraceFault>
    requires run { (w : World) × IsRun (development_view development.now) clients (labels_of labels.now) w }
    requires few { clients ≤ seat_limit }
    ensures { IfOk result (λ text. PrintsRun (development_view development.now) clients (labels_of labels.now) text.items) }
{
    let mut text = trace(alloc, development, clients, labels)?;
    let history = history_of(alloc, development, labels, clients)?;
    text.extend_from_slice(&history)?;
    text.push(b'\n')?;
    Ok(text)
}
