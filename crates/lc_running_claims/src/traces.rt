//! Traces of runs.
ghost use Rattle.std.specs.Prelude.{IfOk};
ghost use Rattle.lc_outline.specs.DevelopmentView.{development_view};
ghost use Rattle.lc_run.specs.LabelView.{labels_of};
ghost use Rattle.lc_trace.specs.Traces.{TellsSteps};

use lc_outline::Development;
use lc_run::Label;
use lc_trace::{TraceFault, trace};
use std::alloc::Global;

/// Each label is the step from one world to the next, told in a line with the marks that it makes and the cells that it changes.
pub fn tracing(
    alloc: Global,
    development: &Development,
    clients: u32,
    labels: &[Label],
) -> Result<Vec<u8>, TraceFault>
    ensures { IfOk result (λ text. TellsSteps (development_view development.now) clients (labels_of labels.now) text.items) }
{
    trace(alloc, development, clients, labels)
}
