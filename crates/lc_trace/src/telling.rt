//! The trace of a run.
ghost use Rattle.std.specs.Prelude.{◌≡◌, IfOk};
ghost use Rattle.lc_outline.specs.DevelopmentView.{development_view};
ghost use Rattle.lc_run.specs.LabelView.{labels_of};
ghost use Rattle.lc_run.specs.Ordering.{calls_in};
ghost use Rattle.lc_sound.specs.Order.{called_last};
ghost use Rattle.lc_steps.specs.StepView.{what_of};
ghost use Rattle.lc_trace.specs.Traces.{TellsSteps};

use crate::fault::TraceFault;
use crate::lines::push_step;
use crate::replay::{first_replay, take_again};
use lc_outline::Development;
use lc_run::{Begun, Label, no_calls};
use lc_steps::What;
use std::alloc::Global;

// The calls that clients began last, after this label.
fn with_call<'a>(
    calls: Vec<Option<Begun<'a>>>,
    label: &'a Label,
) -> Result<Vec<Option<Begun<'a>>>, TraceFault>
    ensures { IfOk result (λ all. calls_in all.items ≡ called_last (calls_in calls.entry.items) label.now.client (what_of label.now.what)) }
{
    let mut calls = calls;
    if let What::Invoked { operation, numbers } = &label.what {
        let place = label.client as usize;
        if place >= calls.len() {
            return Err(TraceFault::Mismatch);
        }
        calls[place] = Some(Begun {
            operation: *operation,
            numbers,
        });
    }
    Ok(calls)
}

/// The trace of labels of a run of a development by this many clients: a line for each step, with the cells that it changes. Each step
/// is taken again; `Mismatch` says that one is another than its label.
pub fn trace(
    alloc: Global,
    development: &Development,
    clients: u32,
    labels: &[Label],
) -> Result<Vec<u8>, TraceFault>
    ensures { IfOk result (λ text. TellsSteps (development_view development.now) clients (labels_of labels.now) text.items) }
{
    let mut replay = first_replay(alloc, development, clients)?;
    let mut calls = no_calls(alloc, clients)?;
    let mut text = Vec::new(alloc);
    for label in labels {
        let cells = take_again(alloc, development, &mut replay, label)?;
        push_step(alloc, &mut text, development, &calls, label, &cells)?;
        calls = with_call(calls, label)?;
    }
    Ok(text)
}
