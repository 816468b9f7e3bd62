//! The history of a run: the calls and the returns of its clients.
ghost use Rattle.std.specs.Prelude.{◌≡◌, ◌++◌, OnOk, IfOk};
ghost use Rattle.lc_history.specs.View.{events_of};
ghost use Rattle.lc_sound.specs.Instrumented.{event_of, history};
ghost use Rattle.lc_steps.specs.StepView.{what_of};
ghost use Rattle.lc_run.specs.LabelView.{labels_of};

use crate::label::{Label, copied};
use lc_base::OutOfMemory;
use lc_history::Event;
use lc_steps::What;
use std::alloc::Global;

// Appends the call or the return of a label, if it is one, to other events.
fn push_event(alloc: Global, label: &Label, events: &mut Vec<Event>) -> Result<(), OutOfMemory>
    ensures { OnOk result (events_of events.new.items ≡ events_of events.old.items ++ event_of label.now.client (what_of label.now.what)) }
{
    let client = label.client;
    match &label.what {
        What::Invoked { operation, numbers } => {
            let numbers = copied(alloc, numbers)?;
            events.push(Event::Invoke {
                client,
                op: *operation,
                numbers,
            })?;
        }
        What::Moved { .. } => {}
        What::Returned(numbers) => {
            let numbers = copied(alloc, numbers)?;
            events.push(Event::Respond { client, numbers })?;
        }
    }
    Ok(())
}

/// The calls and returns of labels, in their order.
pub(crate) fn history_events(alloc: Global, labels: &[Label]) -> Result<Vec<Event>, OutOfMemory>
    ensures { IfOk result (λ events. events_of events.items ≡ history (labels_of labels.now)) }
{
    let mut events = Vec::new(alloc);
    for label in labels {
        push_event(alloc, label, &mut events)?;
    }
    Ok(events)
}
