//! The history and the order of labels that are a run.
ghost use Rattle.std.specs.Prelude.{◌≡◌, ◌≤◌, IfOk};
ghost use Rattle.lc_base.specs.Limits.{seat_limit};
ghost use Rattle.lc_history.specs.Histories.{events_in};
ghost use Rattle.lc_machine.specs.World.{World};
ghost use Rattle.lc_outline.specs.DevelopmentView.{development_view};
ghost use Rattle.lc_sound.specs.Instrumented.{IsRun, history};
ghost use Rattle.lc_sound.specs.Order.{order};
ghost use Rattle.lc_run.specs.LabelView.{labels_of};
ghost use Rattle.lc_run.specs.Ordering.{order_entries};

use crate::history::history_events;
use crate::label::Label;
use crate::ordering::order_of;
use lc_base::OutOfMemory;
use lc_history::{Done, History};
use lc_outline::Development;
use lc_outline::laws::developments_are_resolved;
use lc_seq::{Pick, TextCall};
use lc_sound::laws::orders_linearize;
use std::alloc::Global;

/// The history of a run, and the order of its marks, which linearizes it.
#[derive(Drop)]
pub struct Recorded {
    pub history: History,
    pub order: Vec<Done<TextCall, Pick, Vec<i64>>>,
}

/// The history and the order of labels that are a run of this development by `clients` clients.
pub fn record_of(
    alloc: Global,
    development: &Development,
    labels: &[Label],
    clients: u32,
) -> Result<Recorded, OutOfMemory>
    requires run { (w : World) × IsRun (development_view development.now) clients (labels_of labels.now) w }
    requires few { clients ≤ seat_limit }
    ensures history { IfOk result (λ r. events_in r.history ≡ history (labels_of labels.now)) }
    ensures order { IfOk result (λ r. order_entries r.order.items ≡ order (labels_of labels.now)) }
{
    orders_linearize();
    developments_are_resolved();
    let _ = development.parts();
    let history = History::of_well_formed(history_events(alloc, labels)?);
    let order = order_of(alloc, labels, clients)?;
    Ok(Recorded { history, order })
}
