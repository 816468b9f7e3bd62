//! A caller of lc_run.
ghost use Rattle.std.specs.Prelude.{◌≡◌, IfOk, IfSome};
ghost use Rattle.std.specs.Arc.{arc_value};
ghost use Rattle.lc_base.specs.Limits.{seat_limit};
ghost use Rattle.lc_check.specs.VerdictView.{development_in};
ghost use Rattle.lc_history.specs.Histories.{events_in};
ghost use Rattle.lc_history.specs.History.{Linearizes};
ghost use Rattle.lc_run.specs.Ordering.{order_entries};
ghost use Rattle.lc_seq.specs.TextStep.{start_of, text_step};

use lc_base::OpId;
use lc_check::Accepted;
use lc_run::{RunFault, RunLog, Runner, Seat};
use std::alloc::Global;
use std::sync::ledger::{Blank, Ledger};
use std::sync::{Arc, Wait};

/// Has each of `clients` clients call `operation` once, in at most `turns` turns, and returns what has run: its history, with an order
/// that linearizes it. `None` if the run is not finished, for one of the reasons in `lc_run::Why`.
pub fn one_call_each<J: Ledger, R: Wait>(
    rt: &R,
    alloc: Global,
    blank: Blank,
    accepted: Arc<Accepted>,
    clients: u32,
    operation: OpId,
    turns: u64,
) -> Result<Option<RunLog>, RunFault>
    requires name { blank.name ≡ J.name }
    requires parts { (blank.parts ≡ J.parts) × (blank.parts ≡ seat_limit) }
    ensures { let D = development_in (arc_value accepted) in IfOk result (λ found. IfSome found (λ log.
        ∥ Linearizes (text_step D.specification.operations) (start_of D.specification.columns) (events_in log.history) (order_entries log.order.items) ∥₁)) }
{
    let made: Result<(Runner<J>, Vec<Seat<J>>), RunFault> = Runner::new(
        alloc, blank, accepted, clients,
    );
    let (runner, mut seats) = made?;
    for seat in &mut seats {
        runner.call(rt, seat, operation, &[], turns)?;
    }
    Ok(runner.finish(seats).ok())
}
