//! Which faults a seat reports by itself.
use crate::accepting::library;
use crate::running::{Scenario, plays};
use lc_base::OpId;
use lc_lib::Lib;
use lc_run::{RunFault, Runner, Seat};
use std::alloc::Global;
use std::sync::ledger::Ledger;
use std::sync::{Arc, Wait};
use std::test::Fail;
use std::thread::Threads;

/// A client of a counter is refused each step that it may not take, and has only the label of the one call that it begins.
#[derive(Clone, Copy)]
struct Refused;

impl Scenario for Refused {
    fn plays<J: Ledger + Sync, R: Threads + Wait + Sync>(
        &self,
        rt: &R,
        _alloc: Global,
        runner: Runner<J>,
        mut seats: Vec<Seat<J>>,
    ) -> Result<bool, RunFault> {
        let Some(mut seat) = seats.pop() else {
            return Ok(false);
        };
        let idle = matches!(runner.step(rt, &mut seat), Err(RunFault::Idle));
        let unknown = runner.begin(rt, &mut seat, OpId(9), &[]) == Err(RunFault::NoOp);
        let other_count = runner.begin(rt, &mut seat, OpId(0), &[1]) == Err(RunFault::Arity);
        let begun = runner.begin(rt, &mut seat, OpId(0), &[]) == Ok(());
        let busy = runner.begin(rt, &mut seat, OpId(0), &[]) == Err(RunFault::Busy);
        Ok(idle & unknown & other_count & begun & busy & (seat.labels().len() == 1))
    }
}

#[test]
fn a_step_that_may_not_be_taken_is_refused(rt: HostRuntime) -> Result<(), Fail> {
    let accepted = library(rt.alloc(), Lib::Counter)?;
    assert!(rt; plays(&rt, rt.alloc(), accepted, 1, &Refused)?);
    Ok(())
}

#[test]
fn a_runner_has_1_to_64_clients(rt: HostRuntime) -> Result<(), Fail> {
    let accepted = library(rt.alloc(), Lib::Counter)?;
    let again = Arc::try_clone(&accepted)?;
    assert!(rt; plays(&rt, rt.alloc(), accepted, 0, &Refused) == Err(RunFault::Clients));
    assert!(rt; plays(&rt, rt.alloc(), again, 65, &Refused) == Err(RunFault::Clients));
    Ok(())
}
