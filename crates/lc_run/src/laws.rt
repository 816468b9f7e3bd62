//! Laws of the types: functions without effect, which show that threads may have them.
use crate::held::Seat;
use crate::runner::Runner;
use std::sync::ledger::Ledger;

fn is_sent<T: Send + Drop>(_value: T) {}

fn is_shared<T: Sync>(_value: &T) {}

/// A seat may be handed to another thread.
pub fn seats_are_sent<J: Ledger + Sync>(seat: Seat<J>) {
    is_sent(seat)
}

/// A runner may be used by several threads at once.
pub fn runners_are_shared<J: Ledger + Sync>(runner: &Runner<J>) {
    is_shared(runner)
}
