//! To whom the finder reports how far it is, and what it came to.
use lc_search::{Cause, CounterModel};

/// To it the finder reports how far it is, and what it came to.
pub trait Progress {
    /// A proof of the condition of this number is looked for next.
    fn reached(&mut self, number: u64);

    /// The condition of this number has a proof of an old certificate.
    fn carried(&mut self, _number: u64) {}

    /// The search for a proof of the condition that was reached last ended in this model.
    fn ended(&mut self, _model: CounterModel) {}

    /// The search for a proof of the condition that was reached last was given up.
    fn given_up(&mut self, _cause: Cause) {}
}

/// Takes all reports, and says nothing of them.
#[derive(Drop)]
pub struct Silent;

impl Progress for Silent {
    fn reached(&mut self, _: u64) {}
}
