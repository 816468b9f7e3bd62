//! Traces: what has run of a development is gone through again, and each step told with the cells that it changes.
#![tactic(auto)]

mod changes;
mod fault;
mod lines;
mod lists;
mod replay;
mod telling;

pub use fault::TraceFault;
pub use telling::trace;
