//! Histories of calls and returns, and the judge of orders that are to linearize them.
#![tactic(auto)]

mod event;
mod history;
mod judging;
pub mod laws;
mod limits;
mod reason;
mod spans;

pub use event::{Done, Event};
pub use history::{History, HistoryFault};
pub use judging::{JudgeFault, judge};
pub use limits::CLIENT_LIMIT;
pub use reason::Reason;
