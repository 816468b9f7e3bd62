//! Runs of an accepted development by clients in threads: each step is taken under one lock, and what has run has a history and
//! an order that linearizes it.
#![tactic(auto)]

mod fault;
mod finishing;
mod held;
mod history;
mod label;
mod lawful;
pub mod laws;
mod limits;
mod ordering;
mod recording;
mod runner;
mod sameness;
mod seating;
mod starting;

pub use fault::RunFault;
pub use finishing::{RunLog, Unfinished, Why};
pub use held::{Seat, Shared};
pub use label::Label;
pub use limits::LABEL_LIMIT;
pub use ordering::{Begun, last_call, no_calls};
pub use recording::{Recorded, record_of};
pub use runner::{Called, Progress, Runner};
pub use sameness::is_same_label;
pub use starting::idle_clients;
