//! Steps of a development's clients: an instruction with the riders beside it, computed on a draft before they are kept.
#![tactic(auto)]

mod advancing;
mod beginning;
mod lookup;
mod replies;
mod riding;
mod starting;
mod steps;

pub use advancing::advance;
pub use beginning::begin;
pub use lookup::{body_of, client_at, operation_at, riders_at, system_columns};
pub use starting::start;
pub use steps::{Step, What};
