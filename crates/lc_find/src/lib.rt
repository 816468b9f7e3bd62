//! The finder of certificates: what it finds is accepted.
#![tactic(auto)]

mod candidates;
mod carrying;
mod fault;
mod finding;
mod first_proofs;
mod limits;
mod progress;
mod reading_back;
mod taking;

pub use carrying::{carry, carry_with};
pub use fault::FindFault;
pub use finding::{find, find_with};
pub use lc_hints::{Hints, hints_of};
pub use lc_search::{Cause, CounterModel};
pub use progress::{Progress, Silent};
