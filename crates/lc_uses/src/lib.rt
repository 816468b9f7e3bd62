//! Callers of the crates that others may use, ten lines each. What each promises follows from what the calls promise.
#![tactic(auto)]

pub mod accepting;
pub mod finding;
pub mod following;
pub mod judging;
pub mod running;
