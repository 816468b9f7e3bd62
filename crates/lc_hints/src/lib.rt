//! Hints for the finder of proofs, by the numbers of the conditions that they are for, and how their text is read.
#![tactic(auto)]

mod by_number;
mod given;
mod hint;
mod hints;
pub mod laws;
mod reading;

pub use hints::Hints;
pub use reading::{hints_in, hints_of};
