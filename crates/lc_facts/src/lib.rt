//! What a search for a proof knows: facts and what follows from them without a choice, the steps that were taken, and proofs of what
//! was closed. Nothing is promised about it but that it is safe and ends.
#![tactic(auto)]

mod fact;
mod known;

pub use fact::{Fact, FactId, Made, Multiplier, Place, ProofId, Rule, Step};
pub use known::{Done, Indexed, Known, Mark, Probed, Trial, Weighed};
