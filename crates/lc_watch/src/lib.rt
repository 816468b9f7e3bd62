//! What is claimed of a world, looked at in it.
#![tactic(auto)]

pub mod laws;
mod watching;

pub use watching::{Claim, broken_claim};
