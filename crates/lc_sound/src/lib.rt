//! What a development means: if its conditions are valid, every history of its object is linearizable.
#![tactic(auto)]

pub mod examples;
pub mod laws;
mod theorems;

pub use theorems::{derived_conditions_are_valid, linearizable_runs, outline_holds};
