//! The bare machine: an object's code, run one step of one client at a time.
#![tactic(auto)]

mod bare;
mod client;
mod effects;
mod fault;
mod instruction;
pub mod laws;
mod numbers;
mod rows;

pub use bare::Bare;
pub use client::{Client, Moved};
pub use effects::{Effect, Fate, Place, commit};
pub use fault::StepFault;
pub use instruction::effect;
pub use numbers::Numbers;
