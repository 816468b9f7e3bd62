//! Derivations: what a step needs and opens, and the check of a proof, step by step.
#![tactic(auto)]

mod arithmetic;
mod below;
mod check;
mod copying;
mod fault;
mod forms;
mod goal;
mod hypotheses;
pub mod laws;
mod opened;
mod proof;
mod proving;
mod reason;
mod rules;
mod setting;
mod uses;

pub use fault::ProofFault;
pub use goal::Goal;
pub use hypotheses::Hypotheses;
pub use proof::{Multiple, Proof, SameAccess, Step, StoredAccess};
pub use proving::prove;
pub use reason::{Flaw, Reason};
pub use rules::{entered_cell, entered_pair};
