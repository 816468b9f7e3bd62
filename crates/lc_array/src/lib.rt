//! The axioms of columns: formulas that are true in every state.
#![tactic(auto)]

mod axioms;
pub mod laws;

pub use axioms::{affine_axiom, same_index_axiom, written_axiom};
