//! Which condition of a development fails where a client takes a step that is wrong.
#![tactic(auto)]

mod blaming;
mod failing;
pub mod laws;
mod placing;

pub use blaming::failing_condition;
pub use lc_acting::Attempt;
