//! The text of proofs and of formula files: how it is read, in one walk, as a value or its first flaw.
#![tactic(auto)]

mod claim;
mod declared;
mod formula;
mod head;
pub mod laws;
mod names;
mod numbers;
mod printing;
mod proof;
pub mod read_back;
mod step;

pub use claim::FormulaFile;
pub use formula::{formula_in, formula_of};
pub use printing::write_proof;
pub use proof::read_proof;
