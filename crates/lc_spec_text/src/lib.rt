//! The text of specifications: how it is read, in one walk, as a value or its first flaw.
#![tactic(auto)]

mod arguments;
mod branch;
mod choice;
mod column;
mod file;
pub mod laws;
mod operation;
mod scope;
mod signature;
mod specification;
mod update;
mod way;

pub use file::{spec_in, spec_of};
pub use specification::read_specification;
