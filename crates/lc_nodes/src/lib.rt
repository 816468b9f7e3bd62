//! A table of nodes for a search, in which each read is total, and linear forms over its atoms: nothing is promised about it but
//! that it is safe and ends.
#![tactic(auto)]

mod form;
mod nodes;

pub use form::Form;
pub use nodes::{Nodes, STORES, Taken, narrow};
