//! What the calls that read and print trees, terms, formulas and proofs promise: each promise again, over the call that keeps
//! it. The planted bugs of these calls are here: bodies that return something wrong where the call returns what is right.
#![tactic(auto)]

pub mod formulas;
pub mod readings;
pub mod trees;
