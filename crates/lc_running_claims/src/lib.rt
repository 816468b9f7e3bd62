//! What the calls that run an accepted development promise: each promise again, over the call that keeps it. The planted bugs of
//! these calls are here: bodies that return something wrong where the call returns what is right.
#![tactic(auto)]

pub mod plans;
pub mod runs;
pub mod traces;
