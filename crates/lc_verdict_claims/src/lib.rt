//! What the calls that give verdicts promise, and the laws that they rest on: each promise again, over the call that
//! keeps it. The planted bugs of these calls are here: bodies that return something wrong where the call returns what is
//! right.
#![tactic(auto)]

pub mod meaning;
pub mod verdicts;
pub mod workers;
