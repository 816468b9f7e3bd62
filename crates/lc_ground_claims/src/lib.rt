//! What the calls of names, numbers, lines, places and layouts promise: each promise again, over the call that keeps it. The
//! planted bugs of these calls are here: bodies that return something wrong where the call returns what is right.
#![tactic(auto)]

pub mod lines;
pub mod names;
pub mod numbers;
pub mod places;
