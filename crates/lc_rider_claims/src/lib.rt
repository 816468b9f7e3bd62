//! What the calls of riders, and of how they are done, promise: each promise again, over the call that keeps it. The planted bugs
//! of these calls are here: bodies that return something wrong where the call returns what is right.
#![tactic(auto)]

pub mod riders;
pub mod rides;
