//! What the calls of objects, their machine, actions and developments promise: each promise again, over the call that keeps it. The
//! planted bugs of these calls are here: bodies that return something wrong where the call returns what is right.
#![tactic(auto)]

pub mod actions;
pub mod developments;
pub mod machines;
pub mod objects;
