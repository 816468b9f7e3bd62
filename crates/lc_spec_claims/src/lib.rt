//! What the calls of specifications, of native objects and of their drafts promise: each promise again, over the call that keeps it. The planted bugs
//! of these calls are here: bodies that return something wrong where the call returns what is right.
#![tactic(auto)]

pub mod native;
pub mod natives;
pub mod specifications;
