//! What the calls of linear forms, axioms and failing states promise: each promise again, over the call that keeps it. The planted
//! bugs of these calls are here: bodies that return something wrong where the call returns what is right.
#![tactic(auto)]

pub mod axioms;
pub mod failures;
pub mod forms;
