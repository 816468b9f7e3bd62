//! What the calls that read and print developments, certificates, hints and plans promise: each promise again, over the call that
//! keeps it. The planted bugs of these calls are here: bodies that return something wrong where the call returns what is right.
#![tactic(auto)]

pub mod certificates;
pub mod developments;
pub mod plans;
