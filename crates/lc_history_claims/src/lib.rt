//! What the calls of histories and their drawings promise: each promise again, over the call that keeps it. The planted
//! bugs of these calls are here: bodies that return something wrong where the call returns what is right.
#![tactic(auto)]

pub mod drawings;
pub mod histories;
pub mod pages;
