//! What the calls that find certificates promise: each promise again, over the call that keeps it. The planted bugs of these calls
//! stand here: bodies that answer wrongly where the call answers right.
#![tactic(auto)]

pub mod carrying;
pub mod finding;
