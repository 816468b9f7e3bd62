//! Short developments: developments without some of their parts, and how their text is read.
#![tactic(auto)]

mod completing;
pub mod laws;
mod reading;
mod short;

pub use completing::{Completion, completed};
pub use reading::{short_in, short_of};
pub use short::Short;
