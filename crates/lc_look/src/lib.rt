//! Looking at a formula in one state: whether it holds there, quantifiers being tried at some numbers alone.
#![tactic(auto)]

mod computing;
pub mod laws;
mod looking;
mod range;
mod seen;

pub use looking::look;
pub use seen::Seen;
