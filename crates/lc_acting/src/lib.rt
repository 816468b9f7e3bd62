//! The action that a client's step is, and whether the step is seen to be no instance of it.
#![tactic(auto)]

mod acting;
mod attempt;
mod comparing;
mod evaluating;
pub mod laws;
mod no_action;
mod placing;
mod storing;

pub use acting::{Acting, action_of};
pub use attempt::Attempt;
pub use no_action::is_no_action;
pub use placing::{call_numbers, place_of};
