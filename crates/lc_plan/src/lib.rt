//! Plans of runs: how many clients there are, and which calls they make in phases; and how their text is read.
#![tactic(auto)]

mod call;
mod calls;
pub mod laws;
mod limits;
mod numbers;
mod operations;
mod phase;
mod plan;
mod reading;

pub use limits::{MOST_TURNS, USUAL_TURNS};
pub use plan::{Calls, Plan, Script};
pub use reading::{plan_in, plan_of};
