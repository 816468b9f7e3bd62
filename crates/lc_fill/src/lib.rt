//! A short development, with what was left out put in: sections, assertions, and calls of actions.
#![tactic(auto)]

mod acts;
mod edge;
mod files;
mod gap;
mod naming;
mod plan;
mod points;
mod row;

pub use files::{Filling, fill};
pub use plan::{Plan, Planned};
