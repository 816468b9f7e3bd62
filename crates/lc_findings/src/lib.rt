//! What exploring a development finds, as it is printed.
#![tactic(auto)]

mod bare;
mod findings;
mod printing;

pub use bare::find_bare_faults;
pub use findings::{Findings, find_faults};
