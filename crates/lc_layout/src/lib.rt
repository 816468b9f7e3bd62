//! S-expressions laid out over lines with indentation, so that they read well.
#![tactic(auto)]

mod laws;
mod laying;
mod spot;
mod stage;
mod walk;
mod width;

pub use laws::{laid_out_reads_back, laying_out_again_changes_nothing};
pub use laying::lay_out;
