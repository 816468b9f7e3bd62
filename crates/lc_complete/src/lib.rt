//! Short developments are made whole: with what is guessed put in, laid out over lines.
#![tactic(auto)]

mod inferred;
mod laws;
mod making;
mod noting;

pub use laws::what_is_made_is_read_back;
pub use lc_houdini::{Rounds, Silent};
pub use making::{Made, complete};
