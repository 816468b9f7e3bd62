//! Proofs of an old development for a new one, if conditions of both say the same: they are the old ones with other columns in place
//! of theirs.
#![tactic(auto)]

mod columns;
mod covering;
mod entries;
pub mod laws;
mod mapping;
mod numbers;
mod old_proofs;
mod pieces;
mod proof;
mod renaming;
mod text_numbers;

pub use entries::carried_entries;
pub use proof::{is_covered, renamed};
