//! The text of what is beside the code of an object: auxiliary columns, actions, conjuncts of the invariant, and what is
//! done at the edges of instructions. Each is read in one walk, as a value or its first flaw.
#![tactic(auto)]

mod action;
mod auxiliary;
mod choice;
mod columns;
mod conjunct;
mod deed;
mod edge_words;
mod edges;
mod known;
pub mod laws;
mod numbers;
mod on;
mod parameters;
mod paths;
mod rider;
mod scope;
mod terms;
mod update;
mod variables;
mod words;

pub use action::Actions;
pub use auxiliary::AuxiliaryColumns;
pub use columns::Columns;
pub use conjunct::Conjuncts;
pub use edge_words::{edge_in, edge_of};
pub use edges::Edges;
pub use known::{Known, Ways};
pub use numbers::number_at;
pub use on::{read_on, read_ons};
pub use paths::{path_count, rider_ways};
pub use rider::{read_rider, read_riders};
pub use scope::{Beside, Quiet};
pub use variables::Variables;
