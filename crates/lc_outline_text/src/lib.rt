//! The text of developments: how a whole file is read, in one walk, as a development or its first refusal.
#![tactic(auto)]

mod bodies;
mod column_set;
mod columns_stored;
mod conditions;
mod counts;
mod declarations;
mod declaring;
mod edge_counts;
mod file;
mod formulas;
mod instruction;
pub mod laws;
mod made;
mod needs;
mod path_counts;
mod point;
mod riders;
mod sides;
mod stored;
mod ways;

pub use file::{development_in, development_of};
