//! Developments: a specification, an object, and why the object meets the specification; and by which names and words a text tells
//! their columns and edges.
#![tactic(auto)]

mod columns;
mod construction;
mod development;
mod edges;
pub mod laws;
mod parts;
mod sameness;

pub use columns::{column_name, column_names};
pub use development::Development;
pub use edges::edge_word;
pub use parts::{ActionId, On, Outline, Parts};
