//! The trees of a table's numbers, and copies of its formulas in another table.
#![tactic(auto)]

mod chains;
mod copying;
mod trees;

pub use copying::copy_from;
pub use trees::{column_tree, formula_tree, formula_trees, term_tree};
