//! Terms, column expressions and formulas as numbers of a table, with each distinct one stored once.
#![tactic(auto)]

mod again;
mod building;
mod chains;
mod entering;
mod near;
mod node;
mod table;

pub use chains::{KnownParts, Waiting};
pub use near::{NearHasher, NearMap, NearSet};
pub use node::{ColExprId, FormulaId, FormulaNode, TermId, TermNode};
pub use table::{Terms, numbers_are_exact};
