//! The text of terms, column expressions and formulas: how it is read, in one walk, as a value or its first flaw, and how
//! it is printed.
#![tactic(auto)]

mod column;
mod declared_column;
mod formula;
pub mod laws;
mod made;
mod printing;
mod scope;
mod term;
mod words;

pub use column::{read_column, read_numbers};
pub use declared_column::read_declared_column;
pub use formula::{read_boxed_formula, read_formula, read_formulas};
pub use printing::{Spelling, write_column, write_formula, write_term};
pub use scope::{ColumnUse, Extra, Scope};
pub use term::{Terms, read_number, read_term};
