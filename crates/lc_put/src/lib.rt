//! What is put in for columns and variables of a table's terms and formulas.
#![tactic(auto)]

mod comparing;
mod deep;
mod filling;
mod node_closed;
mod node_replacement;
mod node_shift;
mod put;
mod put_numbers;
mod replaced_below;
mod replacing;

pub use node_replacement::{instantiate, shift_formula, substitute};
pub use node_shift::shift;
pub use put::{Put, PutColumns, PutVariables, ReplacedNodes, nothing_replaced};
pub use put_numbers::{
    PutNumbers, enter_columns, enter_terms, put_in_formula, put_in_term, raise_column,
    stored_column,
};
pub use replacing::{replace, replace_column, replace_term};
