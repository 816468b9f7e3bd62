//! JSON texts of histories of calls and returns, and of the orders that are to linearize them.
#![tactic(auto)]

mod cursor;
mod document;
mod json_reading;
mod json_values;
mod json_writing;
pub mod laws;
mod open_calls;
mod operations;
mod token_rows;
mod tokens;

pub use json_reading::{history_from_json, recorded_from_json};
pub use json_writing::history_to_json;
