//! The whole numbers of a text with commas between them, as an option of the command line has them: `0,1,-5`.
#![tactic(auto)]

mod numbers;

pub use numbers::{are_numbers, numbers_in};
