//! The objects of the library, their names and their texts.
#![tactic(auto)]

pub mod laws;
mod library;
mod texts;

pub use library::{Lib, development, hints};
