//! The words of the command line: which commands there are, and what is asked for by words.
#![tactic(auto)]

mod commands;
pub mod laws;
mod limits;
mod reading;
mod request;
mod texts;

pub use limits::WORKER_LIMIT;
pub use reading::read_words;
pub use request::{Asked, Chosen, LibraryText, Request, Scope, Shown, Turns};
