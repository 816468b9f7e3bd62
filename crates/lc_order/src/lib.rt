//! Orders that linearize histories: an order is searched, or it is shown that there is none.
#![tactic(auto)]

mod asking;
mod choosing;
mod deciding;
mod draft;
mod expanding;
mod finding;
pub mod laws;
mod natives;
mod nodes;
mod open;
mod refuting;
mod replies;
mod roster;
mod searchable;
mod text;
mod written;

pub use deciding::{Decision, decide};
pub use draft::TextDraft;
pub use natives::EndUndo;
pub use open::{Replies, next_replies};
pub use refuting::{Refutation, refute};
pub use searchable::{Listed, Searchable, Stepped};
