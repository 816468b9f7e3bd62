//! What is known where a proof is not complete: at a step of it, how many variables are in use there, the hypotheses by their numbers, and
//! the part of the proof that begins there; and why a goal does not follow, as a state in which its hypotheses hold and it does not.
#![tactic(auto)]

mod after;
mod axioms;
mod failing;
mod forms;
mod instance;
pub mod laws;
mod opened;
mod reads;
mod rules;
mod simpler;
mod situation;
mod standing;
mod telling;
mod words;

pub use after::{Decisive, decisive_in, reads_stored, stored_by, stored_in};
pub use failing::Failing;
pub use reads::{base_of, reads_in_all};
pub use situation::{Content, Numbered, Situation};
pub use standing::{Standing, stands_at};
pub use telling::{Told, tell};
pub use words::{FAILS, content_words, words_of};
