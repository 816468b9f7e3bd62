//! Why a history or its order is refused, in words: the event or the entry, where it is in the JSON text, and what it does not
//! agree with.
#![tactic(auto)]

mod calls;
mod explanation;
mod open;
mod order;
mod replies;
mod sentence;
mod shape;
mod tally;
mod told;
mod wrong;

pub use explanation::{history_explanation, recorded_explanation, unordered_explanation};
