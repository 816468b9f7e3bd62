//! Why a proof is refused, in words: what the condition asks and where, the step of the proof, what is wrong with it, and the hypotheses
//! there.
#![tactic(auto)]

mod after;
mod certificate;
mod condition;
mod depth;
mod ending;
mod failing;
mod flawed;
mod formula;
mod linting;
mod looked;
mod misses;
mod names;
mod naming;
mod numbered;
mod path;
mod reach;
mod reason;
mod sentence;
mod source;
mod state;
mod stores;
mod unproved;
mod unseen;
mod unused;

pub use certificate::{Flaw, certificate_explanation, condition_explanation, unfound_explanation};
pub use ending::Ending;
pub use formula::proof_explanation;
pub use linting::lints;
pub use misses::{Missed, unfound_conditions};
pub use source::Source;
pub use unproved::unproved_conditions;
pub use unused::unused_conjuncts;
