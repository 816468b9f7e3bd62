//! What ties a specification to an object: the invariant, and what the columns hold at first.
#![tactic(auto)]

mod tie;

pub use tie::{Conjunct, Tie};
