//! Sequential objects: what a call does to a state, and what it replies. Specifications, and their steps.
#![tactic(auto)]

mod choice;
mod fault;
mod object;
mod resolving;
mod running;
mod shadows;
mod specification;
mod text_call;
mod text_object;
mod text_state;

pub use choice::{Label, Pick};
pub use fault::SeqFault;
pub use lc_term::Update;
pub use object::SeqObject;
pub use running::{Outcome, call_env, run, values_of, writes_of};
pub use shadows::Shadows;
pub use specification::{Branch, Column, Operation, TextSpec};
pub use text_call::TextCall;
pub use text_state::TextState;
