//! The state that the numbers of a search describe, and what holds in it. Nothing is promised of it but that it is safe and ends.
#![tactic(auto)]

mod evaluation;
mod model;

pub use evaluation::{closed_truth, truth};
pub use model::{
    Clash, DEEPEST, Model, active_read, base_read, closed_value, count_evaluated, fill_model,
    live_places, live_variable,
};
