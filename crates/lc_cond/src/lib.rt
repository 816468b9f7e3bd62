//! The conditions of a development, as a list that is defined: if all of them are valid, its object is linearizable.
#![tactic(auto)]

mod after_updates;
mod condition;
mod edge_conditions;
mod entering;
mod entries;
mod frames;
mod known;
pub mod laws;
mod list;
mod lookup;
mod making;
mod matching;
mod numbering;
mod part;
mod paths;
mod scene;
mod stability;
mod start;
mod stream;
mod stretch;
mod telling;
mod variables;

pub use condition::{Condition, Kind, Passage, Place, Which};
pub use lookup::on_at;
pub use numbering::{NumberedPart, Numbering};
pub use stream::{ConditionStream, conditions};
