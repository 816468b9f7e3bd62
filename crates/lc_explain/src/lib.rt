//! Why a file is refused, in words: the place, a sentence with the words of the file, and the line with marks under the place.
#![tactic(auto)]

mod around;
mod brackets;
mod declared;
mod explaining;
mod forms;
mod json;
mod kind;
mod label;
mod limits;
mod lists;
mod locating;
mod nearness;
mod operators;
mod order;
mod parts;
mod place;
mod pointed;
mod reporting;
mod sentence;
mod spot;
mod steps;
mod table;
mod wording;

pub use explaining::explanation;
pub use json::{element_count, element_place};
pub use kind::{FileKind, looks_like};
pub use label::Label;
pub use lists::place_from;
pub use locating::located;
pub use parts::{Part, part_place};
pub use reporting::report;
pub use steps::{entry_span, proof_place, step_place};
