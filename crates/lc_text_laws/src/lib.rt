//! The text that is printed of a development reads back; and the conditions that are counted from the text of a development are those
//! that it has.
#![tactic(auto)]

pub mod laws;
