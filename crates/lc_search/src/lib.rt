//! The search for a proof of one goal: a formula is looked at only if a model of what is known breaks it. Nothing is
//! promised of what is found but that looking for it is safe and ends.
#![tactic(auto)]

mod axioms;
mod blocks;
mod candidates;
mod cases;
mod cause;
mod counter;
mod entry;
mod fractions;
mod instances;
mod ranks;
mod reach;
mod scanning;
mod solving;
mod tuples;
mod turn;
mod work;
mod writing;

pub use cause::Cause;
pub use counter::{Counted, CounterModel};
pub use entry::{End, Searched, search};
