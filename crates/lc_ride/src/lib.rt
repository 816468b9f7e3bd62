//! Riders, done to a draft of the columns, in numbers of 64 bits.
#![tactic(auto)]

mod choosing;
mod deeds;
mod draft;
pub mod laws;
mod marks;
mod riding;
mod settling;

pub use draft::Draft;
pub use marks::Mark;
pub use riding::{Rides, ride_all};
