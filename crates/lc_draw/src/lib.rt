//! Drawings of histories, as SVG: a lane for each client, a bar for each call, a mark for each entry of an order.
#![tactic(auto)]

mod calls;
mod counting;
mod picture;
mod places;
mod rounds;
mod stretches;
mod svg;
mod texts;

pub use picture::{drawing, drawing_round};
