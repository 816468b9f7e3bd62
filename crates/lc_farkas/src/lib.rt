//! Refutations of linear forms that are each to be at most 0: multiples of them add up to a constant above 0. They are
//! found by a simplex tableau over rational numbers, about which nothing is promised but that it is safe and ends:
//! `refute` adds up what was found before it returns it.
#![tactic(auto)]

mod bound;
mod rational;
mod reason;
mod refutation;
mod row;
mod stop;
mod tableau;

pub use rational::Rational;
pub use reason::{Multiplier, Reason, whole_multipliers};
pub use refutation::refute;
pub use stop::Stop;
pub use tableau::{Tableau, Values};
