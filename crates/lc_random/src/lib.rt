//! Numbers that are drawn from a seed, the same on every machine.
#![tactic(auto)]

mod splitmix;

pub use splitmix::SplitMix64;
