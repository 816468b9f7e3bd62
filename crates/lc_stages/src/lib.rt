//! What exploring a development says of it: its stages, where each client makes the calls of a script, and two laws.
#![tactic(auto)]

pub mod laws;
