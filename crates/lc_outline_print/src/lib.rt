//! How developments are printed.
#![tactic(auto)]

mod beside;
mod development;
mod instruction;
mod naming;
mod object;
mod parts;
mod specification;

pub use development::development_text;
