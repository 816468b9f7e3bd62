//! Lemmas of booleans, numbers, options and lists, which several crates cite. No code.
#![tactic(auto)]
