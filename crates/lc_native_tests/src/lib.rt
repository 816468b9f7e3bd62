//! What no contract says of native objects: that their forms are those of specifications which a user writes.
#![tactic(auto)]

#[cfg(test)]
mod behind;
#[cfg(test)]
mod native_tests;
#[cfg(test)]
mod shadow_tests;
