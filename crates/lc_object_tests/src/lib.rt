//! What no contract says of sequential objects, histories, objects and machines.
#![tactic(auto)]

#[cfg(test)]
mod hist_tests;
#[cfg(test)]
mod json_tests;
#[cfg(test)]
mod library_tests;
#[cfg(test)]
mod machine_tests;
#[cfg(test)]
mod object_tests;
#[cfg(test)]
mod seq_tests;
