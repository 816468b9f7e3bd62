//! What no contract says of runs: that they go on, that threads meet in them, and what the objects of the library answer there.
#![tactic(auto)]

#[cfg(test)]
mod accepting;
#[cfg(test)]
mod fault_tests;
#[cfg(test)]
mod finish_tests;
#[cfg(test)]
mod library_tests;
#[cfg(test)]
mod memory_tests;
#[cfg(test)]
mod running;
#[cfg(test)]
mod stopped_tests;
#[cfg(test)]
mod thread_tests;
