//! What no contract says of the program: faults of files, streams and memory, over files and streams in memory.
#![tactic(auto)]

#[cfg(test)]
mod faults;
#[cfg(test)]
mod memory;
#[cfg(test)]
mod workers;
