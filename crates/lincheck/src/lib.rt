//! The program `lincheck` as one call, `execute`: a thin shell over the calls of the libraries.
#![tactic(auto)]

mod answer;
mod carry;
mod check;
mod complete;
mod condition;
mod conditions;
mod disk;
mod draw;
mod explain;
mod explore;
mod files;
mod formula;
mod judge;
mod kept;
pub mod laws;
mod library;
mod lines;
mod new;
mod order;
mod printing;
mod program;
mod prove;
mod reading;
mod run;
mod show;
mod sink;
mod telling;
mod unfound;
mod workers;

pub use answer::{COMMAND_LINE_FAULT, INPUT_OR_OUTPUT_FAULT, OUT_OF_MEMORY, REFUSED, SUCCESS};
pub use disk::Disk;
pub use files::Files;
pub use program::execute;
