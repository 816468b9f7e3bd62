//! Pages of histories and of traces: one file for a browser, with the history or the trace as data and a script that draws what is in
//! view.
#![tactic(auto)]

mod escaping;
mod head;
pub mod laws;
mod pages;
mod said;
mod states;
mod steps;
mod tail;
mod traces;

pub use pages::page;
pub use traces::trace_page;
