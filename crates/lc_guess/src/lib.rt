//! Guesses for what a short development leaves out: actions, and what is asserted of the own call, of locals and of cells. Nothing that is guessed is
//! trusted: what is completed by them is a development, whose conditions are to be proved.
#![tactic(auto)]

mod acting;
mod cells;
mod changes;
mod code;
mod ends;
mod fact;
mod formula;
mod guessing;
mod helping;
mod known;
mod living;
mod marking;
mod noting;
mod object;
mod phases;
mod placing;
mod said;
mod seen;
mod signature;
mod standing;
mod stores;
mod switching;
mod telling;
mod text;
mod trying;

pub use guessing::guess;
pub use seen::Reach;
