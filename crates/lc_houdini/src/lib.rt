//! Guesses are sifted: those that do not hold are left out of a plan, and then those that nothing needs (Flanagan and Leino, Houdini, 2001). Nothing is
//! promised of what is left: what is completed by it is a development, whose conditions are to be proved.
#![tactic(auto)]

mod earlier;
mod facts;
mod goals;
mod guards;
mod implied;
mod marks;
mod needs;
mod rounds;
mod searching;
mod sifting;
mod used;

pub use guards::written_actions;
pub use rounds::{Rounds, Silent};
pub use sifting::{Sieved, sifted};
