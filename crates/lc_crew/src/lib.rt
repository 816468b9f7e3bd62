//! Runs by plans: each client of a plan makes its calls in a thread of its own, or when it is drawn, in the phases of the plan, and
//! what has run is handed out with an order that linearizes it.
#![tactic(auto)]

mod drawn;
mod due;
mod ended;
mod halt;
mod member;
mod phase;
mod plan;
mod player;
mod stand;
mod stop;

pub use ended::Ended;
pub use halt::Halt;
pub use member::Member;
pub use plan::{Ran, run, run_drawn, run_drawn_with, run_with};
pub use stop::Stop;
