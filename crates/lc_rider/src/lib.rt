//! Riders: what is done beside an instruction, and the paths by which conditions describe it.
#![tactic(auto)]

mod duty;
mod edge;
mod edge_paths;
pub mod laws;
mod mark_paths;
mod marked_columns;
mod marking;
mod path;
mod rider;
mod stored;

pub use duty::{Duty, Owing};
pub use edge::{Edge, edge_variables};
pub use edge_paths::paths;
pub use path::Path;
pub use rider::{Choosing, Rider, When};
pub use stored::store_in;
