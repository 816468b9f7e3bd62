//! What lc_fill, lc_short and lc_complete promise, once more: each function is a call, under the call's own clause.
#![tactic(auto)]

mod filling;
mod making;
mod reading;

pub use filling::{filling_a_file, finding_an_item, printing_a_filled_file};
pub use making::{making_a_development_whole, reading_back_what_is_made};
pub use reading::{completing_a_development, reading_a_short_development, reading_short_forms};
