//! Where something is in the bytes of a file: the place of an item, of a byte, or of a list that was never closed, and the
//! line that it is in, with marks under it.
#![tactic(auto)]

mod excerpt;
mod laws;
mod open;
mod place;
mod span;
mod start;
mod text;

pub use excerpt::{Excerpt, line_excerpt};
pub use laws::the_item_stands_at_its_place;
pub use open::open_list_place;
pub use place::{Place, byte_place, item_place};
