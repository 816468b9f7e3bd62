//! Actions: what a step may do to the columns. Columns after stores, as expressions over the columns before.
#![tactic(auto)]

mod acting;
mod action;
pub mod laws;
mod stored_columns;
mod system_columns;
mod telling;

pub use acting::{guard_for, post_columns};
pub use action::{Action, at_client, enter, leave, skip};
pub use stored_columns::{
    column_after, copy_columns, read_after, store, store_more, store_together,
};
pub use system_columns::SystemColumns;
pub use telling::{Before, said, told};
