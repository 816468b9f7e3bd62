//! What the readers of all files share: readings, which are a value or the first flaw of a text, of the parts of a list and of
//! items in a row; names, where they are declared and where they are used.
#![tactic(auto)]

mod counted;
mod declared;
mod flaw;
mod lists;
mod names;
mod names_up_to;
mod near;
mod part;
mod pass;
mod reserved;
mod rows;
mod table;

pub use counted::read_counted;
pub use declared::{Declares, read_declared};
pub use flaw::{Flaw, ReadFault, also, both, ended, limited, misshapen_too, pushed, wrong};
pub use lists::{behind_word, headed, next_part, one, three, two};
pub use names::{
    is_full, known_name, name_at, read_declaration, read_name, read_names, read_use, within,
};
pub use names_up_to::NamesUpTo;
pub use part::Part;
pub use pass::Pass;
pub use reserved::{is_reserved, is_system_column};
pub use rows::{Reads, read_each};
pub use table::NameTable;
