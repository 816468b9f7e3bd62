//! S-expressions: read from bytes, printed, and walked item by item.
#![tactic(auto)]

mod builder;
mod class;
mod cursor;
mod filling;
mod forms;
mod forms_reader;
mod laws;
mod machine;
mod misfit;
mod node;
mod numerals;
mod part;
mod piece;
mod printing;
mod reader;
mod reading;
mod run;
mod sexp;
mod splitter;

pub use cursor::{Atom, Cursor, Item};
pub use forms::Forms;
pub use forms_reader::FormsReader;
pub use laws::{
    all_parts_end, items_are_counted, items_fit, one_first_fault, one_reading,
    pieces_read_as_the_whole, printed_is_read, read_has_atoms, reading_excludes_fault,
    reading_or_fault, taken_parts_are_the_first,
};
pub use misfit::Misfit;
pub use part::Part;
pub use piece::{ends_in_comment, read_piece};
pub use printing::print;
pub use reader::Reader;
pub use reading::read;
pub use sexp::{Sexp, is_atom};
