//! The parts of a file that are handed out while it is read.
use crate::sexp::Sexp;

/// An item directly inside a list that is a form, as it is handed out while a file is read.
#[derive(Drop)]
pub struct Part {
    /// The number of the form that it is in, from 0.
    pub form: u64,
    /// The number of the item in the file: items are the atoms and the lists, in preorder from 0.
    pub item: u64,
    pub sexp: Sexp,
}
