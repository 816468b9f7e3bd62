//! The parts of a file, by where they begin.
use lc_sexp::Cursor;

/// Where the parts of a specification and of an object begin.
#[derive(Clone, Copy)]
pub struct Sections<'a> {
    pub abstracts: Cursor<'a>,
    pub operations: Cursor<'a>,
    /// The object's name, and everything after it.
    pub object: Cursor<'a>,
    pub arrays: Cursor<'a>,
    pub auxiliaries: Cursor<'a>,
    /// The invariant, and what comes after it.
    pub invariant: Cursor<'a>,
    pub bodies: Cursor<'a>,
}
