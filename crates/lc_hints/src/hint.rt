//! One hint of a file.
use lc_kernel::Proof;
use lc_term::{Formula, Term};

/// What a hint offers for a proof.
#[derive(Drop)]
pub(crate) enum Advice {
    /// Terms for `inst`.
    Use(Vec<Term>),
    /// A formula for `cut`.
    Cut(Formula),
    /// A whole proof.
    By(Proof),
}

/// A hint, and the number of the condition that it is for, if there is one of that number.
#[derive(Drop)]
pub(crate) struct Hint {
    pub(crate) number: i64,
    pub(crate) advice: Advice,
}
