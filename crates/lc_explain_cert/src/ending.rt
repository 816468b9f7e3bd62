//! How a search for a proof ended that found none.
use lc_search::{Cause, CounterModel};

/// How the search for a proof of a condition ended that found none.
#[derive(Clone, Copy)]
pub enum Ending<'a> {
    /// In this model.
    Model(&'a CounterModel),
    /// It was given up.
    GivenUp(Cause),
    /// A number leaves 128 bits.
    Large,
    /// Nothing is known of it.
    Unknown,
}

impl Ending<'_> {
    /// Why the search was given up; empty if it was not, or if that is not known.
    pub(crate) fn cause(self) -> &'static str {
        match self {
            Ending::GivenUp(cause) => cause.words(),
            Ending::Large => "a number leaves 128 bits",
            Ending::Model(_) | Ending::Unknown => "",
        }
    }
}
