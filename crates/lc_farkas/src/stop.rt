//! Why a search ends without an answer.

use lc_base::OutOfMemory;
use std::alloc::{AllocError, AllocFailed};

/// Why a search for a refutation, or for numbers within bounds, was given up.
#[derive(Clone, Copy, PartialEq, Eq)]
pub enum Stop {
    /// A number does not fit 128 bits, or is a quotient by 0.
    Large,
    /// The pivots that were allowed, or the work, are spent.
    Spent,
    /// An allocation was refused.
    OutOfMemory,
}

impl From<AllocError> for Stop {
    fn from(_: AllocError) -> Stop {
        Stop::OutOfMemory
    }
}

impl<T: Drop> From<AllocFailed<T>> for Stop {
    fn from(_: AllocFailed<T>) -> Stop {
        Stop::OutOfMemory
    }
}

impl From<OutOfMemory> for Stop {
    fn from(_: OutOfMemory) -> Stop {
        Stop::OutOfMemory
    }
}
