//! Why a form cannot be made.
ghost use Rattle.std.specs.Prelude.{◌≡◌};
ghost use Rattle.lc_linear.specs.declared.fault.LinFault.{LinFault};

use lc_base::OutOfMemory;
use std::alloc::{AllocError, AllocFailed};
use thiserror::Error;

/// Why there is no form.
#[derive(Clone, Copy, Debug, PartialEq, Eq, Error)]
pub enum LinFault {
    /// A number on the way does not fit 128 bits.
    #[error("a number does not fit 128 bits")]
    Large,
    /// An allocation was refused.
    #[error("out of memory")]
    OutOfMemory,
}

impl From<OutOfMemory> for LinFault {
    ghost from_gives = { λ _ fault. fault ≡ LinFault.OutOfMemory };

    fn from(_: OutOfMemory) -> LinFault {
        LinFault::OutOfMemory
    }
}

impl From<AllocError> for LinFault {
    ghost from_gives = { λ _ fault. fault ≡ LinFault.OutOfMemory };

    fn from(_: AllocError) -> LinFault {
        LinFault::OutOfMemory
    }
}

impl<T: Drop> From<AllocFailed<T>> for LinFault {
    ghost from_gives = { λ _ fault. fault ≡ LinFault.OutOfMemory };

    fn from(_: AllocFailed<T>) -> LinFault {
        LinFault::OutOfMemory
    }
}
