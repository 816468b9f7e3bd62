//! Why no certificate was found.
ghost use Rattle.std.specs.Prelude.{◌≡◌};

use lc_base::OutOfMemory;
use std::alloc::{AllocError, AllocFailed};
use thiserror::Error;

/// Why no certificate was found. The number is that of the first condition without a proof.
#[derive(Clone, Copy, Debug, PartialEq, Eq, Error)]
pub enum FindFault {
    /// The search for a proof came to its end.
    #[error("no proof of condition {0} was found")]
    NotFound(u64),
    /// The steps that may be tried are spent, or the certificate would be too large with this proof.
    #[error("the budget is spent at condition {0}")]
    Budget(u64),
    /// The arithmetic of the search leaves 128 bits.
    #[error("a number does not fit 128 bits at condition {0}")]
    Large(u64),
    /// An allocation was refused.
    #[error("out of memory")]
    OutOfMemory,
}

impl From<OutOfMemory> for FindFault {
    ghost use Rattle.lc_find.specs.declared.fault.FindFault.TheVariants.{OutOfMemory};

    ghost from_gives = { λ _ fault. fault ≡ OutOfMemory };

    fn from(_: OutOfMemory) -> FindFault {
        FindFault::OutOfMemory
    }
}

impl From<AllocError> for FindFault {
    ghost use Rattle.lc_find.specs.declared.fault.FindFault.TheVariants.{OutOfMemory};

    ghost from_gives = { λ _ fault. fault ≡ OutOfMemory };

    fn from(_: AllocError) -> FindFault {
        FindFault::OutOfMemory
    }
}

impl<T: Drop> From<AllocFailed<T>> for FindFault {
    ghost use Rattle.lc_find.specs.declared.fault.FindFault.TheVariants.{OutOfMemory};

    ghost from_gives = { λ _ fault. fault ≡ OutOfMemory };

    fn from(_: AllocFailed<T>) -> FindFault {
        FindFault::OutOfMemory
    }
}
