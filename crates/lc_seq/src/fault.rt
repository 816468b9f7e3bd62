//! Why a call is not applied.
use lc_base::OutOfMemory;
use lc_term::EvalFault;
use std::alloc::{AllocError, AllocFailed};
use thiserror::Error;

/// Why a call is not applied. The state is as it was.
#[derive(Clone, Copy, Debug, PartialEq, Eq, Error)]
pub enum SeqFault {
    /// A number that is reached leaves what the object computes with.
    #[error("overflow")]
    Overflow,
    /// An allocation was refused.
    #[error("out of memory")]
    OutOfMemory,
}

impl From<OutOfMemory> for SeqFault {
    ghost use Rattle.std.specs.Prelude.{◌≡◌};
    ghost use Rattle.lc_seq.specs.declared.fault.SeqFault.TheVariants.{OutOfMemory};

    ghost from_gives = { λ _ fault. fault ≡ OutOfMemory };

    fn from(_: OutOfMemory) -> SeqFault {
        SeqFault::OutOfMemory
    }
}

impl From<EvalFault> for SeqFault {
    ghost use Rattle.std.specs.Prelude.{◌≡◌};
    ghost use Rattle.lc_seq.specs.declared.fault.SeqFault.TheVariants.{Overflow};

    ghost from_gives = { λ _ fault. fault ≡ Overflow };

    fn from(_: EvalFault) -> SeqFault {
        SeqFault::Overflow
    }
}

impl From<AllocError> for SeqFault {
    ghost use Rattle.std.specs.Prelude.{◌≡◌};
    ghost use Rattle.lc_seq.specs.declared.fault.SeqFault.TheVariants.{OutOfMemory};

    ghost from_gives = { λ _ fault. fault ≡ OutOfMemory };

    fn from(_: AllocError) -> SeqFault {
        SeqFault::OutOfMemory
    }
}

impl<T: Drop> From<AllocFailed<T>> for SeqFault {
    ghost use Rattle.std.specs.Prelude.{◌≡◌};
    ghost use Rattle.lc_seq.specs.declared.fault.SeqFault.TheVariants.{OutOfMemory};

    ghost from_gives = { λ _ fault. fault ≡ OutOfMemory };

    fn from(_: AllocFailed<T>) -> SeqFault {
        SeqFault::OutOfMemory
    }
}
