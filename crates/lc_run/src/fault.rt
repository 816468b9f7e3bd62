//! Why a runner is not made, and why a client takes no step.
use lc_base::OutOfMemory;
use std::alloc::AllocError;
use thiserror::Error;

/// Why a runner is not made, or a client takes no step. If several faults apply, the first in this order is returned. Nothing
/// has changed then.
#[derive(Clone, Copy, Debug, PartialEq, Eq, Error)]
pub enum RunFault {
    /// A runner has at least one client, and at most `SEAT_LIMIT`.
    #[error("no such number of clients")]
    Clients,
    /// The client is in a call.
    #[error("the client is in a call")]
    Busy,
    /// The client is in no call.
    #[error("the client is in no call")]
    Idle,
    /// There is no operation of this number.
    #[error("no such operation")]
    NoOp,
    /// The operation takes another count of numbers.
    #[error("another count of numbers")]
    Arity,
    /// The seat is not of this run: it says otherwise whether its client is in a call.
    #[error("seats do not match")]
    Mismatch,
    /// The run has as many labels as it may have.
    #[error("too many labels")]
    Full,
    /// A number that is reached leaves 64 bits.
    #[error("a number leaves 64 bits")]
    Overflow,
    /// An allocation was refused.
    #[error("out of memory")]
    OutOfMemory,
}

impl From<OutOfMemory> for RunFault {
    ghost use Rattle.std.specs.Prelude.{◌≡◌};
    ghost use Rattle.lc_run.specs.declared.fault.RunFault.TheVariants.{OutOfMemory};

    ghost from_gives = { λ _ fault. fault ≡ OutOfMemory };

    fn from(_: OutOfMemory) -> RunFault {
        RunFault::OutOfMemory
    }
}

impl From<AllocError> for RunFault {
    ghost use Rattle.std.specs.Prelude.{◌≡◌};
    ghost use Rattle.lc_run.specs.declared.fault.RunFault.TheVariants.{OutOfMemory};

    ghost from_gives = { λ _ fault. fault ≡ OutOfMemory };

    fn from(_: AllocError) -> RunFault {
        RunFault::OutOfMemory
    }
}
