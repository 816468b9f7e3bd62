//! Why a run by a plan hands nothing out.
use lc_base::OutOfMemory;
use lc_run::{RunFault, Why};
use std::alloc::{AllocError, AllocFailed};
use thiserror::Error;

/// Why a run by a plan hands nothing out.
#[derive(Clone, Copy, Debug, PartialEq, Eq, Error)]
pub enum Stop {
    /// A thread cannot be started.
    #[error("no thread")]
    NoThread,
    /// A seat is not of the run, or the plan not for it: there are other clients, or a call is none of the object.
    #[error("seats do not match")]
    Mismatch,
    /// An allocation was refused.
    #[error("out of memory")]
    OutOfMemory,
}

impl From<OutOfMemory> for Stop {
    ghost use Rattle.std.specs.Prelude.{◌≡◌};
    ghost use Rattle.lc_crew.specs.declared.stop.Stop.TheVariants.{OutOfMemory};

    ghost from_gives = { λ _ stop. stop ≡ OutOfMemory };

    fn from(_: OutOfMemory) -> Stop {
        Stop::OutOfMemory
    }
}

impl From<AllocError> for Stop {
    ghost use Rattle.std.specs.Prelude.{◌≡◌};
    ghost use Rattle.lc_crew.specs.declared.stop.Stop.TheVariants.{OutOfMemory};

    ghost from_gives = { λ _ stop. stop ≡ OutOfMemory };

    fn from(_: AllocError) -> Stop {
        Stop::OutOfMemory
    }
}

impl<T: Drop> From<AllocFailed<T>> for Stop {
    fn from(_: AllocFailed<T>) -> Stop {
        Stop::OutOfMemory
    }
}

impl From<Why> for Stop {
    fn from(why: Why) -> Stop {
        match why {
            Why::SeatMissing(_) | Why::RunMismatch | Why::SeatMismatch(_) => Stop::Mismatch,
            Why::OutOfMemory => Stop::OutOfMemory,
        }
    }
}

impl From<RunFault> for Stop {
    fn from(fault: RunFault) -> Stop {
        match fault {
            RunFault::OutOfMemory => Stop::OutOfMemory,
            RunFault::Clients
            | RunFault::Busy
            | RunFault::Idle
            | RunFault::NoOp
            | RunFault::Arity
            | RunFault::Mismatch
            | RunFault::Full
            | RunFault::Overflow => Stop::Mismatch,
        }
    }
}
