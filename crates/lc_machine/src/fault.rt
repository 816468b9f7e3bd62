//! Why a client takes no step.
use lc_base::OutOfMemory;
use lc_term::EvalFault;
use thiserror::Error;

/// Why a client takes no step. If several faults apply, the first in this order is returned. The machine is as
/// it was.
#[derive(Clone, Copy, Debug, PartialEq, Eq, Error)]
pub enum StepFault {
    /// There is no client of this number.
    #[error("no such client")]
    NoClient,
    /// The client is in a call.
    #[error("the client is in a call")]
    Busy,
    /// The client is in no call.
    #[error("the client is in no call")]
    Idle,
    /// There is no operation of this number.
    #[error("no such operation")]
    NoOp,
    /// The operation takes another count of numbers.
    #[error("another count of numbers")]
    Arity,
    /// A number that is reached leaves 64 bits.
    #[error("a number leaves 64 bits")]
    Overflow,
    /// An allocation was refused.
    #[error("out of memory")]
    OutOfMemory,
}

impl From<EvalFault> for StepFault {
    ghost use Rattle.std.specs.Prelude.{◌≡◌};
    ghost use Rattle.lc_machine.specs.declared.fault.StepFault.TheVariants.{Overflow};

    ghost from_gives = { λ _ fault. fault ≡ Overflow };

    fn from(_: EvalFault) -> StepFault {
        StepFault::Overflow
    }
}

impl From<OutOfMemory> for StepFault {
    ghost use Rattle.std.specs.Prelude.{◌≡◌};
    ghost use Rattle.lc_machine.specs.declared.fault.StepFault.TheVariants.{OutOfMemory};

    ghost from_gives = { λ _ fault. fault ≡ OutOfMemory };

    fn from(_: OutOfMemory) -> StepFault {
        StepFault::OutOfMemory
    }
}
