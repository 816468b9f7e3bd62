//! Why a proof is not found to derive its goal.
ghost use Rattle.std.specs.Prelude.{◌≡◌};

use crate::reason::{Flaw, Reason};
use lc_base::OutOfMemory;
use lc_linear::LinFault;
use std::alloc::{AllocError, AllocFailed};
use thiserror::Error;

/// Why a proof was not found to derive its goal.
#[derive(Clone, Copy, Debug, PartialEq, Eq, Error)]
pub enum ProofFault {
    /// A step, counted in preorder from 0, is the first that does not hold, for this reason.
    #[error("step {step} does not hold: {reason}")]
    Bad { step: u32, reason: Reason },
    /// The arithmetic of a step, the first that does not hold, leaves 128 bits.
    #[error("step {step} does not hold: a number does not fit 128 bits")]
    Large { step: u32 },
    /// An allocation was refused.
    #[error("out of memory")]
    OutOfMemory,
}

impl From<AllocError> for ProofFault {
    ghost use Rattle.lc_kernel.specs.declared.fault.ProofFault.TheVariants.{OutOfMemory};

    ghost from_gives = { λ _ fault. fault ≡ OutOfMemory };

    fn from(_: AllocError) -> ProofFault {
        ProofFault::OutOfMemory
    }
}

impl From<OutOfMemory> for ProofFault {
    ghost use Rattle.lc_kernel.specs.declared.fault.ProofFault.TheVariants.{OutOfMemory};

    ghost from_gives = { λ _ fault. fault ≡ OutOfMemory };

    fn from(_: OutOfMemory) -> ProofFault {
        ProofFault::OutOfMemory
    }
}

impl<T: Drop> From<AllocFailed<T>> for ProofFault {
    ghost use Rattle.lc_kernel.specs.declared.fault.ProofFault.TheVariants.{OutOfMemory};

    ghost from_gives = { λ _ fault. fault ≡ OutOfMemory };

    fn from(_: AllocFailed<T>) -> ProofFault {
        ProofFault::OutOfMemory
    }
}

/// Why a step was not taken.
#[derive(Clone, Copy)]
pub(crate) enum StepFault {
    Flawed(Flaw),
    OutOfMemory,
}

impl StepFault {
    ghost use Rattle.lc_kernel.specs.Answers.{fault_at};

    /// The fault of the step of this number.
    pub(crate) fn at(self, step: u32) -> ProofFault
        ensures { result ≡ fault_at step self }
    {
        match self {
            StepFault::Flawed(Flaw::Bad(reason)) => ProofFault::Bad { step, reason },
            StepFault::Flawed(Flaw::Large) => ProofFault::Large { step },
            StepFault::OutOfMemory => ProofFault::OutOfMemory,
        }
    }
}

impl From<Flaw> for StepFault {
    ghost use Rattle.lc_kernel.specs.declared.fault.StepFault.TheVariants.{Flawed};

    ghost from_gives = { λ flaw fault. fault ≡ Flawed flaw };

    fn from(flaw: Flaw) -> StepFault {
        StepFault::Flawed(flaw)
    }
}

impl From<OutOfMemory> for StepFault {
    ghost use Rattle.lc_kernel.specs.declared.fault.StepFault.TheVariants.{OutOfMemory};

    ghost from_gives = { λ _ fault. fault ≡ OutOfMemory };

    fn from(_: OutOfMemory) -> StepFault {
        StepFault::OutOfMemory
    }
}

impl From<AllocError> for StepFault {
    ghost use Rattle.lc_kernel.specs.declared.fault.StepFault.TheVariants.{OutOfMemory};

    ghost from_gives = { λ _ fault. fault ≡ OutOfMemory };

    fn from(_: AllocError) -> StepFault {
        StepFault::OutOfMemory
    }
}

impl<T: Drop> From<AllocFailed<T>> for StepFault {
    ghost use Rattle.lc_kernel.specs.declared.fault.StepFault.TheVariants.{OutOfMemory};

    ghost from_gives = { λ _ fault. fault ≡ OutOfMemory };

    fn from(_: AllocFailed<T>) -> StepFault {
        StepFault::OutOfMemory
    }
}

impl From<LinFault> for StepFault {
    ghost use Rattle.lc_kernel.specs.Answers.{step_fault};

    ghost from_gives = { λ fault step. step ≡ step_fault fault };

    fn from(fault: LinFault) -> StepFault {
        match fault {
            LinFault::Large => StepFault::Flawed(Flaw::Large),
            LinFault::OutOfMemory => StepFault::OutOfMemory,
        }
    }
}
