//! Why a run is not traced.
use lc_base::OutOfMemory;
use lc_machine::StepFault;
use std::alloc::{AllocError, AllocFailed};
use thiserror::Error;

/// Why labels are not traced.
#[derive(Clone, Copy, Debug, PartialEq, Eq, Error)]
pub enum TraceFault {
    /// A label is another than that of the step which its client takes: the labels are no run of the development.
    #[error("no run of the development")]
    Mismatch,
    /// An allocation was refused.
    #[error("out of memory")]
    OutOfMemory,
}

impl From<OutOfMemory> for TraceFault {
    fn from(_: OutOfMemory) -> TraceFault {
        TraceFault::OutOfMemory
    }
}

impl From<AllocError> for TraceFault {
    fn from(_: AllocError) -> TraceFault {
        TraceFault::OutOfMemory
    }
}

impl<T: Drop> From<AllocFailed<T>> for TraceFault {
    fn from(_: AllocFailed<T>) -> TraceFault {
        TraceFault::OutOfMemory
    }
}

impl From<StepFault> for TraceFault {
    fn from(fault: StepFault) -> TraceFault {
        match fault {
            StepFault::OutOfMemory => TraceFault::OutOfMemory,
            StepFault::NoClient
            | StepFault::Busy
            | StepFault::Idle
            | StepFault::NoOp
            | StepFault::Arity
            | StepFault::Overflow => TraceFault::Mismatch,
        }
    }
}
