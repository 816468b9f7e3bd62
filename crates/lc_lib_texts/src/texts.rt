//! The texts of the library.

pub(crate) mod combining;
pub(crate) mod counter;
pub(crate) mod lock;
pub(crate) mod pool_stack;
pub(crate) mod queue;
pub(crate) mod rendezvous;
pub(crate) mod snapshot;
pub(crate) mod stack;
