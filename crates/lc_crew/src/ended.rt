//! How the clients of a run came to their ends.
use crate::halt::Halt;

/// A client of a run, and why it made no further call, if it did not make all that were planned.
#[derive(Clone, Copy, Debug, PartialEq, Eq)]
pub struct Ended {
    pub client: u32,
    pub halt: Option<Halt>,
}
