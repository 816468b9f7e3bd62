//! Sequential objects as Rust values: a counter, a stack, a queue, a lock, a snapshot and a stack that may answer full.
#![tactic(auto)]

mod cells;
mod counter;
mod form;
mod lock;
mod matching;
mod parts;
mod pool_stack;
mod queue;
mod snapshot;
mod stack;

pub use counter::{CounterCall, NatCounter};
pub use lock::{LockCall, LockReply, NatLock};
pub use pool_stack::{NatPoolStack, PoolCall, PoolChoice, PoolReply};
pub use queue::{NatQueue, QueueCall, QueueReply};
pub use snapshot::{NatSnapshot, Pair, SnapshotCall, SnapshotReply};
pub use stack::{NatStack, StackCall, StackReply};
