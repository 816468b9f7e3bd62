//! How many workers, clients and calls may be asked for. `specs/Limits.antt` has the same number, by the same words.

/// The most workers that check a certificate side by side.
pub const WORKER_LIMIT: u64 = 64;

/// The most clients that make any calls, and the most calls that each makes.
pub const SIZE_LIMIT: u64 = 64;
