//! How long a run may be. `specs/Limits.antt` has the same number, by the same words.

/// The most labels of a run: one for each call, each instruction and each return.
pub const LABEL_LIMIT: usize = 1_000_000;
