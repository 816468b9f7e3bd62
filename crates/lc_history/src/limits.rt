//! Which numbers the clients of a history may have. `specs/Limits.antt` has the same number, by the same words.

/// The greatest number of a client in a history.
pub const CLIENT_LIMIT: u32 = 1_000_000;
