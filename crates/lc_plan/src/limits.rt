//! How many turns a plan may give to a call. `specs/Limits.antt` has the same numbers, by the same words.

/// The most turns that a plan gives to a call, and the most times that it repeats one.
pub const MOST_TURNS: u32 = 1_000_000;

/// The turns of a call to which a plan gives no other number.
pub const USUAL_TURNS: u32 = 400_000;
