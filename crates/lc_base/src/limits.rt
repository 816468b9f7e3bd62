//! How large and how many the parts of a text may be, and what crates side by side share. `specs/Limits.antt` has the same numbers,
//! by the same words.

/// The most bytes of a file.
pub const FILE_LIMIT: u64 = 16_777_216;

/// How deep lists may be nested.
pub const DEPTH_LIMIT: usize = 1000;

/// The most bytes of a name.
pub const NAME_LIMIT: usize = 64;

/// The most columns of a file, without those of the system.
pub const COLUMN_LIMIT: u64 = 64;

/// The most columns of an array.
pub const WIDTH_LIMIT: usize = 4;

/// The most operations.
pub const OPERATION_LIMIT: usize = 16;

/// The most arguments of an operation.
pub const ARGUMENT_LIMIT: usize = 3;

/// The most numbers that an operation returns.
pub const REPLY_LIMIT: u32 = 3;

/// The most parameters of a choice, and of an action.
pub const PARAMETER_LIMIT: u64 = 3;

/// The most locals of a body.
pub const LOCAL_LIMIT: usize = 16;

/// The most points of all bodies together.
pub const POINT_LIMIT: usize = 256;

/// The most actions.
pub const ACTION_LIMIT: u64 = 64;

/// The most riders of an edge.
pub const RIDER_LIMIT: u64 = 6;

/// The most paths past the riders of an edge.
pub const PATH_LIMIT: u64 = 64;

/// The most conditions of a development.
pub const CONDITION_LIMIT: u64 = 100_000;

/// The most clients of a run, each with a seat.
pub const SEAT_LIMIT: u32 = 64;
