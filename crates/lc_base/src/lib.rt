//! The base of all crates of lincheck: names, refusals with their codes, and the line that a refusal prints.
#![tactic(auto)]

mod ids;
mod limits;
mod line;
mod memory;
mod name;
mod refusal;

pub use ids::{ColId, OpId, PointId};
pub use limits::{
    ACTION_LIMIT, ARGUMENT_LIMIT, COLUMN_LIMIT, CONDITION_LIMIT, DEPTH_LIMIT, FILE_LIMIT,
    LOCAL_LIMIT, NAME_LIMIT, OPERATION_LIMIT, PARAMETER_LIMIT, PATH_LIMIT, POINT_LIMIT,
    REPLY_LIMIT, RIDER_LIMIT, SEAT_LIMIT, WIDTH_LIMIT,
};
pub use line::{refusal_line, write_line};
pub use memory::OutOfMemory;
pub use name::{Name, is_name};
pub use refusal::{Fault, Refusal, code};
