//! The code of an object: its arrays, its operations, and the instructions at the points of their bodies.
#![tactic(auto)]

mod edge_table;
mod instr;
mod object;
mod parts;
mod testing;

pub use edge_table::{Edge, Facts, edges};
pub use instr::{ArrayId, EdgeKind, Instr, LocalId};
pub use object::Object;
pub use parts::{Array, Column, Operation, Parts, Point};
