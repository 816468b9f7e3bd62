//! What an object is made of: columns, arrays, operations and points.
use crate::instr::Instr;
use lc_base::{ColId, Name, OpId, PointId};

/// A concrete column. At first its cell i holds `slope * i + start`.
#[derive(Clone, Copy)]
pub struct Column {
    pub name: Name,
    pub slope: i64,
    pub start: i64,
}

/// An array: rows of concrete columns.
#[derive(Drop)]
pub struct Array {
    pub name: Name,
    pub columns: Vec<ColId>,
}

/// An operation with its body's locals, and the first point of its body.
#[derive(Drop)]
pub struct Operation {
    pub name: Name,
    pub arguments: Vec<Name>,
    /// How many numbers it returns.
    pub replies: u32,
    pub locals: Vec<Name>,
    pub entry: PointId,
}

/// A point of an operation's body.
#[derive(Drop)]
pub struct Point {
    pub name: Name,
    pub operation: OpId,
    pub instruction: Instr,
}

/// The parts of an object. Columns are numbered from 0: the abstract ones of its specification, then the concrete
/// ones of its arrays, then the auxiliary ones.
#[derive(Drop)]
pub struct Parts {
    pub name: Name,
    pub abstracts: Vec<Name>,
    pub concretes: Vec<Column>,
    pub auxiliaries: Vec<Name>,
    pub arrays: Vec<Array>,
    /// By their numbers.
    pub operations: Vec<Operation>,
    /// By their numbers, the bodies one after the other.
    pub points: Vec<Point>,
}
