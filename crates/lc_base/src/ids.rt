//! The numbers by which files name columns, operations and points.

/// A column, by its place in the list of columns: of a development, its abstract, concrete, auxiliary and
/// system columns in that order; of a formula file, its columns as listed.
#[derive(Clone, Copy, PartialEq, Eq, Hash)]
pub struct ColId(pub u32);

/// An operation, by its place in the specification, from 0.
#[derive(Clone, Copy, PartialEq, Eq)]
pub struct OpId(pub u32);

/// A point of an object's code, by its place among the points of all bodies in file order, from 0.
#[derive(Clone, Copy, PartialEq, Eq)]
pub struct PointId(pub u32);
