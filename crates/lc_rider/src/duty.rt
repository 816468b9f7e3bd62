//! What a mark asks for.
use lc_table::FormulaId;

/// What a mark asks for.
#[derive(Clone, Copy)]
pub enum Owing {
    /// The call that is marked is pending.
    Pending,
    /// It is a call of the operation that is named.
    Named,
    /// The guard of some branch holds.
    Enabled,
    /// The branch by which replies are noted stores nothing.
    Observing,
}

/// What has to hold if the first of a path's facts do.
#[derive(Clone, Copy)]
pub struct Duty {
    pub kind: Owing,
    /// The place of the rider that asks for it, the first being 0.
    pub rider: usize,
    /// How many of the path's facts are known there.
    pub known: usize,
    pub goal: FormulaId,
}
