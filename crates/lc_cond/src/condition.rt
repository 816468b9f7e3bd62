//! The type of conditions: what is asked for, where, and as which goal.
use lc_base::{ColId, PointId};
use lc_kernel::Goal;
use lc_object::EdgeKind;
use lc_rider::Owing;

/// What a condition asks for.
#[derive(Clone, Copy)]
pub enum Kind {
    /// The invariant holds at first.
    Init,
    /// What holds of idle clients holds of them at first.
    InitIdle,
    /// The invariant holds when a call begins.
    Entry,
    /// The assertions of a body's first point hold there.
    First,
    /// What a mark asks for.
    Owed(Owing),
    /// The replies that are returned are those of the call.
    Reply,
    /// The invariant holds after an edge.
    Invariant,
    /// What holds where an edge leads to holds after it.
    Next,
    /// The guard of the action that an edge is.
    Guard,
    /// An edge and its action store the same in a column.
    Column,
    /// What holds of a client stays when another one acts.
    Stable,
}

/// What is passed.
#[derive(Clone, Copy)]
pub enum Passage {
    Nothing,
    Edge(EdgeKind),
    /// An action of another client, by its place; `enter` and `leave` come after the declared ones.
    Action(usize),
}

/// Which of its kind a condition is.
#[derive(Clone, Copy)]
pub enum Which {
    /// There is one.
    Alone,
    /// By the place of a conjunct or a rider, from 0.
    Numbered(usize),
    Column(ColId),
}

/// Where a condition is.
#[derive(Clone, Copy)]
pub struct Place {
    pub point: Option<PointId>,
    pub passage: Passage,
    /// The place of a path among those of its edge, from 0.
    pub path: Option<usize>,
    pub which: Which,
}

/// What is to be proved of a development, in the table that its formulas are in.
pub struct Condition {
    pub kind: Kind,
    pub place: Place,
    pub goal: Goal,
}

// Written out, so that dropping a condition is one call.
impl Drop for Condition {
    fn drop(self) {
        let Condition {
            kind: _,
            place: _,
            goal: _,
        } = self;
    }
}
