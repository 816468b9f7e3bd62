//! The type of instructions.
use lc_base::PointId;
use lc_term::{Formula, Term};
use std::sync::Arc;

/// An array, by its place in the object, from 0.
#[derive(Clone, Copy)]
pub struct ArrayId(pub u32);

/// A local, by the number of its variable. In the code of an operation variable 0 is the number of clients, which
/// no instruction uses, and variable 1 the client; then come the arguments, and then the locals.
#[derive(Clone, Copy)]
pub struct LocalId(pub u32);

/// By which of its edges an instruction goes.
#[derive(Clone, Copy)]
pub enum EdgeKind {
    /// The one edge of `load`, `store`, `set`, `faa` and `return`.
    Next,
    /// `cas` if the row is the old one, and `if` if the formula holds.
    Then,
    /// `cas` if the row is another one, and `if` if the formula does not hold.
    Else,
}

/// An instruction: one access of at most one row of one array.
#[derive(Drop)]
pub enum Instr {
    /// A row is read into locals.
    Load {
        array: ArrayId,
        index: Term,
        targets: Vec<LocalId>,
        next: PointId,
    },
    /// A row is written.
    Store {
        array: ArrayId,
        index: Term,
        values: Vec<Term>,
        next: PointId,
    },
    /// If the whole row is the old one, it becomes the new one.
    Cas {
        array: ArrayId,
        index: Term,
        old: Vec<Term>,
        new: Vec<Term>,
        equal: PointId,
        different: PointId,
    },
    /// Locals are written at once. The values are those from before.
    Set {
        targets: Vec<LocalId>,
        values: Vec<Term>,
        next: PointId,
    },
    /// A row is read into locals, and a number is added to each of its columns, in one access. Index and numbers are those
    /// from before.
    Faa {
        array: ArrayId,
        index: Term,
        targets: Vec<LocalId>,
        added: Vec<Term>,
        next: PointId,
    },
    /// A test of the locals. Its edges have the condition in the same memory.
    If {
        condition: Arc<Formula>,
        holds: PointId,
        fails: PointId,
    },
    /// The call returns these numbers, and the client is idle.
    Return {
        values: Vec<Term>,
    },
}
