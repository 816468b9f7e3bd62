//! What facts and actions are guessed from.
use crate::code::{Edge, Point};
use crate::ends::Ways;
use crate::fact::{Fact, KnownFacts, each_known, is_owned};
use crate::object::Object;
use crate::placing::Places;
use crate::signature::{Operation, Operations};
use crate::text::{Cells, each_cell, each_item, first_text, text_of};
use lc_reading::NameTable;
use lc_sexp::Cursor;

/// How far it is guessed.
#[derive(Clone, Copy, PartialEq, Eq)]
pub enum Reach {
    /// What the text tells.
    Told,
    /// Also what is only tried, whether or not other clients make it false.
    Tried,
}

/// What the points of a body are looked at with.
#[derive(Clone, Copy)]
pub(crate) struct Body<'a, 'b> {
    pub(crate) operation: Operation<'a>,
    pub(crate) operations: &'b Operations<'a>,
    /// Its locals.
    pub(crate) declared: Cursor<'a>,
    /// The names of its locals.
    pub(crate) locals: &'b NameTable<'a>,
    pub(crate) object: &'b Object<'a>,
    pub(crate) places: &'b Option<Places<'a>>,
    pub(crate) reach: Reach,
}

impl<'a> Body<'a, '_> {
    /// Whether it is guessed what is only tried.
    pub(crate) fn is_tried(self) -> bool {
        self.reach == Reach::Tried
    }

    /// The local of a name, as it is declared.
    pub(crate) fn local(self, name: &str) -> Option<&'a str> {
        for part in each_item(self.declared) {
            if text_of(part) == name {
                return Some(text_of(part));
            }
        }
        None
    }
}

/// What is looked at for the facts at an edge.
#[derive(Clone, Copy)]
pub(crate) struct Seen<'a, 'b> {
    pub(crate) body: Body<'a, 'b>,
    pub(crate) ways: Ways<'a, 'b>,
    pub(crate) point: &'b Point<'a>,
    pub(crate) edge: &'b Edge<'a>,
    /// The facts of the body, and the numbers of those that are known at the point.
    pub(crate) facts: &'b [Fact],
    pub(crate) known: &'b [usize],
}

impl<'a, 'b> Seen<'a, 'b> {
    /// The facts that are known at the point.
    pub(crate) fn known_facts(self) -> KnownFacts<'b> {
        each_known(self.facts, self.known)
    }

    /// Whether a cell of this index is known to hold a number of the client's own.
    pub(crate) fn is_owned(self, index: &str) -> bool {
        is_owned(self.known_facts(), index)
    }

    /// The columns of the array of the instruction.
    pub(crate) fn columns(self) -> Cursor<'a> {
        self.body.object.columns_of(first_text(self.point.code))
    }

    /// The cells that the instruction reads, with the locals that they are read into.
    pub(crate) fn cells_read(self) -> Cells<'a> {
        each_cell(self.columns(), self.point.targets())
    }

    /// Whether the instruction stores something at the edge, where it is tried what marks do.
    pub(crate) fn stores(self) -> Option<bool> {
        if self.body.is_tried() {
            Some(self.edge.is_storing(self.point))
        } else {
            None
        }
    }

    /// The point to which the edge leads.
    pub(crate) fn next(self) -> Option<&'b Point<'a>> {
        self.ways.points.get(self.edge.next?)
    }
}
