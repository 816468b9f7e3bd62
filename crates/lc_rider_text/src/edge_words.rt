//! How the name of an edge is read.
ghost use Rattle.std.specs.Prelude.{◌≡◌};
ghost use Rattle.lc_reading.specs.Parts.{tree_of, place_of};
ghost use Rattle.lc_reading.specs.Results.{IsReading};
ghost use Rattle.lc_rider_text.specs.Edges.{edge_of, edge_in, is_refused, edge_reading};

use crate::edges::Edges;
use crate::words::kind_of;
use lc_object::EdgeKind;
use lc_reading::{Part, Pass, ReadFault, two, wrong};
use lc_sexp::Item;

/// The edge that an item names, if it does.
pub fn edge_of(part: Part<'_>) -> Option<EdgeKind>
    ensures { result ≡ edge_of (tree_of part.entry) }
{
    match part.item() {
        Item::Atom(atom) => kind_of(atom.text()),
        Item::List(_) => None,
    }
}

/// The edge of `(on EDGE ..)`, if it names one.
pub fn edge_in(part: Part<'_>) -> Option<EdgeKind>
    ensures { result ≡ edge_in (tree_of part.entry) }
{
    let list = match part.item() {
        Item::Atom(_) => return None,
        Item::List(list) => list,
    };
    match two(list) {
        Ok((_, edge, _)) => edge_of(edge),
        Err(_) => None,
    }
}

/// The edge that an item reads as.
pub(crate) fn read_edge(part: Part<'_>) -> Result<EdgeKind, ReadFault>
    ensures { IsReading (λ kind. kind) (edge_reading (place_of part.entry) (tree_of part.entry)) result }
{
    match edge_of(part) {
        Some(kind) => Ok(kind),
        None => Err(wrong(Pass::Shape, part.number())),
    }
}

impl Edges {
    ghost use Rattle.std.specs.Prelude.{◌≡◌};
    ghost use Rattle.lc_rider_text.specs.Edges.{has, without, is_refused};

    /// Whether this edge is one of them.
    pub fn has(self, kind: EdgeKind) -> bool
        ensures { result ≡ has self kind }
    {
        match kind {
            EdgeKind::Next => self.next,
            EdgeKind::Then => self.holds,
            EdgeKind::Else => self.fails,
        }
    }

    /// The others.
    pub fn without(self, kind: Option<EdgeKind>) -> Edges
        ensures { result ≡ without self kind }
    {
        let mut others = self;
        match kind {
            None => {}
            Some(EdgeKind::Next) => others.next = false,
            Some(EdgeKind::Then) => others.holds = false,
            Some(EdgeKind::Else) => others.fails = false,
        }
        others
    }

    /// Whether an edge is named that may have no `on`.
    pub(crate) fn is_refused(self, kind: Option<EdgeKind>) -> bool
        ensures { result ≡ is_refused self kind }
    {
        match kind {
            Some(kind) => !self.has(kind),
            None => false,
        }
    }
}
