//! What conditions ask for, and what their proofs use.
use crate::facts::Facts;
use lc_base::{OutOfMemory, PointId};
use lc_cond::{Condition, Kind, Passage, Which};
use lc_object::{EdgeKind, edges};
use lc_outline::{ActionId, Development};
use std::alloc::Global;

/// What a condition asks for, and what it was found to use.
#[derive(Drop)]
pub(crate) struct Need {
    /// The fact that it asks for; none if that is no guess.
    pub(crate) asked: Option<usize>,
    pub(crate) is_found: bool,
    /// The facts that its proof uses; without a proof, all that are known.
    pub(crate) used: Vec<usize>,
}

/// Where the edges of a point lead.
#[derive(Clone, Copy)]
struct Ends {
    /// `next` or `then`.
    first: Option<PointId>,
    /// `else`.
    second: Option<PointId>,
}

/// Where edges lead, by the points' numbers.
#[derive(Drop)]
pub(crate) struct Ways {
    ends: Vec<Ends>,
}

impl Ways {
    /// Those of a development.
    pub(crate) fn of(alloc: Global, development: &Development) -> Result<Ways, OutOfMemory> {
        let mut ends: Vec<Ends> = Vec::new(alloc);
        for edge in &edges(alloc, &development.parts().object)? {
            match (edge.kind, ends.last_mut()) {
                (EdgeKind::Else, Some(last)) => last.second = edge.next,
                _ => ends.push(Ends {
                    first: edge.next,
                    second: None,
                })?,
            }
        }
        Ok(Ways { ends })
    }

    /// The point to which an edge leads, if it leads to one.
    fn next(&self, point: PointId, kind: EdgeKind) -> Option<PointId> {
        let ends = self.ends.get(point.0 as usize)?;
        match kind {
            EdgeKind::Else => ends.second,
            _ => ends.first,
        }
    }

    /// The point at which what a condition asks for is asserted, if it is asserted at one.
    fn goal_point(&self, condition: &Condition) -> Option<PointId> {
        let point = condition.place.point?;
        match condition.kind {
            Kind::First | Kind::Stable => Some(point),
            Kind::Next => match condition.place.passage {
                Passage::Edge(kind) => self.next(point, kind),
                _ => None,
            },
            _ => None,
        }
    }

    /// The fact that a condition asks for, if it is a guess.
    pub(crate) fn asked(&self, facts: &Facts, condition: &Condition) -> Option<usize> {
        let point = self.goal_point(condition)?;
        match condition.place.which {
            Which::Numbered(conjunct) => facts.asserted(point, conjunct),
            _ => None,
        }
    }
}

/// Whether two edges of an instruction are the same.
fn is_same(left: EdgeKind, right: EdgeKind) -> bool {
    matches!(
        (left, right),
        (EdgeKind::Next, EdgeKind::Next)
            | (EdgeKind::Then, EdgeKind::Then)
            | (EdgeKind::Else, EdgeKind::Else)
    )
}

/// The action whose guard a condition asks for, if it asks for one.
pub(crate) fn guarded(development: &Development, condition: &Condition) -> Option<ActionId> {
    if !matches!(condition.kind, Kind::Guard) {
        return None;
    }
    let Passage::Edge(kind) = condition.place.passage else {
        return None;
    };
    let point = condition.place.point?;
    let outline = development.parts().outlines.get(point.0 as usize)?;
    for on in &outline.ons {
        if is_same(on.edge, kind) {
            return Some(on.action);
        }
    }
    None
}

/// The action of another client that a condition stands against, if it stands against one, and the place of its guard among the hypotheses: the
/// invariant comes after it.
pub(crate) fn withstood(
    development: &Development,
    condition: &Condition,
) -> Option<(usize, usize)> {
    let Passage::Action(action) = condition.place.passage else {
        return None;
    };
    let behind = development.parts().tie.conjuncts().len().checked_add(1)?;
    let place = condition
        .goal
        .hypotheses
        .as_slice()
        .len()
        .checked_sub(behind)?;
    Some((action, place))
}
