//! The facts that a plan has: what it asserts, and what its actions ask for.
use crate::guards::{guard_of, written_actions};
use lc_base::{OutOfMemory, PointId};
use lc_fill::Plan;
use lc_outline::{ActionId, Development};
use lc_sexp::{Cursor, Forms};
use std::alloc::Global;

/// Conjuncts that are asserted at a point, or are the guard of an action.
#[derive(Clone, Copy)]
struct Row {
    /// How many are the user's. They come first.
    written: usize,
    /// How many are planned there, and how many in the rows before.
    planned: usize,
    before: usize,
}

/// The facts that a plan has, numbered from 0: what is asserted, point by point, then guards, action by action.
#[derive(Drop)]
pub(crate) struct Facts {
    points: Vec<Row>,
    actions: Vec<Row>,
    /// How many actions are the user's. They come first.
    written: usize,
    pub(crate) count: usize,
}

impl Facts {
    /// Those of a plan for a short development with these forms, which completes it so. The plan has something for each point, in their order.
    pub(crate) fn of(
        alloc: Global,
        forms: &Forms,
        plan: &Plan,
        development: &Development,
    ) -> Result<Facts, OutOfMemory> {
        let mut facts = Facts {
            points: Vec::new(alloc),
            actions: Vec::new(alloc),
            written: written_actions(forms),
            count: 0,
        };
        for (point, outline) in development.parts().outlines.iter().enumerate() {
            let planned = match plan.asserts.get(point) {
                Some(planned) => planned.items.cursor().len(),
                None => 0,
            };
            let written = outline.asserts.len().saturating_sub(planned);
            let row = facts.row(written, planned);
            facts.points.push(row)?;
        }
        for _ in 0..facts.written {
            let row = facts.row(0, 0);
            facts.actions.push(row)?;
        }
        let mut actions = plan.actions.cursor();
        for _ in 0..actions.len() {
            let guard = guard_of(actions.list().unwrap_or(Cursor::empty()));
            let row = facts.row(0, guard.len());
            facts.actions.push(row)?;
        }
        Ok(facts)
    }

    /// A row after those so far.
    fn row(&mut self, written: usize, planned: usize) -> Row {
        let before = self.count;
        self.count = before.saturating_add(planned);
        Row {
            written,
            planned,
            before,
        }
    }

    /// The number of the fact that is this conjunct at a point, if it is no conjunct of the user's.
    pub(crate) fn asserted(&self, point: PointId, conjunct: usize) -> Option<usize> {
        self.points.get(point.0 as usize)?.number(conjunct)
    }

    /// The number of the fact that is this conjunct of an action's guard, if the action is planned.
    pub(crate) fn guarding(&self, action: usize, conjunct: usize) -> Option<usize> {
        self.actions.get(action)?.number(conjunct)
    }

    /// Whether an action is planned.
    pub(crate) fn is_planned(&self, action: ActionId) -> bool {
        let place = action.0 as usize;
        self.written <= place && place < self.actions.len()
    }
}

impl Row {
    /// The number of a conjunct, if it is no conjunct of the user's.
    fn number(&self, conjunct: usize) -> Option<usize> {
        let place = conjunct.checked_sub(self.written)?;
        if place < self.planned {
            self.before.checked_add(place)
        } else {
            None
        }
    }
}
