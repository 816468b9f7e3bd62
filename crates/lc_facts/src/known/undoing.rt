//! Marks, to which what is known is taken back.

use super::{IndexChange, Known};
use lc_farkas::{Stop, Values};

/// How much was known.
#[derive(Clone, Copy)]
pub struct Mark {
    pub facts: usize,
    pub steps: usize,
    pub disjunctions: usize,
    pub axioms: usize,
    pub disequalities: usize,
    pub foralls: usize,
    pub active: usize,
    pub index: usize,
    pub done: usize,
    pub trail: usize,
}

/// How much was known, and the numbers of the tableau.
#[derive(Drop)]
pub struct Trial {
    pub mark: Mark,
    values: Values,
}

impl Known {
    /// How much is known.
    pub fn mark(&self) -> Mark {
        Mark {
            facts: self.have.len(),
            steps: self.steps.len(),
            disjunctions: self.disjunctions.len(),
            axioms: self.axioms.len(),
            disequalities: self.disequalities.len(),
            foralls: self.foralls.len(),
            active: self.active.len(),
            index: self.index_changes.len(),
            done: self.done.len(),
            trail: self.tableau.mark(),
        }
    }

    /// Takes back what came to be known since a mark. The numbers of the tableau stay as they are.
    pub fn undo(&mut self, mark: Mark) {
        self.have.truncate(mark.facts);
        self.steps.truncate(mark.steps);
        self.disjunctions.truncate(mark.disjunctions);
        self.axioms.truncate(mark.axioms);
        self.disequalities.truncate(mark.disequalities);
        self.foralls.truncate(mark.foralls);
        self.active.truncate(mark.active);
        self.done.truncate(mark.done);
        for _ in mark.index..self.index_changes.len() {
            self.undo_index();
        }
        self.tableau.undo(mark.trail);
    }

    /// Takes back the last change of an index table.
    fn undo_index(&mut self) {
        if let Some(change) = self.index_changes.pop() {
            self.put_index_back(change);
        }
    }

    /// Takes back a change of an index table.
    fn put_index_back(&mut self, change: IndexChange) {
        if let Some(entries) = self.indexes.get_mut(&change.column) {
            match change.before {
                None => entries.truncate(change.entry),
                Some(place) => {
                    if let Some(entry) = entries.get_mut(change.entry) {
                        entry.place = place;
                    }
                }
            }
        }
    }

    /// A trial begins: what it makes known will be taken back.
    pub fn start_trial(&self) -> Result<Trial, Stop> {
        Ok(Trial {
            mark: self.mark(),
            values: self.tableau.values()?,
        })
    }

    /// A trial ends: what is known, and the numbers of the tableau, are what they were.
    pub fn end_trial(&mut self, trial: Trial) -> Result<(), Stop> {
        let Trial { mark, values } = trial;
        self.undo(mark);
        self.tableau.restore(values)
    }
}
