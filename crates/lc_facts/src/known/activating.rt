//! Reads that are looked at, index terms of columns, and values.

use super::{IndexChange, Indexed, Known};
use crate::fact::Place;
use lc_base::ColId;
use lc_farkas::{Rational, Stop};
use lc_nodes::{Form, STORES};
use lc_table::{ColExprId, FormulaId, TermId, TermNode};

impl Known {
    /// The number of a form, by the tableau.
    pub fn form_value(&self, form: &Form) -> Result<Rational, Stop> {
        let mut value = Rational::whole(form.constant);
        for (atom, number) in &form.summands {
            let summand = Rational::whole(*number).times(self.tableau.value_of(*atom))?;
            value = value.plus(summand)?;
        }
        Ok(value)
    }

    /// The number of a term, by the tableau, to which reads are atoms.
    pub fn value_of(&mut self, term: TermId) -> Result<Rational, Stop> {
        self.nodes.learn_term(term)?;
        match self.nodes.form(term) {
            Some(form) => self.form_value(form),
            None => Ok(Rational::ZERO),
        }
    }

    /// The number of the difference of a comparison's sides.
    pub fn gap_value(&mut self, formula: FormulaId) -> Result<Rational, Stop> {
        self.nodes.learn_gap(formula)?;
        match self.nodes.gap(formula) {
            Some(form) => self.form_value(form),
            None => Ok(Rational::ZERO),
        }
    }

    /// Looks at a read from now on. Its index terms get the place if it is nearer than theirs.
    pub fn activate(&mut self, read: TermId, place: Place) -> Result<(), Stop> {
        if !self.active.contains_key(&read) {
            self.active.insert(read, place)?;
            self.tableau.enter(read)?;
        }
        if let Some(TermNode::Read(column, index)) = self.nodes.term_node(read) {
            self.note_indexes(column, index, place)?;
        }
        Ok(())
    }

    /// Looks at the reads of a formula.
    pub fn activate_reads(&mut self, formula: FormulaId, place: Place) -> Result<(), Stop> {
        self.nodes.learn(formula)?;
        for read in 0..self.nodes.reads(formula).len() {
            if let Some(read) = self.nodes.read_at(formula, read) {
                self.activate(read, place)?;
            }
        }
        Ok(())
    }

    /// Notes the indexes of the reads of a formula, which are not looked at for that.
    pub(super) fn note_reads(&mut self, formula: FormulaId, place: Place) -> Result<(), Stop> {
        self.nodes.learn(formula)?;
        for read in 0..self.nodes.reads(formula).len() {
            if let Some(read) = self.nodes.read_at(formula, read)
                && let Some(TermNode::Read(column, index)) = self.nodes.term_node(read)
            {
                self.note_indexes(column, index, place)?;
            }
        }
        Ok(())
    }

    /// Notes the index of a read, and those of the stores in its column.
    fn note_indexes(&mut self, column: ColExprId, index: TermId, place: Place) -> Result<(), Stop> {
        let Some(base) = self.nodes.base_of(column) else {
            return Ok(());
        };
        self.note_index(base, index, place)?;
        let mut column = column;
        for _ in 0..STORES {
            let Some(TermNode::Store(before, stored, _)) = self.nodes.column_node(column) else {
                return Ok(());
            };
            self.note_index(base, stored, place)?;
            column = before;
        }
        Ok(())
    }

    /// Whether a variable of the goal occurs in a term.
    pub fn is_near(&self, term: TermId) -> bool {
        for variable in self.nodes.term_variables(term) {
            if self.near.contains(variable) {
                return true;
            }
        }
        false
    }

    /// Gives numbers to the atoms of a term.
    fn enter_atoms(&mut self, term: TermId) -> Result<(), Stop> {
        if let Some(form) = self.nodes.form(term) {
            for (atom, _) in &form.summands {
                self.tableau.enter(*atom)?;
            }
        }
        Ok(())
    }

    /// Notes an index term of a column.
    fn note_index(&mut self, column: ColId, term: TermId, place: Place) -> Result<(), Stop> {
        self.nodes.learn_term(term)?;
        self.enter_atoms(term)?;
        let place = if self.is_near(term) {
            place
        } else {
            place.farther()
        };
        let Some(entry) = self.index_entry(column, term) else {
            return self.add_index(column, Indexed { term, place });
        };
        let before = self.index_place(column, entry);
        if place.is_nearer(before) {
            self.index_changes.push(IndexChange {
                column,
                entry,
                before: Some(before),
            })?;
            self.put_index_place(column, entry, place);
        }
        Ok(())
    }

    /// The place of an index term in the list of a column.
    fn index_entry(&self, column: ColId, term: TermId) -> Option<usize> {
        let entries = self.indexes.get(&column)?;
        for (entry, indexed) in entries.iter().enumerate() {
            if indexed.term == term {
                return Some(entry);
            }
        }
        None
    }

    /// The place of an index term.
    fn index_place(&self, column: ColId, entry: usize) -> Place {
        let found = match self.indexes.get(&column) {
            Some(entries) => entries.get(entry).copied(),
            None => None,
        };
        match found {
            Some(indexed) => indexed.place,
            None => Place { rank: 0, depth: 0 },
        }
    }

    /// Gives an index term a place.
    fn put_index_place(&mut self, column: ColId, entry: usize, place: Place) {
        if let Some(entries) = self.indexes.get_mut(&column)
            && let Some(indexed) = entries.get_mut(entry)
        {
            indexed.place = place;
        }
    }

    /// Adds an index term to the list of a column.
    fn add_index(&mut self, column: ColId, indexed: Indexed) -> Result<(), Stop> {
        if !self.indexes.contains_key(&column) {
            let none = Vec::new(self.alloc);
            self.indexes.insert(column, none)?;
        }
        if let Some(entries) = self.indexes.get_mut(&column) {
            let entry = entries.len();
            entries.push(indexed)?;
            self.index_changes.push(IndexChange {
                column,
                entry,
                before: None,
            })?;
        }
        Ok(())
    }
}
