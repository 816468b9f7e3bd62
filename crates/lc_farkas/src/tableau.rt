//! Bounds of variables and of sums of variables, with numbers for the variables: a simplex tableau whose bounds can be taken back.

mod asserting;
mod model;
mod pivoting;
mod spreading;
mod wholes;

use crate::bound::{Bound, Side};
use crate::rational::Rational;
use crate::row::Row;
use crate::stop::Stop;
use indexmap::IndexMap;
use lc_table::TermId;
pub use model::Values;
use std::alloc::Global;

/// A multiple of a variable, in a sum.
#[derive(Clone, Copy, PartialEq, Eq, Hash)]
struct Coefficient {
    variable: usize,
    number: i128,
}

/// A variable: its number, and what is known of it.
#[derive(Clone, Copy)]
struct Variable {
    value: Rational,
    lower: Option<Bound>,
    upper: Option<Bound>,
    /// The row whose basic variable it is.
    row: Option<usize>,
    /// The sum that it stands for; none if it stands for an atom.
    sum: Option<usize>,
}

/// A bound that was changed, and what it was before.
#[derive(Clone, Copy)]
struct Change {
    variable: usize,
    side: Side,
    before: Option<Bound>,
}

/// Bounds of atoms and of sums of atoms. The numbers of its variables are such that each sum has the sum of their numbers; after
/// a `check` that found no conflict all of them are within their bounds.
///
/// A value that an error was answered of is not used again.
pub struct Tableau {
    alloc: Global,
    variables: Vec<Variable>,
    rows: Vec<Row>,
    atoms: IndexMap<TermId, usize>,
    sums: IndexMap<Vec<Coefficient>, usize>,
    trail: Vec<Change>,
    /// How many pivots are left.
    left: u64,
    /// How many rows and summands may still be looked at.
    work: u64,
    /// What the next choice of `spread` is made of.
    seed: u64,
}

impl Drop for Tableau {
    fn drop(self) {
        let Tableau {
            alloc: _,
            variables: _,
            rows: _,
            atoms: _,
            sums: _,
            trail: _,
            left: _,
            work: _,
            seed: _,
        } = self;
    }
}

impl Tableau {
    /// No bounds. `pivots` pivots are allowed in all.
    pub fn new(alloc: Global, pivots: u64) -> Tableau {
        Tableau {
            alloc,
            variables: Vec::new(alloc),
            rows: Vec::new(alloc),
            atoms: IndexMap::new(alloc),
            sums: IndexMap::new(alloc),
            trail: Vec::new(alloc),
            left: pivots,
            work: u64::MAX,
            seed: 12345,
        }
    }

    /// Allows this much work from now on: a unit is a short row, or a summand of one, that is looked at.
    pub fn allow(&mut self, work: u64) {
        self.work = work;
    }

    /// Counts units of work. `Spent` if fewer are left.
    pub fn spend(&mut self, units: usize) -> Result<(), Stop> {
        self.work = self.work.checked_sub(units as u64).ok_or(Stop::Spent)?;
        Ok(())
    }

    /// The work of a look at each row.
    fn look(&self) -> usize {
        let mut units: usize = 0;
        for row in &self.rows {
            units = units.saturating_add(row.look());
        }
        units
    }

    /// Counts a look at each row.
    fn spend_rows(&mut self) -> Result<(), Stop> {
        let units = self.look();
        self.spend(units)
    }

    /// Where `undo` goes back to: the bounds as they stand.
    pub fn mark(&self) -> usize {
        self.trail.len()
    }

    /// Takes back the bounds that were set since a mark. The numbers stay as they are.
    pub fn undo(&mut self, mark: usize) {
        for _ in mark..self.trail.len() {
            self.undo_last();
        }
    }

    /// Takes back the bound that was set last.
    fn undo_last(&mut self) {
        if let Some(change) = self.trail.pop() {
            self.put_bound(change.variable, change.side, change.before);
        }
    }

    /// The number of a variable.
    fn value(&self, variable: usize) -> Rational {
        match self.variables.get(variable) {
            Some(variable) => variable.value,
            None => Rational::ZERO,
        }
    }

    fn put_value(&mut self, variable: usize, value: Rational) {
        if let Some(variable) = self.variables.get_mut(variable) {
            variable.value = value;
        }
    }

    /// The place of the row whose basic variable it is.
    fn row_of(&self, variable: usize) -> Option<usize> {
        self.variables.get(variable)?.row
    }

    fn put_row(&mut self, variable: usize, row: Option<usize>) {
        if let Some(variable) = self.variables.get_mut(variable) {
            variable.row = row;
        }
    }

    /// The bound of a variable on one side.
    fn bound(&self, variable: usize, side: Side) -> Option<Bound> {
        let variable = self.variables.get(variable)?;
        match side {
            Side::Lower => variable.lower,
            Side::Upper => variable.upper,
        }
    }

    fn put_bound(&mut self, variable: usize, side: Side, bound: Option<Bound>) {
        if let Some(variable) = self.variables.get_mut(variable) {
            match side {
                Side::Lower => variable.lower = bound,
                Side::Upper => variable.upper = bound,
            }
        }
    }

    /// A new variable, with a number and no bounds.
    fn new_variable(&mut self, value: Rational, sum: Option<usize>) -> Result<usize, Stop> {
        let variable = self.variables.len();
        self.variables.push(Variable {
            value,
            lower: None,
            upper: None,
            row: None,
            sum,
        })?;
        Ok(variable)
    }

    /// The variable of an atom. A new one gets a number that others seldom have.
    fn variable_of(&mut self, atom: TermId) -> Result<usize, Stop> {
        if let Some(variable) = self.atoms.get(&atom) {
            return Ok(*variable);
        }
        let number = (self.variables.len() as i128)
            .saturating_mul(37)
            .saturating_add(1000);
        let variable = self.new_variable(Rational::whole(number), None)?;
        self.atoms.insert(atom, variable)?;
        Ok(variable)
    }

    /// Gives an atom a number of its own, if it has none.
    pub fn enter(&mut self, atom: TermId) -> Result<(), Stop> {
        self.variable_of(atom)?;
        Ok(())
    }
}
