//! Rows of a tableau.

use crate::rational::Rational;
use crate::stop::Stop;
use std::alloc::Global;

/// With so many summands a row takes twice the work of a short one.
const AT_HAND: usize = 64;

/// A multiple of a variable.
#[derive(Clone, Copy)]
pub(crate) struct Summand {
    pub(crate) variable: usize,
    pub(crate) number: Rational,
}

/// A basic variable, which is the sum of these summands. They are sorted by variable.
pub(crate) struct Row {
    pub(crate) basic: usize,
    pub(crate) summands: Vec<Summand>,
}

// Written out and not derived, so that dropping a row is one call.
impl Drop for Row {
    fn drop(self) {
        let Row {
            basic: _,
            summands: _,
        } = self;
    }
}

impl Row {
    /// A variable that is 0.
    pub(crate) fn zero(alloc: Global, basic: usize) -> Row {
        Row {
            basic,
            summands: Vec::new(alloc),
        }
    }

    /// The work of a look at it: one that is long is not at hand.
    pub(crate) fn look(&self) -> usize {
        1 + self.summands.len() / AT_HAND
    }

    /// The coefficient of a variable in it.
    pub(crate) fn number_of(&self, variable: usize) -> Rational {
        let place = self
            .summands
            .as_slice()
            .partition_point(|summand| summand.variable < variable);
        match self.summands.get(place) {
            Some(summand) if summand.variable == variable => summand.number,
            _ => Rational::ZERO,
        }
    }

    /// Adds `number` times a variable.
    pub(crate) fn add(&mut self, variable: usize, number: Rational) -> Result<(), Stop> {
        if number.is_zero() {
            return Ok(());
        }
        let place = self
            .summands
            .as_slice()
            .partition_point(|summand| summand.variable < variable);
        let before = match self.summands.get(place) {
            Some(summand) if summand.variable == variable => summand.number,
            _ => {
                if place <= self.summands.len() {
                    self.summands.insert(place, Summand { variable, number })?;
                }
                return Ok(());
            }
        };
        let sum = before.plus(number)?;
        if sum.is_zero() {
            if place < self.summands.len() {
                self.summands.remove(place);
            }
            return Ok(());
        }
        if let Some(summand) = self.summands.get_mut(place) {
            summand.number = sum;
        }
        Ok(())
    }

    /// Adds `factor` times another row.
    pub(crate) fn add_row(&mut self, factor: Rational, other: &Row) -> Result<(), Stop> {
        for summand in &other.summands {
            self.add(summand.variable, factor.times(summand.number)?)?;
        }
        Ok(())
    }

    /// The row of another of its variables, which it is solved for, with its basic variable in its place.
    pub(crate) fn solved(&self, alloc: Global, variable: usize) -> Result<Row, Stop> {
        let divisor = self.number_of(variable);
        let mut row = Row::zero(alloc, variable);
        for summand in &self.summands {
            if summand.variable != variable {
                let number = summand.number.over(divisor)?.negated()?;
                row.add(summand.variable, number)?;
            }
        }
        row.add(self.basic, Rational::whole(1).over(divisor)?)?;
        Ok(row)
    }
}
