//! How numbers within all bounds are found.

use super::Tableau;
use super::asserting::is_nearer;
use crate::bound::{Bound, Side};
use crate::rational::Rational;
use crate::reason::Reason;
use crate::row::{Row, Summand};
use crate::stop::Stop;
use std::mem;

/// A row whose basic variable is beyond a bound.
#[derive(Clone, Copy)]
struct Broken {
    place: usize,
    basic: usize,
    side: Side,
    bound: Bound,
}

impl Tableau {
    /// Finds numbers that are within all bounds, or returns why there are none; `Spent` if that takes more pivots or more work than
    /// are left.
    pub fn check(&mut self) -> Result<Option<Vec<Reason>>, Stop> {
        let budget = self.left;
        for spent in 0..budget {
            let Some(broken) = self.first_broken()? else {
                self.left = budget - spent;
                return Ok(None);
            };
            let Some(entering) = self.entering(broken)? else {
                self.left = budget - spent;
                return Ok(Some(self.conflict(broken)?));
            };
            self.pivot(broken, entering)?;
        }
        self.left = 0;
        Err(Stop::Spent)
    }

    /// The bound that a basic variable is beyond.
    fn broken_bound(&self, basic: usize) -> Result<Option<(Side, Bound)>, Stop> {
        let value = self.value(basic);
        if let Some(bound) = self.bound(basic, Side::Lower)
            && value.is_below(bound.value)?
        {
            return Ok(Some((Side::Lower, bound)));
        }
        if let Some(bound) = self.bound(basic, Side::Upper)
            && bound.value.is_below(value)?
        {
            return Ok(Some((Side::Upper, bound)));
        }
        Ok(None)
    }

    /// The least basic variable that is beyond a bound.
    fn first_broken(&self) -> Result<Option<Broken>, Stop> {
        let mut first: Option<Broken> = None;
        for (place, row) in self.rows.iter().enumerate() {
            let basic = row.basic;
            let is_less = match first {
                Some(broken) => basic < broken.basic,
                None => true,
            };
            if is_less && let Some((side, bound)) = self.broken_bound(basic)? {
                first = Some(Broken {
                    place,
                    basic,
                    side,
                    bound,
                });
            }
        }
        Ok(first)
    }

    /// Which bound of a variable of the row keeps its basic variable from going back within its bound.
    fn limiting_side(broken: Broken, number: Rational) -> Side {
        // A basic variable below its lower bound is to grow.
        if number.is_positive() {
            broken.side.other()
        } else {
            broken.side
        }
    }

    /// Whether a variable of the row can give way.
    fn can_give(&self, broken: Broken, summand: Summand) -> Result<bool, Stop> {
        let side = Tableau::limiting_side(broken, summand.number);
        match self.bound(summand.variable, side) {
            Some(bound) => is_nearer(side, self.value(summand.variable), bound.value),
            None => Ok(true),
        }
    }

    /// The least variable of the row that can give way.
    fn entering(&self, broken: Broken) -> Result<Option<usize>, Stop> {
        let Some(row) = self.rows.get(broken.place) else {
            return Ok(None);
        };
        for summand in &row.summands {
            if self.can_give(broken, *summand)? {
                return Ok(Some(summand.variable));
            }
        }
        Ok(None)
    }

    /// Why the basic variable of the row cannot be within its bound: its bound, and those of the row's variables.
    fn conflict(&self, broken: Broken) -> Result<Vec<Reason>, Stop> {
        let mut reasons = Vec::new(self.alloc);
        reasons.push(Reason {
            fact: broken.bound.fact,
            factor: broken.bound.factor,
        })?;
        if let Some(row) = self.rows.get(broken.place) {
            for summand in &row.summands {
                let side = Tableau::limiting_side(broken, summand.number);
                if let Some(bound) = self.bound(summand.variable, side) {
                    reasons.push(Reason {
                        fact: bound.fact,
                        factor: bound.factor.times(summand.number.size()?)?,
                    })?;
                }
            }
        }
        Ok(reasons)
    }

    /// Makes a variable of the row basic in place of its basic variable, which gets the number of its bound.
    fn pivot(&mut self, broken: Broken, entering: usize) -> Result<(), Stop> {
        self.spend_rows()?;
        let empty = Row::zero(self.alloc, broken.basic);
        let Some(row) = self.rows.get_mut(broken.place) else {
            return Ok(());
        };
        let old = mem::replace(row, empty);
        let change = broken
            .bound
            .value
            .minus(self.value(broken.basic))?
            .over(old.number_of(entering))?;
        let value = self.value(entering).plus(change)?;
        self.put_value(broken.basic, broken.bound.value);
        self.put_value(entering, value);
        let new = old.solved(self.alloc, entering)?;
        for place in 0..self.rows.len() {
            self.follow(place, entering, change, &new)?;
        }
        self.put_row(broken.basic, None);
        self.put_row(entering, Some(broken.place));
        if let Some(row) = self.rows.get_mut(broken.place) {
            *row = new;
        }
        Ok(())
    }

    /// Moves the basic variable of a row with a variable of it, which is replaced there by its own row.
    fn follow(
        &mut self,
        place: usize,
        variable: usize,
        change: Rational,
        by: &Row,
    ) -> Result<(), Stop> {
        let Some(row) = self.rows.get_mut(place) else {
            return Ok(());
        };
        let number = row.number_of(variable);
        if number.is_zero() {
            return Ok(());
        }
        row.add(variable, number.negated()?)?;
        row.add_row(number, by)?;
        let (basic, look) = (row.basic, row.look());
        let value = self.value(basic).plus(number.times(change)?)?;
        self.put_value(basic, value);
        self.spend(by.summands.len().saturating_mul(look))
    }
}
