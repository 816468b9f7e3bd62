//! How bounds are set.

use super::{Change, Coefficient, Tableau};
use crate::bound::{Bound, Side};
use crate::rational::{Rational, common_divisor};
use crate::reason::Reason;
use crate::row::Row;
use crate::stop::Stop;
use lc_linear::LinForm;
use lc_table::TermId;

/// A sum without its constant, whose coefficients have no common divisor, the first of them above 0.
#[derive(Drop)]
struct Normal {
    coefficients: Vec<Coefficient>,
    divisor: i128,
}

/// The sum divided by the common divisor of its coefficients, with the sign of the first.
fn divided(coefficients: Vec<Coefficient>) -> Result<Normal, Stop> {
    let mut divisor: i128 = 0;
    for coefficient in &coefficients {
        divisor = common_divisor(divisor, coefficient.number)?;
    }
    if let Some(first) = coefficients.first()
        && first.number < 0
    {
        divisor = divisor.checked_neg().ok_or(Stop::Large)?;
    }
    let mut coefficients = coefficients;
    if divisor != 1 {
        for coefficient in coefficients.iter_mut() {
            coefficient.number = coefficient.number.checked_div(divisor).ok_or(Stop::Large)?;
        }
    }
    Ok(Normal {
        coefficients,
        divisor,
    })
}

impl Tableau {
    /// The normal form of a sum of atoms, in which each atom occurs once.
    fn normal(&mut self, summands: &[(TermId, i128)]) -> Result<Normal, Stop> {
        let mut coefficients = Vec::with_capacity(self.alloc, summands.len())?;
        for (atom, number) in summands {
            let variable = self.variable_of(*atom)?;
            coefficients.push(Coefficient {
                variable,
                number: *number,
            })?;
        }
        coefficients.sort_by_key(|coefficient| coefficient.variable)?;
        divided(coefficients)
    }

    /// How many sums have a variable.
    fn sum_count(&self) -> usize {
        self.sums.len()
    }

    /// The variable that a sum has already.
    fn known_sum(&self, coefficients: &Vec<Coefficient>) -> Option<usize> {
        self.sums.get(coefficients).copied()
    }

    /// The variable of a sum, which is a new one with a row if the sum has none yet.
    fn sum_of(&mut self, coefficients: Vec<Coefficient>) -> Result<usize, Stop> {
        if let Some(only) = coefficients.first()
            && coefficients.len() == 1
        {
            return Ok(only.variable);
        }
        if let Some(variable) = self.known_sum(&coefficients) {
            return Ok(variable);
        }
        let variable = self.new_variable(Rational::ZERO, Some(self.sum_count()))?;
        let mut row = Row::zero(self.alloc, variable);
        let mut value = Rational::ZERO;
        for coefficient in &coefficients {
            let number = Rational::whole(coefficient.number);
            value = value.plus(number.times(self.value(coefficient.variable))?)?;
            self.add_to(&mut row, coefficient.variable, number)?;
        }
        self.put_value(variable, value);
        let place = self.rows.len();
        self.put_row(variable, Some(place));
        self.rows.push(row)?;
        self.sums.insert(coefficients, variable)?;
        Ok(variable)
    }

    /// Adds `number` times a variable to a row, by its own row if it is basic.
    fn add_to(&self, row: &mut Row, variable: usize, number: Rational) -> Result<(), Stop> {
        match self.row_of(variable) {
            Some(place) => match self.rows.get(place) {
                Some(other) => row.add_row(number, other),
                None => Ok(()),
            },
            None => row.add(variable, number),
        }
    }

    /// The atoms that occur in a form.
    fn summands(&self, form: &LinForm) -> Result<Vec<(TermId, i128)>, Stop> {
        let mut summands = Vec::with_capacity(self.alloc, form.atom_count())?;
        for place in 0..form.atom_count() {
            if let Some((atom, number)) = form.atom_at(place)
                && number != 0
            {
                summands.push((atom, number))?;
            }
        }
        Ok(summands)
    }

    /// Takes a fact in: its form is at most 0, or exactly 0. Why it contradicts the bounds is returned if that is seen at once.
    pub fn assert(
        &mut self,
        form: &LinForm,
        fact: usize,
        is_equation: bool,
    ) -> Result<Option<Vec<Reason>>, Stop> {
        let summands = self.summands(form)?;
        self.assert_sum(&summands, form.constant(), fact, is_equation)
    }

    /// Asserts a bound of a sum of atoms, in which each occurs once and not 0 times, and a constant.
    pub fn assert_sum(
        &mut self,
        summands: &[(TermId, i128)],
        constant: i128,
        fact: usize,
        is_equation: bool,
    ) -> Result<Option<Vec<Reason>>, Stop> {
        let normal = self.normal(summands)?;
        if normal.coefficients.is_empty() {
            return self.assert_constant(constant, fact, is_equation);
        }
        let divisor = normal.divisor;
        let Normal {
            coefficients,
            divisor: _,
        } = normal;
        let variable = self.sum_of(coefficients)?;
        let value = Rational::whole(constant)
            .negated()?
            .over(Rational::whole(divisor))?;
        let factor = Rational::ratio(1, divisor)?;
        let bound = Bound {
            value,
            fact,
            factor,
        };
        let opposite = Bound {
            value,
            fact,
            factor: factor.negated()?,
        };
        let (side, bound, opposite) = if divisor > 0 {
            (Side::Upper, bound, opposite)
        } else {
            (Side::Lower, opposite, bound)
        };
        if let Some(reasons) = self.set_bound(variable, side, bound)? {
            return Ok(Some(reasons));
        }
        if is_equation {
            return self.set_bound(variable, side.other(), opposite);
        }
        Ok(None)
    }

    /// Takes in a fact without atoms, which contradicts itself or says nothing.
    fn assert_constant(
        &self,
        constant: i128,
        fact: usize,
        is_equation: bool,
    ) -> Result<Option<Vec<Reason>>, Stop> {
        if constant == 0 || (constant < 0 && !is_equation) {
            return Ok(None);
        }
        let factor = Rational::whole(if constant > 0 { 1 } else { -1 });
        let mut reasons = Vec::new(self.alloc);
        reasons.push(Reason { fact, factor })?;
        Ok(Some(reasons))
    }

    /// Sets a bound if it is nearer than the present one.
    fn set_bound(
        &mut self,
        variable: usize,
        side: Side,
        bound: Bound,
    ) -> Result<Option<Vec<Reason>>, Stop> {
        let before = self.bound(variable, side);
        if let Some(before) = before
            && !is_nearer(side, bound.value, before.value)?
        {
            return Ok(None);
        }
        if let Some(other) = self.bound(variable, side.other())
            && is_nearer(side, bound.value, other.value)?
        {
            let mut reasons = Vec::new(self.alloc);
            reasons.push(Reason {
                fact: bound.fact,
                factor: bound.factor,
            })?;
            reasons.push(Reason {
                fact: other.fact,
                factor: other.factor,
            })?;
            return Ok(Some(reasons));
        }
        self.trail.push(Change {
            variable,
            side,
            before,
        })?;
        self.put_bound(variable, side, Some(bound));
        if self.row_of(variable).is_none() && is_nearer(side, bound.value, self.value(variable))? {
            self.shift(variable, bound.value)?;
        }
        Ok(None)
    }

    /// Gives a variable that is not basic another number.
    pub(super) fn shift(&mut self, variable: usize, value: Rational) -> Result<(), Stop> {
        let change = value.minus(self.value(variable))?;
        self.put_value(variable, value);
        for place in 0..self.rows.len() {
            self.shift_row(place, variable, change)?;
        }
        self.spend_rows()
    }

    /// Moves the basic variable of a row with a variable of it.
    fn shift_row(&mut self, place: usize, variable: usize, change: Rational) -> Result<(), Stop> {
        let Some(row) = self.rows.get(place) else {
            return Ok(());
        };
        let number = row.number_of(variable);
        if number.is_zero() {
            return Ok(());
        }
        let basic = row.basic;
        let value = self.value(basic).plus(number.times(change)?)?;
        self.put_value(basic, value);
        Ok(())
    }
}

/// Whether a bound on this side allows less than another number does.
pub(super) fn is_nearer(side: Side, value: Rational, other: Rational) -> Result<bool, Stop> {
    match side {
        Side::Lower => other.is_below(value),
        Side::Upper => value.is_below(other),
    }
}
