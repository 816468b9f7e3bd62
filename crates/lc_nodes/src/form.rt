//! Linear forms over the atoms of a table of nodes.

use lc_farkas::Stop;
use lc_table::TermId;
use std::alloc::Global;

/// A linear form: a constant, and multiples of atoms, none 0 times, sorted by number. Atoms are variables and whole reads.
#[derive(Drop)]
pub struct Form {
    pub constant: i128,
    pub summands: Vec<(TermId, i128)>,
}

/// The greatest common divisor of two sizes; 0 of 0 and 0.
fn common_divisor(left: u128, right: u128) -> u128 {
    let mut divisor = left;
    let mut rest = right;
    'rests: while rest != 0 {
        let next = divisor % rest;
        divisor = rest;
        rest = next;
    }
    divisor
}

impl Form {
    /// The form that is a number.
    pub fn constant(alloc: Global, number: i128) -> Form {
        Form {
            constant: number,
            summands: Vec::new(alloc),
        }
    }

    /// The same form, in memory of its own.
    pub fn try_clone(&self, alloc: Global) -> Result<Form, Stop> {
        Ok(Form {
            constant: self.constant,
            summands: Vec::from_slice(alloc, &self.summands)?,
        })
    }

    /// The coefficient of an atom in it.
    pub fn number_of(&self, atom: TermId) -> i128 {
        let place = self
            .summands
            .as_slice()
            .partition_point(|summand| summand.0.0 < atom.0);
        match self.summands.get(place) {
            Some(summand) if summand.0 == atom => summand.1,
            _ => 0,
        }
    }

    /// Whether no atom occurs in it.
    pub fn is_constant(&self) -> bool {
        self.summands.is_empty()
    }

    /// Whether it is the same form as another.
    pub fn is_same_as(&self, other: &Form) -> bool {
        self.constant == other.constant && self.summands.as_slice() == other.summands.as_slice()
    }

    /// Adds a number.
    pub fn add_number(&mut self, number: i128) -> Result<(), Stop> {
        self.constant = self.constant.checked_add(number).ok_or(Stop::Large)?;
        Ok(())
    }

    /// Adds `number` times an atom.
    pub fn add_atom(&mut self, atom: TermId, number: i128) -> Result<(), Stop> {
        if number == 0 {
            return Ok(());
        }
        let place = self
            .summands
            .as_slice()
            .partition_point(|summand| summand.0.0 < atom.0);
        let before = match self.summands.get(place) {
            Some(summand) if summand.0 == atom => summand.1,
            _ => {
                if place <= self.summands.len() {
                    self.summands.insert(place, (atom, number))?;
                }
                return Ok(());
            }
        };
        let sum = before.checked_add(number).ok_or(Stop::Large)?;
        if sum == 0 {
            if place < self.summands.len() {
                self.summands.remove(place);
            }
            return Ok(());
        }
        if let Some(summand) = self.summands.get_mut(place) {
            summand.1 = sum;
        }
        Ok(())
    }

    /// Adds `factor` times another form.
    pub fn add(&mut self, factor: i128, other: &Form) -> Result<(), Stop> {
        self.add_number(factor.checked_mul(other.constant).ok_or(Stop::Large)?)?;
        for (atom, number) in &other.summands {
            self.add_atom(*atom, factor.checked_mul(*number).ok_or(Stop::Large)?)?;
        }
        Ok(())
    }

    /// The greatest common divisor of the numbers of its atoms; 0 of a constant.
    pub fn divisor(&self) -> Result<i128, Stop> {
        let mut divisor: u128 = 0;
        for (_, number) in &self.summands {
            divisor = common_divisor(divisor, number.unsigned_abs());
        }
        i128::try_from(divisor).map_err(|_| Stop::Large)
    }
}
