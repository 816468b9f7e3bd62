//! Whole numbers: variables are moved to them if all bounds allow it, and the part of an atom's row that is a fraction.

use super::Tableau;
use crate::bound::Side;
use crate::rational::Rational;
use crate::stop::Stop;
use indexmap::IndexMap;
use lc_table::TermId;

/// How loose an atom is that no row determines.
const LOOSEST: u32 = 1000;

impl Tableau {
    /// Moves each variable that no row determines, and that has a fraction, to the whole number below or above it, if all bounds
    /// allow it. Whether one was moved.
    pub fn make_whole(&mut self) -> Result<bool, Stop> {
        let mut is_moved = false;
        for variable in 0..self.variables.len() {
            if self.row_of(variable).is_none()
                && !self.value(variable).is_whole()
                && self.move_to_whole(variable)?
            {
                is_moved = true;
            }
        }
        Ok(is_moved)
    }

    fn move_to_whole(&mut self, variable: usize) -> Result<bool, Stop> {
        self.spend_rows()?;
        let value = self.value(variable);
        let room = self.room(variable)?;
        for whole in [value.floor()?, value.ceiling()?] {
            let whole = Rational::whole(whole);
            if room.has(whole.minus(value)?)? {
                self.shift(variable, whole)?;
                return Ok(true);
            }
        }
        Ok(false)
    }

    /// How many bounds the variables lack that make the number of an atom a fraction: the fewer, the fewer cuts are needed.
    pub fn looseness(&self, atom: TermId) -> u32 {
        let Some(row) = self
            .place_of(atom)
            .and_then(|variable| self.row_of(variable))
            .and_then(|place| self.rows.get(place))
        else {
            return LOOSEST;
        };
        let mut count: u32 = 0;
        for summand in &row.summands {
            if !summand.number.is_whole() {
                count = count.saturating_add(self.missing_bounds(summand.variable));
            }
        }
        count
    }

    fn missing_bounds(&self, variable: usize) -> u32 {
        u32::from(self.bound(variable, Side::Lower).is_none())
            + u32::from(self.bound(variable, Side::Upper).is_none())
    }

    /// The variable of an atom, if it has one.
    fn place_of(&self, atom: TermId) -> Option<usize> {
        self.atoms.get(&atom).copied()
    }

    /// A sum of atoms with whole numbers, whose number has the same fraction as that of an atom in it: the atom less the nearest
    /// whole multiples of the variables that its row consists of. Nothing if no row determines the atom.
    pub fn fractional_part(&self, atom: TermId) -> Result<Vec<(TermId, i128)>, Stop> {
        let mut numbers = IndexMap::new(self.alloc);
        if let Some(variable) = self.place_of(atom)
            && let Some(row) = self.row_of(variable).and_then(|place| self.rows.get(place))
        {
            numbers.insert(variable, 1)?;
            for summand in &row.summands {
                let times = summand.number.plus(Rational::ratio(1, 2)?)?.floor()?;
                if times != 0 {
                    self.subtract_atoms(&mut numbers, summand.variable, times)?;
                }
            }
        }
        self.summands_of(&numbers)
    }

    /// Subtracts `times` times a variable, by its atoms.
    fn subtract_atoms(
        &self,
        numbers: &mut IndexMap<usize, i128>,
        variable: usize,
        times: i128,
    ) -> Result<(), Stop> {
        let Some(sum) = self
            .variables
            .get(variable)
            .and_then(|variable| variable.sum)
        else {
            return subtract(numbers, variable, times);
        };
        if let Some((coefficients, _)) = self.sums.get_index(sum) {
            for coefficient in coefficients {
                let number = times.checked_mul(coefficient.number).ok_or(Stop::Large)?;
                subtract(numbers, coefficient.variable, number)?;
            }
        }
        Ok(())
    }

    /// The atoms whose variables have these numbers, in the order in which the atoms were entered.
    fn summands_of(&self, numbers: &IndexMap<usize, i128>) -> Result<Vec<(TermId, i128)>, Stop> {
        let mut summands = Vec::new(self.alloc);
        for (atom, variable) in self.atoms.iter() {
            let number = numbers.get(variable).copied().unwrap_or(0);
            if number != 0 {
                summands.push((*atom, number))?;
            }
        }
        Ok(summands)
    }
}

/// Subtracts a number from that of a variable.
fn subtract(
    numbers: &mut IndexMap<usize, i128>,
    variable: usize,
    number: i128,
) -> Result<(), Stop> {
    let before = numbers.get(&variable).copied().unwrap_or(0);
    let after = before.checked_sub(number).ok_or(Stop::Large)?;
    numbers.insert(variable, after)?;
    Ok(())
}
