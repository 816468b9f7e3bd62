//! The numbers that the tableau gives to atoms.

use super::Tableau;
use crate::rational::Rational;
use crate::stop::Stop;
use lc_linear::LinForm;
use lc_table::TermId;

/// Numbers of a tableau that were kept.
#[derive(Drop)]
pub struct Values {
    values: Vec<Rational>,
}

impl Tableau {
    /// The number of an atom, 0 if it has none.
    pub fn value_of(&self, atom: TermId) -> Rational {
        match self.atoms.get(&atom) {
            Some(variable) => self.value(*variable),
            None => Rational::ZERO,
        }
    }

    /// The number of a form.
    pub fn value_of_form(&self, form: &LinForm) -> Result<Rational, Stop> {
        let mut value = Rational::whole(form.constant());
        for place in 0..form.atom_count() {
            if let Some((atom, number)) = form.atom_at(place) {
                value = value.plus(Rational::whole(number).times(self.value_of(atom))?)?;
            }
        }
        Ok(value)
    }

    /// Keeps the numbers.
    pub fn values(&self) -> Result<Values, Stop> {
        let mut values = Vec::with_capacity(self.alloc, self.variables.len())?;
        for variable in &self.variables {
            values.push(variable.value)?;
        }
        Ok(Values { values })
    }

    /// Puts numbers back that were kept. Sums that came since then get the numbers that these make.
    pub fn restore(&mut self, kept: Values) -> Result<(), Stop> {
        for (variable, value) in kept.values.iter().enumerate() {
            self.put_value(variable, *value);
        }
        for variable in kept.values.len()..self.variables.len() {
            self.restore_sum(variable)?;
        }
        Ok(())
    }

    /// Gives a sum the number that the numbers of its variables make.
    fn restore_sum(&mut self, variable: usize) -> Result<(), Stop> {
        let Some(sum) = self
            .variables
            .get(variable)
            .and_then(|variable| variable.sum)
        else {
            return Ok(());
        };
        let mut value = Rational::ZERO;
        if let Some((coefficients, _)) = self.sums.get_index(sum) {
            for coefficient in coefficients {
                let number = Rational::whole(coefficient.number);
                value = value.plus(number.times(self.value(coefficient.variable))?)?;
            }
        }
        self.put_value(variable, value);
        Ok(())
    }
}
