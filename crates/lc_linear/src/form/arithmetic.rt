//! Sums and differences of forms.
ghost use Rattle.std.specs.Prelude.{◌≡◌, Some, None, ◌+ℤ◌, ◌-ℤ◌, ◌*ℤ◌, FitsSigned, OnOk, Err};
ghost use Rattle.std.specs.Int.{w128};
ghost use Rattle.lc_linear.specs.Numbered.{number_form, atom_form};
ghost use Rattle.lc_linear.specs.LinForm.{numbers, HasNumbers, GivesForm};
ghost use Rattle.lc_linear.specs.Arithmetic.{added, CanAdd, added_scaled, CanAddScaled, subtracted, CanSubtract};

use super::LinForm;
use crate::LinFault;
use crate::number::{difference, product, sum};
use lc_table::TermId;

impl LinForm {
    /// This form with `multiplier` times another one added. `Large` if a product or a sum leaves 128 bits.
    pub fn add_scaled(self, multiplier: i128, other: &LinForm) -> Result<LinForm, LinFault>
        ensures { let f = numbers self in
            let g = numbers other.now in
            GivesForm result (CanAddScaled f multiplier g) (added_scaled f multiplier g) }
    {
        let mut sum = self;
        sum.add_number(product(multiplier, other.constant)?)?;
        for (atom, coefficient) in other.coefficients.iter() {
            sum.add_atom(*atom, product(multiplier, *coefficient)?)?;
        }
        Ok(sum)
    }

    // The sum of two forms. The one with fewer atoms is added to the other.
    pub(crate) fn plus(self, other: LinForm) -> Result<LinForm, LinFault>
        ensures { let f = numbers self in
            let g = numbers other in
            GivesForm result (CanAdd f g) (added f g) }
    {
        if self.coefficients.len() < other.coefficients.len() {
            other.add_scaled(1, &self)
        } else {
            self.add_scaled(1, &other)
        }
    }

    // The difference of two forms, taken directly: -1 times a number of 128 bits may not be one.
    pub(crate) fn subtract(self, other: &LinForm) -> Result<LinForm, LinFault>
        ensures { let f = numbers self in
            let g = numbers other.now in
            GivesForm result (CanSubtract f g) (subtracted f g) }
    {
        let mut rest = self;
        rest.subtract_number(other.constant)?;
        for (atom, coefficient) in other.coefficients.iter() {
            rest.subtract_atom(*atom, *coefficient)?;
        }
        Ok(rest)
    }

    // Adds a number.
    pub(crate) fn add_number(&mut self, number: i128) -> Result<(), LinFault>
        ensures ok { OnOk result (HasNumbers self.new (λ p. numbers self.old p +ℤ number_form number p)) }
        ensures fits { OnOk result (FitsSigned w128 (numbers self.old None +ℤ number)) }
        ensures large { result ≡ Err LinFault.Large → FitsSigned w128 (numbers self.old None +ℤ number) → ⊥ }
    {
        self.constant = sum(self.constant, number)?;
        Ok(())
    }

    // Subtracts a number.
    pub(crate) fn subtract_number(&mut self, number: i128) -> Result<(), LinFault>
        ensures ok { OnOk result (HasNumbers self.new (λ p. numbers self.old p -ℤ number_form number p)) }
        ensures fits { OnOk result (FitsSigned w128 (numbers self.old None -ℤ number)) }
        ensures large { result ≡ Err LinFault.Large → FitsSigned w128 (numbers self.old None -ℤ number) → ⊥ }
    {
        self.constant = difference(self.constant, number)?;
        Ok(())
    }

    // Adds `count` times an atom.
    pub(crate) fn add_atom(&mut self, atom: TermId, count: i128) -> Result<(), LinFault>
        ensures ok { OnOk result (HasNumbers self.new (λ p. numbers self.old p +ℤ count *ℤ atom_form atom p)) }
        ensures fits { OnOk result (FitsSigned w128 (numbers self.old (Some atom) +ℤ count)) }
        ensures large { result ≡ Err LinFault.Large → FitsSigned w128 (numbers self.old (Some atom) +ℤ count) → ⊥ }
    {
        let (index, before) = self.coefficients.insert_full(atom, count)?;
        let Some(before) = before else {
            return Ok(());
        };
        let Some(sum) = before.checked_add(count) else {
            return Err(LinFault::Large);
        };
        self.coefficients[index] = sum;
        Ok(())
    }

    // Subtracts `count` times an atom.
    pub(crate) fn subtract_atom(&mut self, atom: TermId, count: i128) -> Result<(), LinFault>
        ensures ok { OnOk result (HasNumbers self.new (λ p. numbers self.old p -ℤ count *ℤ atom_form atom p)) }
        ensures fits { OnOk result (FitsSigned w128 (numbers self.old (Some atom) -ℤ count)) }
        ensures large { result ≡ Err LinFault.Large → FitsSigned w128 (numbers self.old (Some atom) -ℤ count) → ⊥ }
    {
        let coefficient = difference(self.coefficient(atom), count)?;
        self.coefficients.insert(atom, coefficient)?;
        Ok(())
    }
}
