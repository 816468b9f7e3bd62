//! Quotients of forms.
ghost use Rattle.std.specs.Prelude.{◌≡◌, pos, ◌≤ℤ◌, ◌<◌, ◌↔◌, length, IsTrue, IsFalse, IsSome, IfSome};
ghost use Rattle.lc_linear.specs.Divided.{Divides, IsDivided};
ghost use Rattle.lc_linear.specs.LinForm.{numbers};
ghost use Rattle.lc_linear.specs.Quotient.{DividesAt, IsNoMultipleAt};

use super::LinForm;
use crate::number::{exact_quotient, rounded_up};

impl LinForm {
    /// The form with each coefficient divided by a number, and the constant divided and rounded up. There is none
    /// if the number is below 1 or does not divide a coefficient.
    pub fn divided(self, divisor: i64) -> Option<LinForm>
        ensures found { IsSome result ↔ Divides divisor (numbers self) }
        ensures value { IfSome result (λ quotient. IsDivided (numbers self) divisor (numbers quotient)) }
    {
        if divisor < 1 {
            return None;
        }
        let divisor = i128::from(divisor);
        let mut quotient = self;
        for index in 0..quotient.coefficients.len() {
            if !quotient.divide_coefficient(index, divisor) {
                return None;
            }
        }
        quotient.constant = rounded_up(quotient.constant, divisor);
        Some(quotient)
    }

    // Divides the coefficient of an entry, if there is no remainder.
    fn divide_coefficient(&mut self, index: usize, divisor: i128) -> bool
        requires within { index < length self.old.coefficients.entries }
        requires positive { pos 1 ≤ℤ divisor }
        ensures divided { IsTrue result → DividesAt divisor index self.old.coefficients.entries self.new.coefficients.entries }
        ensures refused { IsFalse result → IsNoMultipleAt divisor index self.old.coefficients.entries }
        ensures constant { self.new.constant ≡ self.old.constant }
    {
        let Some(quotient) = exact_quotient(self.coefficients[index], divisor) else {
            return false;
        };
        self.coefficients[index] = quotient;
        true
    }
}
