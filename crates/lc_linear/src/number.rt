//! Arithmetic in 128 bits.
ghost use Rattle.std.specs.Prelude.{◌≡◌, ℤ, pos, ◌+ℤ◌, ◌-ℤ◌, ◌*ℤ◌, ◌≤ℤ◌, ◌↔◌, IsSome, IfSome};
ghost use Rattle.lc_linear.specs.Arithmetic.{GivesNumber};
ghost use Rattle.lc_linear.specs.Divided.{IsRoundedUp};

use crate::LinFault;

pub(crate) fn sum(left: i128, right: i128) -> Result<i128, LinFault>
    ensures { GivesNumber result (left +ℤ right) }
{
    left.checked_add(right).ok_or(LinFault::Large)
}

pub(crate) fn difference(left: i128, right: i128) -> Result<i128, LinFault>
    ensures { GivesNumber result (left -ℤ right) }
{
    left.checked_sub(right).ok_or(LinFault::Large)
}

pub(crate) fn product(left: i128, right: i128) -> Result<i128, LinFault>
    ensures { GivesNumber result (left *ℤ right) }
{
    left.checked_mul(right).ok_or(LinFault::Large)
}

// A number of 64 bits, in 128.
pub(crate) fn wide(number: i64) -> i128
    ensures { result ≡ number }
{
    i128::from(number)
}

// Its negation, which always fits.
pub(crate) fn negated(number: i64) -> i128
    ensures { result ≡ pos 0 -ℤ number }
{
    -i128::from(number)
}

// The quotient, if there is no remainder.
pub(crate) fn exact_quotient(number: i128, divisor: i128) -> Option<i128>
    requires { pos 1 ≤ℤ divisor }
    ensures found { IsSome result ↔ ((n : ℤ) × (number ≡ divisor *ℤ n)) }
    ensures value { IfSome result (λ n. number ≡ divisor *ℤ n) }
{
    if number % divisor == 0 {
        Some(number / divisor)
    } else {
        None
    }
}

// The quotient, rounded up.
pub(crate) fn rounded_up(number: i128, divisor: i128) -> i128
    requires { pos 1 ≤ℤ divisor }
    ensures { IsRoundedUp number divisor result }
{
    if number % divisor > 0 {
        number / divisor + 1
    } else {
        number / divisor
    }
}
