//! Rational numbers of 128 bits.

use crate::stop::Stop;

/// A rational number: a numerator, and a denominator from 1 on that has no common divisor with it.
#[derive(Clone, Copy, PartialEq, Eq, Hash)]
pub struct Rational {
    numerator: i128,
    denominator: i128,
}

fn sum(left: i128, right: i128) -> Result<i128, Stop> {
    left.checked_add(right).ok_or(Stop::Large)
}

fn difference(left: i128, right: i128) -> Result<i128, Stop> {
    left.checked_sub(right).ok_or(Stop::Large)
}

fn product(left: i128, right: i128) -> Result<i128, Stop> {
    left.checked_mul(right).ok_or(Stop::Large)
}

fn quotient(left: i128, right: i128) -> Result<i128, Stop> {
    left.checked_div(right).ok_or(Stop::Large)
}

/// The greatest common divisor; 0 of 0 and 0.
pub(crate) fn common_divisor(left: i128, right: i128) -> Result<i128, Stop> {
    let mut divisor = left.unsigned_abs();
    let mut rest = right.unsigned_abs();
    'rests: while rest != 0 {
        let next = divisor % rest;
        divisor = rest;
        rest = next;
    }
    i128::try_from(divisor).map_err(|_| Stop::Large)
}

impl Rational {
    /// The number 0.
    pub const ZERO: Rational = Rational {
        numerator: 0,
        denominator: 1,
    };

    /// A whole number.
    pub fn whole(number: i128) -> Rational {
        Rational {
            numerator: number,
            denominator: 1,
        }
    }

    /// The quotient of two whole numbers. `Large` is returned also if the second is 0.
    pub fn ratio(numerator: i128, denominator: i128) -> Result<Rational, Stop> {
        if denominator == 1 {
            return Ok(Rational::whole(numerator));
        }
        if denominator == 0 {
            return Err(Stop::Large);
        }
        let divisor = common_divisor(numerator, denominator)?;
        let divisor = if denominator < 0 {
            difference(0, divisor)?
        } else {
            divisor
        };
        Ok(Rational {
            numerator: quotient(numerator, divisor)?,
            denominator: quotient(denominator, divisor)?,
        })
    }

    /// Its numerator, which has its sign.
    pub fn numerator(self) -> i128 {
        self.numerator
    }

    /// Its denominator, which is 1 or more.
    pub fn denominator(self) -> i128 {
        self.denominator
    }

    /// Whether it is a whole number.
    pub fn is_whole(self) -> bool {
        self.denominator == 1
    }

    /// Whether it is 0.
    pub fn is_zero(self) -> bool {
        self.numerator == 0
    }

    /// Whether it is above 0.
    pub fn is_positive(self) -> bool {
        self.numerator > 0
    }

    /// The sum of two numbers.
    pub fn plus(self, other: Rational) -> Result<Rational, Stop> {
        if self.denominator == other.denominator {
            let numerator = sum(self.numerator, other.numerator)?;
            return Rational::ratio(numerator, self.denominator);
        }
        let left = product(self.numerator, other.denominator)?;
        let right = product(other.numerator, self.denominator)?;
        Rational::ratio(
            sum(left, right)?,
            product(self.denominator, other.denominator)?,
        )
    }

    /// The number with the other sign.
    pub fn negated(self) -> Result<Rational, Stop> {
        Ok(Rational {
            numerator: difference(0, self.numerator)?,
            denominator: self.denominator,
        })
    }

    /// The difference of two numbers.
    pub fn minus(self, other: Rational) -> Result<Rational, Stop> {
        self.plus(other.negated()?)
    }

    /// The product of two numbers.
    pub fn times(self, other: Rational) -> Result<Rational, Stop> {
        Rational::ratio(
            product(self.numerator, other.numerator)?,
            product(self.denominator, other.denominator)?,
        )
    }

    /// The quotient of two numbers. `Large` is returned also if the second is 0.
    pub fn over(self, other: Rational) -> Result<Rational, Stop> {
        Rational::ratio(
            product(self.numerator, other.denominator)?,
            product(self.denominator, other.numerator)?,
        )
    }

    /// Whether it is less than another number.
    pub fn is_below(self, other: Rational) -> Result<bool, Stop> {
        if self.denominator == other.denominator {
            return Ok(self.numerator < other.numerator);
        }
        let left = product(self.numerator, other.denominator)?;
        let right = product(other.numerator, self.denominator)?;
        Ok(left < right)
    }

    /// The number without its sign.
    pub fn size(self) -> Result<Rational, Stop> {
        if self.numerator < 0 {
            self.negated()
        } else {
            Ok(self)
        }
    }

    /// The greatest whole number that is not above it.
    pub fn floor(self) -> Result<i128, Stop> {
        self.numerator
            .checked_div_euclid(self.denominator)
            .ok_or(Stop::Large)
    }

    /// The least whole number that is not below it.
    pub fn ceiling(self) -> Result<i128, Stop> {
        let below = self.negated()?.floor()?;
        difference(0, below)
    }
}
