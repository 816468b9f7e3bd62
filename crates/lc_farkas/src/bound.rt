//! Bounds of variables.

use crate::rational::Rational;

/// A bound of a variable, by a fact: a multiple of the form of the fact is the variable less the bound for an upper bound,
/// and the bound less the variable for a lower one.
#[derive(Clone, Copy)]
pub(crate) struct Bound {
    pub(crate) value: Rational,
    pub(crate) fact: usize,
    pub(crate) factor: Rational,
}

/// On which side of a variable a bound is.
#[derive(Clone, Copy, PartialEq, Eq)]
pub(crate) enum Side {
    Lower,
    Upper,
}

impl Side {
    /// The opposite side.
    pub(crate) fn other(self) -> Side {
        match self {
            Side::Lower => Side::Upper,
            Side::Upper => Side::Lower,
        }
    }
}
