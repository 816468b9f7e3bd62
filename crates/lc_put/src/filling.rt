//! What a walk over a table puts in.
ghost use Rattle.lc_term.specs.Replacement.{Replacement, raising};

use crate::put::Put;
use crate::put_numbers::PutNumbers;
use lc_table::TermId;
use std::marker::Brand;

/// What is put in at the leaves of a table's terms and formulas.
#[derive(Clone, Copy)]
pub(crate) enum Filling<'a> {
    /// Column expressions for columns, terms for free variables.
    Put(Put<'a>),
    /// Column expressions for columns, terms for free variables, by their numbers.
    Numbers(PutNumbers<'a>),
    /// A term for one free variable.
    Variable(u32, TermId),
    /// A term for the variable of the quantifier whose body a formula is.
    Opening(TermId),
    /// The first number more for each bound variable that points beyond as many quantifiers as the second says.
    Shift(u32, u32),
}

/// The replacement that a walk makes. No code has it: what is put in by number has its tree in the table.
pub(crate) trait Filled {
    ghost replacement: { Replacement };
}

impl Filled for Brand {
    ghost replacement = { raising };
}
