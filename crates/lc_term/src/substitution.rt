//! Terms put in for a free variable, and for the variable of a quantifier.
ghost use Rattle.std.specs.Prelude.{◌≡◌, IfOk, IsTrue};
ghost use Rattle.lc_term.specs.Places.{passes, put_fits, open_fits};
ghost use Rattle.lc_term.specs.Substitution.{putting, opening, substituted, instantiated};
ghost use Rattle.lc_term.specs.View.{term_of, formula_of};

use crate::formula::Formula;
use crate::replace::{Replacing, replaced};
use crate::shifting::raised;
use crate::term::{ColExpr, Term};
use lc_base::{ColId, OutOfMemory};
use std::alloc::Global;
use std::cmp::Ordering;

// A term for a free variable.
#[derive(Clone, Copy)]
struct Substitution<'a> {
    variable: u32,
    term: &'a Term,
}

impl Replacing for Substitution<'_> {
    ghost replacement = { λ put. putting put.variable (term_of put.term.now) };

    ghost fits = { λ put. put_fits put.variable (term_of put.term.now) };

    fn column(&self, _: Global, column: ColId, _: u64) -> Result<ColExpr, OutOfMemory> {
        Ok(ColExpr::Base(column))
    }

    fn variable(&self, alloc: Global, number: u32, depth: u64) -> Result<Term, OutOfMemory> {
        if number == self.variable {
            raised(alloc, self.term, depth)
        } else {
            Ok(Term::Variable(number))
        }
    }

    fn bound(&self, _: Global, number: u32, _: u64) -> Result<Term, OutOfMemory> {
        Ok(Term::Bound(number))
    }
}

// A term for the variable of the quantifier whose body a formula is.
#[derive(Clone, Copy)]
struct Instantiation<'a> {
    term: &'a Term,
}

impl Replacing for Instantiation<'_> {
    ghost replacement = { λ put. opening (term_of put.term.now) };

    ghost fits = { λ put. open_fits (term_of put.term.now) };

    fn column(&self, _: Global, column: ColId, _: u64) -> Result<ColExpr, OutOfMemory> {
        Ok(ColExpr::Base(column))
    }

    fn variable(&self, _: Global, number: u32, _: u64) -> Result<Term, OutOfMemory> {
        Ok(Term::Variable(number))
    }

    fn bound(&self, alloc: Global, number: u32, depth: u64) -> Result<Term, OutOfMemory> {
        match u64::from(number).cmp(&depth) {
            Ordering::Less => Ok(Term::Bound(number)),
            Ordering::Equal => raised(alloc, self.term, depth),
            Ordering::Greater => Ok(Term::Bound(number - 1)),
        }
    }
}

/// The formula with a term for a free variable. Below quantifiers the term's bound variables are shifted,
/// so none is captured.
pub fn substitute(
    alloc: Global,
    formula: &Formula,
    variable: u32,
    term: &Term,
) -> Result<Formula, OutOfMemory>
    requires { IsTrue (passes (put_fits variable (term_of term.now)) 0 (formula_of formula.now)) }
    ensures { IfOk result (λ put. formula_of put ≡ substituted variable (term_of term.now) (formula_of formula.now)) }
{
    replaced(alloc, formula, &Substitution { variable, term }, 0)
}

/// The body of a quantifier with a term for the quantifier's variable. Below further quantifiers the term's
/// bound variables are shifted, so none is captured.
pub fn instantiate(alloc: Global, body: &Formula, term: &Term) -> Result<Formula, OutOfMemory>
    requires { IsTrue (passes (open_fits (term_of term.now)) 0 (formula_of body.now)) }
    ensures { IfOk result (λ put. formula_of put ≡ instantiated (term_of term.now) (formula_of body.now)) }
{
    replaced(alloc, body, &Instantiation { term }, 0)
}
