//! Terms and formulas moved below further quantifiers.
ghost use Rattle.std.specs.Prelude.{◌≡◌, ℕ, ◌+◌, ◌-◌, ◌^◌, min, nat_lt, if◌then◌else◌, IfOk, IsTrue};
ghost use Rattle.lc_term.specs.Counter.{HasCounted};
ghost use Rattle.lc_term.specs.Places.{term_passes, passes, shift_fits};
ghost use Rattle.lc_term.specs.Substitution.{shifting, shifted_term, shifted};
ghost use Rattle.lc_term.specs.View.{term_of, formula_of};

use crate::formula::Formula;
use crate::replace::{Replacing, replaced, replaced_term};
use crate::term::{ColExpr, Term};
use lc_base::{ColId, OutOfMemory};
use std::alloc::Global;

// Bound variables that point beyond the innermost `cutoff` quantifiers get `added` added to their numbers.
#[derive(Clone, Copy)]
struct Shifting {
    added: u64,
    cutoff: u32,
}

// The number of a bound variable after a shift, exact if it fits, as the callers see to.
fn shifted_number(number: u32, added: u64, cutoff: u64) -> u32
    ensures { result ≡ (if nat_lt number cutoff then number else min (number + added) (2 ^ 32 - 1)) }
{
    let wide = u64::from(number);
    if wide < cutoff {
        number
    } else {
        wide.saturating_add(added).min(u64::from(u32::MAX)) as u32
    }
}

impl Replacing for Shifting {
    ghost replacement = { λ shift. shifting shift.added shift.cutoff };

    ghost fits = { λ shift. shift_fits shift.added shift.cutoff };

    fn column(&self, _: Global, column: ColId, _: u64) -> Result<ColExpr, OutOfMemory> {
        Ok(ColExpr::Base(column))
    }

    fn variable(&self, _: Global, number: u32, _: u64) -> Result<Term, OutOfMemory> {
        Ok(Term::Variable(number))
    }

    fn bound(&self, _: Global, number: u32, depth: u64) -> Result<Term, OutOfMemory> {
        let cutoff = depth.saturating_add(u64::from(self.cutoff));
        Ok(Term::Bound(shifted_number(number, self.added, cutoff)))
    }
}

/// The term below as many further quantifiers as `depth` has counted, if the numbers of its bound variables fit.
pub(crate) fn raised(alloc: Global, term: &Term, depth: u64) -> Result<Term, OutOfMemory>
    ensures { IfOk result (λ moved.
        (n : ℕ) → HasCounted depth n → IsTrue (term_passes (shift_fits n 0 0) (term_of term.now)) →
        term_of moved ≡ shifted_term n 0 (term_of term.now)) }
{
    let shifting = Shifting {
        added: depth,
        cutoff: 0,
    };
    replaced_term(alloc, term, &shifting, 0)
}

/// The term below `added` further quantifiers: bound variables that point beyond the innermost `cutoff`
/// quantifiers get `added` added to their numbers.
pub fn shift(alloc: Global, term: &Term, added: u32, cutoff: u32) -> Result<Term, OutOfMemory>
    requires { IsTrue (term_passes (shift_fits added cutoff 0) (term_of term.now)) }
    ensures { IfOk result (λ moved. term_of moved ≡ shifted_term added cutoff (term_of term.now)) }
{
    let added = u64::from(added);
    replaced_term(alloc, term, &Shifting { added, cutoff }, 0)
}

/// The formula below `added` further quantifiers, as `shift` of a term.
pub fn shift_formula(
    alloc: Global,
    formula: &Formula,
    added: u32,
    cutoff: u32,
) -> Result<Formula, OutOfMemory>
    requires { IsTrue (passes (shift_fits added cutoff) 0 (formula_of formula.now)) }
    ensures { IfOk result (λ moved. formula_of moved ≡ shifted added cutoff (formula_of formula.now)) }
{
    let added = u64::from(added);
    replaced(alloc, formula, &Shifting { added, cutoff }, 0)
}
