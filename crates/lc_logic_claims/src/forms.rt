//! Linear forms, and what they refute.
ghost use Rattle.std.specs.Prelude.{◌≡◌, ◌↔◌, Some, IfOk, IfSome, IsTrue, option_map, slice_get};
ghost use Rattle.lc_farkas.specs.Refutation.{Refutes};
ghost use Rattle.lc_linear.specs.Arithmetic.{CanAddScaled, added_scaled};
ghost use Rattle.lc_linear.specs.Closing.{AreEntries, Closes, entries_in};
ghost use Rattle.lc_linear.specs.Divided.{IsDivided};
ghost use Rattle.lc_linear.specs.Form.{HasForm, form_of};
ghost use Rattle.lc_linear.specs.LinForm.{GivesForm, GivesFormIn, HasNumbers, atoms, numbers};
ghost use Rattle.lc_table.specs.Tables.{IsTerm, term_in};
ghost use Rattle.lc_term.specs.Syntax.{Subtract};

use lc_base::OutOfMemory;
use lc_farkas::refute;
use lc_linear::{LinFault, LinForm, closes, form_of, form_of_difference};
use lc_table::{FormulaId, TermId, Terms};
use std::alloc::Global;

/// A term has the form that is defined, or one that leaves 128 bits.
pub fn forming(terms: &Terms, alloc: Global, term: TermId) -> Result<LinForm, LinFault>
    requires { IsTerm terms.now term }
    ensures { let t = term_in terms.now term in GivesFormIn terms.now result (HasForm t) (form_of t) }
{
    form_of(terms, alloc, term)
}

/// The form of a difference is that of its first side less its second.
pub fn forming_a_difference(
    terms: &Terms,
    alloc: Global,
    left: TermId,
    right: TermId,
) -> Result<LinForm, LinFault>
    requires left { IsTerm terms.now left }
    requires right { IsTerm terms.now right }
    ensures { let t = Subtract (term_in terms.now left) (term_in terms.now right) in GivesFormIn terms.now result (HasForm t) (form_of t) }
{
    form_of_difference(terms, alloc, left, right)
}

/// The atom that a form lists at a place has its coefficient beside it.
pub fn listing(form: &LinForm, place: usize) -> Option<(TermId, i128)>
    ensures { result ≡ option_map (λ a. (a, numbers form.now (Some a))) (slice_get (atoms form.now) place) }
{
    form.atom_at(place)
}

/// Forms are the same exactly if they have the same numbers.
pub fn comparing(form: &LinForm, other: &LinForm) -> bool
    ensures { IsTrue result ↔ HasNumbers form.now (numbers other.now) }
{
    form.is_same_as(other)
}

/// A multiple of a form is added to another, unless a number leaves 128 bits.
pub fn adding(form: LinForm, multiplier: i128, other: &LinForm) -> Result<LinForm, LinFault>
    ensures { GivesForm result (CanAddScaled (numbers form) multiplier (numbers other.now)) (added_scaled (numbers form) multiplier (numbers other.now)) }
{
    form.add_scaled(multiplier, other)
}

/// The constant of a quotient is rounded up. (What `alloc` is for: a wrong quotient has to be made.)
pub fn dividing(alloc: Global, form: LinForm, divisor: i64) -> Option<LinForm>
    ensures { IfSome result (λ quotient. IsDivided (numbers form) divisor (numbers quotient)) }
{
    let _ = alloc;
    form.divided(divisor)
}

/// Comparisons close exactly if their sum is a constant above 0.
pub fn closing(terms: &Terms, alloc: Global, entries: &[(FormulaId, i64)]) -> Result<bool, LinFault>
    requires { AreEntries terms.now entries.now }
    ensures { IfOk result (λ closed. IsTrue closed ↔ Closes (entries_in terms.now entries.now)) }
{
    closes(terms, alloc, entries)
}

/// A refutation of forms names those that there are, each 0 times or more, and they add up to a constant above 0.
pub fn refuting(
    alloc: Global,
    forms: &[LinForm],
    budget: u64,
) -> Result<Option<Vec<(usize, i64)>>, OutOfMemory>
    ensures { IfOk result (λ found. IfSome found (λ list. Refutes forms.now list.items)) }
{
    refute(alloc, forms, budget)
}
