//! The forms of terms and of differences.
ghost use Rattle.std.specs.Prelude.{IfSome, IfOk};
ghost use Rattle.lc_term.specs.Syntax as S;
ghost use Rattle.lc_table.specs.Tables.{term_in, IsTerm};
ghost use Rattle.lc_linear.specs.LinForm.{IsFormIn, GivesFormIn};
ghost use Rattle.lc_linear.specs.Form.{form_of, HasForm};

use crate::exact::exact_form;
use crate::quick::{difference_weight, is_light, quick_difference, quick_form, weight};
use crate::shared::shared_form;
use crate::{LinFault, LinForm};
use lc_base::OutOfMemory;
use lc_table::{TermId, Terms};
use std::alloc::Global;

/// The linear form of a term. Its atoms are variables and whole reads, equal only if they are the same term.
///
/// `Large` is returned exactly if a coefficient or constant of the form, or of a sum, difference or product that
/// the term is made of, does not fit 128 bits. Each part's form is made before the part that it is in, and a
/// difference is taken directly.
pub fn form_of(terms: &Terms, alloc: Global, term: TermId) -> Result<LinForm, LinFault>
    requires { IsTerm terms.now term }
    ensures { let t = term_in terms.now term in GivesFormIn terms.now result (HasForm t) (form_of t) }
{
    match bounded_form(terms, alloc, term)? {
        Some(form) => Ok(form),
        None => exact_form(terms, alloc, term),
    }
}

/// The linear form of the difference of two terms, as of `left <= right` and `left = right`. It is `Large` as that
/// of a term is.
pub fn form_of_difference(
    terms: &Terms,
    alloc: Global,
    left: TermId,
    right: TermId,
) -> Result<LinForm, LinFault>
    requires left { IsTerm terms.now left }
    requires right { IsTerm terms.now right }
    ensures { let t = S.Subtract (term_in terms.now left) (term_in terms.now right) in GivesFormIn terms.now result (HasForm t) (form_of t) }
{
    match bounded_difference(terms, alloc, left, right)? {
        Some(form) => Ok(form),
        None => exact_form(terms, alloc, left)?.subtract(&exact_form(terms, alloc, right)?),
    }
}

// The form of a term, if a bound shows that no number on the way leaves 128 bits.
fn bounded_form(terms: &Terms, alloc: Global, term: TermId) -> Result<Option<LinForm>, OutOfMemory>
    requires { IsTerm terms.now term }
    ensures { let t = term_in terms.now term in IfOk result (λ found. IfSome found (λ form. HasForm t × IsFormIn terms.now form (form_of t))) }
{
    if !is_light(weight(terms, term)) {
        return shared_form(terms, alloc, &[(term, 1)]);
    }
    match quick_form(terms, alloc, term) {
        Ok(form) => Ok(Some(form)),
        Err(LinFault::Large) => Ok(None),
        Err(LinFault::OutOfMemory) => Err(OutOfMemory),
    }
}

// The form of a difference, if a bound shows that no number leaves 128 bits.
fn bounded_difference(
    terms: &Terms,
    alloc: Global,
    left: TermId,
    right: TermId,
) -> Result<Option<LinForm>, OutOfMemory>
    requires left { IsTerm terms.now left }
    requires right { IsTerm terms.now right }
    ensures { let t = S.Subtract (term_in terms.now left) (term_in terms.now right) in IfOk result (λ found. IfSome found (λ form. HasForm t × IsFormIn terms.now form (form_of t))) }
{
    if !is_light(difference_weight(terms, left, right)) {
        return shared_form(terms, alloc, &[(left, 1), (right, -1)]);
    }
    match quick_difference(terms, alloc, left, right) {
        Ok(form) => Ok(Some(form)),
        Err(LinFault::Large) => Ok(None),
        Err(LinFault::OutOfMemory) => Err(OutOfMemory),
    }
}
