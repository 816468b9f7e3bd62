//! Refutations, which are searched for and then checked.
ghost use Rattle.std.specs.Prelude.{◌≡◌, length, IfOk, IfSome};
ghost use Rattle.std.specs.Bool.{OnTrue};
ghost use Rattle.lc_farkas.specs.Refutation.{is_allowed, are_allowed, added_at, total, Refutes};
ghost use Rattle.lc_linear.specs.LinForm.{numbers, HasNumbers};

use crate::reason::{Multiplier, Reason, whole_multipliers};
use crate::stop::Stop;
use crate::tableau::Tableau;
use lc_base::OutOfMemory;
use lc_linear::{LinFault, LinForm};
use std::alloc::Global;

/// A refutation of forms that are each to be at most 0: places, each with how many times its form is taken, that add up to a
/// constant above 0. None says nothing of the forms. The budget counts pivots of the search.
pub fn refute(
    alloc: Global,
    forms: &[LinForm],
    budget: u64,
) -> Result<Option<Vec<(usize, i64)>>, OutOfMemory>
    ensures { IfOk result (λ found. IfSome found (λ list. Refutes forms.now list.items)) }
{
    let list = match found(alloc, forms, budget) {
        Ok(Some(list)) => list,
        Ok(None) | Err(Stop::Large) | Err(Stop::Spent) => return Ok(None),
        Err(Stop::OutOfMemory) => return Err(OutOfMemory),
    };
    if refutes(alloc, forms, &list)? {
        Ok(Some(list))
    } else {
        Ok(None)
    }
}

/// A list that the search takes for a refutation of the forms.
fn found(alloc: Global, forms: &[LinForm], budget: u64) -> Result<Option<Vec<(usize, i64)>>, Stop> {
    let mut tableau = Tableau::new(alloc, budget);
    for (place, form) in forms.iter().enumerate() {
        if let Some(reasons) = tableau.assert(form, place, false)? {
            return listed(alloc, &reasons);
        }
    }
    match tableau.check()? {
        Some(reasons) => listed(alloc, &reasons),
        None => Ok(None),
    }
}

/// The reasons as whole numbers of 64 bits.
fn listed(alloc: Global, reasons: &[Reason]) -> Result<Option<Vec<(usize, i64)>>, Stop> {
    let multipliers = whole_multipliers(alloc, reasons)?;
    let mut list = Vec::new(alloc);
    for multiplier in &multipliers {
        let number = i64::try_from(multiplier.number).map_err(|_| Stop::Large)?;
        list.push((multiplier.fact, number))?;
    }
    Ok(Some(list))
}

/// Whether the list refutes the forms. If a number leaves 128 bits it is said not to.
fn refutes(alloc: Global, forms: &[LinForm], list: &[(usize, i64)]) -> Result<bool, OutOfMemory>
    ensures { IfOk result (λ yes'. OnTrue yes' (Refutes forms.now list.now)) }
{
    if !are_allowed(forms, list) {
        return Ok(false);
    }
    match sum_of(alloc, forms, list) {
        Ok(sum) => Ok(sum.is_constant() && sum.constant() > 0),
        Err(LinFault::Large) => Ok(false),
        Err(LinFault::OutOfMemory) => Err(OutOfMemory),
    }
}

/// Whether `place` is one of the first `count`, and its form is taken 0 times or more.
fn is_allowed(count: usize, place: usize, number: i64) -> bool
    ensures { result ≡ is_allowed count (place, number) }
{
    place < count && number >= 0
}

/// Whether each place has a form, which is taken 0 times or more.
fn are_allowed(forms: &[LinForm], list: &[(usize, i64)]) -> bool
    ensures { result ≡ are_allowed (length forms.now) list.now }
{
    for (place, number) in list {
        if !is_allowed(forms.len(), *place, *number) {
            return false;
        }
    }
    true
}

/// A form with a multiple of the form at a place added.
fn added(sum: LinForm, forms: &[LinForm], entry: (usize, i64)) -> Result<LinForm, LinFault>
    ensures { IfOk result (λ new. HasNumbers new (added_at forms.now (numbers sum) entry)) }
{
    let (place, number) = entry;
    if place >= forms.len() {
        return Ok(sum);
    }
    let form = &forms[place];
    sum.add_scaled(i128::from(number), form)
}

/// The sum of multiples of the forms at these places.
fn sum_of(alloc: Global, forms: &[LinForm], list: &[(usize, i64)]) -> Result<LinForm, LinFault>
    ensures { IfOk result (λ sum. HasNumbers sum (total forms.now list.now)) }
{
    let mut sum = LinForm::zero(alloc);
    for entry in list {
        sum = added(sum, forms, *entry)?;
    }
    Ok(sum)
}
