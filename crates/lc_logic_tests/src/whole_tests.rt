//! How numbers are made whole, what of a row is a fraction, and how work is counted.
use crate::refutation_tests::{multiple, sum};
use lc_farkas::{Stop, Tableau};
use lc_linear::{LinFault, LinForm, form_of};
use lc_table::{TermId, Terms};
use std::alloc::Global;
use std::test::Fail;

/// The atoms x and y, and the forms `2 * x - 2 * y - z` and `z - 1`.
struct TwoForms {
    left: TermId,
    right: TermId,
    double: LinForm,
    one: LinForm,
}

impl Drop for TwoForms {
    fn drop(self) {
        let TwoForms {
            left: _,
            right: _,
            double: _,
            one: _,
        } = self;
    }
}

fn doubles(alloc: Global) -> Result<TwoForms, LinFault> {
    let mut terms = Terms::new(alloc);
    let left = terms.variable(0)?;
    let right = terms.variable(1)?;
    let double = sum(alloc, &mut terms, (0, 2), (1, -2), 0)?;
    let third = multiple(alloc, &mut terms, 2, 1)?;
    let double = double.add_scaled(-1, &third)?;
    let number = terms.number(1)?;
    let one = third.add_scaled(-1, &form_of(&terms, alloc, number)?)?;
    Ok(TwoForms {
        left,
        right,
        double,
        one,
    })
}

/// Whether `y - x` has the fraction of x if twice their difference is to be 1, in a row with all bounds.
fn has_a_part(alloc: Global, doubles: &TwoForms) -> Result<bool, Stop> {
    let mut tableau = Tableau::new(alloc, 100);
    let enters = tableau.assert(&doubles.double, 0, true)?.is_none();
    let enters = enters & tableau.assert(&doubles.one, 1, true)?.is_none();
    let fits = tableau.check()?.is_none() & !tableau.make_whole()?;
    let part = tableau.fractional_part(doubles.left)?;
    let is_told = part.as_slice() == [(doubles.left, -1), (doubles.right, 1)].as_slice();
    let is_alone = tableau.fractional_part(doubles.right)?.is_empty();
    let is_tight = tableau.looseness(doubles.left) == 0 && tableau.looseness(doubles.right) > 0;
    Ok(enters & fits & is_told & is_alone & is_tight)
}

/// Whether a number that is at most a half is made whole, and then 0.
fn is_made_whole(alloc: Global, half: &LinForm, atom: TermId) -> Result<bool, Stop> {
    let mut tableau = Tableau::new(alloc, 100);
    let enters = tableau.assert(half, 0, false)?.is_none() & tableau.check()?.is_none();
    let was_whole = tableau.value_of(atom).is_whole();
    let is_moved = tableau.make_whole()?;
    Ok(enters & !was_whole & is_moved & tableau.value_of(atom).is_zero())
}

/// `2 * x - 1`.
fn half(alloc: Global) -> Result<(LinForm, TermId), LinFault> {
    let mut terms = Terms::new(alloc);
    let form = sum(alloc, &mut terms, (0, 2), (1, 0), -1)?;
    Ok((form, terms.variable(0)?))
}

#[test]
fn numbers_are_made_whole(rt: HostRuntime) -> Result<(), Fail> {
    let doubles = doubles(rt.alloc())?;
    let (half, atom) = half(rt.alloc())?;
    assert!(rt; matches!(has_a_part(rt.alloc(), &doubles), Ok(true)));
    assert!(rt; matches!(is_made_whole(rt.alloc(), &half, atom), Ok(true)));
    Ok(())
}

#[test]
fn work_is_counted(rt: HostRuntime) -> Result<(), Fail> {
    let mut tableau = Tableau::new(rt.alloc(), 100);
    tableau.allow(3);
    let first = tableau.spend(2).is_ok();
    let second = tableau.spend(1).is_ok();
    assert!(rt; first & second & matches!(tableau.spend(1), Err(Stop::Spent)));
    Ok(())
}
