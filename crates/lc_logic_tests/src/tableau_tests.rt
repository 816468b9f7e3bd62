//! How a tableau takes bounds back, and puts back numbers that were kept.
use crate::refutation_tests::sum;
use lc_farkas::{Stop, Tableau};
use lc_linear::{LinFault, LinForm};
use lc_table::Terms;
use std::alloc::Global;
use std::test::Fail;

/// Whether a form contradicts another one until that is taken back, and then has a number that is not above 0, also after
/// numbers were moved apart.
fn is_taken_back(alloc: Global, first: &LinForm, second: &LinForm) -> Result<bool, Stop> {
    let mut tableau = Tableau::new(alloc, 100);
    let mark = tableau.mark();
    let enters = tableau.assert(first, 0, false)?.is_none();
    let contradicts = tableau.assert(second, 1, false)?.is_some();
    tableau.undo(mark);
    let enters_alone = tableau.assert(second, 1, false)?.is_none();
    let fits = tableau.check()?.is_none();
    tableau.spread()?;
    let holds = !tableau.value_of_form(second)?.is_positive();
    Ok(enters & contradicts & enters_alone & fits & holds)
}

/// Whether numbers that were kept are there again after a form got another one.
fn is_put_back(alloc: Global, form: &LinForm, nearer: &LinForm) -> Result<bool, Stop> {
    let mut tableau = Tableau::new(alloc, 100);
    let enters = tableau.assert(form, 0, false)?.is_none() & tableau.check()?.is_none();
    let before = tableau.value_of_form(form)?;
    let kept = tableau.values()?;
    let nears = tableau.assert(nearer, 1, false)?.is_none() & tableau.check()?.is_none();
    let moved = tableau.value_of_form(form)? != before;
    tableau.restore(kept)?;
    Ok(enters & nears & moved & (tableau.value_of_form(form)? == before))
}

/// `x - y`, `y - x + 1` and `x - y + 5000`.
fn forms(alloc: Global) -> Result<(LinForm, LinForm, LinForm), LinFault> {
    let mut terms = Terms::new(alloc);
    let first = sum(alloc, &mut terms, (0, 1), (1, -1), 0)?;
    let opposite = sum(alloc, &mut terms, (1, 1), (0, -1), 1)?;
    let nearer = sum(alloc, &mut terms, (0, 1), (1, -1), 5000)?;
    Ok((first, opposite, nearer))
}

#[test]
fn bounds_are_taken_back_and_numbers_put_back(rt: HostRuntime) -> Result<(), Fail> {
    let (first, opposite, nearer) = forms(rt.alloc())?;
    let taken = matches!(is_taken_back(rt.alloc(), &first, &opposite), Ok(true));
    assert!(rt; taken & matches!(is_put_back(rt.alloc(), &first, &nearer), Ok(true)));
    Ok(())
}
