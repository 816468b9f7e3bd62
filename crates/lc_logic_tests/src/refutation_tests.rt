//! Which forms are refuted, and by how many of each.
use lc_farkas::refute;
use lc_linear::{LinFault, LinForm, form_of};
use lc_table::Terms;
use std::alloc::Global;
use std::test::Fail;

/// So many times a variable.
pub(crate) fn multiple(
    alloc: Global,
    terms: &mut Terms,
    variable: u32,
    times: i128,
) -> Result<LinForm, LinFault> {
    let variable = terms.variable(variable)?;
    let form = form_of(terms, alloc, variable)?;
    LinForm::zero(alloc).add_scaled(times, &form)
}

/// Multiples of two variables and a number, added up.
pub(crate) fn sum(
    alloc: Global,
    terms: &mut Terms,
    left: (u32, i128),
    right: (u32, i128),
    number: i64,
) -> Result<LinForm, LinFault> {
    let left = multiple(alloc, terms, left.0, left.1)?;
    let right = multiple(alloc, terms, right.0, right.1)?;
    let number = terms.number(number)?;
    let number = form_of(terms, alloc, number)?;
    left.add_scaled(1, &right)?.add_scaled(1, &number)
}

/// Whether forms are refuted by this list.
fn is_refuted(alloc: Global, forms: &[LinForm], by: &[(usize, i64)]) -> Result<bool, LinFault> {
    match refute(alloc, forms, 1_000_000)? {
        Some(list) => Ok(list.as_slice() == by),
        None => Ok(false),
    }
}

/// Whether `x - y` and `y - x + 1` are refuted, each once.
fn refutes_opposites(alloc: Global) -> Result<bool, LinFault> {
    let mut terms = Terms::new(alloc);
    let first = sum(alloc, &mut terms, (0, 1), (1, -1), 0)?;
    let second = sum(alloc, &mut terms, (1, 1), (0, -1), 1)?;
    is_refuted(alloc, &[first, second], &[(0, 1), (1, 1)])
}

/// Whether `2 * x - y`, `2 * y - x` and `1 - x` are refuted, twice, once and three times.
fn refutes_doubles(alloc: Global) -> Result<bool, LinFault> {
    let mut terms = Terms::new(alloc);
    let first = sum(alloc, &mut terms, (0, 2), (1, -1), 0)?;
    let second = sum(alloc, &mut terms, (1, 2), (0, -1), 0)?;
    let third = sum(alloc, &mut terms, (0, -1), (1, 0), 1)?;
    is_refuted(alloc, &[first, second, third], &[(0, 2), (1, 1), (2, 3)])
}

/// Whether the form of a variable alone is not refuted.
fn leaves_a_variable(alloc: Global) -> Result<bool, LinFault> {
    let mut terms = Terms::new(alloc);
    let form = multiple(alloc, &mut terms, 0, 1)?;
    Ok(refute(alloc, &[form], 1_000_000)?.is_none())
}

#[test]
fn forms_are_refuted_or_not(rt: HostRuntime) -> Result<(), Fail> {
    let alloc = rt.alloc();
    let refuted = refutes_opposites(alloc)? & refutes_doubles(alloc)?;
    assert!(rt; refuted & leaves_a_variable(alloc)?);
    Ok(())
}

/// `x0 - x1 + 1`, `x1 - x2 + 1` and so on, the last one coming back to `x0`.
fn circle(alloc: Global, size: u32) -> Result<Vec<LinForm>, LinFault> {
    let mut terms = Terms::new(alloc);
    let mut forms = Vec::new(alloc);
    for here in 0..size {
        let next = if here.saturating_add(1) < size {
            here.saturating_add(1)
        } else {
            0
        };
        forms.push(sum(alloc, &mut terms, (here, 1), (next, -1), 1)?)?;
    }
    Ok(forms)
}

/// Whether all forms of a circle of thirty are needed, and no pivots are too few.
fn refutes_a_circle(alloc: Global) -> Result<bool, LinFault> {
    let forms = circle(alloc, 30)?;
    let none = refute(alloc, &forms, 0)?.is_none();
    let size = match refute(alloc, &forms, 1_000_000)? {
        Some(list) => list.len(),
        None => 0,
    };
    Ok(none & (size == 30))
}

#[test]
fn a_circle_of_thirty(rt: HostRuntime) -> Result<(), Fail> {
    assert!(rt; refutes_a_circle(rt.alloc())?);
    Ok(())
}
