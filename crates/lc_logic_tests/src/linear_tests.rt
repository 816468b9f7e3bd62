//! What closes, which numbers fit 128 bits and how quotients are rounded are cases of the program `lc_cases`.
use lc_base::OutOfMemory;
use lc_linear::{LinFault, LinForm, closes, form_of, form_of_difference, laws};
use lc_table::Terms;
use lc_term::{Formula, Term};
use std::alloc::Global;
use std::test::Fail;

/// Whether the form of a bound variable less a free one has both, and no other.
#[tactic(auto, using(lc_table::proofs::Later::is_term_later))]
fn has_both(alloc: Global) -> Result<bool, LinFault> {
    let mut terms = Terms::new(alloc);
    let bound = terms.bound(0)?;
    let free = terms.variable(0)?;
    let other = terms.variable(1)?;
    let gap = form_of_difference(&terms, alloc, bound, free)?;
    let both = (gap.coefficient(bound) == 1) & (gap.coefficient(free) == -1);
    Ok(both & (gap.constant() == 0) & (gap.coefficient(other) == 0))
}

/// The form of the variable 0.
fn form_of_variable(alloc: Global) -> Result<LinForm, LinFault> {
    let mut terms = Terms::new(alloc);
    let variable = terms.variable(0)?;
    form_of(&terms, alloc, variable)
}

/// Whether twice a form is another one, half of which is the form again, and less twice the form is nothing.
fn is_doubled_and_halved(alloc: Global, form: &LinForm) -> Result<bool, LinFault> {
    let twice = LinForm::zero(alloc).add_scaled(2, form)?;
    let differs = !twice.is_same_as(form) & !twice.is_constant();
    let halved = LinForm::zero(alloc).add_scaled(2, form)?.divided(2);
    let is_halved = halved.is_some_and(|half| half.is_same_as(form));
    let nothing = twice.add_scaled(-2, form)?;
    Ok(differs & is_halved & nothing.is_constant() & (nothing.constant() == 0))
}

#[test]
fn forms_have_coefficients(rt: HostRuntime) -> Result<(), Fail> {
    let form = form_of_variable(rt.alloc())?;
    assert!(rt; has_both(rt.alloc())? & is_doubled_and_halved(rt.alloc(), &form)?);
    Ok(())
}

/// `(<= (* -1 (* -9223372036854775808 (* -9223372036854775808 -2))) 0)`, which has no form in 128 bits.
fn large(alloc: Global) -> Result<Formula, OutOfMemory> {
    let power = Term::Multiply(i64::MIN, Box::new(alloc, Term::Number(-2))?);
    let least = Term::Multiply(i64::MIN, Box::new(alloc, power)?);
    let left = Term::Multiply(-1, Box::new(alloc, least)?);
    Ok(Formula::Le(left, Term::Number(0)))
}

/// Whether `(and)` does not close, alone and after a form that does not fit 128 bits.
#[tactic(auto, using(lc_table::proofs::Later::is_formula_later))]
fn is_no_comparison(alloc: Global) -> Result<bool, LinFault> {
    let large = large(alloc)?;
    let mut terms = Terms::new(alloc);
    let large = terms.enter_formula(alloc, &large)?;
    let yes = terms.enter_formula(alloc, &Formula::And(Vec::new(alloc)))?;
    let alone = closes(&terms, alloc, &[(yes, 1)]) == Ok(false);
    let none = closes(&terms, alloc, &[]) == Ok(false);
    Ok(alone & none & (closes(&terms, alloc, &[(large, 1), (yes, 1)]) == Ok(false)))
}

#[test]
fn what_is_no_comparison_does_not_close(rt: HostRuntime) -> Result<(), Fail> {
    assert!(rt; is_no_comparison(rt.alloc())?);
    Ok(())
}

#[test]
fn faults_are_told_in_words(rt: HostRuntime) -> Result<(), Fail> {
    let large = format!(in rt.alloc(); "{}", LinFault::Large)?;
    let memory = format!(in rt.alloc(); "{}", LinFault::OutOfMemory)?;
    let is_large = large.as_str() == "a number does not fit 128 bits";
    assert!(rt; is_large & (memory.as_str() == "out of memory"));
    Ok(())
}

#[test]
fn laws_have_no_effect() {
    laws::form_has_the_meaning_of_its_term();
    laws::form_decides_the_value();
    laws::what_closes_cannot_hold();
    laws::division_keeps_inequalities();
    laws::quotient_is_the_only_one();
    lc_array::laws::axioms_are_true();
}
