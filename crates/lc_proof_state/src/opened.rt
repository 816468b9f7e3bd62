//! What a step adds in one of its branches.
ghost use Rattle.std.specs.Prelude.{◌≡◌, ◌+◌, ◌<◌, ◌^◌, IfOk, option_map};
ghost use Rattle.lc_term.specs.View.{formula_of, formulas_of};
ghost use Rattle.lc_kernel.specs.View.{step_of};
ghost use Rattle.lc_proof_state.specs.Opened.{appended, opened_by, opened_in};

use crate::axioms::{affine_axiom, same_axiom, written_axiom};
use crate::rules::{cases, cut, fresh, instantiated, push, split, trichotomy};
use lc_base::OutOfMemory;
use lc_kernel::Step;
use lc_term::Formula;
use std::alloc::Global;

/// A branch of a step.
pub(crate) struct Opened {
    /// How many variables are in use in it.
    pub variables: u32,
    /// What it adds to the hypotheses.
    pub formulas: Vec<Formula>,
}

impl Drop for Opened {
    fn drop(self) {
        let Opened {
            variables: _,
            formulas: _,
        } = self;
    }
}

impl Opened {
    ghost use Rattle.std.specs.Prelude.{◌≡◌, ◌++◌, IfOk};
    ghost use Rattle.lc_term.specs.View.{formulas_of};

    /// How many variables are in use in the branch, and its hypotheses: the given ones, which come first, then those of the branch.
    pub(crate) fn behind(self, hypotheses: Vec<Formula>) -> Result<(u32, Vec<Formula>), OutOfMemory>
        ensures variables { IfOk result (λ p. p.0 ≡ self.variables) }
        ensures hypotheses { IfOk result (λ p. formulas_of p.1.items ≡ formulas_of hypotheses.items ++ formulas_of self.formulas.items) }
    {
        let Opened {
            variables,
            mut formulas,
        } = self;
        let mut all = hypotheses;
        all.append(&mut formulas)?;
        Ok((variables, all))
    }
}

/// A branch with one formula more, if there is one.
pub(crate) fn appended(
    alloc: Global,
    variables: u32,
    formula: Option<Formula>,
) -> Result<Option<Opened>, OutOfMemory>
    ensures { IfOk result (λ made. option_map opened_in made ≡ appended variables (option_map formula_of formula)) }
{
    let Some(formula) = formula else {
        return Ok(None);
    };
    let mut formulas = Vec::with_capacity(alloc, 1)?;
    formulas.push(formula)?;
    Ok(Some(Opened {
        variables,
        formulas,
    }))
}

/// What a step that holds adds in the branch at a place.
pub(crate) fn opened_at(
    alloc: Global,
    hypotheses: &[Formula],
    variables: u32,
    step: &Step,
    place: usize,
) -> Result<Option<Opened>, OutOfMemory>
    requires { variables + 1 < 2 ^ 32 }
    ensures { IfOk result (λ made. option_map opened_in made ≡ opened_by variables (formulas_of hypotheses.now) (step_of step.now) place) }
{
    match step {
        Step::Split { hypothesis } => split(alloc, hypotheses, variables, *hypothesis),
        Step::Cases { hypothesis } => cases(alloc, hypotheses, variables, *hypothesis, place),
        Step::Push { hypothesis } => push(alloc, hypotheses, variables, *hypothesis),
        Step::Instantiate { hypothesis, term } => {
            instantiated(alloc, hypotheses, variables, *hypothesis, term)
        }
        Step::Fresh { hypothesis } => fresh(alloc, hypotheses, variables, *hypothesis),
        Step::Cut { formula } => cut(alloc, variables, formula, place),
        Step::Written { access } => {
            let axiom = written_axiom(
                alloc,
                &access.column,
                &access.index,
                &access.value,
                &access.other,
            )?;
            appended(alloc, variables, Some(axiom))
        }
        Step::Same { access } => {
            let axiom = same_axiom(alloc, &access.column, &access.index, &access.other)?;
            appended(alloc, variables, Some(axiom))
        }
        Step::Affine {
            slope,
            start,
            index,
        } => {
            let axiom = affine_axiom(alloc, *slope, *start, index)?;
            appended(alloc, variables, Some(axiom))
        }
        Step::Trichotomy { hypothesis } => {
            trichotomy(alloc, hypotheses, variables, *hypothesis, place)
        }
        Step::Divide { quotient, .. } => {
            appended(alloc, variables, Some(quotient.try_clone(alloc)?))
        }
        Step::Sum { .. } | Step::Opposite { .. } | Step::Open => Ok(None),
    }
}
