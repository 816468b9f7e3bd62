//! The check of a proof, step by step.
ghost use Rattle.std.specs.Prelude.{◌≡◌, ◌+◌, ◌<◌, ◌^◌, ◌++◌, length, OnOk};
ghost use Rattle.lc_kernel.specs.Answers.{StepMeets, Checks, ChecksEach};
ghost use Rattle.lc_kernel.specs.Branches.{branches_in, AreBranches, branch_count};
ghost use Rattle.lc_kernel.specs.Proofs.{proofs, size, size_of_all};
ghost use Rattle.lc_kernel.specs.Settings.{IsSetting};
ghost use Rattle.lc_kernel.specs.View.{step_of, proof_of, proofs_of};
ghost use Rattle.lc_table.specs.Tables.{formulas_in, AreFormulas, Keeps};

use crate::arithmetic::{divide, sum};
use crate::fault::{ProofFault, StepFault};
use crate::opened::{Branches, Opened, append_branch};
use crate::proof::{Proof, Step};
use crate::rules::{
    affine, cases, cut, fresh, instantiated, left_open, opposite, push, same, split, trichotomy,
    written,
};
use crate::setting::Setting;
use lc_table::{FormulaId, Terms};
use std::alloc::Global;

/// What a step opens in its setting, or what is wrong with it. It is separate from `check`, so that each level of a proof takes
/// little of the stack.
#[inline(never)]
#[tactic(auto, using(lc_table::proofs::Later::keeps_itself))]
fn take_step(
    alloc: Global,
    terms: &mut Terms,
    setting: Setting<'_>,
    step: &Step,
) -> Result<Opened, StepFault>
    requires numbers { IsSetting terms.old setting }
    requires variables { setting.variables + 1 < 2 ^ 32 }
    ensures kept { Keeps terms.old terms.new }
    ensures step { StepMeets terms.old terms.new setting.entry (step_of step.now) result }
{
    match step {
        Step::Split { hypothesis } => split(alloc, terms, setting, *hypothesis),
        Step::Cases { hypothesis } => cases(alloc, terms, setting, *hypothesis),
        Step::Push { hypothesis } => push(alloc, terms, setting, *hypothesis),
        Step::Instantiate { hypothesis, term } => {
            instantiated(alloc, terms, setting, *hypothesis, term)
        }
        Step::Fresh { hypothesis } => fresh(alloc, terms, setting, *hypothesis),
        Step::Cut { formula } => cut(alloc, terms, setting, formula),
        Step::Written { access } => written(
            alloc,
            terms,
            setting,
            &access.column,
            &access.index,
            &access.value,
            &access.other,
        ),
        Step::Same { access } => same(
            alloc,
            terms,
            setting,
            &access.column,
            &access.index,
            &access.other,
        ),
        Step::Affine {
            slope,
            start,
            index,
        } => affine(alloc, terms, setting, *slope, *start, index),
        Step::Trichotomy { hypothesis } => trichotomy(alloc, terms, setting, *hypothesis),
        Step::Divide {
            hypothesis,
            divisor,
            quotient,
        } => divide(alloc, terms, setting, *hypothesis, *divisor, quotient),
        Step::Sum { multiples } => sum(alloc, terms, setting, multiples),
        Step::Opposite {
            hypothesis,
            negation,
        } => opposite(terms, setting, *hypothesis, *negation),
        Step::Open => left_open(setting),
    }
}

/// Checks a proof whose first step has this number, under hypotheses and what the steps before it appended to them; answers the
/// number after its last.
#[cycle(check)]
#[tactic(auto, using(lc_table::proofs::Later::kept_on, lc_table::proofs::Later::keeps_itself, lc_table::proofs::Later::are_formulas_still))]
pub(crate) fn check(
    alloc: Global,
    terms: &mut Terms,
    given: &[FormulaId],
    proof: &Proof,
    appended: &mut Vec<FormulaId>,
    variables: u32,
    first: u32,
) -> Result<u32, ProofFault>
    requires numbers { AreFormulas terms.old (given.now ++ appended.old.items) }
    requires variables { variables + size (proof_of proof.now) < 2 ^ 32 }
    requires steps { first + size (proof_of proof.now) < 2 ^ 32 }
    ensures table { Keeps terms.old terms.new }
    ensures kept { OnOk result (appended.new.items ≡ appended.old.items) }
    ensures checks { Checks variables (formulas_in terms.old (given.now ++ appended.old.items)) (proof_of proof.now) first result }
{
    let setting = Setting {
        given,
        appended: appended.as_slice(),
        variables,
        proofs: proof.branches.len(),
    };
    let opened = match take_step(alloc, terms, setting, &proof.step) {
        Ok(opened) => opened,
        Err(fault) => return Err(fault.at(first)),
    };
    check_each(
        alloc,
        terms,
        given,
        &proof.branches,
        appended,
        opened.variables,
        &opened.branches,
        first + 1,
    )
}

/// Checks the proofs of branches, each under what its branch appends too.
#[cycle(check)]
#[tactic(auto, using(lc_table::proofs::Later::kept_on, lc_table::proofs::Later::keeps_itself, lc_table::proofs::Later::are_formulas_still))]
fn check_each(
    alloc: Global,
    terms: &mut Terms,
    given: &[FormulaId],
    children: &[Proof],
    appended: &mut Vec<FormulaId>,
    variables: u32,
    branches: &Branches,
    first: u32,
) -> Result<u32, ProofFault>
    requires numbers { AreFormulas terms.old (given.now ++ appended.old.items) }
    requires opened { AreBranches terms.old branches.now }
    requires variables { variables + size_of_all (proofs (proofs_of children.now)) < 2 ^ 32 }
    requires steps { first + size_of_all (proofs (proofs_of children.now)) < 2 ^ 32 }
    requires branches { branch_count branches.now ≡ length children.now }
    ensures table { Keeps terms.old terms.new }
    ensures kept { OnOk result (appended.new.items ≡ appended.old.items) }
    ensures checks { ChecksEach variables (formulas_in terms.old (given.now ++ appended.old.items)) (branches_in terms.old branches.now) (proofs (proofs_of children.now)) first result }
{
    let mut next = first;
    let before = appended.len();
    for i in 0..children.len() {
        append_branch(appended, branches, i)?;
        next = check(alloc, terms, given, &children[i], appended, variables, next)?;
        appended.truncate(before);
    }
    Ok(next)
}
