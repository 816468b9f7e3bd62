//! Proofs with other columns in place of theirs.
ghost use Rattle.std.specs.Prelude.{◌≡◌, ◌++◌, ◌∷◌, [], map, IfOk, OnOk};
ghost use Rattle.lc_kernel.specs.Proofs as S;
ghost use Rattle.lc_kernel.specs.Proofs.{proofs, size};
ghost use Rattle.lc_kernel.specs.View.{step_of, proof_of, proofs_of};
ghost use Rattle.lc_term.specs.View.{term_of, column_of};
ghost use Rattle.lc_carry.specs.Renaming.{column_for};
ghost use Rattle.lc_carry.specs.RenamedProofs.{step_is_covered, is_covered, are_covered, renamed_step, renamed};

use crate::covering::{is_column_covered, is_formula_covered, is_term_covered};
use crate::renaming::{renamed_column, renamed_formula, renamed_term};
use lc_base::{ColId, OutOfMemory};
use lc_kernel::{Proof, SameAccess, Step, StoredAccess};
use std::alloc::Global;

/// Whether there is a column in place of each that a step names.
fn is_step_covered(columns: &[Option<ColId>], step: &Step) -> bool
    ensures { result ≡ step_is_covered (column_for columns.now) (step_of step.now) }
{
    match step {
        Step::Instantiate { term, .. } => is_term_covered(columns, term),
        Step::Cut { formula } => is_formula_covered(columns, formula),
        Step::Written { access } => {
            is_column_covered(columns, &access.column)
                && is_term_covered(columns, &access.index)
                && is_term_covered(columns, &access.value)
                && is_term_covered(columns, &access.other)
        }
        Step::Same { access } => {
            is_column_covered(columns, &access.column)
                && is_term_covered(columns, &access.index)
                && is_term_covered(columns, &access.other)
        }
        Step::Affine { index, .. } => is_term_covered(columns, index),
        Step::Divide { quotient, .. } => is_formula_covered(columns, quotient),
        Step::Split { .. }
        | Step::Cases { .. }
        | Step::Push { .. }
        | Step::Fresh { .. }
        | Step::Trichotomy { .. }
        | Step::Sum { .. }
        | Step::Opposite { .. }
        | Step::Open => true,
    }
}

/// Whether there is a column in place of each that a proof names.
#[cycle(is_covered)]
pub fn is_covered(columns: &[Option<ColId>], proof: &Proof) -> bool
    ensures { result ≡ is_covered (column_for columns.now) (proof_of proof.now) }
{
    if !is_step_covered(columns, &proof.step) {
        return false;
    }
    are_covered(columns, &proof.branches)
}

/// Whether there is a column in place of each that the proofs name.
#[cycle(is_covered)]
fn are_covered(columns: &[Option<ColId>], branches: &[Proof]) -> bool
    ensures { result ≡ are_covered (column_for columns.now) (proofs (proofs_of branches.now)) }
{
    for proof in branches {
        if !is_covered(columns, proof) {
            return false;
        }
    }
    true
}

fn renamed_stored(
    alloc: Global,
    columns: &[Option<ColId>],
    access: &StoredAccess,
) -> Result<Step, OutOfMemory>
    ensures { IfOk result (λ made. step_of made ≡ renamed_step (column_for columns.now) (S.Written (column_of access.now.column) (term_of access.now.index) (term_of access.now.value) (term_of access.now.other))) }
{
    let access = StoredAccess {
        column: renamed_column(alloc, columns, &access.column)?,
        index: renamed_term(alloc, columns, &access.index)?,
        value: renamed_term(alloc, columns, &access.value)?,
        other: renamed_term(alloc, columns, &access.other)?,
    };
    Ok(Step::Written {
        access: Box::new(alloc, access)?,
    })
}

fn renamed_same(
    alloc: Global,
    columns: &[Option<ColId>],
    access: &SameAccess,
) -> Result<Step, OutOfMemory>
    ensures { IfOk result (λ made. step_of made ≡ renamed_step (column_for columns.now) (S.Same (column_of access.now.column) (term_of access.now.index) (term_of access.now.other))) }
{
    let access = SameAccess {
        column: renamed_column(alloc, columns, &access.column)?,
        index: renamed_term(alloc, columns, &access.index)?,
        other: renamed_term(alloc, columns, &access.other)?,
    };
    Ok(Step::Same {
        access: Box::new(alloc, access)?,
    })
}

/// A step with the columns in place of those that it names.
fn renamed_step(alloc: Global, columns: &[Option<ColId>], step: &Step) -> Result<Step, OutOfMemory>
    ensures { IfOk result (λ made. step_of made ≡ renamed_step (column_for columns.now) (step_of step.now)) }
{
    match step {
        Step::Split { hypothesis } => Ok(Step::Split {
            hypothesis: *hypothesis,
        }),
        Step::Cases { hypothesis } => Ok(Step::Cases {
            hypothesis: *hypothesis,
        }),
        Step::Push { hypothesis } => Ok(Step::Push {
            hypothesis: *hypothesis,
        }),
        Step::Instantiate { hypothesis, term } => Ok(Step::Instantiate {
            hypothesis: *hypothesis,
            term: Box::new(alloc, renamed_term(alloc, columns, term)?)?,
        }),
        Step::Fresh { hypothesis } => Ok(Step::Fresh {
            hypothesis: *hypothesis,
        }),
        Step::Cut { formula } => Ok(Step::Cut {
            formula: Box::new(alloc, renamed_formula(alloc, columns, formula)?)?,
        }),
        Step::Written { access } => renamed_stored(alloc, columns, access),
        Step::Same { access } => renamed_same(alloc, columns, access),
        Step::Affine {
            slope,
            start,
            index,
        } => Ok(Step::Affine {
            slope: *slope,
            start: *start,
            index: Box::new(alloc, renamed_term(alloc, columns, index)?)?,
        }),
        Step::Trichotomy { hypothesis } => Ok(Step::Trichotomy {
            hypothesis: *hypothesis,
        }),
        Step::Divide {
            hypothesis,
            divisor,
            quotient,
        } => Ok(Step::Divide {
            hypothesis: *hypothesis,
            divisor: *divisor,
            quotient: Box::new(alloc, renamed_formula(alloc, columns, quotient)?)?,
        }),
        Step::Sum { multiples } => Ok(Step::Sum {
            multiples: Vec::from_slice(alloc, multiples)?,
        }),
        Step::Opposite {
            hypothesis,
            negation,
        } => Ok(Step::Opposite {
            hypothesis: *hypothesis,
            negation: *negation,
        }),
        Step::Open => Ok(Step::Open),
    }
}

/// A proof with the columns in place of those that it names. A column in whose place there is none stays.
pub fn renamed(
    alloc: Global,
    columns: &[Option<ColId>],
    proof: &Proof,
) -> Result<Proof, OutOfMemory>
    ensures { IfOk result (λ made. proof_of made ≡ renamed (column_for columns.now) (proof_of proof.now)) }
{
    let step = renamed_step(alloc, columns, &proof.step)?;
    let branches = all_renamed(alloc, columns, &proof.branches)?;
    Ok(Proof { step, branches })
}

/// Appends a step, with the columns in place of those that it names, and these branches to proofs. It is not one of the
/// functions that call one another, so that each level of a proof takes little of the stack.
#[inline(never)]
fn push_with_step(
    alloc: Global,
    columns: &[Option<ColId>],
    step: &Step,
    branches: Vec<Proof>,
    made: &mut Vec<Proof>,
) -> Result<(), OutOfMemory>
    ensures { OnOk result (proofs_of made.new.items ≡ proofs_of made.old.items ++ S.proof (renamed_step (column_for columns.now) (step_of step.now)) (S.proofs (proofs_of branches.items)) ∷ []) }
{
    let step = renamed_step(alloc, columns, step)?;
    made.push(Proof { step, branches })?;
    Ok(())
}

/// Appends a proof, with the columns in place of those that it names, to others.
#[cycle(renamed)]
fn push_renamed(
    alloc: Global,
    columns: &[Option<ColId>],
    proof: &Proof,
    made: &mut Vec<Proof>,
) -> Result<(), OutOfMemory>
    ensures { OnOk result (proofs_of made.new.items ≡ proofs_of made.old.items ++ renamed (column_for columns.now) (proof_of proof.now) ∷ []) }
{
    let branches = all_renamed(alloc, columns, &proof.branches)?;
    push_with_step(alloc, columns, &proof.step, branches, made)
}

/// Proofs with the columns in place of those that they name.
#[cycle(renamed)]
fn all_renamed(
    alloc: Global,
    columns: &[Option<ColId>],
    proofs: &[Proof],
) -> Result<Vec<Proof>, OutOfMemory>
    ensures { IfOk result (λ made. proofs_of made.items ≡ map (renamed (column_for columns.now)) (proofs_of proofs.now)) }
{
    let mut made = Vec::with_capacity(alloc, proofs.len())?;
    for proof in proofs {
        push_renamed(alloc, columns, proof, &mut made)?;
    }
    Ok(made)
}
