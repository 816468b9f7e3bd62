//! Copies of proofs.
ghost use Rattle.std.specs.Prelude.{◌≡◌, ◌++◌, ◌∷◌, [], map, IfOk, OnOk};
ghost use Rattle.lc_kernel.specs.Proofs as S;
ghost use Rattle.lc_kernel.specs.View.{multiple_of, step_of, proof_of, proofs_of};
ghost use Rattle.lc_term.specs.View.{term_of, column_of, formula_of};

use crate::proof::{Multiple, Proof, SameAccess, Step, StoredAccess};
use lc_base::OutOfMemory;
use lc_term::{Formula, Term};
use std::alloc::Global;

fn instantiated(alloc: Global, hypothesis: i64, term: &Term) -> Result<Step, OutOfMemory>
    ensures { IfOk result (λ copy. step_of copy ≡ S.Instantiate hypothesis (term_of term.now)) }
{
    let term = Box::new(alloc, term.try_clone(alloc)?)?;
    Ok(Step::Instantiate { hypothesis, term })
}

fn cut(alloc: Global, formula: &Formula) -> Result<Step, OutOfMemory>
    ensures { IfOk result (λ copy. step_of copy ≡ S.Cut (formula_of formula.now)) }
{
    let formula = Box::new(alloc, formula.try_clone(alloc)?)?;
    Ok(Step::Cut { formula })
}

fn written(alloc: Global, access: &StoredAccess) -> Result<Step, OutOfMemory>
    ensures { IfOk result (λ copy. step_of copy ≡ S.Written (column_of access.now.column) (term_of access.now.index) (term_of access.now.value) (term_of access.now.other)) }
{
    let access = StoredAccess {
        column: access.column.try_clone(alloc)?,
        index: access.index.try_clone(alloc)?,
        value: access.value.try_clone(alloc)?,
        other: access.other.try_clone(alloc)?,
    };
    Ok(Step::Written {
        access: Box::new(alloc, access)?,
    })
}

fn same(alloc: Global, access: &SameAccess) -> Result<Step, OutOfMemory>
    ensures { IfOk result (λ copy. step_of copy ≡ S.Same (column_of access.now.column) (term_of access.now.index) (term_of access.now.other)) }
{
    let access = SameAccess {
        column: access.column.try_clone(alloc)?,
        index: access.index.try_clone(alloc)?,
        other: access.other.try_clone(alloc)?,
    };
    Ok(Step::Same {
        access: Box::new(alloc, access)?,
    })
}

fn affine(alloc: Global, slope: i64, start: i64, index: &Term) -> Result<Step, OutOfMemory>
    ensures { IfOk result (λ copy. step_of copy ≡ S.Affine slope start (term_of index.now)) }
{
    Ok(Step::Affine {
        slope,
        start,
        index: Box::new(alloc, index.try_clone(alloc)?)?,
    })
}

fn divide(
    alloc: Global,
    hypothesis: i64,
    divisor: i64,
    quotient: &Formula,
) -> Result<Step, OutOfMemory>
    ensures { IfOk result (λ copy. step_of copy ≡ S.Divide hypothesis divisor (formula_of quotient.now)) }
{
    Ok(Step::Divide {
        hypothesis,
        divisor,
        quotient: Box::new(alloc, quotient.try_clone(alloc)?)?,
    })
}

fn sum(alloc: Global, multiples: &[Multiple]) -> Result<Step, OutOfMemory>
    ensures { IfOk result (λ copy. step_of copy ≡ S.Sum (map multiple_of multiples.now)) }
{
    let multiples = Vec::from_slice(alloc, multiples)?;
    Ok(Step::Sum { multiples })
}

/// The same step, in memory of its own.
fn copy_of_step(alloc: Global, step: &Step) -> Result<Step, OutOfMemory>
    ensures { IfOk result (λ copy. step_of copy ≡ step_of step.now) }
{
    match *step {
        Step::Split { hypothesis } => Ok(Step::Split { hypothesis }),
        Step::Cases { hypothesis } => Ok(Step::Cases { hypothesis }),
        Step::Push { hypothesis } => Ok(Step::Push { hypothesis }),
        Step::Instantiate {
            hypothesis,
            ref term,
        } => instantiated(alloc, hypothesis, term),
        Step::Fresh { hypothesis } => Ok(Step::Fresh { hypothesis }),
        Step::Cut { ref formula } => cut(alloc, formula),
        Step::Written { ref access } => written(alloc, access),
        Step::Same { ref access } => same(alloc, access),
        Step::Affine {
            slope,
            start,
            ref index,
        } => affine(alloc, slope, start, index),
        Step::Trichotomy { hypothesis } => Ok(Step::Trichotomy { hypothesis }),
        Step::Divide {
            hypothesis,
            divisor,
            ref quotient,
        } => divide(alloc, hypothesis, divisor, quotient),
        Step::Sum { ref multiples } => sum(alloc, multiples),
        Step::Opposite {
            hypothesis,
            negation,
        } => Ok(Step::Opposite {
            hypothesis,
            negation,
        }),
        Step::Open => Ok(Step::Open),
    }
}

/// Appends a proof to others: the same step, with these branches. It is not one of the functions that call one another, so
/// that each level of a proof takes little of the stack.
#[inline(never)]
fn push_with_step(
    alloc: Global,
    copies: &mut Vec<Proof>,
    step: &Step,
    branches: Vec<Proof>,
) -> Result<(), OutOfMemory>
    ensures { OnOk result (proofs_of copies.new.items ≡ proofs_of copies.old.items ++ S.proof (step_of step.now) (S.proofs (proofs_of branches.items)) ∷ []) }
{
    let step = copy_of_step(alloc, step)?;
    copies.push(Proof { step, branches })?;
    Ok(())
}

/// Appends the same proof to others, in memory of its own.
#[cycle(copy_proof)]
fn push_copy(alloc: Global, proof: &Proof, copies: &mut Vec<Proof>) -> Result<(), OutOfMemory>
    ensures { OnOk result (proofs_of copies.new.items ≡ proofs_of copies.old.items ++ proof_of proof.now ∷ []) }
{
    let branches = copies_of(alloc, &proof.branches)?;
    push_with_step(alloc, copies, &proof.step, branches)
}

/// The same proofs, in memory of their own.
#[cycle(copy_proof)]
fn copies_of(alloc: Global, proofs: &[Proof]) -> Result<Vec<Proof>, OutOfMemory>
    ensures { IfOk result (λ copies. proofs_of copies.items ≡ proofs_of proofs.now) }
{
    let mut copies = Vec::with_capacity(alloc, proofs.len())?;
    for proof in proofs {
        push_copy(alloc, proof, &mut copies)?;
    }
    Ok(copies)
}

impl Proof {
    ghost use Rattle.std.specs.Prelude.{◌≡◌, IfOk};
    ghost use Rattle.lc_kernel.specs.View.{proof_of};

    /// The same proof, in memory of its own.
    pub fn try_clone(&self, alloc: Global) -> Result<Proof, OutOfMemory>
        ensures { IfOk result (λ copy. proof_of copy ≡ proof_of self.now) }
    {
        let step = copy_of_step(alloc, &self.step)?;
        let branches = copies_of(alloc, &self.branches)?;
        Ok(Proof { step, branches })
    }
}
