//! The reads in formulas, and the cells that they read in a state.

use lc_base::{ColId, OutOfMemory};
use lc_term::{ColExpr, Env, Formula, State, Term, Write, eval_term, term_is_known};
use std::alloc::Global;

/// The reads in a term after others, and the term itself after those in its parts, if it is one.
#[cycle(reads)]
fn push_reads<'a>(term: &'a Term, reads: &mut Vec<&'a Term>) -> Result<(), OutOfMemory> {
    match term {
        Term::Number(_) | Term::Variable(_) | Term::Bound(_) => Ok(()),
        Term::Add(left, right) | Term::Subtract(left, right) => {
            push_reads(left, reads)?;
            push_reads(right, reads)
        }
        Term::Multiply(_, term) => push_reads(term, reads),
        Term::Read(column, index) => {
            push_stored_reads(column, reads)?;
            push_reads(index, reads)?;
            reads.push(term)?;
            Ok(())
        }
    }
}

/// The reads in what is stored to a column, and in where it is stored, after others.
#[cycle(reads)]
fn push_stored_reads<'a>(
    column: &'a ColExpr,
    reads: &mut Vec<&'a Term>,
) -> Result<(), OutOfMemory> {
    let mut rest = column;
    'stores: loop {
        match rest {
            ColExpr::Base(_) | ColExpr::Affine(..) => return Ok(()),
            ColExpr::Store(column, index, value) => {
                push_reads(index, reads)?;
                push_reads(value, reads)?;
                rest = column;
            }
        }
    }
}

/// The reads in a formula after others.
#[cycle(formula_reads)]
fn push_formula_reads<'a>(
    formula: &'a Formula,
    reads: &mut Vec<&'a Term>,
) -> Result<(), OutOfMemory> {
    match formula {
        Formula::Le(left, right) | Formula::Eq(left, right) => {
            push_reads(left, reads)?;
            push_reads(right, reads)
        }
        Formula::Not(formula) | Formula::Forall(formula) | Formula::Exists(formula) => {
            push_formula_reads(formula, reads)
        }
        Formula::And(parts) | Formula::Or(parts) => push_parts_reads(parts, reads),
        Formula::Implies(left, right) => {
            push_formula_reads(left, reads)?;
            push_formula_reads(right, reads)
        }
    }
}

/// The reads in formulas after others.
#[cycle(formula_reads)]
fn push_parts_reads<'a>(
    parts: &'a [Formula],
    reads: &mut Vec<&'a Term>,
) -> Result<(), OutOfMemory> {
    for part in parts {
        push_formula_reads(part, reads)?;
    }
    Ok(())
}

/// The reads in the hypotheses and the claim of a goal.
pub(crate) fn reads_in<'a>(
    alloc: Global,
    hypotheses: &'a [Formula],
    claim: &'a Formula,
) -> Result<Vec<&'a Term>, OutOfMemory> {
    let mut reads = Vec::new(alloc);
    push_parts_reads(hypotheses, &mut reads)?;
    push_formula_reads(claim, &mut reads)?;
    Ok(reads)
}

/// The reads in formulas.
pub fn reads_in_all(alloc: Global, formulas: &[Formula]) -> Result<Vec<&Term>, OutOfMemory> {
    let mut reads = Vec::new(alloc);
    push_parts_reads(formulas, &mut reads)?;
    Ok(reads)
}

/// The reads in a term.
pub(crate) fn reads_of(alloc: Global, term: &Term) -> Result<Vec<&Term>, OutOfMemory> {
    let mut reads = Vec::new(alloc);
    push_reads(term, &mut reads)?;
    Ok(reads)
}

/// The column of the state that is below the stores of a column, if there is one.
pub fn base_of(column: &ColExpr) -> Option<ColId> {
    let mut rest = column;
    'stores: loop {
        match rest {
            ColExpr::Base(column) => return Some(*column),
            ColExpr::Affine(..) => return None,
            ColExpr::Store(column, _, _) => rest = column,
        }
    }
}

/// The cell that a read looks at in a state, before anything is stored, with its number; none if its index is not evaluated.
pub(crate) fn cell_read(read: &Term, state: &State, env: &Env) -> Option<Write> {
    let Term::Read(column, index) = read else {
        return None;
    };
    let column = base_of(column)?;
    let columns = state.column_count();
    if column.0 as usize >= columns || !term_is_known(index, columns, env.values.len()) {
        return None;
    }
    let index = eval_term(index, state, env).ok()?;
    let value = state.read(column, index).ok()?;
    Some(Write {
        column,
        index,
        value,
    })
}
