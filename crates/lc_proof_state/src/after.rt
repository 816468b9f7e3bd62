//! What decides that a claim fails in a state: the comparisons, with the numbers of their sides, and the cells that are stored.
use crate::failing::is_refuted;
use crate::reads::{base_of, reads_in, reads_of};
use crate::situation::is_among;
use crate::telling::Told;
use lc_base::{ColId, OutOfMemory};
use lc_term::{ColExpr, Env, Formula, State, Term, Write, eval_term, term_is_known};
use std::alloc::Global;

/// A comparison by which a claim fails, or one under `not`, with the numbers of its sides.
#[derive(Clone, Copy)]
pub struct Decisive<'a> {
    pub comparison: &'a Formula,
    pub is_negated: bool,
    pub left: i64,
    pub right: i64,
}

/// The number of a term, if it is evaluated.
fn number_of(term: &Term, state: &State, env: &Env) -> Option<i64> {
    if term_is_known(term, state.column_count(), env.values.len()) {
        eval_term(term, state, env).ok()
    } else {
        None
    }
}

/// A comparison, with the numbers of its sides, if it is one and they are evaluated.
fn decisive_of<'a>(
    comparison: &'a Formula,
    is_negated: bool,
    state: &State,
    env: &Env,
) -> Option<Decisive<'a>> {
    let (Formula::Le(left, right) | Formula::Eq(left, right)) = comparison else {
        return None;
    };
    Some(Decisive {
        comparison,
        is_negated,
        left: number_of(left, state, env)?,
        right: number_of(right, state, env)?,
    })
}

/// The comparisons by which a formula fails, after others: of parts that all have to hold those of the first that does not, of parts of
/// which one has to hold those of all.
#[cycle(decisive)]
fn push_decisive<'a>(
    decisive: &mut Vec<Decisive<'a>>,
    formula: &'a Formula,
    state: &State,
    env: &Env,
) -> Result<(), OutOfMemory> {
    match formula {
        Formula::Le(..) | Formula::Eq(..) => {
            if let Some(found) = decisive_of(formula, false, state, env) {
                decisive.push(found)?;
            }
            Ok(())
        }
        Formula::Not(part) => {
            if let Some(found) = decisive_of(part, true, state, env) {
                decisive.push(found)?;
            }
            Ok(())
        }
        Formula::And(parts) => push_first_decisive(decisive, parts, state, env),
        Formula::Or(parts) => push_each_decisive(decisive, parts, state, env),
        Formula::Implies(_, right) => push_decisive(decisive, right, state, env),
        Formula::Forall(_) | Formula::Exists(_) => Ok(()),
    }
}

/// The comparisons by which the first of these fails that does, after others.
#[cycle(decisive)]
fn push_first_decisive<'a>(
    decisive: &mut Vec<Decisive<'a>>,
    parts: &'a [Formula],
    state: &State,
    env: &Env,
) -> Result<(), OutOfMemory> {
    for part in parts {
        if is_refuted(part, state, env) {
            return push_decisive(decisive, part, state, env);
        }
    }
    Ok(())
}

/// The comparisons by which each of these fails, after others.
#[cycle(decisive)]
fn push_each_decisive<'a>(
    decisive: &mut Vec<Decisive<'a>>,
    parts: &'a [Formula],
    state: &State,
    env: &Env,
) -> Result<(), OutOfMemory> {
    for part in parts {
        push_decisive(decisive, part, state, env)?;
    }
    Ok(())
}

/// The comparisons by which a claim fails in the reported state.
pub fn decisive_in(alloc: Global, told: &Told) -> Result<Vec<Decisive<'_>>, OutOfMemory> {
    let mut decisive = Vec::new(alloc);
    let situation = &told.situation;
    push_decisive(&mut decisive, &told.claim, &situation.state, &situation.env)?;
    Ok(decisive)
}

/// A store to a column of the state, evaluated.
fn write_of(column: ColId, index: &Term, value: &Term, state: &State, env: &Env) -> Option<Write> {
    Some(Write {
        column,
        index: number_of(index, state, env)?,
        value: number_of(value, state, env)?,
    })
}

/// What is stored to a column of the state, the last store first, after others: of each cell once.
fn push_writes(
    writes: &mut Vec<Write>,
    column: &ColExpr,
    state: &State,
    env: &Env,
) -> Result<(), OutOfMemory> {
    let Some(base) = base_of(column) else {
        return Ok(());
    };
    let mut rest = column;
    'stores: loop {
        match rest {
            ColExpr::Base(_) | ColExpr::Affine(..) => return Ok(()),
            ColExpr::Store(below, index, value) => {
                if let Some(write) = write_of(base, index, value, state, env)
                    && !is_among(write, writes)
                {
                    writes.push(write)?;
                }
                rest = below;
            }
        }
    }
}

/// What the columns of these reads have stored, of each cell once.
fn writes_in(alloc: Global, told: &Told, reads: &[&Term]) -> Result<Vec<Write>, OutOfMemory> {
    let (state, env) = (&told.situation.state, &told.situation.env);
    let mut writes = Vec::new(alloc);
    for read in reads {
        if let Term::Read(column, _) = read {
            push_writes(&mut writes, column, state, env)?;
        }
    }
    Ok(writes)
}

/// The cells that are stored where a claim is made about them, in the reported state.
pub fn stored_in(alloc: Global, told: &Told) -> Result<Vec<Write>, OutOfMemory> {
    let reads = reads_in(alloc, &[], &told.claim)?;
    writes_in(alloc, told, &reads)
}

/// The cells that are stored where a term reads them, in the reported state.
pub fn stored_by(alloc: Global, told: &Told, term: &Term) -> Result<Vec<Write>, OutOfMemory> {
    let reads = reads_of(alloc, term)?;
    writes_in(alloc, told, &reads)
}

/// Whether a formula reads a column that is stored to.
pub fn reads_stored(alloc: Global, formula: &Formula) -> Result<bool, OutOfMemory> {
    let reads = reads_in(alloc, &[], formula)?;
    for read in &reads {
        if let Term::Read(column, _) = read
            && matches!(&**column, ColExpr::Store(..))
        {
            return Ok(true);
        }
    }
    Ok(false)
}
