//! Looks at a few formulas in one state: a column that has 0 everywhere but 7 in cell 3.
#![tactic(auto)]

use lc_base::{ColId, OutOfMemory};
use lc_look::{Seen, look};
use lc_term::{ColExpr, Env, Formula, State, Term};
use std::alloc::Global;
use std::io;

/// The number in the cell of the innermost bound variable.
fn own_cell(alloc: Global) -> Result<Term, OutOfMemory> {
    let column = Box::new(alloc, ColExpr::Base(ColId(0)))?;
    let index = Box::new(alloc, Term::Bound(0))?;
    Ok(Term::Read(column, index))
}

/// That cell has at most this number.
fn cell_at_most(alloc: Global, number: i64) -> Result<Formula, OutOfMemory> {
    Ok(Formula::Le(own_cell(alloc)?, Term::Number(number)))
}

/// It has this number at least.
fn cell_at_least(alloc: Global, number: i64) -> Result<Formula, OutOfMemory> {
    Ok(Formula::Le(Term::Number(number), own_cell(alloc)?))
}

fn each(alloc: Global, body: Formula) -> Result<Formula, OutOfMemory> {
    Ok(Formula::Forall(Box::new(alloc, body)?))
}

fn some(alloc: Global, body: Formula) -> Result<Formula, OutOfMemory> {
    Ok(Formula::Exists(Box::new(alloc, body)?))
}

/// The first variable, 1, and the largest number of 64 bits are at most 0.
fn too_large(alloc: Global) -> Result<Formula, OutOfMemory> {
    let first = Box::new(alloc, Term::Variable(0))?;
    let largest = Box::new(alloc, Term::Number(9_223_372_036_854_775_807))?;
    Ok(Formula::Le(Term::Add(first, largest), Term::Number(0)))
}

/// If the innermost bound variable is from 0 to this number, its cell has at most 7.
fn small_up_to(alloc: Global, number: i64) -> Result<Formula, OutOfMemory> {
    let low = Formula::Le(Term::Number(0), Term::Bound(0));
    let high = Formula::Le(Term::Bound(0), Term::Number(number));
    let small = Box::new(alloc, cell_at_most(alloc, 7)?)?;
    let below = Formula::Implies(Box::new(alloc, high)?, small);
    Ok(Formula::Implies(Box::new(alloc, low)?, Box::new(alloc, below)?))
}

/// The innermost bound variable is from 0 to this number, and its cell has at least 7.
fn large_up_to(alloc: Global, number: i64) -> Result<Formula, OutOfMemory> {
    let mut parts = Vec::new(alloc);
    parts.push(Formula::Le(Term::Number(0), Term::Bound(0)))?;
    parts.push(Formula::Le(Term::Bound(0), Term::Number(number)))?;
    parts.push(cell_at_least(alloc, 7)?)?;
    Ok(Formula::And(parts))
}

fn word(seen: Seen) -> &'static str {
    match seen {
        Seen::Yes => "it holds",
        Seen::No => "it does not hold",
        Seen::Open => "open",
    }
}

fn looked(alloc: Global, formula: Formula) -> Result<&'static str, OutOfMemory> {
    let mut state = State::new(alloc, &[(0, 0)])?;
    if state.column_count() > 0 {
        state.write(ColId(0), 3, 7)?;
    }
    let mut values = Vec::new(alloc);
    values.push(1)?;
    let env = Env { values };
    Ok(word(look(alloc, &formula, &state, &env, &[0, 3, 5])?))
}

/// What is seen of the formula of a number.
fn answer(alloc: Global, number: u8) -> Result<&'static str, OutOfMemory> {
    let formula = match number {
        0 => each(alloc, cell_at_most(alloc, 7)?)?,
        1 => each(alloc, cell_at_most(alloc, 6)?)?,
        2 => some(alloc, cell_at_least(alloc, 7)?)?,
        3 => some(alloc, cell_at_least(alloc, 8)?)?,
        4 => too_large(alloc)?,
        5 => each(alloc, small_up_to(alloc, 1023)?)?,
        6 => each(alloc, small_up_to(alloc, 1024)?)?,
        7 => some(alloc, large_up_to(alloc, 2)?)?,
        8 => some(alloc, large_up_to(alloc, 3)?)?,
        _ => Formula::Not(Box::new(alloc, each(alloc, cell_at_most(alloc, 6)?)?)?),
    };
    looked(alloc, formula)
}

fn main(rt: HostRuntime) -> io::Result<()> {
    for number in 0..10 {
        match answer(rt.alloc(), number) {
            Ok(answer) => println!(rt; "{answer}")?,
            Err(_) => println!(rt; "no memory")?,
        }
    }
    Ok(())
}
