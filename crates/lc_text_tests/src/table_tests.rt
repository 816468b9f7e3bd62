//! Tests of the table of terms and formulas.
use lc_base::{ColId, OutOfMemory};
use lc_copy::{copy_from, formula_tree, term_tree};
use lc_put::shift;
use lc_table::Terms;
use lc_term::{ColExpr, Formula, Term};
use std::alloc::Global;
use std::test::Fail;

// (+ x x)
fn doubled(alloc: Global) -> Result<Term, OutOfMemory> {
    Ok(Term::Add(
        Box::new(alloc, Term::Variable(0))?,
        Box::new(alloc, Term::Variable(0))?,
    ))
}

// (<= (+ x x) (+ x x))
fn comparison(alloc: Global) -> Result<Formula, OutOfMemory> {
    Ok(Formula::Le(doubled(alloc)?, doubled(alloc)?))
}

fn is_shared(alloc: Global) -> Result<bool, OutOfMemory> {
    let formula = comparison(alloc)?;
    let mut terms = Terms::new(alloc);
    let first = terms.enter_formula(alloc, &formula)?;
    let three = terms.len() == 3;
    let again = terms.enter_formula(alloc, &formula)?;
    Ok(three & (terms.len() == 3) & (first == again))
}

fn is_given_back(alloc: Global) -> Result<bool, OutOfMemory> {
    let formula = comparison(alloc)?;
    let mut terms = Terms::new(alloc);
    let id = terms.enter_formula(alloc, &formula)?;
    Ok(formula_tree(&terms, alloc, id)? == formula)
}

fn is_copied(alloc: Global) -> Result<bool, OutOfMemory> {
    let formula = comparison(alloc)?;
    let mut terms = Terms::new(alloc);
    let id = terms.enter_formula(alloc, &formula)?;
    let mut other = Terms::new(alloc);
    let copy = copy_from(&mut other, alloc, &terms, id)?;
    Ok((formula_tree(&other, alloc, copy)? == formula) & (other.len() == 3))
}

// A shift that moves nothing answers the same number.
fn is_shifted(alloc: Global) -> Result<bool, OutOfMemory> {
    // `(rd (store c0 b0 7) b1)`
    let column = Box::new(alloc, ColExpr::Base(ColId(0)))?;
    let index = Box::new(alloc, Term::Bound(0))?;
    let stored = ColExpr::Store(column, index, Box::new(alloc, Term::Number(7))?);
    let read = Term::read(alloc, stored, Term::Bound(1))?;
    let mut terms = Terms::new(alloc);
    let id = terms.enter_term(&read)?;
    let moved = shift(&mut terms, alloc, id, 2, 1)?;
    let id = terms.enter_term(&read)?;
    let stays = shift(&mut terms, alloc, id, 2, 2)?;
    Ok((id == stays) & (id != moved) & (term_tree(&terms, alloc, id)? == read))
}

#[test]
fn a_table_shares_what_is_the_same_and_gives_it_back(rt: HostRuntime) -> Result<(), Fail> {
    let alloc = rt.alloc();
    let kept = is_shared(alloc)? & is_given_back(alloc)? & is_copied(alloc)?;
    assert!(rt; kept & is_shifted(alloc)?);
    Ok(())
}
