//! Whether guards hold and when their numbers leave 64 bits are cases of the program `lc_cases`.
ghost use Rattle.std.specs.Prelude.{◌≡◌};
ghost use Rattle.lc_term.specs.State.{column_count, variable_count};

use lc_base::{ColId, OutOfMemory};
use lc_term::{
    ColExpr, Env, EvalFault, Formula, State, Term, copy_formulas, eval_term, instantiate,
    is_closed, is_ground_of_quantifiers, laws, shift, shift_formula, substitute,
};
use std::alloc::Global;
use std::test::Fail;

/// Whether a value that leaves 64 bits is not computed, if it is stored at another index.
fn is_read_beside_a_store(alloc: Global, state: &State, env: &Env) -> Result<bool, OutOfMemory>
    requires columns { column_count state.now ≡ 1 }
    requires variables { variable_count env.now ≡ 1 }
{
    let column = Box::new(alloc, ColExpr::Base(ColId(0)))?;
    let index = Box::new(alloc, Term::Number(4))?;
    let large = Term::Multiply(2, Box::new(alloc, Term::Number(i64::MAX))?);
    let stored = ColExpr::Store(column, index, Box::new(alloc, large)?);
    let elsewhere = Term::read(alloc, stored, Term::Variable(0))?;
    Ok(eval_term(&elsewhere, state, env) == Ok(13))
}

/// Whether a column that is a line is read.
fn is_read_on_a_line(alloc: Global, state: &State, env: &Env) -> Result<bool, OutOfMemory>
    requires { variable_count env.now ≡ 1 }
{
    let affine = Term::read(alloc, ColExpr::Affine(2, 3), Term::Variable(0))?;
    Ok(eval_term(&affine, state, env) == Ok(13))
}

#[test]
fn a_stored_value_is_computed_only_at_its_index(rt: HostRuntime) -> Result<(), Fail> {
    let alloc = rt.alloc();
    let state = State::new(alloc, &[(2, 3)])?;
    let env = Env {
        values: Vec::from_array(alloc, [5])?,
    };
    let beside = is_read_beside_a_store(alloc, &state, &env)?;
    assert!(rt; beside & is_read_on_a_line(alloc, &state, &env)?);
    Ok(())
}

/// Whether a cell that is written has its number, and each other its initial one.
fn is_kept(state: &mut State) -> Result<bool, OutOfMemory>
    requires { column_count state.old ≡ 2 }
{
    let first = state.read(ColId(0), 5) == Ok(13);
    let overflow = state.read(ColId(1), 2) == Err(EvalFault::Overflow);
    state.write(ColId(1), 2, 7)?;
    let written = state.read(ColId(1), 2) == Ok(7);
    let beside = state.read(ColId(1), 1) == Ok(i64::MAX);
    Ok(first & overflow & written & beside & (state.read(ColId(0), 2) == Ok(7)))
}

#[test]
fn a_state_keeps_what_is_written(rt: HostRuntime) -> Result<(), Fail> {
    let mut state = State::new(rt.alloc(), &[(2, 3), (i64::MAX, 0)])?;
    assert!(rt; is_kept(&mut state)?);
    Ok(())
}

/// A number for a variable.
fn is_substituted(alloc: Global) -> Result<bool, OutOfMemory> {
    let formula = Formula::Le(Term::Variable(0), Term::Variable(1));
    let put = substitute(alloc, &formula, 0, &Term::Number(3))?;
    Ok(matches!(&put, Formula::Le(Term::Number(3), Term::Variable(1))))
}

/// A bound variable for a variable below a quantifier.
fn is_substituted_below(alloc: Global) -> Result<bool, OutOfMemory> {
    let formula = Formula::Le(Term::Variable(0), Term::Variable(1));
    let below = Formula::Forall(Box::new(alloc, formula)?);
    match &substitute(alloc, &below, 1, &Term::Bound(0))? {
        Formula::Forall(body) => {
            Ok(matches!(&**body, Formula::Le(Term::Variable(0), Term::Bound(1))))
        }
        _ => Ok(false),
    }
}

/// A variable for the outermost bound one.
fn is_instantiated(alloc: Global) -> Result<bool, OutOfMemory> {
    let inner = Formula::Le(Term::Bound(1), Term::Bound(0));
    let body = Formula::Exists(Box::new(alloc, inner)?);
    match &instantiate(alloc, &body, &Term::Variable(2))? {
        Formula::Exists(inner) => {
            Ok(matches!(&**inner, Formula::Le(Term::Variable(2), Term::Bound(0))))
        }
        _ => Ok(false),
    }
}

/// What is closed stays as it is.
fn is_left(alloc: Global) -> Result<bool, OutOfMemory> {
    let variable = Box::new(alloc, Term::Variable(0))?;
    let sum = Term::Add(variable, Box::new(alloc, Term::Number(1))?);
    Ok(is_closed(&sum) & (shift(alloc, &sum, 7, 0)? == sum))
}

/// A bound variable moves unless it is within the cutoff.
fn is_moved(alloc: Global) -> Result<bool, OutOfMemory> {
    let moved = shift(alloc, &Term::Bound(0), 7, 0)?;
    let within = shift(alloc, &Term::Bound(0), 7, 1)?;
    Ok(matches!(&moved, Term::Bound(7)) & matches!(&within, Term::Bound(0)))
}

/// What a quantifier binds does not move.
fn is_moved_below(alloc: Global) -> Result<bool, OutOfMemory> {
    let formula = Formula::Eq(Term::Bound(0), Term::Bound(1));
    let below = Formula::Forall(Box::new(alloc, formula)?);
    match &shift_formula(alloc, &below, 7, 0)? {
        Formula::Forall(body) => Ok(matches!(&**body, Formula::Eq(Term::Bound(0), Term::Bound(8)))),
        _ => Ok(false),
    }
}

#[test]
fn terms_are_put_for_variables_and_shifted(rt: HostRuntime) -> Result<(), Fail> {
    let alloc = rt.alloc();
    let put = is_substituted(alloc)? & is_substituted_below(alloc)? & is_instantiated(alloc)?;
    assert!(rt; put & is_left(alloc)? & is_moved(alloc)? & is_moved_below(alloc)?);
    Ok(())
}

/// `(rd (store (affine 1 2) b0 3) 4)`
fn cell(alloc: Global) -> Result<Term, OutOfMemory> {
    let column = Box::new(alloc, ColExpr::Affine(1, 2))?;
    let index = Box::new(alloc, Term::Bound(0))?;
    let stored = ColExpr::Store(column, index, Box::new(alloc, Term::Number(3))?);
    Term::read(alloc, stored, Term::Number(4))
}

/// `(and (<= (rd (store (affine 1 2) b0 3) 4) ?0) (or))`
fn conjunction(alloc: Global) -> Result<Formula, OutOfMemory> {
    let comparison = Formula::Le(cell(alloc)?, Term::Variable(0));
    let parts = [comparison, Formula::Or(Vec::new(alloc))];
    Ok(Formula::And(Vec::from_array(alloc, parts)?))
}

/// Whether copies are equal to a formula, and another formula is not.
fn is_copied(alloc: Global, formula: &Formula) -> Result<bool, OutOfMemory> {
    let copy = formula.try_clone(alloc)?;
    let same = copy == *formula;
    let copies = match formula {
        Formula::And(parts) => copy_formulas(alloc, parts)?,
        _ => Vec::new(alloc),
    };
    Ok(same & (Formula::And(copies) == *formula) & (*formula != Formula::Or(Vec::new(alloc))))
}

#[test]
fn a_copy_is_equal(rt: HostRuntime) -> Result<(), Fail> {
    let alloc = rt.alloc();
    let formula = conjunction(alloc)?;
    assert!(rt; is_copied(alloc, &formula)? & is_ground_of_quantifiers(&formula));
    let quantified = Formula::Exists(Box::new(alloc, formula)?);
    assert!(rt; !is_ground_of_quantifiers(&quantified));
    Ok(())
}

#[test]
fn laws_have_no_effect() {
    laws::equality_is_exact();
    laws::meaning_is_stable();
    laws::ground_formulas_are_decided();
    laws::replacement_keeps_meaning();
    laws::simultaneous_replacement_keeps_meaning();
    laws::substitution_keeps_meaning();
    laws::instantiation_keeps_meaning();
    laws::shift_keeps_meaning();
    laws::meaning_depends_on_what_stands_there();
    laws::closed_terms_move_freely();
    lc_text::laws::printed_terms_read_back();
    lc_text::laws::numbered_variables_read_back();
}
