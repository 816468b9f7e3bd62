//! Terms and formulas computed in 64 bits.
ghost use Rattle.std.specs.Prelude.{◌≡◌, ◌↔◌, OkIff, IsTrue, IsOk, IfOk};
ghost use Rattle.lc_term.specs.Meaning.{outside, value, column, Holds};
ghost use Rattle.lc_term.specs.Places.{known, term_passes, column_passes, is_known, are_known};
ghost use Rattle.lc_term.specs.Reached.{TermFits, CellFits, FormulaFits, AndFits, OrFits};
ghost use Rattle.lc_term.specs.State.{state_of, env_of, column_count, variable_count};
ghost use Rattle.lc_term.specs.Syntax.{formulas};
ghost use Rattle.lc_term.specs.Truth.{is_ground, are_ground, truth, all_true, some_true};
ghost use Rattle.lc_term.specs.View.{term_of, column_of, formula_of, formulas_of};

use crate::formula::Formula;
use crate::state::{Env, EvalFault, State, affine_cell};
use crate::term::{ColExpr, Term};

/// The number of a term, computed in 64 bits, parts from the left. `Overflow` is returned exactly if a number
/// that is reached does not fit.
///
/// The term has no bound variable, and its columns and variables are those of the state and the environment.
#[cycle(eval_term)]
pub fn eval_term(term: &Term, state: &State, env: &Env) -> Result<i64, EvalFault>
    requires { IsTrue (term_passes (known (column_count state.now) (variable_count env.now)) (term_of term.now)) }
    ensures { let s = state_of state.now in
        let e = env_of env.now in
        let t = term_of term.now in
        OkIff result (TermFits s e t) (value s e outside t) }
{
    match term {
        Term::Number(number) => Ok(*number),
        Term::Variable(number) => Ok(env.values[*number as usize]),
        Term::Bound(_) => unreachable!(),
        Term::Add(left, right) => {
            let left = eval_term(left, state, env)?;
            let right = eval_term(right, state, env)?;
            left.checked_add(right).ok_or(EvalFault::Overflow)
        }
        Term::Subtract(left, right) => {
            let left = eval_term(left, state, env)?;
            let right = eval_term(right, state, env)?;
            left.checked_sub(right).ok_or(EvalFault::Overflow)
        }
        Term::Multiply(factor, term) => {
            let number = eval_term(term, state, env)?;
            factor.checked_mul(number).ok_or(EvalFault::Overflow)
        }
        Term::Read(column, index) => {
            let index = eval_term(index, state, env)?;
            read_cell(column, index, state, env)
        }
    }
}

// The number in a cell. Of a column that is stored to, the stored index is computed first, then the stored value
// if the index is this one, and else the cell of the column below.
#[cycle(eval_term)]
fn read_cell(expression: &ColExpr, index: i64, state: &State, env: &Env) -> Result<i64, EvalFault>
    requires { IsTrue (column_passes (known (column_count state.now) (variable_count env.now)) (column_of expression.now)) }
    ensures { let s = state_of state.now in
        let e = env_of env.now in
        let c = column_of expression.now in
        OkIff result (CellFits s e c index) (column s e outside c index) }
{
    let mut rest = expression;
    'stores: loop {
        match rest {
            ColExpr::Base(column) => return state.read(*column, index),
            ColExpr::Store(below, stored_index, stored) => {
                if eval_term(stored_index, state, env)? == index {
                    return eval_term(stored, state, env);
                }
                rest = below;
            }
            ColExpr::Affine(slope, start) => return affine_cell(*slope, *start, index),
        }
    }
}

/// Whether a formula holds, computed in 64 bits. The parts of a conjunction, a disjunction and an implication are
/// taken from the left, until the answer is decided. `Overflow` is returned exactly if a number that is
/// reached does not fit.
///
/// The formula has no quantifier and no bound variable, and its columns and variables are those of the state and
/// the environment.
pub fn eval(formula: &Formula, state: &State, env: &Env) -> Result<bool, EvalFault>
    requires ground { IsTrue (is_ground (formula_of formula.now)) }
    requires known { IsTrue (is_known (column_count state.now) (variable_count env.now) (formula_of formula.now)) }
    ensures meaning { IfOk result (λ answer.
        IsTrue answer ↔ Holds (state_of state.now) (env_of env.now) outside (formula_of formula.now)) }
    ensures overflow { IsOk result ↔ FormulaFits (state_of state.now) (env_of env.now) (formula_of formula.now) }
{
    is_true(formula, state, env)
}

#[cycle(is_true)]
fn is_true(formula: &Formula, state: &State, env: &Env) -> Result<bool, EvalFault>
    requires ground { IsTrue (is_ground (formula_of formula.now)) }
    requires known { IsTrue (is_known (column_count state.now) (variable_count env.now) (formula_of formula.now)) }
    ensures { let s = state_of state.now in
        let e = env_of env.now in
        let f = formula_of formula.now in
        OkIff result (FormulaFits s e f) (truth s e outside f) }
{
    match formula {
        Formula::Le(left, right) => {
            let left = eval_term(left, state, env)?;
            let right = eval_term(right, state, env)?;
            Ok(left <= right)
        }
        Formula::Eq(left, right) => {
            let left = eval_term(left, state, env)?;
            let right = eval_term(right, state, env)?;
            Ok(left == right)
        }
        Formula::Not(formula) => {
            let answer = is_true(formula, state, env)?;
            Ok(!answer)
        }
        Formula::And(parts) => are_all_true(parts, state, env),
        Formula::Or(parts) => is_some_true(parts, state, env),
        Formula::Implies(left, right) => {
            if is_true(left, state, env)? {
                is_true(right, state, env)
            } else {
                Ok(true)
            }
        }
        Formula::Forall(_) | Formula::Exists(_) => unreachable!(),
    }
}

#[cycle(is_true)]
fn are_all_true(parts: &[Formula], state: &State, env: &Env) -> Result<bool, EvalFault>
    requires ground { IsTrue (are_ground (formulas (formulas_of parts.now))) }
    requires known { IsTrue (are_known (column_count state.now) (variable_count env.now) (formulas (formulas_of parts.now))) }
    ensures { let s = state_of state.now in
        let e = env_of env.now in
        let fs = formulas (formulas_of parts.now) in
        OkIff result (AndFits s e fs) (all_true s e outside fs) }
{
    for part in parts {
        if !is_true(part, state, env)? {
            return Ok(false);
        }
    }
    Ok(true)
}

#[cycle(is_true)]
fn is_some_true(parts: &[Formula], state: &State, env: &Env) -> Result<bool, EvalFault>
    requires ground { IsTrue (are_ground (formulas (formulas_of parts.now))) }
    requires known { IsTrue (are_known (column_count state.now) (variable_count env.now) (formulas (formulas_of parts.now))) }
    ensures { let s = state_of state.now in
        let e = env_of env.now in
        let fs = formulas (formulas_of parts.now) in
        OkIff result (OrFits s e fs) (some_true s e outside fs) }
{
    for part in parts {
        if is_true(part, state, env)? {
            return Ok(true);
        }
    }
    Ok(false)
}
