//! The numbers of terms in a world.
ghost use Rattle.std.specs.Prelude.{◌≡◌, ℤ, List, IfOk, MatchOption};
ghost use Rattle.lc_object.specs.View.{terms_of};
ghost use Rattle.lc_term.specs.Meaning.{outside, value};
ghost use Rattle.lc_term.specs.State.{state_of, env_of, column_count};
ghost use Rattle.lc_term.specs.View.{term_of};
ghost use Rattle.lc_acting.specs.Acting.{IsEvaluated, AreNumbers};

use lc_base::OutOfMemory;
use lc_term::{Env, State, Term, eval_term, term_is_known};
use std::alloc::Global;

/// The number of a term, if it is evaluated.
pub(crate) fn number_of(term: &Term, state: &State, env: &Env) -> Option<i64>
    ensures { MatchOption result (IsEvaluated (column_count state.now) (state_of state.now) env.now.values.items (term_of term.now) → ⊥)
        (λ n. IsEvaluated (column_count state.now) (state_of state.now) env.now.values.items (term_of term.now) × (n ≡ value (state_of state.now) (env_of env.now) outside (term_of term.now))) }
{
    if !term_is_known(term, state.column_count(), env.values.len()) {
        return None;
    }
    match eval_term(term, state, env) {
        Ok(number) => Some(number),
        Err(_) => None,
    }
}

/// The numbers of terms, if all of them are evaluated.
pub(crate) fn numbers_of(
    alloc: Global,
    terms: &[Term],
    state: &State,
    env: &Env,
) -> Result<Option<Vec<i64>>, OutOfMemory>
    ensures { IfOk result (λ found. MatchOption found ((ns : List ℤ) → AreNumbers (column_count state.now) (state_of state.now) env.now.values.items (terms_of terms.now) ns → ⊥)
        (λ numbers. AreNumbers (column_count state.now) (state_of state.now) env.now.values.items (terms_of terms.now) numbers.items)) }
{
    let mut numbers = Vec::with_capacity(alloc, terms.len())?;
    for term in terms {
        match number_of(term, state, env) {
            None => return Ok(None),
            Some(number) => numbers.push(number)?,
        }
    }
    Ok(Some(numbers))
}
