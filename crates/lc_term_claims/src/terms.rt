//! Terms and formulas, states, and what is computed of them.
ghost use Rattle.std.specs.Prelude.{◌≡◌, ◌<◌, ◌↔◌, IfOk, IsOk, IsTrue, OnOk};
ghost use Rattle.lc_term.specs.Drafts.{draft_columns, saved_in_draft, written_in_draft};
ghost use Rattle.lc_term.specs.Equal.{term_eq};
ghost use Rattle.lc_term.specs.Meaning.{Holds, outside};
ghost use Rattle.lc_term.specs.Places.{is_known, passes, put_fits, shift_fits, term_passes};
ghost use Rattle.lc_term.specs.Reached.{FormulaFits};
ghost use Rattle.lc_term.specs.State.{column_count, env_of, state_of, variable_count, with_cell};
ghost use Rattle.lc_term.specs.Substitution.{shifted_term, substituted};
ghost use Rattle.lc_term.specs.Truth.{is_ground};
ghost use Rattle.lc_term.specs.UpdateView.{writes_view};
ghost use Rattle.lc_term.specs.Updates.{AreWithin};
ghost use Rattle.lc_term.specs.View.{formula_of, term_of};

use lc_base::{ColId, OutOfMemory};
use lc_term::{
    Draft, Env, EvalFault, Formula, State, Term, Write, eval, is_ground_of_quantifiers, shift,
    substitute,
};
use std::alloc::Global;

/// Terms are equal exactly if they are the same tree.
pub fn are_equal(term: &Term, other: &Term) -> bool
    ensures { result ≡ term_eq (term_of term.now) (term_of other.now) }
{
    term == other
}

/// It is reported exactly whether a formula has no quantifier.
pub fn is_ground(formula: &Formula) -> bool
    ensures { result ≡ is_ground (formula_of formula.now) }
{
    is_ground_of_quantifiers(formula)
}

/// A term is put in for a variable; below quantifiers it is shifted.
pub fn substituting(
    alloc: Global,
    formula: &Formula,
    variable: u32,
    term: &Term,
) -> Result<Formula, OutOfMemory>
    requires { IsTrue (passes (put_fits variable (term_of term.now)) 0 (formula_of formula.now)) }
    ensures { IfOk result (λ put. formula_of put ≡ substituted variable (term_of term.now) (formula_of formula.now)) }
{
    substitute(alloc, formula, variable, term)
}

/// A shift leaves bound variables below the cutoff as they are.
pub fn shifting(alloc: Global, term: &Term, added: u32, cutoff: u32) -> Result<Term, OutOfMemory>
    requires { IsTrue (term_passes (shift_fits added cutoff 0) (term_of term.now)) }
    ensures { IfOk result (λ moved. term_of moved ≡ shifted_term added cutoff (term_of term.now)) }
{
    shift(alloc, term, added, cutoff)
}

/// A formula is evaluated to whether it holds, until that is decided.
pub fn evaluating(formula: &Formula, state: &State, env: &Env) -> Result<bool, EvalFault>
    requires ground { IsTrue (is_ground (formula_of formula.now)) }
    requires known { IsTrue (is_known (column_count state.now) (variable_count env.now) (formula_of formula.now)) }
    ensures meaning { IfOk result (λ answer. IsTrue answer ↔ Holds (state_of state.now) (env_of env.now) outside (formula_of formula.now)) }
    ensures overflow { IsOk result ↔ FormulaFits (state_of state.now) (env_of env.now) (formula_of formula.now) }
{
    eval(formula, state, env)
}

/// A write changes one cell.
pub fn writing(state: &mut State, column: ColId, index: i64, number: i64) -> Result<(), OutOfMemory>
    requires { column.0 < column_count state.old }
    ensures { OnOk result (state_of state.new ≡ with_cell (state_of state.old) column.0 index number) }
{
    state.write(column, index, number)
}

/// Writes to a draft do not change what is saved.
pub fn drafting(draft: &mut Draft, writes: &[Write]) -> Result<(), OutOfMemory>
    requires { AreWithin (draft_columns draft.old) (writes_view writes.now) }
    ensures { saved_in_draft draft.new ≡ saved_in_draft draft.old }
{
    draft.write_all(writes)
}

/// A draft that is rolled back is what was saved.
pub fn rolling_back(draft: &mut Draft)
    ensures { written_in_draft draft.new ≡ saved_in_draft draft.old }
{
    draft.roll_back();
}
