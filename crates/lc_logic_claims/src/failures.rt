//! States in which a goal fails.
ghost use Rattle.std.specs.Prelude.{◌≡◌, ◌↔◌, IfOk};
ghost use Rattle.lc_proof_state.specs.Told.{IsTold};
ghost use Rattle.lc_proof_state.specs.declared.failing.Failing.TheVariants.{Fails};
ghost use Rattle.lc_term.specs.View.{formula_of, formulas_of};

use lc_base::OutOfMemory;
use lc_proof_state::{FAILS, Failing, Numbered, Told, tell, words_of};
use lc_term::Formula;
use std::alloc::Global;

/// A goal is said to fail exactly if it fails in the state and at the numbers that are reported.
pub fn telling(
    alloc: Global,
    columns: u32,
    variables: u32,
    numbers: &[Numbered],
    witnesses: &[u32],
    given: &[Formula],
    goal: &Formula,
) -> Result<Told, OutOfMemory>
    ensures { IfOk result (IsTold columns (formulas_of given.now) (formula_of goal.now)) }
{
    tell(alloc, columns, variables, numbers, witnesses, given, goal)
}

/// The words of a goal that fails are those of no other.
pub fn wording(failing: Failing) -> &'static str
    ensures { result.now ≡ FAILS.now ↔ failing ≡ Fails }
{
    words_of(failing)
}
