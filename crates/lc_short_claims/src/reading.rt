//! Short developments.
ghost use Rattle.std.specs.Prelude.{ℕ, List};
ghost use Rattle.lc_sexp.specs.Reads.{ReadsAs};
ghost use Rattle.lc_fill.specs.PlanView.{plan_view};
ghost use Rattle.lc_short.specs.Answers.{IsShortAnswer};
ghost use Rattle.lc_short.specs.Completing.{IsCompleted};

use lc_base::Fault;
use lc_fill::Plan;
use lc_sexp::Forms;
use lc_short::{Completion, Short, completed, short_in, short_of};
use std::alloc::Global;

/// For a file, the short development that it says is returned, or its first refusal.
pub fn reading_a_short_development(alloc: Global, bytes: &[u8]) -> Result<Short, Fault>
    ensures { IsShortAnswer bytes.now result }
{
    short_of(alloc, bytes)
}

/// The same for its forms.
pub fn reading_short_forms(alloc: Global, forms: &Forms) -> Result<Short, Fault>
    ensures { (bytes : List ℕ) → ReadsAs bytes forms.now → IsShortAnswer bytes result }
{
    short_in(alloc, forms)
}

/// What is completed is the file with what is planned.
pub fn completing_a_development(
    alloc: Global,
    plan: &Plan,
    forms: &Forms,
) -> Result<Completion, Fault>
    ensures { (bytes : List ℕ) → ReadsAs bytes forms.now → IsCompleted bytes (plan_view plan.now) forms.now result }
{
    completed(alloc, plan, forms)
}
