//! A short development with what is planned put in.
ghost use Rattle.std.specs.Prelude.{ℕ, List};
ghost use Rattle.lc_sexp.specs.Reads.{ReadsAs};
ghost use Rattle.lc_fill.specs.PlanView.{plan_view};
ghost use Rattle.lc_short.specs.Completing.{IsCompleted};

use lc_base::Fault;
use lc_fill::{Plan, fill};
use lc_outline::Development;
use lc_outline_text::development_of;
use lc_sexp::Forms;
use std::alloc::Global;

/// A development that was completed.
#[derive(Drop)]
pub struct Completion {
    /// Its two forms, each in a line.
    pub text: Vec<u8>,
    pub development: Development,
}

/// The short development of these forms with what is planned put in. If that is no development, `Refused` has the first refusal of
/// its text.
pub fn completed(alloc: Global, plan: &Plan, forms: &Forms) -> Result<Completion, Fault>
    ensures { (bytes : List ℕ) → ReadsAs bytes forms.now → IsCompleted bytes (plan_view plan.now) forms.now result }
{
    let filling = fill(alloc, plan, forms)?;
    let text = filling.text(alloc)?;
    match development_of(alloc, &text) {
        Ok(development) => Ok(Completion { text, development }),
        Err(fault) => Err(fault),
    }
}
