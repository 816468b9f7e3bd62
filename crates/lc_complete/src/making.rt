//! How a short development is made whole.
ghost use Rattle.std.specs.Prelude.{◌≡◌, ℕ, Bool, List, IfOk};
ghost use Rattle.lc_fill.specs.Plan.{no_plan};
ghost use Rattle.lc_layout.specs.Layout.{laid_out};
ghost use Rattle.lc_sexp.specs.Reads.{ReadsAs};
ghost use Rattle.lc_sexp.specs.Trees.{Trees};
ghost use Rattle.lc_short.specs.Completing.{IsCompleted};
ghost use Rattle.lc_complete.specs.Making.{IsAnswer};
ghost use Rattle.lc_complete.specs.Noted.{noted};

use crate::inferred::inferred_lines;
use crate::noting::noted;
use lc_base::{Fault, OutOfMemory};
use lc_fill::Plan;
use lc_guess::{Reach, guess};
use lc_houdini::{Rounds, Sieved, sifted};
use lc_layout::lay_out;
use lc_outline::Development;
use lc_sexp::Forms;
use lc_short::{Completion, completed, short_in};
use std::alloc::Global;

/// A short development that was made whole.
#[derive(Drop)]
pub struct Made {
    /// Its two forms, over lines. Lines on which something inferred begins have a comment at their end.
    pub text: Vec<u8>,
    pub development: Development,
}

/// The forms of a text, over lines. The text was read before, so no fault is in it.
fn laid(alloc: Global, text: &[u8]) -> Result<Vec<u8>, OutOfMemory>
    ensures { IfOk result (λ laid. (forms : Trees) × ReadsAs text.now forms × (laid.items ≡ laid_out forms)) }
{
    match Forms::read(alloc, text) {
        Ok(forms) => {
            let laid = lay_out(alloc, forms.cursor())?;
            Ok(laid)
        }
        Err(_) => Err(OutOfMemory),
    }
}

/// The short development of these forms with nothing planned.
fn completed_plainly(alloc: Global, forms: &Forms) -> Result<Completion, Fault>
    ensures { (bytes : List ℕ) → ReadsAs bytes forms.now → IsCompleted bytes no_plan forms.now result }
{
    let plan = Plan::none(alloc)?;
    completed(alloc, &plan, forms)
}

/// The short development of these forms with what is planned put in; if it is refused so, with nothing planned.
fn completed_by(alloc: Global, forms: &Forms, plan: &mut Plan) -> Result<Completion, Fault>
    ensures { (bytes : List ℕ) → ReadsAs bytes forms.now → IsCompleted bytes no_plan forms.now result }
{
    match completed(alloc, plan, forms) {
        Ok(completion) => Ok(completion),
        Err(Fault::Refused(_)) => {
            *plan = Plan::none(alloc)?;
            completed_plainly(alloc, forms)
        }
        Err(Fault::OutOfMemory) => Err(Fault::OutOfMemory),
    }
}

/// A text to which forms were completed by a plan, over lines. Those on which something inferred begins are marked.
fn shown(alloc: Global, text: &[u8], forms: &Forms, plan: &Plan) -> Result<Vec<u8>, OutOfMemory>
    ensures { IfOk result (λ shown. (trees : Trees) × (marks : List Bool) × ReadsAs text.now trees × (shown.items ≡ noted marks (laid_out trees))) }
{
    let laid = laid(alloc, text)?;
    let marks = inferred_lines(alloc, &laid, forms, plan)?;
    let shown = noted(alloc, &laid, &marks)?;
    Ok(shown)
}

/// What is guessed so far for a short development with these forms, in which these places lack calls, and stays.
fn planned_by<R: Rounds>(
    alloc: Global,
    forms: &Forms,
    lacking: &[u64],
    reach: Reach,
    budget: u64,
    rounds: &mut R,
) -> Result<Sieved, OutOfMemory> {
    let guessed = guess(alloc, forms, lacking, reach)?;
    sifted(alloc, forms, guessed, budget, rounds)
}

/// What is planned: what is told, if all conditions have proofs then; else also what is tried, if more of them have.
fn planned<R: Rounds>(
    alloc: Global,
    forms: &Forms,
    lacking: &[u64],
    budget: u64,
    rounds: &mut R,
) -> Result<Plan, OutOfMemory> {
    let Sieved { plan, unfound } = planned_by(alloc, forms, lacking, Reach::Told, budget, rounds)?;
    let Some(count) = unfound else {
        return Ok(plan);
    };
    if count == 0 {
        return Ok(plan);
    }
    let tried = planned_by(alloc, forms, lacking, Reach::Tried, budget, rounds)?;
    match tried.unfound {
        Some(fewer) if fewer < count => Ok(tried.plan),
        _ => Ok(plan),
    }
}

/// The short development of the file with these forms, made whole. Guessed facts of which no proof is found in at most `budget` steps, and those
/// that nothing needs, are left out, round by round, as is reported to `rounds`. What was guessed need not hold: whether all conditions of the
/// development are valid is for the finder to say.
///
/// If the file is no short development, `Refused` has its first refusal, as of `lc_short::short_in`. If it is one, and its text is not within the limits
/// with what was left out put in, `Refused` has the first refusal of that text.
pub fn complete<R: Rounds>(
    alloc: Global,
    forms: &Forms,
    budget: u64,
    rounds: &mut R,
) -> Result<Made, Fault>
    ensures { (bytes : List ℕ) → ReadsAs bytes forms.now → IsAnswer bytes result }
{
    let short = short_in(alloc, forms)?;
    let mut plan = planned(alloc, forms, short.lacking(), budget, rounds)?;
    let completion = completed_by(alloc, forms, &mut plan)?;
    let text = shown(alloc, &completion.text, forms, &plan)?;
    let Completion { development, .. } = completion;
    Ok(Made { text, development })
}
