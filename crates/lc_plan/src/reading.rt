//! How a plan is read.
ghost use Rattle.std.specs.Prelude.{◌≡◌, ℕ, List, IfOk};
ghost use Rattle.lc_sexp.specs.Reads.{ReadsAs};
ghost use Rattle.lc_sexp.specs.Shown.{rest_of, number_of, owner_of};
ghost use Rattle.lc_outline.specs.DevelopmentView.{development_view};
ghost use Rattle.lc_reading.specs.Files.{IsAnswerTo};
ghost use Rattle.lc_reading.specs.Parts.{tree_of, place_of};
ghost use Rattle.lc_reading.specs.Results.{IsReading};
ghost use Rattle.lc_plan.specs.Counted.{count_told};
ghost use Rattle.lc_plan.specs.Readings.{plan_parts_reading, form_reading, only_reading, plan_reading};
ghost use Rattle.lc_plan.specs.View.{all_in, plan_of};

use crate::numbers::read_count;
use crate::operations::Operations;
use crate::phase::Phases;
use crate::plan::Plan;
use lc_base::Fault;
use lc_outline::Development;
use lc_reading::{Part, ReadFault, behind_word, both, ended, next_part, one, read_each};
use lc_sexp::{Cursor, Forms};
use std::alloc::Global;

/// The number of clients, if one was read.
fn count_in(count: &Result<u32, ReadFault>) -> u32
    ensures { result ≡ count_told count.now }
{
    match count {
        Ok(clients) => *clients,
        Err(_) => 0,
    }
}

/// `CLIENTS (phase (C STEP*)*)*`
fn read_parts(
    alloc: Global,
    operations: &Operations<'_>,
    list: Cursor<'_>,
) -> Result<Plan, ReadFault>
    ensures { IsReading plan_of (plan_parts_reading (all_in operations.now) (owner_of list.entry) (number_of list.entry) (rest_of list.entry)) result }
{
    let mut rest = list;
    let first = next_part(&mut rest)?;
    let count = read_count(first);
    let phases = Phases {
        operations,
        clients: count_in(&count),
    };
    match both(count, read_each(alloc, &phases, rest)) {
        Ok((clients, phases)) => Ok(Plan { clients, phases }),
        Err(fault) => Err(fault),
    }
}

/// `(plan CLIENTS (phase (C STEP*)*)*)`
fn read_form(alloc: Global, operations: &Operations<'_>, part: Part<'_>) -> Result<Plan, ReadFault>
    ensures { IsReading plan_of (form_reading (all_in operations.now) (place_of part.entry) (tree_of part.entry)) result }
{
    let list = behind_word(part, "plan")?;
    read_parts(alloc, operations, list)
}

/// The form of a file of a plan, which must be the whole rest of a list.
fn read_file(
    alloc: Global,
    operations: &Operations<'_>,
    forms: Cursor<'_>,
) -> Result<Plan, ReadFault>
    ensures { IsReading plan_of (only_reading (all_in operations.now) (owner_of forms.entry) (number_of forms.entry) (rest_of forms.entry)) result }
{
    let (form, rest) = one(forms)?;
    ended(read_form(alloc, operations, form), rest)
}

/// The plan for a development in the file with these forms. If they are none, `Refused` has the first refusal,
/// as in `plan_of`.
pub fn plan_in(alloc: Global, development: &Development, forms: Forms) -> Result<Plan, Fault>
    requires { (bytes : List ℕ) × ReadsAs bytes forms }
    ensures { (bytes : List ℕ) → ReadsAs bytes forms → IsAnswerTo plan_of (plan_reading (development_view development.now)) bytes result }
{
    let specification = &development.parts().specification;
    let operations = Operations::new(alloc, specification.operations())?;
    match read_file(alloc, &operations, forms.cursor()) {
        Ok(plan) => Ok(plan),
        Err(fault) => Err(Fault::from(fault)),
    }
}

/// The plan for a development that these bytes are: `(plan CLIENTS (phase (C STEP*)*)*)`, each STEP `(call OP n*)`,
/// `(upto TURNS OP n*)` or `(times K (call OP n*))`. Without another number a call has 400,000 turns.
///
/// If they are none, `Refused` has the first refusal, as of a formula file: `Text` with the offset of the first text
/// fault; else of `Shape`, `Unknown`, `Repeated` and `Bound`, in this order, the first for which an item is wrong, with the
/// least such item. `OutOfMemory` says nothing about the bytes.
pub fn plan_of(alloc: Global, development: &Development, bytes: &[u8]) -> Result<Plan, Fault>
    ensures { IsAnswerTo plan_of (plan_reading (development_view development.now)) bytes.now result }
{
    let forms = Forms::read(alloc, bytes)?;
    plan_in(alloc, development, forms)
}
