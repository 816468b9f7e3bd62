//! Files that are filled.
ghost use Rattle.std.specs.Prelude.{◌≡◌, IfOk};
ghost use Rattle.lc_sexp.specs.Printed.{printed};
ghost use Rattle.lc_fill.specs.Files.{file_filled};
ghost use Rattle.lc_fill.specs.FillingView.{filling_view};
ghost use Rattle.lc_fill.specs.Gaps.{meant};
ghost use Rattle.lc_fill.specs.PlanView.{plan_view};

use lc_base::OutOfMemory;
use lc_fill::{Filling, Plan, fill};
use lc_sexp::Forms;
use std::alloc::Global;

/// What was left out is put in as it is planned, and nothing else.
pub fn filling_a_file(alloc: Global, plan: &Plan, forms: &Forms) -> Result<Filling, OutOfMemory>
    ensures { IfOk result (λ filling. filling_view filling ≡ file_filled (plan_view plan.now) forms.now) }
{
    fill(alloc, plan, forms)
}

/// The text is that of what was filled.
pub fn printing_a_filled_file(alloc: Global, filling: &Filling) -> Result<Vec<u8>, OutOfMemory>
    ensures { IfOk result (λ text. text.items ≡ printed (filling_view filling.now).whole) }
{
    filling.text(alloc)
}

/// An item means itself, or the item before which it was put in.
pub fn finding_an_item(filling: &Filling, item: u64) -> u64
    ensures { result ≡ meant (filling_view filling.now).gaps item }
{
    filling.meant(item)
}
