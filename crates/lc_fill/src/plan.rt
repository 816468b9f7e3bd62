//! What is to be put into a file.
ghost use Rattle.std.specs.Prelude.{◌≡◌};
ghost use Rattle.lc_sexp.specs.Shown.{rest_of};
ghost use Rattle.lc_fill.specs.PlanView.{found};

use lc_base::OutOfMemory;
use lc_sexp::{Cursor, Forms};
use std::alloc::Global;

/// Items that are planned at a place.
#[derive(Drop)]
pub struct Planned {
    /// The number in the file of the item before which they are put in.
    pub place: u64,
    pub items: Forms,
}

/// What is to be put into a file.
#[derive(Drop)]
pub struct Plan {
    /// Actions, which come after those of the file.
    pub actions: Forms,
    /// What the call of an action has that was left out: its name, and its terms.
    pub calls: Vec<Planned>,
    /// What is asserted at a point after what the file asserts, by the place of the list, or of what comes there in its place.
    pub asserts: Vec<Planned>,
    /// What holds of idle clients after what the file says of them.
    pub idle: Forms,
}

/// What is planned before the item of this number.
pub(crate) fn found(planned: &[Planned], place: u64) -> Cursor<'_>
    ensures { rest_of result ≡ found planned.now place }
{
    for one in planned {
        let at = one.place;
        if at == place {
            return one.items.cursor();
        }
    }
    Cursor::empty()
}

impl Plan {
    ghost use Rattle.std.specs.Prelude.{◌≡◌, IfOk};
    ghost use Rattle.lc_fill.specs.Plan.{no_plan};
    ghost use Rattle.lc_fill.specs.PlanView.{plan_view};

    /// Nothing is planned.
    pub fn none(alloc: Global) -> Result<Plan, OutOfMemory>
        ensures { IfOk result (λ plan. plan_view plan ≡ no_plan) }
    {
        Ok(Plan {
            actions: Forms::of(alloc, &[])?,
            calls: Vec::new(alloc),
            asserts: Vec::new(alloc),
            idle: Forms::of(alloc, &[])?,
        })
    }
}
