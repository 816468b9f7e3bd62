//! Plans of runs.
ghost use Rattle.lc_outline.specs.DevelopmentView.{development_view};
ghost use Rattle.lc_plan.specs.Readings.{plan_reading};
ghost use Rattle.lc_plan.specs.View.{plan_of};
ghost use Rattle.lc_reading.specs.Files.{IsAnswerTo};

use lc_base::Fault;
use lc_outline::Development;
use lc_plan::{Plan, plan_of};
use std::alloc::Global;

/// For a file, its plan for a development is returned, or its first refusal.
pub fn reading_a_plan(alloc: Global, development: &Development, bytes: &[u8]) -> Result<Plan, Fault>
    ensures { IsAnswerTo plan_of (plan_reading (development_view development.now)) bytes.now result }
{
    plan_of(alloc, development, bytes)
}
