//! What lc_bare promises, once more.
ghost use Rattle.std.specs.Prelude.{IfOk};
ghost use Rattle.lc_findings.specs.Bare.{FindsBare};
ghost use Rattle.lc_bare.specs.Toured.{IsToured};
ghost use Rattle.lc_outline.specs.DevelopmentView.{development_view};
ghost use Rattle.lc_worlds.specs.Seats.{scripts_view};

use lc_bare::{Toured, bare_tour};
use lc_base::OutOfMemory;
use lc_findings::{Findings, find_bare_faults};
use lc_outline::Development;
use lc_seq::TextCall;
use std::alloc::Global;

/// Each history by the scripts is linearizable; or a run is answered whose history no order linearizes, or whose last step leaves 64 bits.
pub fn bare_touring(
    alloc: Global,
    development: &Development,
    scripts: &[Vec<Vec<TextCall>>],
    budget: usize,
    nodes: u64,
) -> Result<Toured, OutOfMemory>
    ensures { IfOk result (IsToured (development_view development.now) (scripts_view scripts.now)) }
{
    bare_tour(alloc, development, scripts, budget, nodes)
}

/// What is said of an object that was explored alone is so, with a history that no order linearizes.
pub fn bare_finding(
    alloc: Global,
    development: &Development,
    scripts: &[Vec<Vec<TextCall>>],
    budget: u64,
) -> Result<Findings, OutOfMemory>
    ensures { IfOk result (λ f. FindsBare (development_view development.now) (scripts_view scripts.now) budget f.text.items f.is_right) }
{
    find_bare_faults(alloc, development, scripts, budget)
}
