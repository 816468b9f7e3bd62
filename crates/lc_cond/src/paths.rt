//! The conditions of the paths of an edge.
ghost use Rattle.std.specs.Prelude.{◌≡◌, ◌++◌, true, map, OnOk};
ghost use Rattle.lc_term.specs.Lists.{concat_places};
ghost use Rattle.lc_table.specs.Tables.{formulas_in, Keeps};
ghost use Rattle.lc_object.specs.EdgeView.{edge_of};
ghost use Rattle.lc_object.specs.View.{operation_of};
ghost use Rattle.lc_object.specs.WellFormed.{has_limits};
ghost use Rattle.lc_outline.specs.DevelopmentView.{development_view};
ghost use Rattle.lc_rider.specs.PathView.{path_in, IsPath, ArePaths};
ghost use Rattle.lc_cond.specs.Adding.{Adds, Under};
ghost use Rattle.lc_cond.specs.Conditions.{edge_conditions, edge_conditions_in};
ghost use Rattle.lc_cond.specs.Scenes.{IsScene, IsOutcome, Behind, Along, next_conditions, on_conditions_in, outcome_conditions, path_conditions_in};

use crate::condition::Condition;
use crate::edge_conditions::{Outcome, at_return, known_with, push_duties, push_next, push_reply};
use crate::lookup::{body_at, operation_at, riders_in};
use crate::matching::push_on;
use crate::scene::{Scene, set_scene};
use lc_base::{OpId, OutOfMemory};
use lc_kernel::Hypotheses;
use lc_object::{Edge, Operation};
use lc_outline::Development;
use lc_rider::{Path, paths};
use lc_table::Terms;
use std::alloc::Global;

// What is asked in the columns after a path: what holds there, and the action beside the edge.
#[tactic(auto, using(lc_table::proofs::Later::kept_on))]
fn push_behind(
    alloc: Global,
    terms: &mut Terms,
    outcome: Outcome<'_, '_>,
    conditions: &mut Vec<Condition>,
) -> Result<(), OutOfMemory>
    requires { IsOutcome terms.old outcome }
    ensures list { OnOk result (Behind terms.old outcome.entry (λ hs σ. Adds conditions.old.items terms.new conditions.new.items
        (let s = outcome.entry.scene.now in let j = outcome.entry.number in next_conditions s j hs σ ++ on_conditions_in s j hs σ))) }
    ensures kept { Keeps terms.old terms.new }
{
    push_next(alloc, terms, outcome, conditions)?;
    push_on(alloc, terms, outcome, conditions)
}

// What is asked after a path, besides what its marks ask for.
#[tactic(auto, using(lc_table::proofs::Later::kept_on))]
fn push_outcome(
    alloc: Global,
    terms: &mut Terms,
    scene: &Scene<'_>,
    number: usize,
    path: &Path,
    known: &Hypotheses,
    conditions: &mut Vec<Condition>,
) -> Result<(), OutOfMemory>
    requires scene { IsScene terms.old scene.now }
    requires path { IsPath terms.old path.now }
    ensures list { OnOk result (Under terms.old known.now (λ hs. Along terms.old path.now (λ p. Adds conditions.old.items terms.new conditions.new.items
        (outcome_conditions scene.now number hs p)))) }
    ensures kept { Keeps terms.old terms.new }
{
    let columns = path.columns();
    let outcome = Outcome {
        scene,
        number,
        columns,
        known,
    };
    push_reply(alloc, terms, outcome, conditions)?;
    match scene.code.next {
        Some(_) => push_behind(alloc, terms, outcome, conditions),
        None => {
            let left = at_return(alloc, terms, scene, columns)?;
            let outcome = Outcome {
                scene,
                number,
                columns: &left,
                known,
            };
            push_behind(alloc, terms, outcome, conditions)
        }
    }
}

// The conditions of a path.
fn push_path(
    alloc: Global,
    terms: &mut Terms,
    scene: &Scene<'_>,
    number: usize,
    path: &Path,
    conditions: &mut Vec<Condition>,
) -> Result<(), OutOfMemory>
    requires scene { IsScene terms.old scene.now }
    requires path { IsPath terms.old path.now }
    ensures list { OnOk result (Along terms.old path.now (λ p. Adds conditions.old.items terms.new conditions.new.items
        (path_conditions_in scene.now number (formulas_in terms.old scene.now.hypotheses.items) p))) }
    ensures kept { Keeps terms.old terms.new }
{
    let facts = path.facts();
    let known = known_with(alloc, scene, facts)?;
    push_duties(scene, number, path, facts, &known, conditions)?;
    push_outcome(alloc, terms, scene, number, path, &known, conditions)
}

// The conditions of the paths of an edge, path by path.
fn push_paths(
    alloc: Global,
    terms: &mut Terms,
    scene: &Scene<'_>,
    paths: &[Path],
    conditions: &mut Vec<Condition>,
) -> Result<(), OutOfMemory>
    requires scene { IsScene terms.old scene.now }
    requires paths { ArePaths terms.old paths.now }
    ensures list { OnOk result (Adds conditions.old.items terms.new conditions.new.items
        (concat_places (λ j p. path_conditions_in scene.now j (formulas_in terms.old scene.now.hypotheses.items) p) 0 (map (path_in terms.old) paths.now))) }
    ensures kept { Keeps terms.old terms.new }
{
    for (number, path) in paths.iter().enumerate() {
        push_path(alloc, terms, scene, number, path, conditions)?;
    }
    Ok(())
}

// The conditions of an edge in the body of this operation.
#[tactic(auto, using(lc_table::proofs::Later::kept_on))]
fn push_edge_in(
    alloc: Global,
    terms: &mut Terms,
    development: &Development,
    operation: OpId,
    body: &Operation,
    code: &Edge,
    conditions: &mut Vec<Condition>,
) -> Result<(), OutOfMemory>
    requires { has_limits (operation_of body.now) ≡ true }
    ensures list { OnOk result (Adds conditions.old.items terms.new conditions.new.items
        (edge_conditions_in (development_view development.now) operation.0 (operation_of body.now) (edge_of code.now))) }
    ensures kept { Keeps terms.old terms.new }
{
    let scene = set_scene(alloc, terms, development, operation, body, code)?;
    let edge = lc_rider::Edge {
        code,
        operation,
        variables: scene.count,
        system: scene.system,
        riders: riders_in(scene.on),
    };
    let paths = paths(alloc, terms, &development.parts().specification, edge)?;
    push_paths(alloc, terms, &scene, &paths, conditions)
}

/// The conditions of an edge.
pub(crate) fn push_edge(
    alloc: Global,
    terms: &mut Terms,
    development: &Development,
    code: &Edge,
    conditions: &mut Vec<Condition>,
) -> Result<(), OutOfMemory>
    ensures list { OnOk result (Adds conditions.old.items terms.new conditions.new.items
        (edge_conditions (development_view development.now) (edge_of code.now))) }
    ensures kept { Keeps terms.old terms.new }
{
    let Some(operation) = body_at(development, code.point) else {
        return Ok(());
    };
    let Some(body) = operation_at(development, operation) else {
        return Ok(());
    };
    push_edge_in(alloc, terms, development, operation, body, code, conditions)
}
