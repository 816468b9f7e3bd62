//! The conditions of an edge, path by path.
ghost use Rattle.std.specs.Prelude.{◌≡◌, ◌++◌, pos, Some, IfOk, OnOk};
ghost use Rattle.lc_put.specs.PutNumbers.{AreColumns};
ghost use Rattle.lc_term.specs.Said.{put};
ghost use Rattle.lc_term.specs.Syntax.{Variable, Number};
ghost use Rattle.lc_term.specs.SystemColumns.{pend};
ghost use Rattle.lc_table.specs.Tables.{Keeps};
ghost use Rattle.lc_action.specs.ActionView.{first_of};
ghost use Rattle.lc_cond.specs.Adding.{HasColumns, Adds, Over};
ghost use Rattle.lc_cond.specs.Heads.{MakesOne};
ghost use Rattle.lc_cond.specs.Scenes.{IsKnownOn, IsOutcome, Behind, duty_head, MakesDuties, reply_conditions, next_conditions};

use crate::condition::{Condition, Kind, Passage, Which};
use crate::entering::joined;
use crate::making::{Head, push_made, push_one};
use crate::scene::Scene;
use crate::telling::push_both_told;
use lc_base::{ColId, OutOfMemory};
use lc_kernel::Hypotheses;
use lc_put::{PutNumbers, nothing_replaced, put_in_formula};
use lc_rider::{Duty, Path, store_in};
use lc_table::{ColExprId, FormulaId, Terms};
use std::alloc::Global;

/// What a path of an edge comes to: its place among those of the edge, what the columns hold after it, and what is known
/// on it.
#[derive(Clone, Copy)]
pub(crate) struct Outcome<'a, 's> {
    pub scene: &'a Scene<'s>,
    pub number: usize,
    pub columns: &'a [(ColId, ColExprId)],
    pub known: &'a Hypotheses,
}

/// What the conditions of a kind on a path share.
pub(crate) fn on_path(scene: &Scene<'_>, kind: Kind, number: usize) -> Head
    ensures { result ≡ record { kind = kind; variables = scene.now.count; point = Some scene.now.code.now.point; passage = Passage.Edge scene.now.code.now.kind; path = Some number } }
{
    Head {
        kind,
        variables: scene.count,
        point: Some(scene.code.point),
        passage: Passage::Edge(scene.code.kind),
        path: Some(number),
    }
}

/// What is known on a path with these facts: they come after what is known before the edge.
pub(crate) fn known_with(
    alloc: Global,
    scene: &Scene<'_>,
    facts: &[FormulaId],
) -> Result<Hypotheses, OutOfMemory>
    ensures { IfOk result (λ ks. ks ≡ scene.now.hypotheses.items ++ facts.now) }
{
    Hypotheses::new(joined(alloc, &scene.hypotheses, facts)?)
}

// What a mark asks for, if these are known.
fn push_duty(
    scene: &Scene<'_>,
    number: usize,
    known: Hypotheses,
    duty: &Duty,
    conditions: &mut Vec<Condition>,
) -> Result<(), OutOfMemory>
    ensures { OnOk result (MakesOne (duty_head scene.now number duty.now) (Which.Numbered duty.now.rider) known duty.now.goal conditions.old.items conditions.new.items) }
{
    let head = on_path(scene, Kind::Owed(duty.kind), number);
    let which = Which::Numbered(duty.rider);
    push_made(head, which, known, duty.goal, conditions)
}

/// What the marks of a path ask for, each under what is known before the edge and those of the path's facts that are known at it.
pub(crate) fn push_duties(
    scene: &Scene<'_>,
    number: usize,
    path: &Path,
    facts: &[FormulaId],
    known: &Hypotheses,
    conditions: &mut Vec<Condition>,
) -> Result<(), OutOfMemory>
    requires { IsKnownOn scene.now path.now facts.now known.now }
    ensures { OnOk result (MakesDuties scene.now number path.now conditions.old.items conditions.new.items) }
{
    let before = known.as_slice().len() - facts.len();
    for duty in path.marks() {
        let known = known.first(before + duty.known)?;
        push_duty(scene, number, known, duty, conditions)?;
    }
    Ok(())
}

/// What a return asks for, in these columns.
pub(crate) fn push_reply(
    alloc: Global,
    terms: &mut Terms,
    outcome: Outcome<'_, '_>,
    conditions: &mut Vec<Condition>,
) -> Result<(), OutOfMemory>
    requires { IsOutcome terms.old outcome }
    ensures list { OnOk result (Behind terms.old outcome.entry (λ hs σ. Adds conditions.old.items terms.new conditions.new.items
        (reply_conditions outcome.entry.scene.now outcome.entry.number hs σ))) }
    ensures kept { Keeps terms.old terms.new }
{
    let scene = outcome.scene;
    let Some(reply) = scene.reply else {
        return Ok(());
    };
    let put = PutNumbers {
        columns: outcome.columns,
        variables: &scene.variables,
    };
    let mut done = nothing_replaced(alloc);
    let goal = put_in_formula(terms, alloc, put, &mut done, reply)?;
    let head = on_path(scene, Kind::Reply, outcome.number);
    push_one(head, Which::Alone, outcome.known, goal, conditions)
}

/// The invariant, and what holds where the edge leads to, in these columns.
pub(crate) fn push_next(
    alloc: Global,
    terms: &mut Terms,
    outcome: Outcome<'_, '_>,
    conditions: &mut Vec<Condition>,
) -> Result<(), OutOfMemory>
    requires { IsOutcome terms.old outcome }
    ensures list { OnOk result (Behind terms.old outcome.entry (λ hs σ. Adds conditions.old.items terms.new conditions.new.items
        (next_conditions outcome.entry.scene.now outcome.entry.number hs σ))) }
    ensures kept { Keeps terms.old terms.new }
{
    let scene = outcome.scene;
    let put = PutNumbers {
        columns: outcome.columns,
        variables: &scene.variables,
    };
    let heads = (
        on_path(scene, Kind::Invariant, outcome.number),
        on_path(scene, Kind::Next, outcome.number),
    );
    push_both_told(
        alloc,
        terms,
        heads,
        put,
        outcome.known,
        &scene.invariant,
        &scene.next,
        conditions,
    )
}

/// The columns after a path of a return, which stores that no call is pending.
#[tactic(auto, using(lc_table::proofs::Later::kept_on))]
pub(crate) fn at_return(
    alloc: Global,
    terms: &mut Terms,
    scene: &Scene<'_>,
    columns: &[(ColId, ColExprId)],
) -> Result<Vec<(ColId, ColExprId)>, OutOfMemory>
    requires { AreColumns terms.old columns.now }
    ensures list { IfOk result (λ ps. Over terms.old columns.now (λ σ. HasColumns terms.new ps.items
        (put σ (record { column = pend (first_of scene.now.system); index = Variable 1; value = Number (pos 0) })))) }
    ensures kept { Keeps terms.old terms.new }
{
    let mut left = Vec::with_capacity(alloc, columns.len() + 1)?;
    left.extend_from_slice(columns)?;
    let own = terms.variable(1)?;
    let none = terms.number(0)?;
    store_in(terms, &mut left, scene.system.pend(), own, none)?;
    Ok(left)
}
