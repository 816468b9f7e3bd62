//! What is known of a client at a point, and when it has no call.
ghost use Rattle.std.specs.Prelude.{◌≡◌, ◌++◌, List, length, IfOk};
ghost use Rattle.lc_term.specs.Syntax as S;
ghost use Rattle.lc_term.specs.Syntax.{Variable};
ghost use Rattle.lc_table.specs.Tables.{Keeps};
ghost use Rattle.lc_object.specs.View.{operation_of};
ghost use Rattle.lc_action.specs.ActionView.{first_of};
ghost use Rattle.lc_outline.specs.Development.{invariant_of, asserts_at};
ghost use Rattle.lc_outline.specs.DevelopmentView.{development_view};
ghost use Rattle.lc_cond.specs.Adding.{HasFormulas};
ghost use Rattle.lc_cond.specs.Conditions.{range, idle_frame, body_frame};

use crate::entering::{entered, entered_behind, joined};
use crate::frames;
use crate::lookup::{argument_count, asserts_at, idle_of};
use lc_action::SystemColumns;
use lc_base::{OpId, OutOfMemory, PointId};
use lc_object::Operation;
use lc_outline::Development;
use lc_table::{FormulaId, Terms};
use std::alloc::Global;

/// The range of a client, entered.
pub(crate) fn range(
    alloc: Global,
    terms: &mut Terms,
    variable: u32,
) -> Result<Vec<FormulaId>, OutOfMemory>
    ensures list { IfOk result (λ ks. HasFormulas terms.new ks.items (range (Variable variable))) }
    ensures kept { Keeps terms.old terms.new }
{
    let formulas = frames::range(alloc, variable)?;
    entered(alloc, terms, &formulas)
}

/// That client 1 has no call, entered.
pub(crate) fn idle_frame(
    alloc: Global,
    terms: &mut Terms,
    system: SystemColumns,
) -> Result<Vec<FormulaId>, OutOfMemory>
    ensures list { IfOk result (λ ks. HasFormulas terms.new ks.items (idle_frame (first_of system))) }
    ensures kept { Keeps terms.old terms.new }
{
    let formulas = frames::idle_frame(alloc, system)?;
    entered(alloc, terms, &formulas)
}

/// That client 1 is in a call of this operation with `arguments` arguments, entered.
pub(crate) fn body_frame(
    alloc: Global,
    terms: &mut Terms,
    system: SystemColumns,
    operation: OpId,
    arguments: usize,
) -> Result<Vec<FormulaId>, OutOfMemory>
    ensures list { IfOk result (λ ks. HasFormulas terms.new ks.items (body_frame (first_of system) operation.0 arguments)) }
    ensures kept { Keeps terms.old terms.new }
{
    let formulas = frames::body_frame(alloc, system, operation, arguments)?;
    entered(alloc, terms, &formulas)
}

/// What is known of client 1 at a point of the body of this operation: its frame, the invariant, which is entered already, and
/// the assertions.
#[tactic(auto, using(lc_table::proofs::Later::kept_on))]
pub(crate) fn known_in_body(
    alloc: Global,
    terms: &mut Terms,
    development: &Development,
    invariant: &[FormulaId],
    system: SystemColumns,
    operation: OpId,
    body: &Operation,
    point: PointId,
) -> Result<Vec<FormulaId>, OutOfMemory>
    requires { HasFormulas terms.old invariant.now (invariant_of (development_view development.now)) }
    ensures list { let d = development_view development.now in
        IfOk result (λ ks. HasFormulas terms.new ks.items
        (body_frame (first_of system) operation.0 (length (operation_of body.now).arguments) ++ (invariant_of d ++ asserts_at d point.0))) }
    ensures kept { Keeps terms.old terms.new }
{
    let frame = body_frame(alloc, terms, system, operation, argument_count(body))?;
    let asserts = asserts_at(development, point);
    let shared = entered_behind(alloc, terms, invariant, asserts)?;
    joined(alloc, &frame, &shared)
}

/// What is known of client 1 when it has no call: its frame, the invariant, which is entered already, and what holds of idle
/// clients.
#[tactic(auto, using(lc_table::proofs::Later::kept_on))]
pub(crate) fn known_idle(
    alloc: Global,
    terms: &mut Terms,
    development: &Development,
    invariant: &[FormulaId],
    system: SystemColumns,
) -> Result<Vec<FormulaId>, OutOfMemory>
    requires { HasFormulas terms.old invariant.now (invariant_of (development_view development.now)) }
    ensures list { let d = development_view development.now in
        IfOk result (λ ks. HasFormulas terms.new ks.items (idle_frame (first_of system) ++ (invariant_of d ++ d.idle))) }
    ensures kept { Keeps terms.old terms.new }
{
    let frame = idle_frame(alloc, terms, system)?;
    let shared = entered_behind(alloc, terms, invariant, idle_of(development))?;
    joined(alloc, &frame, &shared)
}

/// After the range of client 1.
pub(crate) fn in_range(
    alloc: Global,
    terms: &mut Terms,
    known: &[FormulaId],
) -> Result<Vec<FormulaId>, OutOfMemory>
    ensures list { IfOk result (λ ks. (fs : List S.Formula) → HasFormulas terms.old known.now fs → HasFormulas terms.new ks.items (range (Variable 1) ++ fs)) }
    ensures kept { Keeps terms.old terms.new }
{
    let range = range(alloc, terms, 1)?;
    joined(alloc, &range, known)
}
