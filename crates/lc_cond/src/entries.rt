//! The conditions that are asked when a call begins.
ghost use Rattle.std.specs.Prelude.{◌≡◌, ◌++◌, true, map, None, Some, IfOk, OnOk};
ghost use Rattle.lc_term.specs.Said.{after, told};
ghost use Rattle.lc_term.specs.Syntax.{Base};
ghost use Rattle.lc_put.specs.PutNumbers.{AreColumns};
ghost use Rattle.lc_table.specs.Tables.{Keeps};
ghost use Rattle.lc_action.specs.Action.{enter};
ghost use Rattle.lc_action.specs.ActionView.{first_of};
ghost use Rattle.lc_object.specs.View.{operation_of};
ghost use Rattle.lc_object.specs.WellFormed.{has_limits};
ghost use Rattle.lc_outline.specs.Development.{invariant_of, asserts_at};
ghost use Rattle.lc_outline.specs.DevelopmentView.{development_view};
ghost use Rattle.lc_cond.specs.Adding.{HasFormulas, HasTerms, HasColumns, Adds, Under, Over};
ghost use Rattle.lc_cond.specs.Conditions as S;
ghost use Rattle.lc_cond.specs.Conditions.{at_entry, conditions_of, enter_variables, entry_conditions};

use crate::after_updates::entered_after;
use crate::condition::{Condition, Kind, Passage};
use crate::entering::{entered, entered_invariant};
use crate::known::{in_range, known_idle};
use crate::lookup::{argument_count, asserts_at, entry_count, system_columns};
use crate::making::Head;
use crate::telling::push_both_told;
use crate::variables::{enter_variables, entry_variables};
use lc_action::{SystemColumns, enter};
use lc_base::{ColId, OpId, OutOfMemory};
use lc_kernel::Hypotheses;
use lc_object::Operation;
use lc_outline::Development;
use lc_put::{PutNumbers, enter_terms};
use lc_table::{ColExprId, FormulaId, TermId, Terms};
use std::alloc::Global;

// What the conditions of a kind share that are asked when a call of this operation begins.
fn at_entry(kind: Kind, variables: u32, body: &Operation) -> Head
    ensures { result ≡ record { kind = kind; variables = variables; point = Some body.now.entry; passage = Passage.Nothing; path = None } }
{
    Head {
        kind,
        variables,
        point: Some(body.entry),
        passage: Passage::Nothing,
        path: None,
    }
}

// The columns after `enter`, when a call of this operation begins, entered.
fn entered_columns(
    alloc: Global,
    terms: &mut Terms,
    system: SystemColumns,
    operation: OpId,
    count: usize,
) -> Result<Vec<(ColId, ColExprId)>, OutOfMemory>
    ensures list { IfOk result (λ columns. HasColumns terms.new columns.items (after Base (enter_variables operation.0 count) (enter (first_of system)).updates)) }
    ensures kept { Keeps terms.old terms.new }
{
    let action = enter(alloc, system)?;
    let variables = enter_variables(alloc, operation, count)?;
    entered_after(alloc, terms, &variables, &action.updates)
}

// The variables when a call of this operation begins, entered.
fn entered_variables(
    alloc: Global,
    terms: &mut Terms,
    body: &Operation,
) -> Result<Vec<TermId>, OutOfMemory>
    requires { has_limits (operation_of body.now) ≡ true }
    ensures list { IfOk result (λ ks. HasTerms terms.new ks.items (S.entry_variables (operation_of body.now))) }
    ensures kept { Keeps terms.old terms.new }
{
    let variables = entry_variables(alloc, body)?;
    enter_terms(terms, alloc, &variables)
}

// The conditions when a call of this operation begins, in these columns, with the invariant entered already.
#[tactic(auto, using(lc_table::proofs::Later::kept_on))]
fn push_entered(
    alloc: Global,
    terms: &mut Terms,
    development: &Development,
    invariant: &[FormulaId],
    body: &Operation,
    columns: &[(ColId, ColExprId)],
    known: &Hypotheses,
    conditions: &mut Vec<Condition>,
) -> Result<(), OutOfMemory>
    requires limits { has_limits (operation_of body.now) ≡ true }
    requires invariant { HasFormulas terms.old invariant.now (invariant_of (development_view development.now)) }
    requires columns { AreColumns terms.old columns.now }
    ensures list { let d = development_view development.now in
        let o = operation_of body.now in
        OnOk result (Under terms.old known.now (λ hs. Over terms.old columns.now (λ σ. Adds conditions.old.items terms.new conditions.new.items
        (conditions_of (at_entry S.Entry o) hs (map (told σ (S.entry_variables o)) (invariant_of d))
        ++ conditions_of (at_entry S.First o) hs (map (told σ (S.entry_variables o)) (asserts_at d o.entry)))))) }
    ensures kept { Keeps terms.old terms.new }
{
    let count = entry_count(body);
    let variables = entered_variables(alloc, terms, body)?;
    let first = entered(alloc, terms, asserts_at(development, body.entry))?;
    let heads = (
        at_entry(Kind::Entry, count, body),
        at_entry(Kind::First, count, body),
    );
    let put = PutNumbers {
        columns,
        variables: &variables,
    };
    push_both_told(
        alloc, terms, heads, put, known, invariant, &first, conditions,
    )
}

/// The conditions that are asked when a call of this operation begins. The invariant, which may be long, is entered once: it
/// is known before the call, and is to hold when it has begun.
#[tactic(auto, using(lc_table::proofs::Later::kept_on))]
pub(crate) fn push_entry(
    alloc: Global,
    terms: &mut Terms,
    development: &Development,
    operation: OpId,
    body: &Operation,
    conditions: &mut Vec<Condition>,
) -> Result<(), OutOfMemory>
    requires { has_limits (operation_of body.now) ≡ true }
    ensures list { OnOk result (Adds conditions.old.items terms.new conditions.new.items
        (entry_conditions (development_view development.now) operation.0 (operation_of body.now))) }
    ensures kept { Keeps terms.old terms.new }
{
    let invariant = entered_invariant(alloc, terms, &development.parts().tie)?;
    let system = system_columns(development);
    let columns = entered_columns(alloc, terms, system, operation, argument_count(body))?;
    let idle = known_idle(alloc, terms, development, &invariant, system)?;
    let ranged = in_range(alloc, terms, &idle)?;
    let known = Hypotheses::new(ranged)?;
    push_entered(
        alloc,
        terms,
        development,
        &invariant,
        body,
        &columns,
        &known,
        conditions,
    )
}
