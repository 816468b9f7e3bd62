//! The conditions that an edge is the action beside it.
ghost use Rattle.std.specs.Prelude.{◌≡◌, ◌≤◌, ◌^◌, ◌&&◌, [], ◌∷◌, List, true, map, option_map, if◌then◌else◌, Some, IfOk, OnOk};
ghost use Rattle.lc_table.specs.NodeTables.{Table};
ghost use Rattle.lc_put.specs.PutNumbers.{columns_at, AreColumns};
ghost use Rattle.lc_term.specs.Replacement.{raising, replace_column};
ghost use Rattle.lc_term.specs.Syntax as T;
ghost use Rattle.lc_term.specs.Syntax.{Variable, Bound, Read, Base};
ghost use Rattle.lc_term.specs.SystemColumns.{column_count};
ghost use Rattle.lc_table.specs.Tables.{column_in, IsColumn, HasTerm, HasFormula, Keeps};
ghost use Rattle.lc_term.specs.View.{term_of};
ghost use Rattle.lc_action.specs.Action as A;
ghost use Rattle.lc_action.specs.Action.{acting_variables, guard_for, post_columns};
ghost use Rattle.lc_action.specs.ActionView.{action_of, first_of};
ghost use Rattle.lc_outline.specs.DevelopmentView.{development_view, on_of};
ghost use Rattle.lc_cond.specs.Adding.{HasColumns, Adds, Under, Over};
ghost use Rattle.lc_cond.specs.Conditions.{OfColumn, is_base, same_column, column_conditions, action_conditions};
ghost use Rattle.lc_cond.specs.Heads.{condition_made};
ghost use Rattle.lc_cond.specs.Scenes.{IsActing, IsOutcome, Behind, acting_on, development_in, code_in, on_conditions_in};

use crate::after_updates::entered_after;
use crate::condition::{Condition, Kind, Which};
use crate::edge_conditions::{Outcome, on_path};
use crate::lookup::action_at;
use crate::making::{Head, push_one};
use lc_action::{Action, SystemColumns};
use lc_base::{ColId, OutOfMemory};
use lc_kernel::Hypotheses;
use lc_outline::{Development, On};
use lc_put::{
    Put, PutColumns, PutVariables, nothing_replaced, raise_column, replace, stored_column,
};
use lc_table::{ColExprId, FormulaId, TermId, TermNode, Terms};
use lc_term::Term;
use std::alloc::Global;

/// The action beside an edge, done by client 1, in a table that has its formulas.
pub(crate) struct Acting {
    pub guard: FormulaId,
    /// The columns in which it stores, each with what it holds then.
    pub columns: Vec<(ColId, ColExprId)>,
}

impl Drop for Acting {
    fn drop(self) {
        let Acting {
            guard: _,
            columns: _,
        } = self;
    }
}

// Whether this is the column itself, in which nothing is stored.
fn is_base(terms: &Terms, expression: ColExprId, column: ColId) -> bool
    requires { IsColumn terms.now expression }
    ensures { result ≡ is_base column.0 (column_in terms.now expression) }
{
    match terms.column_node(expression) {
        TermNode::Base(base) => base.0 == column.0,
        _ => false,
    }
}

// Whether nothing is stored in the column on either side.
fn is_unwritten(terms: &Terms, left: ColExprId, right: ColExprId, column: ColId) -> bool
    requires left { IsColumn terms.now left }
    requires right { IsColumn terms.now right }
    ensures { result ≡ (is_base column.0 (column_in terms.now left) && is_base column.0 (column_in terms.now right)) }
{
    is_base(terms, left, column) && is_base(terms, right, column)
}

// What a cell of a column holds, with the variable of one more quantifier as the cell.
#[tactic(auto, using(lc_table::proofs::Later::kept_on))]
fn raised_cell(alloc: Global, terms: &mut Terms, column: ColExprId) -> Result<TermId, OutOfMemory>
    requires { IsColumn terms.old column }
    ensures id { IfOk result (λ k. HasTerm terms.new k (Read (replace_column raising (column_in terms.old column)) (Bound 0))) }
    ensures kept { Keeps terms.old terms.new }
{
    let raised = raise_column(terms, alloc, column)?;
    let index = terms.bound(0)?;
    terms.read(raised, index)
}

// That two columns hold the same in each cell.
#[tactic(auto, using(lc_table::proofs::Later::kept_on))]
fn same_column(
    alloc: Global,
    terms: &mut Terms,
    left: ColExprId,
    right: ColExprId,
) -> Result<FormulaId, OutOfMemory>
    requires left { IsColumn terms.old left }
    requires right { IsColumn terms.old right }
    ensures id { IfOk result (λ k. HasFormula terms.new k (same_column (column_in terms.old left) (column_in terms.old right))) }
    ensures kept { Keeps terms.old terms.new }
{
    let left = raised_cell(alloc, terms, left)?;
    let right = raised_cell(alloc, terms, right)?;
    let same = terms.eq(left, right)?;
    terms.forall(same)
}

// The condition of a column, if something is stored in it on either side.
fn push_sides(
    alloc: Global,
    terms: &mut Terms,
    head: Head,
    known: &Hypotheses,
    column: ColId,
    left: ColExprId,
    right: ColExprId,
    conditions: &mut Vec<Condition>,
) -> Result<(), OutOfMemory>
    requires left { IsColumn terms.old left }
    requires right { IsColumn terms.old right }
    ensures list { OnOk result (Under terms.old known.now (λ hs. Adds conditions.old.items terms.new conditions.new.items
        (if is_base column.0 (column_in terms.old left) && is_base column.0 (column_in terms.old right) then [] else
        condition_made head (OfColumn column.0) hs (same_column (column_in terms.old left) (column_in terms.old right)) ∷ []))) }
    ensures kept { Keeps terms.old terms.new }
{
    if is_unwritten(terms, left, right, column) {
        return Ok(());
    }
    let goal = same_column(alloc, terms, left, right)?;
    push_one(head, Which::Column(column), known, goal, conditions)
}

// Whether a column has no entry, so that it holds itself.
fn is_absent(columns: &[(ColId, ColExprId)], column: ColId) -> bool
    ensures { result ≡ true → (ts : Table) → columns_at ts columns.now column.0 ≡ Base column.0 }
{
    for entry in columns {
        if entry.0 == column {
            return false;
        }
    }
    true
}

// Whether a column has no entry on either side.
fn are_absent(left: &[(ColId, ColExprId)], right: &[(ColId, ColExprId)], column: ColId) -> bool
    ensures left { result ≡ true → (ts : Table) → columns_at ts left.now column.0 ≡ Base column.0 }
    ensures right { result ≡ true → (ts : Table) → columns_at ts right.now column.0 ≡ Base column.0 }
{
    is_absent(left, column) && is_absent(right, column)
}

// The condition of a column in which the path or the action stores.
#[tactic(auto, using(lc_table::proofs::Later::kept_on))]
fn push_column(
    alloc: Global,
    terms: &mut Terms,
    head: Head,
    known: &Hypotheses,
    column: ColId,
    columns: &[(ColId, ColExprId)],
    action: &[(ColId, ColExprId)],
    conditions: &mut Vec<Condition>,
) -> Result<(), OutOfMemory>
    requires columns { AreColumns terms.old columns.now }
    requires action { AreColumns terms.old action.now }
    ensures list { OnOk result (Under terms.old known.now (λ hs. Over terms.old columns.now (λ σ. Over terms.old action.now (λ π. Adds conditions.old.items terms.new conditions.new.items
        (if is_base column.0 (σ column.0) && is_base column.0 (π column.0) then [] else
        condition_made head (OfColumn column.0) hs (same_column (σ column.0) (π column.0)) ∷ []))))) }
    ensures kept { Keeps terms.old terms.new }
{
    if are_absent(columns, action, column) {
        return Ok(());
    }
    let left = stored_column(terms, columns, column)?;
    let right = stored_column(terms, action, column)?;
    push_sides(alloc, terms, head, known, column, left, right, conditions)
}

// The conditions of the first `count` columns.
fn push_columns(
    alloc: Global,
    terms: &mut Terms,
    head: Head,
    count: usize,
    known: &Hypotheses,
    columns: &[(ColId, ColExprId)],
    action: &[(ColId, ColExprId)],
    conditions: &mut Vec<Condition>,
) -> Result<(), OutOfMemory>
    requires count { count ≤ 2 ^ 32 }
    requires columns { AreColumns terms.old columns.now }
    requires action { AreColumns terms.old action.now }
    ensures list { OnOk result (Under terms.old known.now (λ hs. Over terms.old columns.now (λ σ. Over terms.old action.now (λ π. Adds conditions.old.items terms.new conditions.new.items
        (column_conditions (λ c goal. condition_made head (OfColumn c) hs goal) 0 count σ π))))) }
    ensures kept { Keeps terms.old terms.new }
{
    for number in 0..count {
        let column = ColId(number as u32);
        push_column(
            alloc, terms, head, known, column, columns, action, conditions,
        )?;
    }
    Ok(())
}

// How many columns there are in all.
fn column_count(system: SystemColumns) -> usize
    ensures { result ≡ column_count (first_of system) }
{
    system.pend().0 as usize + 12
}

// The variables of an action: the number of clients, the client that acts, and the arguments.
fn acting_variables(
    alloc: Global,
    client: u32,
    arguments: &[Term],
) -> Result<Vec<Term>, OutOfMemory>
    ensures { IfOk result (λ ts. map term_of ts.items ≡ acting_variables (Variable client) (map term_of arguments.now)) }
{
    let mut variables = Vec::with_capacity(alloc, arguments.len() + 2)?;
    variables.push(Term::Variable(0))?;
    variables.push(Term::Variable(client))?;
    for argument in arguments {
        variables.push(argument.try_clone(alloc)?)?;
    }
    Ok(variables)
}

/// An action's guard, for the client that is this variable and for these arguments, entered.
pub(crate) fn entered_guard(
    alloc: Global,
    terms: &mut Terms,
    action: &Action,
    client: u32,
    arguments: &[Term],
) -> Result<FormulaId, OutOfMemory>
    ensures id { IfOk result (λ k. HasFormula terms.new k (guard_for (action_of action.now) (Variable client) (map term_of arguments.now))) }
    ensures kept { Keeps terms.old terms.new }
{
    let variables = acting_variables(alloc, client, arguments)?;
    let put = Put {
        columns: PutColumns::Stored(&[]),
        variables: PutVariables::Terms(&variables),
    };
    let guard = terms.enter_formula(alloc, &action.guard)?;
    let mut done = nothing_replaced(alloc);
    replace(terms, alloc, &put, &mut done, guard)
}

/// The columns after an action of the client that is this variable with these arguments, entered.
pub(crate) fn entered_post(
    alloc: Global,
    terms: &mut Terms,
    action: &Action,
    client: u32,
    arguments: &[Term],
) -> Result<Vec<(ColId, ColExprId)>, OutOfMemory>
    ensures list { IfOk result (λ ps. HasColumns terms.new ps.items (post_columns (action_of action.now) (Variable client) (map term_of arguments.now))) }
    ensures kept { Keeps terms.old terms.new }
{
    let variables = acting_variables(alloc, client, arguments)?;
    entered_after(alloc, terms, &variables, &action.updates)
}

// An action of client 1 with these arguments, entered.
#[tactic(auto, using(lc_table::proofs::Later::kept_on))]
fn entered_action(
    alloc: Global,
    terms: &mut Terms,
    action: &Action,
    arguments: &[Term],
) -> Result<Acting, OutOfMemory>
    ensures guard { IfOk result (λ k. HasFormula terms.new k.guard (guard_for (action_of action.now) (Variable 1) (map term_of arguments.now))) }
    ensures columns { IfOk result (λ k. HasColumns terms.new k.columns.items (post_columns (action_of action.now) (Variable 1) (map term_of arguments.now))) }
    ensures kept { Keeps terms.old terms.new }
{
    let guard = entered_guard(alloc, terms, action, 1, arguments)?;
    let columns = entered_post(alloc, terms, action, 1, arguments)?;
    Ok(Acting { guard, columns })
}

/// The action beside an edge, entered, if there is one.
pub(crate) fn entered_on(
    alloc: Global,
    terms: &mut Terms,
    development: &Development,
    on: Option<&On>,
) -> Result<Option<Acting>, OutOfMemory>
    ensures acting { IfOk result (λ k. IsActing terms.new k (acting_on (development_view development.now) (option_map (λ o. on_of o.now) on.entry))) }
    ensures kept { Keeps terms.old terms.new }
{
    let Some(on) = on else {
        return Ok(None);
    };
    let Some(action) = action_at(development, on.action) else {
        return Ok(None);
    };
    Ok(Some(entered_action(alloc, terms, action, &on.arguments)?))
}

// The guard of the action, and the columns in which it or the path stores.
fn push_action(
    alloc: Global,
    terms: &mut Terms,
    outcome: Outcome<'_, '_>,
    acting: &Acting,
    conditions: &mut Vec<Condition>,
) -> Result<(), OutOfMemory>
    requires outcome { IsOutcome terms.old outcome }
    requires acting { AreColumns terms.old acting.now.columns.items }
    ensures list { OnOk result ((ts : List T.Term) (a : A.Action) → HasFormula terms.old acting.now.guard (guard_for a (Variable 1) ts) → HasColumns terms.old acting.now.columns.items (post_columns a (Variable 1) ts) →
        Behind terms.old outcome.entry (λ hs σ. Adds conditions.old.items terms.new conditions.new.items
        (let s = outcome.entry.scene.now in action_conditions (development_in s) (code_in s) s.count outcome.entry.number hs σ ts (Some a)))) }
    ensures kept { Keeps terms.old terms.new }
{
    let known = outcome.known;
    let head = on_path(outcome.scene, Kind::Guard, outcome.number);
    push_one(head, Which::Alone, known, acting.guard, conditions)?;
    let head = on_path(outcome.scene, Kind::Column, outcome.number);
    let count = column_count(outcome.scene.system);
    push_columns(
        alloc,
        terms,
        head,
        count,
        known,
        outcome.columns,
        &acting.columns,
        conditions,
    )
}

/// What is asked of an edge with an action beside it, in these columns.
pub(crate) fn push_on(
    alloc: Global,
    terms: &mut Terms,
    outcome: Outcome<'_, '_>,
    conditions: &mut Vec<Condition>,
) -> Result<(), OutOfMemory>
    requires { IsOutcome terms.old outcome }
    ensures list { OnOk result (Behind terms.old outcome.entry (λ hs σ. Adds conditions.old.items terms.new conditions.new.items
        (on_conditions_in outcome.entry.scene.now outcome.entry.number hs σ))) }
    ensures kept { Keeps terms.old terms.new }
{
    let Some(acting) = &outcome.scene.acting else {
        return Ok(());
    };
    push_action(alloc, terms, outcome, acting, conditions)
}
