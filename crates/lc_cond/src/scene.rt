//! What the conditions of an edge share.
ghost use Rattle.std.specs.Prelude.{◌≡◌, ◌++◌, List, true, IfOk};
ghost use Rattle.lc_term.specs.Syntax as S;
ghost use Rattle.lc_term.specs.Syntax.{Not};
ghost use Rattle.lc_term.specs.View.{formula_of};
ghost use Rattle.lc_table.specs.Tables.{HasFormula, Keeps};
ghost use Rattle.lc_object.specs.EdgeView.{facts_of, edge_of};
ghost use Rattle.lc_object.specs.View.{operation_of};
ghost use Rattle.lc_object.specs.WellFormed.{has_limits};
ghost use Rattle.lc_action.specs.ActionView.{first_of};
ghost use Rattle.lc_outline.specs.Development.{invariant_of};
ghost use Rattle.lc_outline.specs.DevelopmentView.{development_view};
ghost use Rattle.lc_rider.specs.Paths.{edge_variables};
ghost use Rattle.lc_cond.specs.Adding.{HasFormulas, HasTerms};
ghost use Rattle.lc_cond.specs.Conditions.{body_hypotheses, reply_goals};
ghost use Rattle.lc_cond.specs.Scenes.{IsReply, IsSceneOf};

use crate::entering::{entered, entered_behind, entered_invariant};
use crate::frames::justified;
use crate::known::{in_range, known_in_body};
use crate::lookup::{asserts_to, on_at, system_columns, variable_count};
use crate::matching::{Acting, entered_on};
use lc_action::SystemColumns;
use lc_base::{OpId, OutOfMemory};
use lc_object::{Edge, Facts, Operation};
use lc_outline::{Development, On};
use lc_put::enter_terms;
use lc_rider::edge_variables;
use lc_table::{FormulaId, TermId, Terms};
use lc_term::Formula;
use std::alloc::Global;

/// What the conditions of an edge share, in a table that has its formulas.
pub(crate) struct Scene<'a> {
    pub development: &'a Development,
    pub code: &'a Edge,
    pub on: Option<&'a On>,
    pub system: SystemColumns,
    /// How many variables there are before the edge, and what they are after it.
    pub count: u32,
    pub variables: Vec<TermId>,
    /// What is known before the edge.
    pub hypotheses: Vec<FormulaId>,
    pub invariant: Vec<FormulaId>,
    /// What is to hold where the edge leads to.
    pub next: Vec<FormulaId>,
    /// What a return asks for.
    pub reply: Option<FormulaId>,
    /// The action beside the edge.
    pub acting: Option<Acting>,
}

impl Drop for Scene<'_> {
    fn drop(self) {
        let Scene {
            development: _,
            code: _,
            on: _,
            system: _,
            count: _,
            variables: _,
            hypotheses: _,
            invariant: _,
            next: _,
            reply: _,
            acting: _,
        } = self;
    }
}

// The variables after the edge, entered.
fn entered_variables(
    alloc: Global,
    terms: &mut Terms,
    count: u32,
    code: &Edge,
) -> Result<Vec<TermId>, OutOfMemory>
    ensures list { IfOk result (λ ks. HasTerms terms.new ks.items (edge_variables count (edge_of code.now))) }
    ensures kept { Keeps terms.old terms.new }
{
    let variables = edge_variables(alloc, count, code)?;
    enter_terms(terms, alloc, &variables)
}

// What a return of these replies asks for, entered; nothing if a point is reached.
fn entered_reply(
    alloc: Global,
    terms: &mut Terms,
    system: SystemColumns,
    code: &Edge,
) -> Result<Option<FormulaId>, OutOfMemory>
    ensures reply { IfOk result (λ k. IsReply terms.new k (reply_goals (first_of system) (edge_of code.now))) }
    ensures kept { Keeps terms.old terms.new }
{
    if code.next.is_some() {
        return Ok(None);
    }
    let formula = justified(alloc, system, &code.replies)?;
    Ok(Some(terms.enter_formula(alloc, &formula)?))
}

// That a condition does not hold, entered.
fn entered_not(
    alloc: Global,
    terms: &mut Terms,
    condition: &Formula,
) -> Result<FormulaId, OutOfMemory>
    ensures id { IfOk result (λ k. HasFormula terms.new k (Not (formula_of condition.now))) }
    ensures kept { Keeps terms.old terms.new }
{
    let entered = terms.enter_formula(alloc, condition)?;
    terms.not(entered)
}

// Formulas that are entered, followed by what holds if an edge is taken.
fn with_facts(
    alloc: Global,
    terms: &mut Terms,
    mut known: Vec<FormulaId>,
    facts: &Facts,
) -> Result<Vec<FormulaId>, OutOfMemory>
    ensures list { IfOk result (λ ks. (fs : List S.Formula) → HasFormulas terms.old known.items fs → HasFormulas terms.new ks.items (fs ++ facts_of facts.now)) }
    ensures kept { Keeps terms.old terms.new }
{
    match facts {
        Facts::Each(formulas) => return entered_behind(alloc, terms, &known, formulas),
        Facts::Holds(condition) => known.push(terms.enter_formula(alloc, condition)?)?,
        Facts::Fails(condition) => known.push(entered_not(alloc, terms, condition)?)?,
    }
    Ok(known)
}

// What is known before the edge of an operation's code, entered; the invariant is so already.
#[tactic(auto, using(lc_table::proofs::Later::kept_on))]
fn edge_hypotheses(
    alloc: Global,
    terms: &mut Terms,
    development: &Development,
    invariant: &[FormulaId],
    operation: OpId,
    body: &Operation,
    code: &Edge,
) -> Result<Vec<FormulaId>, OutOfMemory>
    requires { HasFormulas terms.old invariant.now (invariant_of (development_view development.now)) }
    ensures list { IfOk result (λ ks. HasFormulas terms.new ks.items
        (body_hypotheses (development_view development.now) operation.0 (operation_of body.now) (edge_of code.now).point ++ (edge_of code.now).facts)) }
    ensures kept { Keeps terms.old terms.new }
{
    let system = system_columns(development);
    let known = known_in_body(
        alloc,
        terms,
        development,
        invariant,
        system,
        operation,
        body,
        code.point,
    )?;
    let before = in_range(alloc, terms, &known)?;
    with_facts(alloc, terms, before, &code.facts)
}

/// The scene of an edge in the body of this operation. The invariant, which may be long, is entered once: it is known before
/// the edge, and has to hold after it.
#[tactic(auto, using(lc_table::proofs::Later::kept_on))]
pub(crate) fn set_scene<'a>(
    alloc: Global,
    terms: &mut Terms,
    development: &'a Development,
    operation: OpId,
    body: &Operation,
    code: &'a Edge,
) -> Result<Scene<'a>, OutOfMemory>
    requires { has_limits (operation_of body.now) ≡ true }
    ensures scene { IfOk result (λ s. IsSceneOf terms.new (development_view development.now) operation.0 (operation_of body.now) (edge_of code.now) s) }
    ensures kept { Keeps terms.old terms.new }
{
    let invariant = entered_invariant(alloc, terms, &development.parts().tie)?;
    let system = system_columns(development);
    let count = variable_count(body);
    let variables = entered_variables(alloc, terms, count, code)?;
    let hypotheses = edge_hypotheses(alloc, terms, development, &invariant, operation, body, code)?;
    let next = entered(alloc, terms, asserts_to(development, code.next))?;
    let reply = entered_reply(alloc, terms, system, code)?;
    let on = on_at(development, code.point, code.kind);
    let acting = entered_on(alloc, terms, development, on)?;
    Ok(Scene {
        development,
        code,
        on,
        system,
        count,
        variables,
        hypotheses,
        invariant,
        next,
        reply,
        acting,
    })
}
