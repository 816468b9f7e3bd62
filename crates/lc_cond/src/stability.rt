//! The conditions that what holds of a client stays when another one acts.
ghost use Rattle.std.specs.Prelude.{◌≡◌, ◌+◌, ◌*◌, ◌<◌, ◌≤◌, ◌++◌, [], ◌∷◌, suc, true, length, map, option_map, IfOk, OnOk};
ghost use Rattle.lc_base.specs.Limits.{condition_limit};
ghost use Rattle.lc_term.specs.Lists.{Every};
ghost use Rattle.lc_term.specs.Replacement.{replace, replacing};
ghost use Rattle.lc_term.specs.Syntax.{Variable};
ghost use Rattle.lc_put.specs.PutNumbers.{AreColumns, AreTerms};
ghost use Rattle.lc_table.specs.Tables.{formulas_in, AreFormulas, Keeps};
ghost use Rattle.lc_term.specs.View.{term_of, formulas_of};
ghost use Rattle.lc_action.specs.Action.{post_columns};
ghost use Rattle.lc_action.specs.ActionView.{action_of, first_of};
ghost use Rattle.lc_outline.specs.Development.{invariant_of, all_actions, first_system};
ghost use Rattle.lc_outline.specs.DevelopmentView.{development_view};
ghost use Rattle.lc_outline.specs.Resolved.{IsBelow};
ghost use Rattle.lc_cond.specs.Adding.{HasFormulas, HasTerms, Adds, Under};
ghost use Rattle.lc_cond.specs.Conditions.{stable_variables};
ghost use Rattle.lc_cond.specs.Stretches.{IsWithin, stretch_of, stable_stretch};
ghost use Rattle.lc_cond.specs.Heads.{Tells};
ghost use Rattle.lc_cond.specs.Crossings.{code_variable_limit, code_variables, two_clients, TakesFew, IsGiven, AreCrossings, Crosses, AllCross, CrossesToo, MakesStable, MakesAllStable, HaveGoals};

use crate::condition::{Condition, Kind, Passage, Which};
use crate::entering::{entered, entered_invariant, joined, told_by_number};
use crate::frames;
use crate::lookup::system_columns;
use crate::making::{Head, push_one};
use crate::matching::{entered_guard, entered_post};
use crate::stretch::Stretch;
use crate::variables::variables_from;
use lc_action::{Action, SystemColumns, enter, leave};
use lc_base::{ARGUMENT_LIMIT, ColId, LOCAL_LIMIT, OutOfMemory, PointId};
use lc_kernel::Hypotheses;
use lc_outline::Development;
use lc_put::{PutNumbers, enter_terms, nothing_replaced};
use lc_table::{ColExprId, FormulaId, TermId, Terms};
use lc_term::{Formula, Term};
use std::alloc::Global;

// The most variables that the code of an operation has: the number of clients, the client, arguments and locals.
const CODE_VARIABLE_LIMIT: u32 = (2 + ARGUMENT_LIMIT + LOCAL_LIMIT) as u32;

/// Another client's action when something is known about a client: what is known then, and what has to hold after it.
pub(crate) struct Crossing {
    /// How many variables there are: those of the client's code, the other client and its action's parameters.
    pub variables: u32,
    pub hypotheses: Hypotheses,
    /// A goal for each conjunct that is asked to stay.
    pub goals: Vec<FormulaId>,
}

impl Drop for Crossing {
    fn drop(self) {
        let Crossing {
            variables: _,
            hypotheses: _,
            goals: _,
        } = self;
    }
}

/// What is asserted of a client, and which conjuncts are asked to stay.
#[derive(Clone, Copy)]
pub(crate) struct Asserted<'a> {
    pub conjuncts: &'a [Formula],
    pub asked: Stretch,
}

/// What is entered once when another client acts, whichever action it does.
#[derive(Clone, Copy)]
struct Given<'a> {
    /// The variable of the other client.
    client: u32,
    /// All variables that code may have, which stand for themselves.
    variables: &'a [TermId],
    /// That it is another client.
    clients: &'a [FormulaId],
    /// What is known of the first client.
    known: &'a [FormulaId],
    invariant: &'a [FormulaId],
    /// The conjuncts that are asked to stay.
    asserts: &'a [FormulaId],
}

// Two clients, 1 and the variable, and they differ.
fn two_clients(alloc: Global, other: u32) -> Result<Vec<Formula>, OutOfMemory>
    ensures { IfOk result (λ fs. formulas_of fs.items ≡ two_clients other) }
{
    let mut formulas = Vec::with_capacity(alloc, 5)?;
    frames::push_range(alloc, 1, &mut formulas)?;
    frames::push_range(alloc, other, &mut formulas)?;
    let same = Formula::Eq(Term::Variable(1), Term::Variable(other));
    formulas.push(Formula::Not(Box::new(alloc, same)?))?;
    Ok(formulas)
}

// Whether nothing is asked about what holds after an action.
fn tells_nothing(given: &Given<'_>) -> bool
    ensures invariant { result ≡ true → given.now.invariant.now ≡ [] }
    ensures asserts { result ≡ true → given.now.asserts.now ≡ [] }
{
    given.invariant.is_empty() && given.asserts.is_empty()
}

// The invariant, and the assertions, in these columns.
#[tactic(auto, using(lc_table::proofs::Later::kept_on, crate::proofs::Adding::formulas_later))]
fn told_in(
    alloc: Global,
    terms: &mut Terms,
    columns: &[(ColId, ColExprId)],
    given: &Given<'_>,
) -> Result<(Vec<FormulaId>, Vec<FormulaId>), OutOfMemory>
    requires columns { AreColumns terms.old columns.now }
    requires variables { AreTerms terms.old given.now.variables.now }
    requires invariant { AreFormulas terms.old given.now.invariant.now }
    requires asserts { AreFormulas terms.old given.now.asserts.now }
    ensures invariant { IfOk result (λ p. Tells terms.old terms.new columns.now given.now.variables.now given.now.invariant.now p.0.items) }
    ensures asserts { IfOk result (λ p. Tells terms.old terms.new columns.now given.now.variables.now given.now.asserts.now p.1.items) }
    ensures kept { Keeps terms.old terms.new }
{
    let put = PutNumbers {
        columns,
        variables: given.variables,
    };
    let mut done = nothing_replaced(alloc);
    let invariant = told_by_number(alloc, terms, put, &mut done, given.invariant)?;
    let asserts = told_by_number(alloc, terms, put, &mut done, given.asserts)?;
    Ok((invariant, asserts))
}

// The invariant, and the assertions, after an action of the other client. If there are none, no columns are made.
#[tactic(auto, using(lc_table::proofs::Later::kept_on))]
fn told_behind(
    alloc: Global,
    terms: &mut Terms,
    development: &Development,
    action: &Action,
    parameters: &[Term],
    given: &Given<'_>,
) -> Result<(Vec<FormulaId>, Vec<FormulaId>), OutOfMemory>
    requires { IsGiven terms.old (development_view development.now) given.now }
    ensures invariant { let σ = post_columns (action_of action.now) (Variable given.now.client) (map term_of parameters.now) in
        IfOk result (λ p. HasFormulas terms.new p.0.items (map (replace (replacing σ Variable)) (formulas_in terms.old given.now.invariant.now))) }
    ensures asserts { let σ = post_columns (action_of action.now) (Variable given.now.client) (map term_of parameters.now) in
        IfOk result (λ p. HasFormulas terms.new p.1.items (map (replace (replacing σ Variable)) (formulas_in terms.old given.now.asserts.now))) }
    ensures kept { Keeps terms.old terms.new }
{
    let _ = development;
    if tells_nothing(given) {
        return Ok((Vec::new(alloc), Vec::new(alloc)));
    }
    let columns = entered_post(alloc, terms, action, given.client, parameters)?;
    told_in(alloc, terms, &columns, given)
}

// Two clients, what is known, the guard, and what holds after the action.
fn gathered(
    alloc: Global,
    clients: &[FormulaId],
    known: &[FormulaId],
    guard: FormulaId,
    behind: &[FormulaId],
) -> Result<Vec<FormulaId>, OutOfMemory>
    ensures { IfOk result (λ ks. ks.items ≡ clients.now ++ (known.now ++ (guard ∷ behind.now))) }
{
    let mut all = Vec::with_capacity(alloc, clients.len() + known.len() + behind.len() + 1)?;
    all.extend_from_slice(clients)?;
    all.extend_from_slice(known)?;
    all.push(guard)?;
    all.extend_from_slice(behind)?;
    Ok(all)
}

// The parameters of an action of the client that is this variable: the variables after it.
fn parameters(alloc: Global, action: &Action, client: u32) -> Result<Vec<Term>, OutOfMemory>
    requires client { client ≤ code_variable_limit }
    requires action { TakesFew (action_of action.now) }
    ensures { IfOk result (λ ts. map term_of ts.items ≡ stable_variables client (action_of action.now)) }
{
    variables_from(alloc, client + 1, parameter_count(action))
}

// How many parameters an action has.
fn parameter_count(action: &Action) -> u32
    requires { TakesFew (action_of action.now) }
    ensures { result ≡ length (action_of action.now).parameters }
{
    action.params.len() as u32
}

// How many variables there are, with those parameters.
fn variables_with(action: &Action, client: u32) -> u32
    requires client { client ≤ code_variable_limit }
    requires action { TakesFew (action_of action.now) }
    ensures { result ≡ suc client + length (action_of action.now).parameters }
{
    client + 1 + parameter_count(action)
}

// All variables that code may have, entered.
fn code_variables(alloc: Global, terms: &mut Terms) -> Result<Vec<TermId>, OutOfMemory>
    ensures list { IfOk result (λ ks. HasTerms terms.new ks.items code_variables) }
    ensures kept { Keeps terms.old terms.new }
{
    let variables = variables_from(alloc, 0, CODE_VARIABLE_LIMIT)?;
    enter_terms(terms, alloc, &variables)
}

// Two clients, entered.
fn entered_clients(
    alloc: Global,
    terms: &mut Terms,
    other: u32,
) -> Result<Vec<FormulaId>, OutOfMemory>
    ensures list { IfOk result (λ ks. HasFormulas terms.new ks.items (two_clients other)) }
    ensures kept { Keeps terms.old terms.new }
{
    let formulas = two_clients(alloc, other)?;
    entered(alloc, terms, &formulas)
}

// The action of the other client.
#[tactic(auto, using(lc_table::proofs::Later::kept_on))]
fn cross(
    alloc: Global,
    terms: &mut Terms,
    development: &Development,
    action: &Action,
    given: &Given<'_>,
) -> Result<Crossing, OutOfMemory>
    requires action { TakesFew (action_of action.now) }
    requires given { IsGiven terms.old (development_view development.now) given.now }
    ensures crossing { IfOk result (λ c. Crosses terms.old terms.new (development_view development.now) given.now.client given.now.known.now given.now.asserts.now (action_of action.now) c) }
    ensures kept { Keeps terms.old terms.new }
{
    let variables = variables_with(action, given.client);
    let parameters = parameters(alloc, action, given.client)?;
    let (behind, goals) = told_behind(alloc, terms, development, action, &parameters, given)?;
    let guard = entered_guard(alloc, terms, action, given.client, &parameters)?;
    let known = gathered(alloc, given.clients, given.known, guard, &behind)?;
    let hypotheses = Hypotheses::new(known)?;
    Ok(Crossing {
        variables,
        hypotheses,
        goals,
    })
}

// The declared actions of the other client, in a list that has room for two more.
fn declared_crossings(
    alloc: Global,
    terms: &mut Terms,
    development: &Development,
    given: &Given<'_>,
) -> Result<Vec<Crossing>, OutOfMemory>
    requires { IsGiven terms.old (development_view development.now) given.now }
    ensures crossings { let d = development_view development.now in
        IfOk result (λ cs. AllCross terms.old terms.new d given.now.client given.now.known.now given.now.asserts.now d.actions cs.items) }
    ensures kept { Keeps terms.old terms.new }
{
    let actions = actions_of(development);
    let mut crossings = Vec::with_capacity(alloc, actions.len() + 2)?;
    for action in actions {
        let next = cross(alloc, terms, development, action, given)?;
        crossings.push(next)?;
    }
    Ok(crossings)
}

// The actions that are declared.
fn actions_of(development: &Development) -> &[Action]
    ensures { map action_of result.now ≡ (development_view development.now).actions }
{
    &development.parts().actions
}

// Those actions, followed by this one.
#[tactic(auto, using(lc_table::proofs::Later::kept_on))]
fn with_crossing(
    alloc: Global,
    terms: &mut Terms,
    development: &Development,
    mut crossings: Vec<Crossing>,
    action: &Action,
    given: &Given<'_>,
) -> Result<Vec<Crossing>, OutOfMemory>
    requires action { TakesFew (action_of action.now) }
    requires given { IsGiven terms.old (development_view development.now) given.now }
    ensures crossings { IfOk result (λ cs. CrossesToo terms.old terms.new (development_view development.now) given.now.client given.now.known.now given.now.asserts.now (action_of action.now) crossings.items cs.items) }
    ensures kept { Keeps terms.old terms.new }
{
    let next = cross(alloc, terms, development, action, given)?;
    crossings.push(next)?;
    Ok(crossings)
}

// All actions of the other client: those that are declared, and that a call begins or ends.
#[tactic(auto, using(lc_table::proofs::Later::kept_on))]
fn all_crossings(
    alloc: Global,
    terms: &mut Terms,
    development: &Development,
    system: SystemColumns,
    given: &Given<'_>,
) -> Result<Vec<Crossing>, OutOfMemory>
    requires system { first_of system ≡ first_system (development_view development.now) }
    requires given { IsGiven terms.old (development_view development.now) given.now }
    ensures crossings { let d = development_view development.now in
        IfOk result (λ cs. AllCross terms.old terms.new d given.now.client given.now.known.now given.now.asserts.now (all_actions d) cs.items) }
    ensures kept { Keeps terms.old terms.new }
{
    let declared = declared_crossings(alloc, terms, development, given)?;
    let begins = enter(alloc, system)?;
    let entered = with_crossing(alloc, terms, development, declared, &begins, given)?;
    let ends = leave(alloc, system)?;
    with_crossing(alloc, terms, development, entered, &ends, given)
}

// What is known of a client: its frame, the invariant and the assertions.
fn known_of(
    alloc: Global,
    frame: &[FormulaId],
    invariant: &[FormulaId],
    asserts: &[FormulaId],
) -> Result<Vec<FormulaId>, OutOfMemory>
    ensures { IfOk result (λ ks. ks.items ≡ frame.now ++ (invariant.now ++ asserts.now)) }
{
    let shared = joined(alloc, invariant, asserts)?;
    joined(alloc, frame, &shared)
}

// Those conjuncts that are asked about.
fn asked_about(conjuncts: &[FormulaId], asked: Stretch) -> &[FormulaId]
    requires { IsWithin (length conjuncts.now) asked }
    ensures { result.now ≡ stretch_of asked conjuncts.now }
{
    &conjuncts[asked.from..asked.to]
}

// All actions of the client that is this variable, if the other one has this frame and this is asserted of it.
#[tactic(auto, using(lc_table::proofs::Later::kept_on))]
fn entered_crossings(
    alloc: Global,
    terms: &mut Terms,
    development: &Development,
    client: u32,
    frame: &[FormulaId],
    asserted: Asserted<'_>,
) -> Result<Vec<Crossing>, OutOfMemory>
    requires client { client ≤ code_variable_limit }
    requires frame { AreFormulas terms.old frame.now }
    requires asked { IsWithin (length asserted.conjuncts.now) asserted.asked }
    requires below { Every (IsBelow code_variable_limit) (formulas_of asserted.conjuncts.now) }
    ensures crossings { let d = development_view development.now in
        let fs = formulas_of asserted.entry.conjuncts.now in
        IfOk result (λ cs. Under terms.old frame.now (λ hs. AreCrossings terms.new d client (hs ++ (invariant_of d ++ fs)) (stretch_of asserted.entry.asked fs) (all_actions d) cs.items)) }
    ensures kept { Keeps terms.old terms.new }
{
    let system = system_columns(development);
    let variables = code_variables(alloc, terms)?;
    let clients = entered_clients(alloc, terms, client)?;
    let invariant = entered_invariant(alloc, terms, &development.parts().tie)?;
    let asserts = entered(alloc, terms, asserted.conjuncts)?;
    let known = known_of(alloc, frame, &invariant, &asserts)?;
    let given = Given {
        client,
        variables: &variables,
        clients: &clients,
        known: &known,
        invariant: &invariant,
        asserts: asked_about(&asserts, asserted.asked),
    };
    all_crossings(alloc, terms, development, system, &given)
}

// A condition for each of these actions and the conjunct of this number, with the goals at this place.
fn push_conjunct(
    point: Option<PointId>,
    number: usize,
    place: usize,
    crossings: &[Crossing],
    conditions: &mut Vec<Condition>,
) -> Result<(), OutOfMemory>
    requires { Every (λ c. place < length c.goals.items) crossings.now }
    ensures { OnOk result (MakesStable point number place crossings.now conditions.old.items conditions.new.items) }
{
    for (action, crossing) in crossings.iter().enumerate() {
        let head = Head {
            kind: Kind::Stable,
            variables: crossing.variables,
            point,
            passage: Passage::Action(action),
            path: None,
        };
        let goal = crossing.goals[place];
        let which = Which::Numbered(number);
        push_one(head, which, &crossing.hypotheses, goal, conditions)?;
    }
    Ok(())
}

// The same for each of `count` conjuncts from the one of this number on.
fn push_conjuncts(
    point: Option<PointId>,
    first: usize,
    count: usize,
    crossings: &[Crossing],
    conditions: &mut Vec<Condition>,
) -> Result<(), OutOfMemory>
    requires goals { HaveGoals count crossings.now }
    requires few { count * length crossings.now ≤ condition_limit }
    requires numbers { first + count ≤ condition_limit }
    ensures { OnOk result (MakesAllStable point first count crossings.now conditions.old.items conditions.new.items) }
{
    conditions.reserve(count * crossings.len())?;
    for place in 0..count {
        push_conjunct(point, first + place, place, crossings, conditions)?;
    }
    Ok(())
}

/// The conditions that the conjuncts stay which are asked about, for a client with `variables` variables and this frame.
#[tactic(auto, using(lc_table::proofs::Later::kept_on))]
pub(crate) fn push_stable(
    alloc: Global,
    terms: &mut Terms,
    development: &Development,
    point: Option<PointId>,
    variables: u32,
    frame: &[FormulaId],
    asserted: Asserted<'_>,
    conditions: &mut Vec<Condition>,
) -> Result<(), OutOfMemory>
    requires variables { variables ≤ code_variable_limit }
    requires frame { AreFormulas terms.old frame.now }
    requires asked { IsWithin (length asserted.conjuncts.now) asserted.asked }
    requires below { Every (IsBelow code_variable_limit) (formulas_of asserted.conjuncts.now) }
    requires few { length asserted.conjuncts.now * (length (development_view development.now).actions + 2) ≤ condition_limit }
    ensures list { OnOk result (Under terms.old frame.now (λ hs. Adds conditions.old.items terms.new conditions.new.items
        (stable_stretch (development_view development.now) (option_map (λ p. p.0) point) variables hs (formulas_of asserted.entry.conjuncts.now) asserted.entry.asked))) }
    ensures kept { Keeps terms.old terms.new }
{
    let Stretch { from, to } = asserted.asked;
    if from == to {
        return Ok(());
    }
    let crossings = entered_crossings(alloc, terms, development, variables, frame, asserted)?;
    push_conjuncts(point, from, to - from, &crossings, conditions)
}
