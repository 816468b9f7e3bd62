//! What is needed of the facts of a plan, as proofs that are found tell it.
ghost use Rattle.lc_cond.specs.ConditionView.{AreConditions, IsCondition};
ghost use Rattle.lc_table.specs.Tables.{AreFormulas, IsFormula, Keeps};

use crate::earlier::Earlier;
use crate::facts::Facts;
use crate::goals::{asking, conjuncts, formula_at, opened};
use crate::marks::{is_set, marks};
use crate::needs::{Need, Ways, guarded, withstood};
use crate::used::mark_used;
use lc_base::{OutOfMemory, PointId};
use lc_cond::{Condition, ConditionStream};
use lc_kernel::Goal;
use lc_outline::{ActionId, Development};
use lc_search::{End, search};
use lc_table::{FormulaId, Terms};
use std::alloc::Global;

/// What is asserted at a point, by its numbers in a table.
#[derive(Drop)]
pub(crate) struct Asserted {
    point: PointId,
    formulas: Vec<FormulaId>,
}

/// What is looked at.
#[derive(Clone, Copy)]
struct View<'a> {
    development: &'a Development,
    facts: &'a Facts,
    ways: &'a Ways,
    budget: u64,
}

/// Enters what is asserted at a point.
fn entered_at(
    alloc: Global,
    terms: &mut Terms,
    development: &Development,
    point: PointId,
) -> Result<Vec<FormulaId>, OutOfMemory>
    ensures kept { Keeps terms.old terms.new }
{
    let mut formulas = Vec::new(alloc);
    let Some(outline) = development.parts().outlines.get(point.0 as usize) else {
        return Ok(formulas);
    };
    for formula in &outline.asserts {
        formulas.push(terms.enter_formula(alloc, formula)?)?;
    }
    Ok(formulas)
}

/// Enters what is asserted at a point, if it was not entered.
fn enter_at(
    alloc: Global,
    terms: &mut Terms,
    development: &Development,
    point: PointId,
    entered: &mut Vec<Asserted>,
) -> Result<(), OutOfMemory>
    ensures kept { Keeps terms.old terms.new }
{
    if asserted_at(entered, point).is_some() {
        return Ok(());
    }
    let formulas = entered_at(alloc, terms, development, point)?;
    entered.push(Asserted { point, formulas })?;
    Ok(())
}

/// Enters what is asserted at the points of conditions.
pub(crate) fn entered_for(
    alloc: Global,
    terms: &mut Terms,
    development: &Development,
    conditions: &[Condition],
) -> Result<Vec<Asserted>, OutOfMemory>
    ensures kept { Keeps terms.old terms.new }
{
    let mut entered: Vec<Asserted> = Vec::new(alloc);
    for condition in conditions {
        let Some(point) = condition.place.point else {
            return Ok(entered);
        };
        enter_at(alloc, terms, development, point, &mut entered)?;
    }
    Ok(entered)
}

/// What is asserted at a point, if it was entered.
pub(crate) fn asserted_at(entered: &[Asserted], point: PointId) -> Option<&[FormulaId]> {
    for asserted in entered {
        if asserted.point == point {
            return Some(&asserted.formulas);
        }
    }
    None
}

/// A goal that a proof is sought for, and what its hypotheses are.
#[derive(Clone, Copy)]
struct Sought<'a> {
    goal: &'a Goal,
    /// The point of which assertions are hypotheses.
    point: Option<PointId>,
    /// An action of which conjuncts of the guard are hypotheses, the place of the first, and how many they are.
    guard: Option<(usize, usize, usize)>,
    /// The fact that it asks for.
    asked: Option<usize>,
}

impl Sought<'_> {
    /// The fact that a hypothesis is, if it is one.
    fn fact(
        self,
        facts: &Facts,
        entered: &[Asserted],
        place: usize,
        hypothesis: FormulaId,
    ) -> Option<usize> {
        if let Some((action, first, count)) = self.guard
            && let Some(conjunct) = place.checked_sub(first)
            && conjunct < count
        {
            return facts.guarding(action, conjunct);
        }
        let point = self.point?;
        let asserted = asserted_at(entered, point)?;
        let conjunct = asserted.iter().position(|formula| *formula == hypothesis)?;
        facts.asserted(point, conjunct)
    }
}

/// The facts that are marked hypotheses of a goal.
fn facts_marked(
    alloc: Global,
    facts: &Facts,
    entered: &[Asserted],
    sought: Sought<'_>,
    marks: &[bool],
) -> Result<Vec<usize>, OutOfMemory> {
    let mut marked = Vec::new(alloc);
    let hypotheses = sought.goal.hypotheses.as_slice();
    for (place, hypothesis) in hypotheses.iter().enumerate() {
        if !is_set(marks, place) {
            continue;
        }
        if let Some(fact) = sought.fact(facts, entered, place, *hypothesis) {
            marked.push(fact)?;
        }
    }
    Ok(marked)
}

/// What a goal needs, if it is not known earlier.
fn need_of(
    alloc: Global,
    terms: &Terms,
    view: View<'_>,
    entered: &[Asserted],
    sought: Sought<'_>,
    earlier: &mut Earlier,
) -> Result<Need, OutOfMemory>
    requires hypotheses { AreFormulas terms.now sought.goal.now.hypotheses }
    requires goal { IsFormula terms.now sought.goal.now.goal }
{
    if let Some(known) = earlier.next(sought.asked) {
        return Ok(known);
    }
    let count = sought.goal.hypotheses.as_slice().len();
    let searched = search(alloc, terms, sought.goal, &[], &[], view.budget)?;
    let is_found = matches!(searched.end, End::Found(_));
    let mut used = marks(alloc, count, !is_found)?;
    if let End::Found(proof) = &searched.end {
        mark_used(&mut used, proof);
    }
    Ok(Need {
        asked: sought.asked,
        is_found,
        used: facts_marked(alloc, view.facts, entered, sought, &used)?,
    })
}

/// Appends what the conjuncts of the guard of an action need.
fn push_guard(
    alloc: Global,
    terms: &Terms,
    view: View<'_>,
    entered: &[Asserted],
    condition: &Condition,
    action: ActionId,
    earlier: &mut Earlier,
    needs: &mut Vec<Need>,
) -> Result<(), OutOfMemory>
    requires { IsCondition terms.now condition.now }
{
    let parts = conjuncts(alloc, terms, condition.goal.goal)?;
    for conjunct in 0..parts.len() {
        let part = formula_at(terms, &parts, conjunct);
        let goal = asking(terms, &condition.goal, part)?;
        let sought = Sought {
            goal: &goal,
            point: condition.place.point,
            guard: None,
            asked: view.facts.guarding(action.0 as usize, conjunct),
        };
        needs.push(need_of(alloc, terms, view, entered, sought, earlier)?)?;
    }
    Ok(())
}

/// What a condition needs that stands against another client's action, whose guard is the hypothesis at this place.
fn need_against(
    alloc: Global,
    terms: &Terms,
    view: View<'_>,
    entered: &[Asserted],
    condition: &Condition,
    action: usize,
    place: usize,
    earlier: &mut Earlier,
) -> Result<Need, OutOfMemory>
    requires { IsCondition terms.now condition.now }
{
    let (goal, count) = opened(alloc, terms, &condition.goal, place)?;
    let sought = Sought {
        goal: &goal,
        point: condition.place.point,
        guard: Some((action, place, count)),
        asked: view.ways.asked(view.facts, condition),
    };
    need_of(alloc, terms, view, entered, sought, earlier)
}

/// Appends what a condition needs.
fn push_need(
    alloc: Global,
    terms: &Terms,
    view: View<'_>,
    entered: &[Asserted],
    condition: &Condition,
    earlier: &mut Earlier,
    needs: &mut Vec<Need>,
) -> Result<(), OutOfMemory>
    requires { IsCondition terms.now condition.now }
{
    if let Some(action) = guarded(view.development, condition)
        && view.facts.is_planned(action)
    {
        return push_guard(
            alloc, terms, view, entered, condition, action, earlier, needs,
        );
    }
    if let Some((action, place)) = withstood(view.development, condition) {
        let need = need_against(
            alloc, terms, view, entered, condition, action, place, earlier,
        )?;
        needs.push(need)?;
        return Ok(());
    }
    let sought = Sought {
        goal: &condition.goal,
        point: condition.place.point,
        guard: None,
        asked: view.ways.asked(view.facts, condition),
    };
    needs.push(need_of(alloc, terms, view, entered, sought, earlier)?)?;
    Ok(())
}

/// Appends what conditions need, whose assertions were entered.
fn push_entered(
    alloc: Global,
    terms: &Terms,
    view: View<'_>,
    entered: &[Asserted],
    conditions: &[Condition],
    earlier: &mut Earlier,
    needs: &mut Vec<Need>,
) -> Result<(), OutOfMemory>
    requires { AreConditions terms.now conditions.now }
{
    for condition in conditions {
        push_need(alloc, terms, view, entered, condition, earlier, needs)?;
    }
    Ok(())
}

/// Appends what conditions need.
fn push_needs(
    alloc: Global,
    terms: &mut Terms,
    view: View<'_>,
    conditions: &[Condition],
    earlier: &mut Earlier,
    needs: &mut Vec<Need>,
) -> Result<(), OutOfMemory>
    requires { AreConditions terms.old conditions.now }
{
    let entered = entered_for(alloc, terms, view.development, conditions)?;
    push_entered(alloc, terms, view, &entered, conditions, earlier, needs)
}

/// What all conditions of a development need of the facts of a plan that completes it, where a proof of each of which nothing is known earlier is
/// sought in at most `budget` steps.
pub(crate) fn needs_of(
    alloc: Global,
    development: &Development,
    facts: &Facts,
    budget: u64,
    earlier: &mut Earlier,
) -> Result<Vec<Need>, OutOfMemory> {
    let ways = Ways::of(alloc, development)?;
    let view = View {
        development,
        facts,
        ways: &ways,
        budget,
    };
    let mut stream = ConditionStream::new(alloc, development)?;
    let mut needs = Vec::new(alloc);
    'parts: loop {
        let mut terms = Terms::new(alloc);
        let Some(conditions) = stream.next_part(development, &mut terms)? else {
            return Ok(needs);
        };
        push_needs(alloc, &mut terms, view, &conditions, earlier, &mut needs)?;
    }
}
