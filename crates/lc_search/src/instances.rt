//! Instances of quantified facts that do not hold in the state.

use crate::blocks::Blocks;
use crate::cases::{Noted, weighed_clause};
use crate::reach::Reach;
use crate::tuples::{Instance, wanted};
use crate::turn::Turn;
use crate::work::count_nodes;
use lc_facts::{Done, FactId, Known, Place, Rule, Step, Weighed};
use lc_farkas::Stop;
use lc_search_model::Model;
use lc_table::{FormulaId, FormulaNode, TermId};

/// What is noted of an instance that was taken in.
const INSTANCE: u32 = 2;

/// The work of putting terms into a node of a body, beside that of making a new one.
const NODE: usize = 10;

/// Tries the instances that do not hold and are in reach.
pub(crate) fn broken_instances(
    known: &mut Known,
    model: &mut Model,
    blocks: &mut Blocks,
    reach: Reach,
    noted: &mut Noted,
) -> Result<Turn, Stop> {
    let wishes = wanted(known, model, blocks, reach)?;
    for wanted in &wishes.list {
        let turn = try_wanted(known, *wanted, &wishes.terms, noted)?;
        count_nodes(&mut blocks.work, known)?;
        if !turn.is_next() {
            return Ok(turn);
        }
    }
    Ok(Turn::Next)
}

/// The body of a quantified formula.
fn body_of(known: &Known, formula: FormulaId) -> Option<FormulaId> {
    match known.nodes.formula_node(formula) {
        Some(FormulaNode::Forall(body)) => Some(*body),
        _ => None,
    }
}

/// The formulas that the terms make of a formula, one after the other.
fn instances_of(
    known: &mut Known,
    formula: FormulaId,
    terms: &[TermId],
) -> Result<Vec<FormulaId>, Stop> {
    let mut formulas = Vec::with_capacity(known.alloc, terms.len())?;
    let mut formula = formula;
    for term in terms {
        if let Some(body) = body_of(known, formula) {
            formula = known.nodes.instantiate(body, *term)?;
            formulas.push(formula)?;
        }
    }
    Ok(formulas)
}

/// The step that puts a term in, which appends a fact.
fn step_of(known: &Known, from: FactId, term: TermId, fact: FactId) -> Result<Step, Stop> {
    let made = Vec::from_array(known.alloc, [fact])?;
    Ok(Step {
        rule: Rule::Instantiate(from, term),
        needs: Vec::from_array(known.alloc, [from])?,
        made: Vec::from_array(known.alloc, [made])?,
        sides: Vec::from_array(known.alloc, [None])?,
        main: 0,
    })
}

/// Takes the steps in that make these formulas by these terms; the last formula's fact is returned.
fn push_steps(
    known: &mut Known,
    fact: FactId,
    terms: &[TermId],
    formulas: &[FormulaId],
    place: Place,
) -> Result<FactId, Stop> {
    let mut from = fact;
    for (term, formula) in terms.iter().zip(formulas) {
        let made = known.new_fact(*formula, place)?;
        let step = step_of(known, from, *term, made)?;
        known.steps.push(step)?;
        from = made;
    }
    Ok(from)
}

/// Whether one of the parts of a disjunction is known.
fn has_known_part(known: &Known, formula: FormulaId) -> bool {
    match known.nodes.parts(formula) {
        Some(parts) => {
            for part in parts {
                if known.has(*part).is_some() {
                    return true;
                }
            }
            false
        }
        None => false,
    }
}

/// Whether a formula is a disjunction. (A disequality has parts too, and is none.)
fn is_disjunction(known: &Known, formula: FormulaId) -> bool {
    if known.nodes.parts(formula).is_none() {
        return false;
    }
    match known.nodes.formula_node(formula) {
        Some(FormulaNode::Not(inner)) => {
            !matches!(
                known.nodes.formula_node(*inner),
                Some(FormulaNode::Eq(_, _))
            )
        }
        _ => true,
    }
}

fn done_with(formula: FormulaId) -> Done {
    Done {
        kind: INSTANCE,
        first: formula.0,
        second: 0,
    }
}

fn is_done(known: &Known, formula: FormulaId) -> bool {
    known.done.contains(&done_with(formula))
}

/// Whether an instance is known, was taken in before, or has a part that is known.
fn is_settled(known: &mut Known, formula: FormulaId) -> Result<bool, Stop> {
    known.nodes.learn_parts(formula)?;
    Ok(known.has(formula).is_some() || is_done(known, formula) || has_known_part(known, formula))
}

/// Tries an instance.
fn try_wanted(
    known: &mut Known,
    wanted: Instance,
    terms: &[TermId],
    noted: &mut Noted,
) -> Result<Turn, Stop> {
    let last = wanted.first.saturating_add(wanted.count);
    let Some(terms) = terms.get(wanted.first..last) else {
        return Ok(Turn::Next);
    };
    let formula = known.fact(wanted.fact).formula;
    let nodes = known.nodes.formula_size(formula) as usize;
    known.tableau.spend(nodes.saturating_mul(NODE))?;
    let formulas = instances_of(known, formula, terms)?;
    let Some(formula) = formulas.last().copied() else {
        return Ok(Turn::Next);
    };
    if is_settled(known, formula)? {
        return Ok(Turn::Next);
    }
    known.tick()?;
    let before = known.steps.len();
    let fact = push_steps(known, wanted.fact, terms, &formulas, wanted.place)?;
    if is_disjunction(known, formula) {
        return try_disjunction(known, fact, before, wanted.place, noted);
    }
    known.note(done_with(formula))?;
    known.assume(&[fact]).map(Turn::after)
}

/// Tries an instance that is a disjunction, whose steps are taken from a place on. They are taken back if it is a split.
fn try_disjunction(
    known: &mut Known,
    fact: FactId,
    before: usize,
    place: Place,
    noted: &mut Noted,
) -> Result<Turn, Stop> {
    let formula = known.fact(fact).formula;
    match weighed_clause(known, fact)? {
        Some(Weighed::Closed(proof)) => Ok(Turn::Closed(proof)),
        Some(Weighed::Unit(step)) => {
            known.note(done_with(formula))?;
            known.take(step).map(Turn::after)
        }
        Some(Weighed::Split(step)) => {
            let steps = taken_back(known, before)?;
            noted.note_behind(place, known.nodes.formula_size(formula), steps, step);
            Ok(Turn::Next)
        }
        None => Ok(Turn::Next),
    }
}

/// Takes the steps back that were taken from a place on.
fn taken_back(known: &mut Known, before: usize) -> Result<Vec<Step>, Stop> {
    let mut steps = Vec::new(known.alloc);
    for _ in before..known.steps.len() {
        if let Some(step) = known.steps.pop() {
            steps.push(step)?;
        }
    }
    steps.reverse();
    Ok(steps)
}
