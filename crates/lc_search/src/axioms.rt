//! Axioms of arrays, when the numbers of reads break them.

use crate::cases::{Noted, weighed_clause};
use crate::turn::{Turn, taken};
use lc_facts::{Done, FactId, Known, Place, ProofId, Rule, Weighed};
use lc_farkas::Stop;
use lc_search_model::{
    Clash, DEEPEST, Model, active_read, base_read, closed_value, count_evaluated, fill_model,
};
use lc_table::{FormulaId, FormulaNode, TermId, TermNode};

/// What is noted to be done with a read: `same` with another one, or what the column says of it.
const SAME: u32 = 0;

const MEANT: u32 = 1;

/// The place of an active read.
fn place_of(known: &Known, read: TermId) -> Place {
    match known.active.get(&read) {
        Some(place) => *place,
        None => Place { rank: 1, depth: 0 },
    }
}

/// The farther of two places.
fn farther(first: Place, second: Place) -> Place {
    Place {
        rank: first.rank.max(second.rank),
        depth: first.depth.max(second.depth),
    }
}

/// Takes an axiom in, whose reads become active.
fn infer_axiom(
    known: &mut Known,
    rule: Rule,
    formula: FormulaId,
    place: Place,
) -> Result<Option<ProofId>, Stop> {
    known.nodes.learn(formula)?;
    known.activate_reads(formula, place)?;
    let fact = known.new_axiom(formula, place)?;
    let needs = Vec::new(known.alloc);
    known.infer(rule, needs, fact)
}

/// Makes the state of the numbers at hand, and takes in the axioms that they break and that are not known yet.
pub(crate) fn read_axioms(known: &mut Known, model: &mut Model) -> Result<Turn, Stop> {
    let clashes = fill_model(known, model)?;
    let mut is_more = false;
    for clash in &clashes {
        if known.note(done_same(*clash))? {
            is_more = true;
            if let Some(proof) = infer_same(known, *clash)? {
                return Ok(Turn::Closed(proof));
            }
        }
    }
    for place in 0..known.active.len() {
        if let Some(read) = active_read(known, place)
            && is_broken(known, model, read)?
            && known.note(done_meant(read))?
        {
            is_more = true;
            if let Some(proof) = infer_meant(known, read)? {
                return Ok(Turn::Closed(proof));
            }
        }
    }
    Ok(if is_more { Turn::Again } else { Turn::Next })
}

fn done_same(clash: Clash) -> Done {
    Done {
        kind: SAME,
        first: clash.first.0,
        second: clash.second.0,
    }
}

fn done_meant(read: TermId) -> Done {
    Done {
        kind: MEANT,
        first: read.0,
        second: 0,
    }
}

/// Takes in that a column has one number at one index, of two reads of a base column.
fn infer_same(known: &mut Known, clash: Clash) -> Result<Option<ProofId>, Stop> {
    let Some(TermNode::Read(column, index)) = known.nodes.term_node(clash.first) else {
        return Ok(None);
    };
    let Some((_, other)) = base_read(known, clash.second) else {
        return Ok(None);
    };
    let place = farther(place_of(known, clash.first), place_of(known, clash.second));
    let formula = known.nodes.same_axiom(column, index, other)?;
    infer_axiom(known, Rule::Same(column, index, other), formula, place)
}

/// Whether an active read of a column that is built has another number than the column says.
fn is_broken(known: &mut Known, model: &mut Model, read: TermId) -> Result<bool, Stop> {
    if base_read(known, read).is_some() {
        return Ok(false);
    }
    let number = known.value_of(read)?;
    let meant = closed_value(known, model, read)?;
    count_evaluated(known, model)?;
    Ok(number != meant)
}

/// Takes in what a column that is built says of a read.
fn infer_meant(known: &mut Known, read: TermId) -> Result<Option<ProofId>, Stop> {
    let Some(TermNode::Read(column, index)) = known.nodes.term_node(read) else {
        return Ok(None);
    };
    let place = place_of(known, read);
    match known.nodes.column_node(column) {
        Some(TermNode::Store(below, stored_at, stored)) => {
            let formula = known.nodes.written_axiom(below, stored_at, stored, index)?;
            let rule = Rule::Written(below, stored_at, stored, index);
            infer_axiom(known, rule, formula, place)
        }
        Some(TermNode::Affine(slope, start)) => {
            let formula = known.nodes.affine_axiom(slope, start, index)?;
            infer_axiom(known, Rule::Affine(slope, start, index), formula, place)
        }
        _ => Ok(None),
    }
}

/// The axiom at a place.
fn axiom_at(known: &Known, place: usize) -> Option<FactId> {
    known.axioms.get(place).copied()
}

/// Uses the axioms that are false with each read at its own number.
pub(crate) fn broken_axioms(known: &mut Known, noted: &mut Noted) -> Result<Turn, Stop> {
    for place in 0..known.axioms.len() {
        if let Some(fact) = axiom_at(known, place) {
            let turn = broken_axiom(known, fact, noted)?;
            if !turn.is_next() {
                return Ok(turn);
            }
        }
    }
    Ok(Turn::Next)
}

/// Uses an axiom, if it is false with each read at its own number.
fn broken_axiom(known: &mut Known, fact: FactId, noted: &mut Noted) -> Result<Turn, Stop> {
    let formula = known.fact(fact).formula;
    let Shape::Parts { count, is_or } = shape_of(known, formula) else {
        return Ok(Turn::Next);
    };
    if own_truth_of_parts(known, formula, count, is_or, DEEPEST)? {
        return Ok(Turn::Next);
    }
    match weighed_clause(known, fact)? {
        Some(Weighed::Split(step)) => {
            let place = known.place(fact);
            let size = known.nodes.formula_size(formula);
            noted.note(place, size, step);
            Ok(Turn::Next)
        }
        Some(weighed) => taken(known, weighed),
        None => Ok(Turn::Next),
    }
}

/// The part of a conjunction or a disjunction at a place.
fn part_at(known: &Known, formula: FormulaId, place: usize) -> Option<FormulaId> {
    match known.nodes.formula_node(formula) {
        Some(FormulaNode::And(parts)) | Some(FormulaNode::Or(parts)) => parts.get(place).copied(),
        _ => None,
    }
}

/// How a formula of an axiom is made.
#[derive(Clone, Copy)]
enum Shape {
    Comparison { is_le: bool },
    Not(FormulaId),
    Parts { count: usize, is_or: bool },
    Other,
}

fn shape_of(known: &Known, formula: FormulaId) -> Shape {
    match known.nodes.formula_node(formula) {
        Some(FormulaNode::Le(_, _)) => Shape::Comparison { is_le: true },
        Some(FormulaNode::Eq(_, _)) => Shape::Comparison { is_le: false },
        Some(FormulaNode::Not(inner)) => Shape::Not(*inner),
        Some(FormulaNode::And(parts)) => Shape::Parts {
            count: parts.len(),
            is_or: false,
        },
        Some(FormulaNode::Or(parts)) => Shape::Parts {
            count: parts.len(),
            is_or: true,
        },
        _ => Shape::Other,
    }
}

/// Whether a formula of an axiom holds with each read at its own number. What is known holds.
#[cycle(own_truth)]
fn own_truth(known: &mut Known, formula: FormulaId, deep: u32) -> Result<bool, Stop> {
    if deep == 0 {
        return Err(Stop::Spent);
    }
    if known.has(formula).is_some() {
        return Ok(true);
    }
    match shape_of(known, formula) {
        Shape::Comparison { is_le } => {
            let gap = known.gap_value(formula)?;
            Ok(gap.is_zero() || (is_le && !gap.is_positive()))
        }
        Shape::Not(inner) => Ok(!own_truth(known, inner, deep - 1)?),
        Shape::Parts { count, is_or } => own_truth_of_parts(known, formula, count, is_or, deep - 1),
        Shape::Other => Ok(true),
    }
}

#[cycle(own_truth)]
fn own_truth_of_parts(
    known: &mut Known,
    formula: FormulaId,
    count: usize,
    is_or: bool,
    deep: u32,
) -> Result<bool, Stop> {
    if deep == 0 {
        return Err(Stop::Spent);
    }
    for place in 0..count {
        if let Some(part) = part_at(known, formula, place)
            && own_truth(known, part, deep - 1)? == is_or
        {
            return Ok(is_or);
        }
    }
    Ok(!is_or)
}
