//! Whether formulas hold in the state of the model. What is known holds, also where the model says otherwise.

use crate::model::{DEEPEST, Model, value};
use lc_facts::Known;
use lc_farkas::{Rational, Stop};
use lc_table::{FormulaId, FormulaNode};

/// Whether a closed formula holds; none if a quantifier leaves it undecided.
pub fn closed_truth(
    known: &Known,
    model: &mut Model,
    formula: FormulaId,
) -> Result<Option<bool>, Stop> {
    truth(known, model, formula, &[], DEEPEST)
}

/// Whether a formula holds, if these are the numbers of its bound variables.
#[cycle(truth)]
pub fn truth(
    known: &Known,
    model: &mut Model,
    formula: FormulaId,
    bound: &[Rational],
    deep: u32,
) -> Result<Option<bool>, Stop> {
    if deep == 0 {
        return Err(Stop::Spent);
    }
    model.note_node();
    if known.nodes.formula_loose(formula) > 0 {
        return node_truth(known, model, formula, bound, deep - 1);
    }
    if let Some(holds) = model.told_truth(formula) {
        return Ok(holds);
    }
    let holds = if known.has(formula).is_some() {
        Some(true)
    } else if known.has_negation(formula).is_some() {
        Some(false)
    } else {
        node_truth(known, model, formula, &[], deep - 1)?
    };
    model.tell_truth(formula, holds)?;
    Ok(holds)
}

#[cycle(truth)]
fn node_truth(
    known: &Known,
    model: &mut Model,
    formula: FormulaId,
    bound: &[Rational],
    deep: u32,
) -> Result<Option<bool>, Stop> {
    match known.nodes.formula_node(formula) {
        Some(FormulaNode::Le(left, right)) => {
            let left = value(known, model, *left, bound)?;
            let right = value(known, model, *right, bound)?;
            Ok(Some(!right.is_below(left)?))
        }
        Some(FormulaNode::Eq(left, right)) => {
            let left = value(known, model, *left, bound)?;
            let right = value(known, model, *right, bound)?;
            Ok(Some(left == right))
        }
        Some(FormulaNode::Not(inner)) => { Ok(negated(truth(known, model, *inner, bound, deep)?)) }
        Some(FormulaNode::And(parts)) => first_told(known, model, parts, bound, deep, false),
        Some(FormulaNode::Or(parts)) => first_told(known, model, parts, bound, deep, true),
        Some(FormulaNode::Implies(left, right)) => {
            let left = negated(truth(known, model, *left, bound, deep)?);
            if left == Some(true) {
                return Ok(left);
            }
            let right = truth(known, model, *right, bound, deep)?;
            Ok(either(left, right))
        }
        _ => Ok(None),
    }
}

/// The contrary.
fn negated(holds: Option<bool>) -> Option<bool> {
    holds.map(|holds| !holds)
}

/// Whether one of two holds.
fn either(left: Option<bool>, right: Option<bool>) -> Option<bool> {
    match (left, right) {
        (Some(true), _) | (_, Some(true)) => Some(true),
        (Some(false), Some(false)) => Some(false),
        _ => None,
    }
}

/// The truth that decides, if one of the parts has it; undecided, if one of them is; else the contrary.
#[cycle(truth)]
fn first_told(
    known: &Known,
    model: &mut Model,
    parts: &[FormulaId],
    bound: &[Rational],
    deep: u32,
    decides: bool,
) -> Result<Option<bool>, Stop> {
    if deep == 0 {
        return Err(Stop::Spent);
    }
    let mut is_told = true;
    for part in parts {
        match truth(known, model, *part, bound, deep - 1)? {
            Some(holds) if holds == decides => return Ok(Some(decides)),
            Some(_) => {}
            None => is_told = false,
        }
    }
    Ok(if is_told { Some(!decides) } else { None })
}
