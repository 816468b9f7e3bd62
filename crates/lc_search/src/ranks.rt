//! How near what is known at the start is to the goal.

use lc_farkas::Stop;
use lc_nodes::Nodes;
use lc_table::{ColExprId, FormulaId, FormulaNode, TermId, TermNode};
use std::alloc::Global;

/// The rank of the negated goal.
pub(crate) const GOAL: i32 = 0;

/// The rank of hypotheses.
pub(crate) const HYPOTHESIS: i32 = 1;

/// The rank of what holds of the state after an action.
pub(crate) const AFTER: i32 = 2;

/// A part of a hypothesis that is still to be looked at. It waits in a list, so that a deep hypothesis takes nothing of the stack.
#[derive(Clone, Copy)]
enum Due {
    Formula(FormulaId),
    Term(TermId),
}

/// The rank of a hypothesis: one about columns that are built says something about the state after an action.
pub(crate) fn rank_of(alloc: Global, nodes: &Nodes, hypothesis: FormulaId) -> Result<i32, Stop> {
    let mut due = Vec::new(alloc);
    due.push(Due::Formula(hypothesis))?;
    for _ in 0..u64::MAX {
        match due.pop() {
            Some(Due::Formula(formula)) => await_parts(nodes, formula, &mut due)?,
            Some(Due::Term(term)) => {
                if reads_built(nodes, term) {
                    return Ok(AFTER);
                }
                await_terms(nodes, term, &mut due)?;
            }
            None => return Ok(HYPOTHESIS),
        }
    }
    Err(Stop::Spent)
}

/// Puts the parts of a formula into `due`.
fn await_parts(nodes: &Nodes, formula: FormulaId, due: &mut Vec<Due>) -> Result<(), Stop> {
    match nodes.formula_node(formula) {
        Some(FormulaNode::Le(left, right)) | Some(FormulaNode::Eq(left, right)) => {
            due.push(Due::Term(*left))?;
            due.push(Due::Term(*right))?;
        }
        Some(FormulaNode::And(parts)) | Some(FormulaNode::Or(parts)) => {
            for part in parts {
                due.push(Due::Formula(*part))?;
            }
        }
        Some(FormulaNode::Implies(left, right)) => {
            due.push(Due::Formula(*left))?;
            due.push(Due::Formula(*right))?;
        }
        Some(FormulaNode::Not(inner))
        | Some(FormulaNode::Forall(inner))
        | Some(FormulaNode::Exists(inner)) => due.push(Due::Formula(*inner))?,
        None => {}
    }
    Ok(())
}

/// Puts the parts of a term into `due`, and the index of a read.
fn await_terms(nodes: &Nodes, term: TermId, due: &mut Vec<Due>) -> Result<(), Stop> {
    match nodes.term_node(term) {
        Some(TermNode::Add(left, right)) | Some(TermNode::Subtract(left, right)) => {
            due.push(Due::Term(left))?;
            due.push(Due::Term(right))?;
        }
        Some(TermNode::Multiply(_, part)) | Some(TermNode::Read(_, part)) => {
            due.push(Due::Term(part))?;
        }
        _ => {}
    }
    Ok(())
}

/// Whether a term is a read of a column that is built.
fn reads_built(nodes: &Nodes, term: TermId) -> bool {
    match nodes.term_node(term) {
        Some(TermNode::Read(column, _)) => is_built(nodes, column),
        _ => false,
    }
}

/// Whether a column is built.
fn is_built(nodes: &Nodes, column: ColExprId) -> bool {
    !matches!(nodes.column_node(column), Some(TermNode::Base(_)))
}
