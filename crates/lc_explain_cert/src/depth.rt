//! How deep the terms of a goal are nested. In a condition a term is in another one that reads what it was written to, and that
//! again in another, so that its terms can be far deeper than any in a file. No trees are made of these.
ghost use Rattle.std.specs.Prelude.{IfOk};
ghost use Rattle.std.specs.List.{All};
ghost use Rattle.lc_table.specs.Tables.{IsTerm, IsColumn, IsFormula, AreFormulas};

use indexmap::IndexMap;
use lc_base::{DEPTH_LIMIT, OutOfMemory};
use lc_kernel::Goal;
use lc_table::{ColExprId, FormulaId, FormulaNode, TermId, TermNode, Terms};
use std::alloc::{AllocFailed, Global};

/// How many levels terms may have of which trees are made: as many as a text may have.
const LEVELS: u32 = DEPTH_LIMIT as u32;

/// Why a height is not known.
#[derive(Clone, Copy)]
enum Untold {
    /// It is greater than the levels that are left.
    Deep,
    OutOfMemory,
}

impl From<OutOfMemory> for Untold {
    fn from(_: OutOfMemory) -> Untold {
        Untold::OutOfMemory
    }
}

impl<T: Drop> From<AllocFailed<T>> for Untold {
    fn from(_: AllocFailed<T>) -> Untold {
        Untold::OutOfMemory
    }
}

/// A height, if as many levels are left.
fn within(height: u32, levels: u32) -> Result<u32, Untold> {
    if height <= levels {
        Ok(height)
    } else {
        Err(Untold::Deep)
    }
}

/// How many levels a part has, if that is known; none for another one.
fn known_height(heights: &IndexMap<u32, u32>, part: u32) -> u32 {
    heights.get(&part).copied().unwrap_or(0)
}

/// How many levels a term has, if as many are left.
#[cycle(term_height)]
fn term_height(
    terms: &Terms,
    term: TermId,
    levels: u32,
    heights: &mut IndexMap<u32, u32>,
) -> Result<u32, Untold>
    requires { IsTerm terms.now term }
{
    if let Some(height) = heights.get(&term.0).copied() {
        return within(height, levels);
    }
    let Some(left) = levels.checked_sub(1) else {
        return Err(Untold::Deep);
    };
    let height = parts_height(terms, term, left, heights)?.saturating_add(1);
    heights.insert(term.0, height)?;
    Ok(height)
}

/// How many levels the deepest part of a term has, if as many are left.
#[cycle(term_height)]
fn parts_height(
    terms: &Terms,
    term: TermId,
    levels: u32,
    heights: &mut IndexMap<u32, u32>,
) -> Result<u32, Untold>
    requires { IsTerm terms.now term }
{
    match terms.term_node(term) {
        TermNode::Number(_) | TermNode::Variable(_) | TermNode::Bound(_) => Ok(0),
        TermNode::Add(left, right) | TermNode::Subtract(left, right) => {
            let height = term_height(terms, left, levels, heights)?;
            Ok(height.max(term_height(terms, right, levels, heights)?))
        }
        TermNode::Multiply(_, term) => term_height(terms, term, levels, heights),
        TermNode::Read(column, index) => {
            let height = column_height(terms, column, levels, heights)?;
            Ok(height.max(term_height(terms, index, levels, heights)?))
        }
        TermNode::Base(_) | TermNode::Store(_, _, _) | TermNode::Affine(_, _) => unreachable!(),
    }
}

/// How many levels the deepest term in a column expression has, if as many are left. Its stores are no levels.
#[cycle(term_height)]
fn column_height(
    terms: &Terms,
    column: ColExprId,
    levels: u32,
    heights: &mut IndexMap<u32, u32>,
) -> Result<u32, Untold>
    requires { IsColumn terms.now column }
{
    let stores = unknown_stores(terms, column, heights)?;
    for store in stores.iter().rev() {
        let height = store_height(terms, *store, levels, heights)?;
        heights.insert(store.0, height)?;
    }
    within(known_height(heights, column.0), levels)
}

/// The stores of a column expression, the outermost first, down to what is known or is no store.
fn unknown_stores(
    terms: &Terms,
    column: ColExprId,
    heights: &IndexMap<u32, u32>,
) -> Result<Vec<ColExprId>, OutOfMemory>
    requires { IsColumn terms.now column }
    ensures { IfOk result (λ stores. All (IsColumn terms.now) stores.items) }
{
    let mut stores = Vec::new(*heights.allocator());
    let mut rest = column;
    'stores: loop {
        if heights.contains_key(&rest.0) {
            return Ok(stores);
        }
        match terms.column_node(rest) {
            TermNode::Store(below, _, _) => {
                stores.push(rest)?;
                rest = below;
            }
            _ => return Ok(stores),
        }
    }
}

/// The height of a store, if that of what it stores to is known.
#[cycle(term_height)]
fn store_height(
    terms: &Terms,
    store: ColExprId,
    levels: u32,
    heights: &mut IndexMap<u32, u32>,
) -> Result<u32, Untold>
    requires { IsColumn terms.now store }
{
    match terms.column_node(store) {
        TermNode::Store(below, index, value) => {
            let index = term_height(terms, index, levels, heights)?;
            let value = term_height(terms, value, levels, heights)?;
            Ok(known_height(heights, below.0).max(index).max(value))
        }
        _ => Ok(0),
    }
}

/// Looks at the terms of the comparisons in a formula. It goes down as the formula nests, as it does where it is written.
#[cycle(look_at)]
fn look_at(
    terms: &Terms,
    formula: FormulaId,
    heights: &mut IndexMap<u32, u32>,
) -> Result<(), Untold>
    requires { IsFormula terms.now formula }
{
    match terms.formula_node(formula) {
        FormulaNode::Le(left, right) | FormulaNode::Eq(left, right) => {
            term_height(terms, *left, LEVELS, heights)?;
            term_height(terms, *right, LEVELS, heights)?;
            Ok(())
        }
        FormulaNode::Not(part) | FormulaNode::Forall(part) | FormulaNode::Exists(part) => {
            look_at(terms, *part, heights)
        }
        FormulaNode::And(parts) | FormulaNode::Or(parts) => look_at_all(terms, parts, heights),
        FormulaNode::Implies(left, right) => {
            look_at(terms, *left, heights)?;
            look_at(terms, *right, heights)
        }
    }
}

/// Looks at the terms in formulas, if as many levels are left.
#[cycle(look_at)]
fn look_at_all(
    terms: &Terms,
    formulas: &[FormulaId],
    heights: &mut IndexMap<u32, u32>,
) -> Result<(), Untold>
    requires { AreFormulas terms.now formulas.now }
{
    for formula in formulas {
        look_at(terms, *formula, heights)?;
    }
    Ok(())
}

/// Looks at the terms of a goal.
fn look_at_goal(alloc: Global, terms: &Terms, goal: &Goal) -> Result<(), Untold>
    requires hypotheses { AreFormulas terms.now goal.now.hypotheses }
    requires goal { IsFormula terms.now goal.now.goal }
{
    let mut heights = IndexMap::new(alloc);
    look_at_all(terms, goal.hypotheses.as_slice(), &mut heights)?;
    look_at(terms, goal.goal, &mut heights)
}

/// Whether some term of a goal has more levels than a term may have of which a tree is made.
pub(crate) fn has_deep_terms(alloc: Global, terms: &Terms, goal: &Goal) -> Result<bool, OutOfMemory>
    requires hypotheses { AreFormulas terms.now goal.now.hypotheses }
    requires goal { IsFormula terms.now goal.now.goal }
{
    match look_at_goal(alloc, terms, goal) {
        Ok(()) => Ok(false),
        Err(Untold::Deep) => Ok(true),
        Err(Untold::OutOfMemory) => Err(OutOfMemory),
    }
}
