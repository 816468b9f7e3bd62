//! A formula of one table entered in another.
ghost use Rattle.std.specs.Prelude.{◌≡◌, IfOk, IfSome, OnOk, [], slice_get, Some, None, is_some, true, false, nat_eq};
ghost use Rattle.std.specs.Map.{lookup};
ghost use Rattle.lc_term.specs.Chains.{is_store};
ghost use Rattle.lc_table.specs.NodeChains.{stored_to};
ghost use Rattle.lc_table.specs.Nodes.{is_term, tree_of, TreeFits};
ghost use Rattle.lc_table.specs.Tables.{parts, formulas, term_in, column_in, formula_in, formulas_in, IsTerm, IsColumn, IsFormula, AreFormulas, HasTerm, HasColumn, HasFormula, Keeps};
ghost use Rattle.lc_copy.specs.Copies.{Copies};

use lc_base::OutOfMemory;
use lc_table::{ColExprId, FormulaId, FormulaNode, NearMap, TermId, TermNode, Terms, Waiting};
use std::alloc::Global;
use std::hash::BuildHasherDefault;

// What is copied already: numbers of the other table, each with its number here.
struct Copied {
    parts: NearMap<u32, u32>,
    formulas: NearMap<u32, u32>,
}

impl Drop for Copied {
    fn drop(self) {
        let Copied {
            parts: _,
            formulas: _,
        } = self;
    }
}

fn nothing_copied(alloc: Global) -> Copied
    ensures parts { result.parts.entries ≡ [] }
    ensures formulas { result.formulas.entries ≡ [] }
{
    Copied {
        parts: NearMap::with_hasher(alloc, BuildHasherDefault::new()),
        formulas: NearMap::with_hasher(alloc, BuildHasherDefault::new()),
    }
}

/// The number here of a formula of another table. What is shared there is looked at once.
pub fn copy_from(
    table: &mut Terms,
    alloc: Global,
    other: &Terms,
    formula: FormulaId,
) -> Result<FormulaId, OutOfMemory>
    requires { IsFormula other.now formula }
    ensures id { IfOk result (λ k. HasFormula table.new k (formula_in other.now formula)) }
    ensures kept { Keeps table.old table.new }
{
    let mut copied = nothing_copied(alloc);
    copied_formula(table, alloc, other, formula, &mut copied)
}

#[cycle(copied_part)]
#[tactic(auto, using(crate::proofs::Copied::copies_kept, crate::proofs::Copied::term_found, crate::proofs::Copied::part_noted, lc_table::proofs::Later::term_stands, crate::proofs::Copied::term_standing))]
fn copied_term(
    table: &mut Terms,
    other: &Terms,
    term: TermId,
    copied: &mut Copied,
) -> Result<TermId, OutOfMemory>
    requires there { IsTerm other.now term }
    requires copies { Copies other.now table.old copied.old }
    ensures id { IfOk result (λ k. HasTerm table.new k (term_in other.now term)) }
    ensures kept { Keeps table.old table.new }
    ensures copies { OnOk result (Copies other.now table.new copied.new) }
{
    if let Some(number) = copied.parts.get(&term.0) {
        return Ok(TermId(*number));
    }
    let number = copied_part(table, other, term.0, copied)?;
    copied.parts.insert(term.0, number)?;
    Ok(TermId(number))
}

#[cycle(copied_part)]
#[tactic(auto, using(lc_table::proofs::Later::kept_on))]
fn copied_column(
    table: &mut Terms,
    other: &Terms,
    column: ColExprId,
    copied: &mut Copied,
) -> Result<ColExprId, OutOfMemory>
    requires there { IsColumn other.now column }
    requires copies { Copies other.now table.old copied.old }
    ensures id { IfOk result (λ k. HasColumn table.new k (column_in other.now column)) }
    ensures kept { Keeps table.old table.new }
    ensures copies { OnOk result (Copies other.now table.new copied.new) }
{
    let mut chain = other.chain_to_done(table.allocator(), column, &copied.parts)?;
    let mut here = copied_below(table, other, &chain, copied)?;
    'stores: while let Some(store) = chain.stores.pop() {
        here = copied_store(table, other, store, here, copied)?;
    }
    Ok(here)
}

// The number here of what is, in the other table, below the stores that are not copied yet.
#[tactic(auto, using(crate::proofs::Copied::copies_kept, crate::proofs::Copied::column_found, crate::proofs::Copied::column_noted))]
fn copied_below(
    table: &mut Terms,
    other: &Terms,
    chain: &Waiting,
    copied: &mut Copied,
) -> Result<ColExprId, OutOfMemory>
    requires there { IsColumn other.now chain.now.base }
    requires known { IfSome chain.now.known (λ number. lookup (nat_eq chain.now.base.0) copied.old.parts.entries ≡ Some number) }
    requires base { chain.now.known ≡ None → is_store (column_in other.now chain.now.base) ≡ false }
    requires copies { Copies other.now table.old copied.old }
    ensures id { IfOk result (λ k. HasColumn table.new k (column_in other.now chain.now.base)) }
    ensures kept { Keeps table.old table.new }
    ensures copies { OnOk result (Copies other.now table.new copied.new) }
{
    match chain.known {
        Some(number) => Ok(ColExprId(number)),
        None => {
            let number = copied_root(table, other, chain.base)?;
            copied.parts.insert(chain.base.0, number.0)?;
            Ok(number)
        }
    }
}

fn copied_root(table: &mut Terms, other: &Terms, base: ColExprId) -> Result<ColExprId, OutOfMemory>
    requires there { IsColumn other.now base }
    requires base { is_store (column_in other.now base) ≡ false }
    ensures id { IfOk result (λ k. HasColumn table.new k (column_in other.now base)) }
    ensures kept { Keeps table.old table.new }
{
    match other.column_node(base) {
        TermNode::Base(column) => table.base(column),
        TermNode::Affine(slope, start) => table.affine(slope, start),
        _ => unreachable!(),
    }
}

// The number here of a store, where what it stores to has the number `below` here.
#[cycle(copied_part)]
#[tactic(auto, using(lc_table::proofs::Later::kept_on, lc_table::proofs::Later::is_term_later, lc_table::proofs::Later::is_column_later))]
fn copied_store(
    table: &mut Terms,
    other: &Terms,
    store: ColExprId,
    below: ColExprId,
    copied: &mut Copied,
) -> Result<ColExprId, OutOfMemory>
    requires there { IsColumn other.now store }
    requires store { is_store (column_in other.now store) ≡ true }
    requires below { HasColumn table.old below (stored_to (column_in other.now store)) }
    requires copies { Copies other.now table.old copied.old }
    ensures id { IfOk result (λ k. HasColumn table.new k (column_in other.now store)) }
    ensures kept { Keeps table.old table.new }
    ensures copies { OnOk result (Copies other.now table.new copied.new) }
{
    match other.column_node(store) {
        TermNode::Store(_, index, value) => {
            let index = copied_term(table, other, index, copied)?;
            let value = copied_term(table, other, value, copied)?;
            let number = table.store(below, index, value)?;
            copied.parts.insert(store.0, number.0)?;
            Ok(number)
        }
        _ => unreachable!(),
    }
}

// The number here of a term there, which is not copied yet.
#[cycle(copied_part)]
#[tactic(auto, using(lc_table::proofs::Later::term_later, lc_table::proofs::Later::column_later, lc_table::proofs::Later::term_is, lc_table::proofs::Later::column_is, lc_table::proofs::Later::kept_on, lc_table::proofs::Later::is_term_later, lc_table::proofs::Later::is_column_later))]
fn copied_part(
    table: &mut Terms,
    other: &Terms,
    part: u32,
    copied: &mut Copied,
) -> Result<u32, OutOfMemory>
    requires there { is_some (slice_get (parts other.now) part) ≡ true }
    requires term { is_term (slice_get (parts other.now) part) ≡ true }
    requires copies { Copies other.now table.old copied.old }
    ensures id { IfOk result (λ k. slice_get (parts table.new) k ≡ slice_get (parts other.now) part) }
    ensures kept { Keeps table.old table.new }
    ensures copies { OnOk result (Copies other.now table.new copied.new) }
{
    match other.part_node(part) {
        TermNode::Number(number) => Ok(table.number(number)?.0),
        TermNode::Variable(number) => Ok(table.variable(number)?.0),
        TermNode::Bound(number) => Ok(table.bound(number)?.0),
        TermNode::Add(left, right) => {
            let left = copied_term(table, other, left, copied)?;
            let right = copied_term(table, other, right, copied)?;
            Ok(table.add(left, right)?.0)
        }
        TermNode::Subtract(left, right) => {
            let left = copied_term(table, other, left, copied)?;
            let right = copied_term(table, other, right, copied)?;
            Ok(table.subtract(left, right)?.0)
        }
        TermNode::Multiply(factor, term) => {
            let term = copied_term(table, other, term, copied)?;
            Ok(table.multiply(factor, term)?.0)
        }
        TermNode::Read(column, index) => {
            let column = copied_column(table, other, column, copied)?;
            let index = copied_term(table, other, index, copied)?;
            Ok(table.read(column, index)?.0)
        }
        TermNode::Base(_) | TermNode::Affine(_, _) | TermNode::Store(_, _, _) => unreachable!(),
    }
}

#[cycle(copied_formula)]
#[tactic(auto, using(crate::proofs::Copied::formula_found, crate::proofs::Copied::formula_noted))]
fn copied_formula(
    table: &mut Terms,
    alloc: Global,
    other: &Terms,
    formula: FormulaId,
    copied: &mut Copied,
) -> Result<FormulaId, OutOfMemory>
    requires there { IsFormula other.now formula }
    requires copies { Copies other.now table.old copied.old }
    ensures id { IfOk result (λ k. HasFormula table.new k (formula_in other.now formula)) }
    ensures kept { Keeps table.old table.new }
    ensures copies { OnOk result (Copies other.now table.new copied.new) }
{
    if let Some(number) = copied.formulas.get(&formula.0) {
        return Ok(FormulaId(*number));
    }
    let node = copied_node(table, alloc, other, formula, copied)?;
    let number = table.enter_node(node)?;
    copied.formulas.insert(formula.0, number)?;
    Ok(FormulaId(number))
}

// The node here of a formula that is not copied yet.
#[cycle(copied_formula)]
#[tactic(auto, using(lc_table::proofs::Later::term_later, lc_table::proofs::Later::term_is, lc_table::proofs::Later::is_term_later, lc_table::proofs::Later::formula_later, lc_table::proofs::Later::formula_is, lc_table::proofs::Later::is_formula_later, lc_table::proofs::Later::kept_on))]
fn copied_node(
    table: &mut Terms,
    alloc: Global,
    other: &Terms,
    formula: FormulaId,
    copied: &mut Copied,
) -> Result<FormulaNode, OutOfMemory>
    requires there { IsFormula other.now formula }
    requires copies { Copies other.now table.old copied.old }
    ensures fits { IfOk result (λ node. TreeFits (parts table.new) (formulas table.new) node) }
    ensures tree { IfOk result (λ node. tree_of (parts table.new) (formulas table.new) node ≡ formula_in other.now formula) }
    ensures kept { Keeps table.old table.new }
    ensures copies { OnOk result (Copies other.now table.new copied.new) }
{
    match other.formula_node(formula) {
        FormulaNode::Le(left, right) => {
            let left = copied_term(table, other, *left, copied)?;
            let right = copied_term(table, other, *right, copied)?;
            Ok(FormulaNode::Le(left, right))
        }
        FormulaNode::Eq(left, right) => {
            let left = copied_term(table, other, *left, copied)?;
            let right = copied_term(table, other, *right, copied)?;
            Ok(FormulaNode::Eq(left, right))
        }
        FormulaNode::Not(formula) => {
            let formula = copied_formula(table, alloc, other, *formula, copied)?;
            Ok(FormulaNode::Not(formula))
        }
        FormulaNode::And(parts) => {
            let parts = copied_formulas(table, alloc, other, parts, copied)?;
            Ok(FormulaNode::And(parts))
        }
        FormulaNode::Or(parts) => {
            let parts = copied_formulas(table, alloc, other, parts, copied)?;
            Ok(FormulaNode::Or(parts))
        }
        FormulaNode::Implies(left, right) => {
            let left = copied_formula(table, alloc, other, *left, copied)?;
            let right = copied_formula(table, alloc, other, *right, copied)?;
            Ok(FormulaNode::Implies(left, right))
        }
        FormulaNode::Forall(body) => {
            let body = copied_formula(table, alloc, other, *body, copied)?;
            Ok(FormulaNode::Forall(body))
        }
        FormulaNode::Exists(body) => {
            let body = copied_formula(table, alloc, other, *body, copied)?;
            Ok(FormulaNode::Exists(body))
        }
    }
}

#[cycle(copied_formula)]
#[tactic(auto, using(lc_table::proofs::Later::formulas_pushed, lc_table::proofs::Later::are_formulas_pushed, lc_table::proofs::Later::kept_on, lc_table::proofs::Later::keeps_itself))]
fn copied_formulas(
    table: &mut Terms,
    alloc: Global,
    other: &Terms,
    formulas: &[FormulaId],
    copied: &mut Copied,
) -> Result<Vec<FormulaId>, OutOfMemory>
    requires there { AreFormulas other.now formulas.now }
    requires copies { Copies other.now table.old copied.old }
    ensures are { IfOk result (λ ks. AreFormulas table.new ks.items) }
    ensures trees { IfOk result (λ ks. formulas_in table.new ks.items ≡ formulas_in other.now formulas.now) }
    ensures kept { Keeps table.old table.new }
    ensures copies { OnOk result (Copies other.now table.new copied.new) }
{
    let mut entered = Vec::with_capacity(alloc, formulas.len())?;
    for formula in formulas {
        entered.push(copied_formula(table, alloc, other, *formula, copied)?)?;
    }
    Ok(entered)
}
