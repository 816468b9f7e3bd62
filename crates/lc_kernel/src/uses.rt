//! Whether free variables have numbers below a count, computed over the nodes of a table. What is shared is looked at once.
ghost use Rattle.std.specs.Prelude.{◌≡◌, ◌&&◌, ℕ, IfOk, OnOk, true};
ghost use Rattle.lc_term.specs.Chains.{is_store};
ghost use Rattle.lc_kernel.specs.Below.{term_below, column_below, formula_below, all_below};
ghost use Rattle.lc_kernel.specs.Uses.{AreBelow};
ghost use Rattle.lc_table.specs.NodeChains.{stored_to, below_stores, AreStores};
ghost use Rattle.lc_table.specs.NodeTables.{Table};
ghost use Rattle.lc_table.specs.Tables.{term_in, column_in, formula_in, formulas_in, IsTerm, IsColumn, IsFormula, AreFormulas};

use indexmap::IndexSet;
use lc_base::OutOfMemory;
use lc_table::{ColExprId, FormulaId, FormulaNode, TermId, TermNode, Terms};
use std::alloc::Global;

/// A table, and how many of its trees' free variables are in use: those with numbers below this.
#[derive(Clone, Copy)]
pub(crate) struct InUse<'a> {
    pub(crate) terms: &'a Terms,
    pub(crate) count: u32,
}

// What is known to have its variables below the count.
pub(crate) struct KnownBelow {
    terms: IndexSet<TermId>,
    columns: IndexSet<ColExprId>,
    formulas: IndexSet<FormulaId>,
}

impl Drop for KnownBelow {
    fn drop(self) {
        let KnownBelow {
            terms: _,
            columns: _,
            formulas: _,
        } = self;
    }
}

pub(crate) fn nothing_known(alloc: Global) -> KnownBelow
    ensures { (count : ℕ) (ts : Table) → AreBelow count ts result }
{
    KnownBelow {
        terms: IndexSet::new(alloc),
        columns: IndexSet::new(alloc),
        formulas: IndexSet::new(alloc),
    }
}

#[cycle(is_term_below)]
fn is_term_below(
    in_use: InUse<'_>,
    term: TermId,
    known: &mut KnownBelow,
) -> Result<bool, OutOfMemory>
    requires there { IsTerm in_use.terms.now term }
    requires known { AreBelow in_use.count in_use.terms.now known.old }
    ensures below { IfOk result (λ yes'. yes' ≡ term_below in_use.entry.count (term_in in_use.entry.terms.now term)) }
    ensures known { OnOk result (AreBelow in_use.entry.count in_use.entry.terms.now known.new) }
{
    if known.terms.contains(&term) {
        return Ok(true);
    }
    let is_below = is_term_node_below(in_use, term, known)?;
    if is_below {
        known.terms.insert(term)?;
    }
    Ok(is_below)
}

#[cycle(is_term_below)]
fn is_term_node_below(
    in_use: InUse<'_>,
    term: TermId,
    known: &mut KnownBelow,
) -> Result<bool, OutOfMemory>
    requires { IsTerm in_use.terms.now term × AreBelow in_use.count in_use.terms.now known.old }
    ensures below { IfOk result (λ yes'. yes' ≡ term_below in_use.entry.count (term_in in_use.entry.terms.now term)) }
    ensures known { OnOk result (AreBelow in_use.entry.count in_use.entry.terms.now known.new) }
{
    match in_use.terms.term_node(term) {
        TermNode::Number(_) | TermNode::Bound(_) => Ok(true),
        TermNode::Variable(number) => Ok(number < in_use.count),
        TermNode::Add(left, right) | TermNode::Subtract(left, right) => {
            are_both_below(in_use, left, right, known)
        }
        TermNode::Multiply(_, term) => is_term_below(in_use, term, known),
        TermNode::Read(column, index) => {
            if !is_column_below(in_use, column, known)? {
                return Ok(false);
            }
            is_term_below(in_use, index, known)
        }
        TermNode::Base(_) | TermNode::Store(_, _, _) | TermNode::Affine(_, _) => unreachable!(),
    }
}

#[cycle(is_term_below)]
fn are_both_below(
    in_use: InUse<'_>,
    left: TermId,
    right: TermId,
    known: &mut KnownBelow,
) -> Result<bool, OutOfMemory>
    requires left { IsTerm in_use.terms.now left }
    requires right { IsTerm in_use.terms.now right }
    requires known { AreBelow in_use.count in_use.terms.now known.old }
    ensures below { IfOk result (λ yes'. yes' ≡ (term_below in_use.entry.count (term_in in_use.entry.terms.now left) && term_below in_use.entry.count (term_in in_use.entry.terms.now right))) }
    ensures known { OnOk result (AreBelow in_use.entry.count in_use.entry.terms.now known.new) }
{
    if !is_term_below(in_use, left, known)? {
        return Ok(false);
    }
    is_term_below(in_use, right, known)
}

#[cycle(is_term_below)]
fn is_column_below(
    in_use: InUse<'_>,
    column: ColExprId,
    known: &mut KnownBelow,
) -> Result<bool, OutOfMemory>
    requires there { IsColumn in_use.terms.now column }
    requires known { AreBelow in_use.count in_use.terms.now known.old }
    ensures below { IfOk result (λ yes'. yes' ≡ column_below in_use.entry.count (column_in in_use.entry.terms.now column)) }
    ensures known { OnOk result (AreBelow in_use.entry.count in_use.entry.terms.now known.new) }
{
    let mut stores = stores_not_known(in_use.terms, column, known)?;
    'stores: while let Some(store) = stores.pop() {
        let is_below = is_store_below(in_use, store, known)?;
        if !is_below {
            return Ok(false);
        }
    }
    Ok(true)
}

// The stores of a column expression, the outermost first, down to what is known or is no store.
#[tactic(auto, using(crate::proofs::Stores::known_below, crate::proofs::Stores::base_below, crate::proofs::Stores::affine_below))]
fn stores_not_known(
    terms: &Terms,
    column: ColExprId,
    known: &KnownBelow,
) -> Result<Vec<ColExprId>, OutOfMemory>
    requires { IsColumn terms.now column }
    ensures stores { IfOk result (λ stores. AreStores terms.now column.0 (column_in terms.now column) stores.items) }
    ensures below { IfOk result (λ stores.
        (count : ℕ) → AreBelow count terms.now known.now → column_below count (below_stores (column_in terms.now column) stores.items) ≡ true) }
{
    let mut stores = Vec::new(*known.columns.allocator());
    let mut rest = column;
    'stores: loop {
        if known.columns.contains(&rest) {
            return Ok(stores);
        }
        match terms.column_node(rest) {
            TermNode::Store(below, _, _) => {
                stores.push(rest)?;
                rest = below;
            }
            TermNode::Base(_) | TermNode::Affine(_, _) => return Ok(stores),
            _ => unreachable!(),
        }
    }
}

// Whether a store's variables are below the count, if those of what it stores to are.
#[cycle(is_term_below)]
#[tactic(auto, using(crate::proofs::Stores::store_below))]
fn is_store_below(
    in_use: InUse<'_>,
    store: ColExprId,
    known: &mut KnownBelow,
) -> Result<bool, OutOfMemory>
    requires there { IsColumn in_use.terms.now store }
    requires store { is_store (column_in in_use.terms.now store) ≡ true }
    requires below { column_below in_use.count (stored_to (column_in in_use.terms.now store)) ≡ true }
    requires known { AreBelow in_use.count in_use.terms.now known.old }
    ensures below { IfOk result (λ yes'. yes' ≡ column_below in_use.entry.count (column_in in_use.entry.terms.now store)) }
    ensures known { OnOk result (AreBelow in_use.entry.count in_use.entry.terms.now known.new) }
{
    match in_use.terms.column_node(store) {
        TermNode::Store(_, index, value) => {
            let is_below = are_both_below(in_use, index, value, known)?;
            if is_below {
                known.columns.insert(store)?;
            }
            Ok(is_below)
        }
        _ => unreachable!(),
    }
}

/// Whether each free variable of a formula has a number below the count.
#[cycle(is_formula_below)]
pub(crate) fn is_formula_below(
    in_use: InUse<'_>,
    formula: FormulaId,
    known: &mut KnownBelow,
) -> Result<bool, OutOfMemory>
    requires there { IsFormula in_use.terms.now formula }
    requires known { AreBelow in_use.count in_use.terms.now known.old }
    ensures below { IfOk result (λ yes'. yes' ≡ formula_below in_use.entry.count (formula_in in_use.entry.terms.now formula)) }
    ensures known { OnOk result (AreBelow in_use.entry.count in_use.entry.terms.now known.new) }
{
    if known.formulas.contains(&formula) {
        return Ok(true);
    }
    let is_below = is_formula_node_below(in_use, formula, known)?;
    if is_below {
        known.formulas.insert(formula)?;
    }
    Ok(is_below)
}

#[cycle(is_formula_below)]
fn is_formula_node_below(
    in_use: InUse<'_>,
    formula: FormulaId,
    known: &mut KnownBelow,
) -> Result<bool, OutOfMemory>
    requires { IsFormula in_use.terms.now formula × AreBelow in_use.count in_use.terms.now known.old }
    ensures below { IfOk result (λ yes'. yes' ≡ formula_below in_use.entry.count (formula_in in_use.entry.terms.now formula)) }
    ensures known { OnOk result (AreBelow in_use.entry.count in_use.entry.terms.now known.new) }
{
    match in_use.terms.formula_node(formula) {
        FormulaNode::Le(left, right) | FormulaNode::Eq(left, right) => {
            are_both_below(in_use, *left, *right, known)
        }
        FormulaNode::Not(formula) => is_formula_below(in_use, *formula, known),
        FormulaNode::And(parts) | FormulaNode::Or(parts) => {
            are_formulas_below(in_use, parts, known)
        }
        FormulaNode::Implies(left, right) => {
            if !is_formula_below(in_use, *left, known)? {
                return Ok(false);
            }
            is_formula_below(in_use, *right, known)
        }
        FormulaNode::Forall(body) | FormulaNode::Exists(body) => {
            is_formula_below(in_use, *body, known)
        }
    }
}

/// Whether each free variable of each formula of a list has a number below the count.
#[cycle(is_formula_below)]
pub(crate) fn are_formulas_below(
    in_use: InUse<'_>,
    formulas: &[FormulaId],
    known: &mut KnownBelow,
) -> Result<bool, OutOfMemory>
    requires there { AreFormulas in_use.terms.now formulas.now }
    requires known { AreBelow in_use.count in_use.terms.now known.old }
    ensures below { IfOk result (λ yes'. yes' ≡ all_below in_use.entry.count (formulas_in in_use.entry.terms.now formulas.now)) }
    ensures known { OnOk result (AreBelow in_use.entry.count in_use.entry.terms.now known.new) }
{
    for formula in formulas {
        if !is_formula_below(in_use, *formula, known)? {
            return Ok(false);
        }
    }
    Ok(true)
}
