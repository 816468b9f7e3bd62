//! Columns and variables of a table's terms and formulas replaced, all at once. What is shared is replaced once.
ghost use Rattle.std.specs.Prelude.{◌≡◌, suc, IfOk, IfSome, OnOk, map, slice_get, Some, None, is_some, true, false};
ghost use Rattle.std.specs.Map.{lookup};
ghost use Rattle.lc_term.specs.Chains.{is_store};
ghost use Rattle.lc_table.specs.NodeChains.{stored_to};
ghost use Rattle.lc_put.specs.NodeReplacement.{part_in, replaced_part, is_comparison};
ghost use Rattle.lc_put.specs.Filling.{IsFilled, Stands};
ghost use Rattle.lc_table.specs.Nodes.{term, column, is_term, part_of, PartFits, tree_of, TreeFits};
ghost use Rattle.lc_put.specs.Put.{columns_put, variables_put, replacement_of, occurrence_eq, Remembers};
ghost use Rattle.lc_term.specs.Entries.{columns_in};
ghost use Rattle.lc_term.specs.Replacement.{replace, replace_term, replace_column, under_many};
ghost use Rattle.lc_term.specs.Syntax as S;
ghost use Rattle.lc_table.specs.Tables.{parts, formulas, term_in, column_in, formula_in, formulas_in, IsTerm, IsColumn, IsFormula, AreFormulas, HasTerm, HasColumn, HasFormula, Keeps};

use crate::comparing::{replaced_eq, replaced_le};
use crate::deep::{LEVELS, terms_below};
use crate::filling::{Filled, Filling};
use crate::node_closed::{raised, raised_column};
use crate::put::{Occurrence, Put, PutColumns, PutVariables, ReplacedNodes};
use crate::put_numbers::{numbered_base, numbered_variable};
use crate::replaced_below::ReplacedBelow;
use lc_base::{ColId, OutOfMemory};
use lc_table::{ColExprId, FormulaId, FormulaNode, TermId, TermNode, Terms, Waiting};
use lc_term::ColExpr;
use std::alloc::Global;
use std::cmp::Ordering;
use std::marker::Brand;

/// The term with what is put in for its columns and variables. `OutOfMemory` is returned also if the number of a
/// shifted bound variable has no place in 32 bits, here and below.
pub fn replace_term(
    table: &mut Terms,
    alloc: Global,
    put: &Put<'_>,
    done: &mut ReplacedNodes,
    term: TermId,
) -> Result<TermId, OutOfMemory>
    requires term { IsTerm table.old term }
    requires done { Remembers (replacement_of put.now) table.old done.old }
    ensures id { IfOk result (λ k. HasTerm table.new k (replace_term (replacement_of put.now) (term_in table.old term))) }
    ensures kept { Keeps table.old table.new }
    ensures done { OnOk result (Remembers (replacement_of put.now) table.new done.new) }
{
    replaced_term::<Brand>(table, alloc, &Filling::Put(*put), done, term, 0, LEVELS)
}

/// The column expression with what is put in.
pub fn replace_column(
    table: &mut Terms,
    alloc: Global,
    put: &Put<'_>,
    done: &mut ReplacedNodes,
    column: ColExprId,
) -> Result<ColExprId, OutOfMemory>
    requires column { IsColumn table.old column }
    requires done { Remembers (replacement_of put.now) table.old done.old }
    ensures id { IfOk result (λ k. HasColumn table.new k (replace_column (replacement_of put.now) (column_in table.old column))) }
    ensures kept { Keeps table.old table.new }
    ensures done { OnOk result (Remembers (replacement_of put.now) table.new done.new) }
{
    replaced_column::<Brand>(table, alloc, &Filling::Put(*put), done, column, 0, LEVELS)
}

/// The formula with what is put in. A formula in which nothing is replaced keeps its number.
pub fn replace(
    table: &mut Terms,
    alloc: Global,
    put: &Put<'_>,
    done: &mut ReplacedNodes,
    formula: FormulaId,
) -> Result<FormulaId, OutOfMemory>
    requires formula { IsFormula table.old formula }
    requires done { Remembers (replacement_of put.now) table.old done.old }
    ensures id { IfOk result (λ k. HasFormula table.new k (replace (replacement_of put.now) (formula_in table.old formula))) }
    ensures kept { Keeps table.old table.new }
    ensures done { OnOk result (Remembers (replacement_of put.now) table.new done.new) }
{
    replaced_formula::<Brand>(table, alloc, &Filling::Put(*put), done, formula, 0)
}

// The first entry of a column; the column itself if it has none.
fn enter_stored(
    table: &mut Terms,
    columns: &[(ColId, ColExpr)],
    column: ColId,
) -> Result<ColExprId, OutOfMemory>
    ensures id { IfOk result (λ k. HasColumn table.new k (columns_in columns.now column.0)) }
    ensures kept { Keeps table.old table.new }
{
    for entry in columns {
        if entry.0 == column {
            return table.enter_column(&entry.1);
        }
    }
    table.base(column)
}

// What is put in for a column, outside every quantifier.
fn enter_put_column(
    table: &mut Terms,
    columns: PutColumns<'_>,
    column: ColId,
) -> Result<ColExprId, OutOfMemory>
    ensures id { IfOk result (λ k. HasColumn table.new k (columns_put columns.entry column.0)) }
    ensures kept { Keeps table.old table.new }
{
    match columns {
        PutColumns::Stored(columns) => enter_stored(table, columns, column),
        PutColumns::All(columns) => match columns.get(column.0 as usize) {
            Some(column) => table.enter_column(column),
            None => table.affine(0, 0),
        },
    }
}

// What is put in for a variable, outside every quantifier.
fn enter_put_variable(
    table: &mut Terms,
    variables: PutVariables<'_>,
    number: u32,
) -> Result<TermId, OutOfMemory>
    ensures id { IfOk result (λ k. HasTerm table.new k (variables_put variables.entry number)) }
    ensures kept { Keeps table.old table.new }
{
    match variables {
        PutVariables::Own => table.variable(number),
        PutVariables::Terms(terms) => match terms.get(number as usize) {
            Some(term) => table.enter_term(term),
            None => table.number(0),
        },
    }
}

// The same below as many quantifiers as `depth` counts.
fn column_below(
    table: &mut Terms,
    alloc: Global,
    put: &Put<'_>,
    column: ColId,
    depth: u32,
) -> Result<ColExprId, OutOfMemory>
    ensures id { IfOk result (λ k. HasColumn table.new k ((under_many depth (replacement_of put.now)).columns column.0)) }
    ensures kept { Keeps table.old table.new }
{
    let column = enter_put_column(table, put.columns, column)?;
    raised_column(table, alloc, column, depth)
}

fn variable_below(
    table: &mut Terms,
    alloc: Global,
    put: &Put<'_>,
    number: u32,
    depth: u32,
) -> Result<TermId, OutOfMemory>
    ensures id { IfOk result (λ k. HasTerm table.new k ((under_many depth (replacement_of put.now)).variables number)) }
    ensures kept { Keeps table.old table.new }
{
    let term = enter_put_variable(table, put.variables, number)?;
    raised(table, alloc, term, depth)
}

// What is put in for a column, which is at the number `part`.
fn replaced_base<R: Filled>(
    table: &mut Terms,
    alloc: Global,
    put: &Filling<'_>,
    part: u32,
    number: ColId,
    depth: u32,
) -> Result<u32, OutOfMemory>
    requires there { slice_get (parts table.old) part ≡ Some (column (S.Base number.0)) }
    requires put { IsFilled put.now table.old R.replacement }
    ensures id { IfOk result (λ k. slice_get (parts table.new) k ≡ Some (column ((under_many depth R.replacement).columns number.0))) }
    ensures kept { Keeps table.old table.new }
{
    match put {
        Filling::Put(put) => {
            if column_stays(put, number) {
                Ok(part)
            } else {
                Ok(column_below(table, alloc, put, number, depth)?.0)
            }
        }
        Filling::Numbers(put) => { numbered_base(table, alloc, put.columns, part, number, depth) }
        Filling::Variable(_, _) | Filling::Opening(_) | Filling::Shift(_, _) => Ok(part),
    }
}

// What is put in for a free variable, which is at the number `part`.
fn replaced_variable<R: Filled>(
    table: &mut Terms,
    alloc: Global,
    put: &Filling<'_>,
    part: u32,
    number: u32,
    depth: u32,
) -> Result<u32, OutOfMemory>
    requires there { slice_get (parts table.old) part ≡ Some (term (S.Variable number)) }
    requires put { IsFilled put.now table.old R.replacement }
    ensures id { IfOk result (λ k. slice_get (parts table.new) k ≡ Some (term ((under_many depth R.replacement).variables number))) }
    ensures kept { Keeps table.old table.new }
{
    match put {
        Filling::Put(put) => match put.variables {
            PutVariables::Own => Ok(part),
            PutVariables::Terms(_) => Ok(variable_below(table, alloc, put, number, depth)?.0),
        },
        Filling::Numbers(put) => numbered_variable(table, alloc, put.variables, number, depth),
        Filling::Variable(variable, term) => {
            if number == *variable {
                Ok(raised(table, alloc, *term, depth)?.0)
            } else {
                Ok(part)
            }
        }
        Filling::Opening(_) | Filling::Shift(_, _) => Ok(part),
    }
}

// What is put in for a bound variable, which is at the number `part`.
fn replaced_bound<R: Filled>(
    table: &mut Terms,
    alloc: Global,
    put: &Filling<'_>,
    part: u32,
    number: u32,
    depth: u32,
) -> Result<u32, OutOfMemory>
    requires there { slice_get (parts table.old) part ≡ Some (term (S.Bound number)) }
    requires put { IsFilled put.now table.old R.replacement }
    ensures id { IfOk result (λ k. slice_get (parts table.new) k ≡ Some (term ((under_many depth R.replacement).bounds number))) }
    ensures kept { Keeps table.old table.new }
{
    match put {
        Filling::Put(_) | Filling::Numbers(_) | Filling::Variable(_, _) => Ok(part),
        Filling::Opening(term) => match number.cmp(&depth) {
            Ordering::Less => Ok(part),
            Ordering::Equal => Ok(raised(table, alloc, *term, depth)?.0),
            Ordering::Greater => Ok(table.bound(number - 1)?.0),
        },
        Filling::Shift(added, cutoff) => {
            if u64::from(number) < u64::from(*cutoff) + u64::from(depth) {
                Ok(part)
            } else {
                let number = number.checked_add(*added).ok_or(OutOfMemory)?;
                Ok(table.bound(number)?.0)
            }
        }
    }
}

// Whether a term has parts, and these have none.
fn is_small(table: &Terms, node: TermNode) -> bool {
    match node {
        TermNode::Add(left, right) | TermNode::Subtract(left, right) => {
            is_leaf(table, left.0) && is_leaf(table, right.0)
        }
        TermNode::Multiply(_, term) => is_leaf(table, term.0),
        TermNode::Read(column, index) => is_leaf(table, column.0) && is_leaf(table, index.0),
        _ => false,
    }
}

// Whether a term or a column expression has no parts.
fn is_leaf(table: &Terms, part: u32) -> bool {
    match table.part_at(part) {
        Some(node) => matches!(
            node,
            TermNode::Number(_)
                | TermNode::Variable(_)
                | TermNode::Bound(_)
                | TermNode::Base(_)
                | TermNode::Affine(_, _)
        ),
        None => false,
    }
}

#[cycle(replaced_part)]
#[tactic(auto, using(crate::proofs::NodeReplacement::term_at, lc_table::proofs::Later::term_stands))]
pub(crate) fn replaced_term<R: Filled>(
    table: &mut Terms,
    alloc: Global,
    put: &Filling<'_>,
    done: &mut ReplacedNodes,
    term: TermId,
    depth: u32,
    levels: u32,
) -> Result<TermId, OutOfMemory>
    requires there { IsTerm table.old term }
    requires done { Stands R.replacement table.old put.now done.old }
    ensures id { IfOk result (λ k. HasTerm table.new k (replace_term (under_many depth R.replacement) (term_in table.old term))) }
    ensures kept { Keeps table.old table.new }
    ensures done { OnOk result (Stands R.replacement table.new put.now done.new) }
{
    // A number stays, whatever is put in.
    let node = table.part_node(term.0);
    if let TermNode::Number(_) = node {
        return Ok(term);
    }
    let is_small = is_small(table, node);
    let occurrence = Occurrence {
        number: term.0,
        depth,
    };
    if let Some(number) = done.part(occurrence, is_small) {
        return Ok(TermId(number));
    }
    let Some(levels) = levels.checked_sub(1) else {
        replace_below::<R>(table, alloc, put, done, term, depth)?;
        return replaced_term::<R>(table, alloc, put, done, term, depth, LEVELS);
    };
    let number = replaced_part::<R>(table, alloc, put, done, term.0, depth, levels)?;
    done.note_part(occurrence, number, is_small)?;
    Ok(TermId(number))
}

#[cycle(replaced_part)]
#[tactic(auto, using(lc_table::proofs::Later::kept_on))]
fn replaced_column<R: Filled>(
    table: &mut Terms,
    alloc: Global,
    put: &Filling<'_>,
    done: &mut ReplacedNodes,
    column: ColExprId,
    depth: u32,
    levels: u32,
) -> Result<ColExprId, OutOfMemory>
    requires there { IsColumn table.old column }
    requires done { Stands R.replacement table.old put.now done.old }
    ensures id { IfOk result (λ k. HasColumn table.new k (replace_column (under_many depth R.replacement) (column_in table.old column))) }
    ensures kept { Keeps table.old table.new }
    ensures done { OnOk result (Stands R.replacement table.new put.now done.new) }
{
    let mut chain = table.chain_to_done(alloc, column, &ReplacedBelow { done, depth })?;
    let mut replaced = replaced_below::<R>(table, alloc, put, done, &chain, depth)?;
    'stores: while let Some(store) = chain.stores.pop() {
        replaced = replaced_store::<R>(table, alloc, put, done, store, replaced, depth, levels)?;
    }
    Ok(replaced)
}

// What is below the stores that are not replaced yet, replaced.
fn replaced_below<R: Filled>(
    table: &mut Terms,
    alloc: Global,
    put: &Filling<'_>,
    done: &mut ReplacedNodes,
    chain: &Waiting,
    depth: u32,
) -> Result<ColExprId, OutOfMemory>
    requires there { IsColumn table.old chain.now.base }
    requires known { IfSome chain.now.known (λ number. lookup (occurrence_eq (record { number = chain.now.base.0; depth = depth })) done.old.parts.entries ≡ Some number) }
    requires base { chain.now.known ≡ None → is_store (column_in table.old chain.now.base) ≡ false }
    requires done { Stands R.replacement table.old put.now done.old }
    ensures id { IfOk result (λ k. HasColumn table.new k (replace_column (under_many depth R.replacement) (column_in table.old chain.now.base))) }
    ensures kept { Keeps table.old table.new }
    ensures done { OnOk result (Stands R.replacement table.new put.now done.new) }
{
    match chain.known {
        Some(number) => Ok(ColExprId(number)),
        None => replaced_end::<R>(table, alloc, put, done, chain.base, depth),
    }
}

// A column expression that is no store, replaced, which is not replaced yet.
#[tactic(auto, using(crate::proofs::NodeReplacement::column_at))]
fn replaced_end<R: Filled>(
    table: &mut Terms,
    alloc: Global,
    put: &Filling<'_>,
    done: &mut ReplacedNodes,
    base: ColExprId,
    depth: u32,
) -> Result<ColExprId, OutOfMemory>
    requires there { IsColumn table.old base }
    requires base { is_store (column_in table.old base) ≡ false }
    requires done { Stands R.replacement table.old put.now done.old }
    ensures id { IfOk result (λ k. HasColumn table.new k (replace_column (under_many depth R.replacement) (column_in table.old base))) }
    ensures kept { Keeps table.old table.new }
    ensures done { OnOk result (Stands R.replacement table.new put.now done.new) }
{
    let number = replaced_root::<R>(table, alloc, put, base, depth)?;
    let occurrence = Occurrence {
        number: base.0,
        depth,
    };
    done.note_part(occurrence, number.0, false)?;
    Ok(number)
}

fn replaced_root<R: Filled>(
    table: &mut Terms,
    alloc: Global,
    put: &Filling<'_>,
    base: ColExprId,
    depth: u32,
) -> Result<ColExprId, OutOfMemory>
    requires there { IsColumn table.old base }
    requires base { is_store (column_in table.old base) ≡ false }
    requires put { IsFilled put.now table.old R.replacement }
    ensures id { IfOk result (λ k. HasColumn table.new k (replace_column (under_many depth R.replacement) (column_in table.old base))) }
    ensures kept { Keeps table.old table.new }
{
    match table.column_node(base) {
        TermNode::Base(column) => {
            Ok(ColExprId(replaced_base::<R>(table, alloc, put, base.0, column, depth)?))
        }
        TermNode::Affine(_, _) => Ok(base),
        _ => unreachable!(),
    }
}

// A store, replaced; what it stores to is replaced by what is at the number `below`.
#[cycle(replaced_part)]
#[tactic(auto, using(lc_table::proofs::Later::kept_on, lc_table::proofs::Later::is_term_later, lc_table::proofs::Later::is_term_still))]
fn replaced_store<R: Filled>(
    table: &mut Terms,
    alloc: Global,
    put: &Filling<'_>,
    done: &mut ReplacedNodes,
    store: ColExprId,
    below: ColExprId,
    depth: u32,
    levels: u32,
) -> Result<ColExprId, OutOfMemory>
    requires there { IsColumn table.old store }
    requires store { is_store (column_in table.old store) ≡ true }
    requires below { HasColumn table.old below (replace_column (under_many depth R.replacement) (stored_to (column_in table.old store))) }
    requires done { Stands R.replacement table.old put.now done.old }
    ensures id { IfOk result (λ k. HasColumn table.new k (replace_column (under_many depth R.replacement) (column_in table.old store))) }
    ensures kept { Keeps table.old table.new }
    ensures done { OnOk result (Stands R.replacement table.new put.now done.new) }
{
    let node = table.part_node(store.0);
    match node {
        TermNode::Store(_, index, value) => {
            let index = replaced_term::<R>(table, alloc, put, done, index, depth, levels)?;
            let value = replaced_term::<R>(table, alloc, put, done, value, depth, levels)?;
            let changed = TermNode::Store(below, index, value);
            let number = enter_changed(table, store.0, node, changed)?;
            let occurrence = Occurrence {
                number: store.0,
                depth,
            };
            done.note_part(occurrence, number, false)?;
            Ok(ColExprId(number))
        }
        _ => unreachable!(),
    }
}

// The number of a node whose parts are replaced: the number `part` of the node before, if none of them changed.
#[tactic(auto, using(lc_table::proofs::Later::keeps_itself, crate::proofs::NodeReplacement::same_nodes))]
fn enter_changed(
    table: &mut Terms,
    part: u32,
    before: TermNode,
    node: TermNode,
) -> Result<u32, OutOfMemory>
    requires there { slice_get (parts table.old) part ≡ Some (part_of (parts table.old) before) }
    requires fits { PartFits (parts table.old) node }
    ensures part { IfOk result (λ k. slice_get (parts table.new) k ≡ Some (part_of (parts table.old) node)) }
    ensures kept { Keeps table.old table.new }
{
    if node == before {
        Ok(part)
    } else {
        table.enter_part(node)
    }
}

// Replaces everything below a term that is not replaced yet. Each part has its own parts replaced before it, so that none
// goes down far.
#[cycle(replaced_part)]
#[inline(never)]
#[tactic(auto, using(lc_table::proofs::Later::kept_on, lc_table::proofs::Later::keeps_itself, lc_table::proofs::Later::is_term_still))]
fn replace_below<R: Filled>(
    table: &mut Terms,
    alloc: Global,
    put: &Filling<'_>,
    done: &mut ReplacedNodes,
    term: TermId,
    depth: u32,
) -> Result<(), OutOfMemory>
    requires there { IsTerm table.old term }
    requires done { Stands R.replacement table.old put.now done.old }
    ensures kept { Keeps table.old table.new }
    ensures done { OnOk result (Stands R.replacement table.new put.now done.new) }
{
    let below = terms_below(table, alloc, term.0, &ReplacedBelow { done, depth })?;
    for term in &below {
        replaced_term::<R>(table, alloc, put, done, *term, depth, LEVELS)?;
    }
    Ok(())
}

// A term, replaced, which is not replaced yet.
#[cycle(replaced_part)]
#[tactic(auto, using(lc_table::proofs::Later::kept_on, lc_table::proofs::Later::keeps_itself, lc_table::proofs::Later::is_term_later, lc_table::proofs::Later::is_column_later, lc_table::proofs::Later::is_term_still, crate::proofs::NodeReplacement::part_there, crate::proofs::NodeReplacement::node_later))]
fn replaced_part<R: Filled>(
    table: &mut Terms,
    alloc: Global,
    put: &Filling<'_>,
    done: &mut ReplacedNodes,
    part: u32,
    depth: u32,
    levels: u32,
) -> Result<u32, OutOfMemory>
    requires there { is_some (slice_get (parts table.old) part) ≡ true }
    requires term { is_term (slice_get (parts table.old) part) ≡ true }
    requires done { Stands R.replacement table.old put.now done.old }
    ensures id { IfOk result (λ k. slice_get (parts table.new) k ≡ Some (replaced_part (under_many depth R.replacement) (part_in table.old part))) }
    ensures kept { Keeps table.old table.new }
    ensures done { OnOk result (Stands R.replacement table.new put.now done.new) }
{
    let node = table.part_node(part);
    match node {
        TermNode::Variable(number) => {
            replaced_variable::<R>(table, alloc, put, part, number, depth)
        }
        TermNode::Bound(number) => { replaced_bound::<R>(table, alloc, put, part, number, depth) }
        TermNode::Number(_) => Ok(part),
        TermNode::Add(left, right) => {
            let left = replaced_term::<R>(table, alloc, put, done, left, depth, levels)?;
            let right = replaced_term::<R>(table, alloc, put, done, right, depth, levels)?;
            enter_changed(table, part, node, TermNode::Add(left, right))
        }
        TermNode::Subtract(left, right) => {
            let left = replaced_term::<R>(table, alloc, put, done, left, depth, levels)?;
            let right = replaced_term::<R>(table, alloc, put, done, right, depth, levels)?;
            enter_changed(table, part, node, TermNode::Subtract(left, right))
        }
        TermNode::Multiply(factor, term) => {
            let term = replaced_term::<R>(table, alloc, put, done, term, depth, levels)?;
            enter_changed(table, part, node, TermNode::Multiply(factor, term))
        }
        TermNode::Read(column, index) => {
            let column = replaced_column::<R>(table, alloc, put, done, column, depth, levels)?;
            let index = replaced_term::<R>(table, alloc, put, done, index, depth, levels)?;
            enter_changed(table, part, node, TermNode::Read(column, index))
        }
        TermNode::Base(_) | TermNode::Affine(_, _) | TermNode::Store(_, _, _) => unreachable!(),
    }
}

#[cycle(replaced_formula)]
#[tactic(auto, using(lc_table::proofs::Later::kept_on, lc_table::proofs::Later::is_formula_still))]
pub(crate) fn replaced_formula<R: Filled>(
    table: &mut Terms,
    alloc: Global,
    put: &Filling<'_>,
    done: &mut ReplacedNodes,
    formula: FormulaId,
    depth: u32,
) -> Result<FormulaId, OutOfMemory>
    requires there { IsFormula table.old formula }
    requires done { Stands R.replacement table.old put.now done.old }
    ensures id { IfOk result (λ k. HasFormula table.new k (replace (under_many depth R.replacement) (formula_in table.old formula))) }
    ensures kept { Keeps table.old table.new }
    ensures done { OnOk result (Stands R.replacement table.new put.now done.new) }
{
    match *table.formula_node(formula) {
        FormulaNode::Le(left, right) => {
            replaced_le::<R>(table, alloc, put, done, formula, (left, right), depth)
        }
        FormulaNode::Eq(left, right) => {
            replaced_eq::<R>(table, alloc, put, done, formula, (left, right), depth)
        }
        _ => replaced_connected::<R>(table, alloc, put, done, formula, depth),
    }
}

// A formula that compares no terms, replaced, unless that is remembered.
#[cycle(replaced_formula)]
#[tactic(auto, using(lc_table::proofs::Later::kept_on, lc_table::proofs::Later::is_formula_still))]
fn replaced_connected<R: Filled>(
    table: &mut Terms,
    alloc: Global,
    put: &Filling<'_>,
    done: &mut ReplacedNodes,
    formula: FormulaId,
    depth: u32,
) -> Result<FormulaId, OutOfMemory>
    requires there { IsFormula table.old formula }
    requires connected { is_comparison (formula_in table.old formula) ≡ false }
    requires done { Stands R.replacement table.old put.now done.old }
    ensures id { IfOk result (λ k. HasFormula table.new k (replace (under_many depth R.replacement) (formula_in table.old formula))) }
    ensures kept { Keeps table.old table.new }
    ensures done { OnOk result (Stands R.replacement table.new put.now done.new) }
{
    let occurrence = Occurrence {
        number: formula.0,
        depth,
    };
    if let Some(number) = done.formula(occurrence) {
        return Ok(FormulaId(number));
    }
    let node = replaced_node::<R>(table, alloc, put, done, formula, depth)?;
    let number = enter_changed_formula(table, formula, node)?;
    done.note_formula(occurrence, number.0)?;
    Ok(number)
}

// The number of a formula whose parts are replaced: the number `formula` of the one before, if none of them changed.
#[tactic(auto, using(lc_table::proofs::Later::keeps_itself, crate::proofs::NodeReplacement::same_formula_node))]
fn enter_changed_formula(
    table: &mut Terms,
    formula: FormulaId,
    node: FormulaNode,
) -> Result<FormulaId, OutOfMemory>
    requires there { IsFormula table.old formula }
    requires fits { TreeFits (parts table.old) (formulas table.old) node }
    ensures id { IfOk result (λ k. HasFormula table.new k (tree_of (parts table.old) (formulas table.old) node)) }
    ensures kept { Keeps table.old table.new }
{
    if *table.formula_node(formula) == node {
        return Ok(formula);
    }
    Ok(FormulaId(table.enter_node(node)?))
}

// The node of a formula that compares no terms and is not replaced yet, its parts replaced.
#[cycle(replaced_formula)]
#[tactic(auto, using(lc_table::proofs::Later::kept_on, lc_table::proofs::Later::keeps_itself, lc_table::proofs::Later::is_term_later, lc_table::proofs::Later::is_term_still, lc_table::proofs::Later::is_formula_later, lc_table::proofs::Later::is_formula_still))]
fn replaced_node<R: Filled>(
    table: &mut Terms,
    alloc: Global,
    put: &Filling<'_>,
    done: &mut ReplacedNodes,
    formula: FormulaId,
    depth: u32,
) -> Result<FormulaNode, OutOfMemory>
    requires there { IsFormula table.old formula }
    requires connected { is_comparison (formula_in table.old formula) ≡ false }
    requires done { Stands R.replacement table.old put.now done.old }
    ensures fits { IfOk result (λ node. TreeFits (parts table.new) (formulas table.new) node) }
    ensures tree { IfOk result (λ node. tree_of (parts table.new) (formulas table.new) node ≡ replace (under_many depth R.replacement) (formula_in table.old formula)) }
    ensures kept { Keeps table.old table.new }
    ensures done { OnOk result (Stands R.replacement table.new put.now done.new) }
{
    match *table.formula_node(formula) {
        FormulaNode::Le(_, _) | FormulaNode::Eq(_, _) => unreachable!(),
        FormulaNode::Not(formula) => {
            let formula = replaced_formula::<R>(table, alloc, put, done, formula, depth)?;
            Ok(FormulaNode::Not(formula))
        }
        FormulaNode::And(ref parts) => {
            let parts = Vec::from_slice(alloc, parts)?;
            let parts = replaced_formulas::<R>(table, alloc, put, done, &parts, depth)?;
            Ok(FormulaNode::And(parts))
        }
        FormulaNode::Or(ref parts) => {
            let parts = Vec::from_slice(alloc, parts)?;
            let parts = replaced_formulas::<R>(table, alloc, put, done, &parts, depth)?;
            Ok(FormulaNode::Or(parts))
        }
        FormulaNode::Implies(left, right) => {
            let left = replaced_formula::<R>(table, alloc, put, done, left, depth)?;
            let right = replaced_formula::<R>(table, alloc, put, done, right, depth)?;
            Ok(FormulaNode::Implies(left, right))
        }
        FormulaNode::Forall(body) => {
            let body = replaced_formula::<R>(table, alloc, put, done, body, below(depth)?)?;
            Ok(FormulaNode::Forall(body))
        }
        FormulaNode::Exists(body) => {
            let body = replaced_formula::<R>(table, alloc, put, done, body, below(depth)?)?;
            Ok(FormulaNode::Exists(body))
        }
    }
}

#[cycle(replaced_formula)]
#[tactic(auto, using(lc_table::proofs::Later::kept_on, lc_table::proofs::Later::keeps_itself))]
fn replaced_formulas<R: Filled>(
    table: &mut Terms,
    alloc: Global,
    put: &Filling<'_>,
    done: &mut ReplacedNodes,
    formulas: &[FormulaId],
    depth: u32,
) -> Result<Vec<FormulaId>, OutOfMemory>
    requires there { AreFormulas table.old formulas.now }
    requires done { Stands R.replacement table.old put.now done.old }
    ensures are { IfOk result (λ ks. AreFormulas table.new ks.items) }
    ensures trees { IfOk result (λ ks. formulas_in table.new ks.items ≡ map (replace (under_many depth R.replacement)) (formulas_in table.old formulas.now)) }
    ensures kept { Keeps table.old table.new }
    ensures done { OnOk result (Stands R.replacement table.new put.now done.new) }
{
    let mut entered = Vec::with_capacity(alloc, formulas.len())?;
    for formula in formulas {
        entered.push(replaced_formula::<R>(table, alloc, put, done, *formula, depth)?)?;
    }
    Ok(entered)
}

// One quantifier more.
fn below(depth: u32) -> Result<u32, OutOfMemory>
    ensures { IfOk result (λ n. n ≡ suc depth) }
{
    depth.checked_add(1).ok_or(OutOfMemory)
}

// Whether a column has no entry, so that it stays.
fn is_absent(columns: &[(ColId, ColExpr)], column: ColId) -> bool
    ensures { result ≡ true → columns_in columns.now column.0 ≡ S.Base column.0 }
{
    for entry in columns {
        if entry.0 == column {
            return false;
        }
    }
    true
}

// Whether nothing is put in for a column.
fn column_stays(put: &Put<'_>, column: ColId) -> bool
    ensures { result ≡ true → columns_put put.now.columns column.0 ≡ S.Base column.0 }
{
    match put.columns {
        PutColumns::Stored(columns) => is_absent(columns, column),
        PutColumns::All(_) => false,
    }
}
