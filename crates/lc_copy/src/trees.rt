//! The trees that numbers of a table stand for.
ghost use Rattle.std.specs.Prelude.{◌≡◌, ◌++◌, ◌∷◌, [], true, false, IfOk, OnOk};
ghost use Rattle.lc_term.specs.Chains.{is_store};
ghost use Rattle.lc_term.specs.Syntax.{Le, Eq};
ghost use Rattle.lc_table.specs.NodeChains.{stored_to};
ghost use Rattle.lc_term.specs.View.{term_of, column_of, formula_of, formulas_of};
ghost use Rattle.lc_table.specs.Tables.{term_in, column_in, formula_in, formulas_in, IsTerm, IsColumn, IsFormula, AreFormulas};

use crate::chains::node_chain;
use lc_base::OutOfMemory;
use lc_table::{ColExprId, FormulaId, FormulaNode, TermId, TermNode, Terms};
use lc_term::{ColExpr, Formula, Term, with_store};
use std::alloc::Global;

// Takes a formula out of its box, and appends it to others.
#[inline(never)]
fn push_out(trees: &mut Vec<Formula>, tree: Box<Formula>) -> Result<(), OutOfMemory>
    ensures { OnOk result (trees.new.items ≡ trees.old.items ++ (tree.value ∷ [])) }
{
    trees.push(Box::into_inner(tree))?;
    Ok(())
}

/// The term of a number.
#[cycle(term_tree)]
pub fn term_tree(table: &Terms, alloc: Global, term: TermId) -> Result<Term, OutOfMemory>
    requires { IsTerm table.now term }
    ensures { IfOk result (λ tree. term_of tree ≡ term_in table.now term) }
{
    match table.term_node(term) {
        TermNode::Number(number) => Ok(Term::Number(number)),
        TermNode::Variable(number) => Ok(Term::Variable(number)),
        TermNode::Bound(number) => Ok(Term::Bound(number)),
        TermNode::Add(left, right) => Ok(Term::Add(
            boxed_term(table, alloc, left)?,
            boxed_term(table, alloc, right)?,
        )),
        TermNode::Subtract(left, right) => Ok(Term::Subtract(
            boxed_term(table, alloc, left)?,
            boxed_term(table, alloc, right)?,
        )),
        TermNode::Multiply(factor, term) => {
            Ok(Term::Multiply(factor, boxed_term(table, alloc, term)?))
        }
        TermNode::Read(column, index) => Ok(Term::Read(
            Box::new(alloc, column_tree(table, alloc, column)?)?,
            boxed_term(table, alloc, index)?,
        )),
        TermNode::Base(_) | TermNode::Store(_, _, _) | TermNode::Affine(_, _) => unreachable!(),
    }
}

// The term of a number, in a box. It is a function of its own, so that each level of a term takes little of the stack.
#[cycle(term_tree)]
#[inline(never)]
fn boxed_term(table: &Terms, alloc: Global, term: TermId) -> Result<Box<Term>, OutOfMemory>
    requires { IsTerm table.now term }
    ensures { IfOk result (λ tree. term_of tree.value ≡ term_in table.now term) }
{
    Ok(Box::new(alloc, term_tree(table, alloc, term)?)?)
}

/// The column expression of a number. It is a function of its own for the same reason.
#[cycle(term_tree)]
#[inline(never)]
pub fn column_tree(table: &Terms, alloc: Global, column: ColExprId) -> Result<ColExpr, OutOfMemory>
    requires { IsColumn table.now column }
    ensures { IfOk result (λ tree. column_of tree ≡ column_in table.now column) }
{
    let mut chain = node_chain(table, alloc, column)?;
    let mut tree = base_tree(table, chain.base);
    'stores: while let Some(store) = chain.stores.pop() {
        tree = with_store_tree(table, alloc, tree, store)?;
    }
    Ok(tree)
}

// The column expression of a number, which is no store.
fn base_tree(table: &Terms, base: ColExprId) -> ColExpr
    requires column { IsColumn table.now base }
    requires base { is_store (column_in table.now base) ≡ false }
    ensures { column_of result ≡ column_in table.now base }
{
    match table.column_node(base) {
        TermNode::Base(column) => ColExpr::Base(column),
        TermNode::Affine(slope, start) => ColExpr::Affine(slope, start),
        _ => unreachable!(),
    }
}

// The store of a number, where what it stores to has this tree.
#[cycle(term_tree)]
fn with_store_tree(
    table: &Terms,
    alloc: Global,
    below: ColExpr,
    store: ColExprId,
) -> Result<ColExpr, OutOfMemory>
    requires column { IsColumn table.now store }
    requires store { is_store (column_in table.now store) ≡ true }
    requires below { column_of below ≡ stored_to (column_in table.now store) }
    ensures { IfOk result (λ tree. column_of tree ≡ column_in table.now store) }
{
    match table.column_node(store) {
        TermNode::Store(_, index, value) => {
            let index = term_tree(table, alloc, index)?;
            let value = term_tree(table, alloc, value)?;
            Ok(with_store(alloc, below, index, value)?)
        }
        _ => unreachable!(),
    }
}

// The first of two numbers' terms at most the second. It is a function of its own for the same reason.
#[inline(never)]
fn le_tree(
    table: &Terms,
    alloc: Global,
    left: TermId,
    right: TermId,
) -> Result<Formula, OutOfMemory>
    requires left { IsTerm table.now left }
    requires right { IsTerm table.now right }
    ensures { IfOk result (λ tree. formula_of tree ≡ Le (term_in table.now left) (term_in table.now right)) }
{
    Ok(Formula::Le(
        term_tree(table, alloc, left)?,
        term_tree(table, alloc, right)?,
    ))
}

// That their terms are equal, in a function of its own for the same reason.
#[inline(never)]
fn eq_tree(
    table: &Terms,
    alloc: Global,
    left: TermId,
    right: TermId,
) -> Result<Formula, OutOfMemory>
    requires left { IsTerm table.now left }
    requires right { IsTerm table.now right }
    ensures { IfOk result (λ tree. formula_of tree ≡ Eq (term_in table.now left) (term_in table.now right)) }
{
    Ok(Formula::Eq(
        term_tree(table, alloc, left)?,
        term_tree(table, alloc, right)?,
    ))
}

/// The formula of a number.
#[cycle(formula_tree)]
pub fn formula_tree(
    table: &Terms,
    alloc: Global,
    formula: FormulaId,
) -> Result<Formula, OutOfMemory>
    requires { IsFormula table.now formula }
    ensures { IfOk result (λ tree. formula_of tree ≡ formula_in table.now formula) }
{
    match table.formula_node(formula) {
        FormulaNode::Le(left, right) => le_tree(table, alloc, *left, *right),
        FormulaNode::Eq(left, right) => eq_tree(table, alloc, *left, *right),
        FormulaNode::Not(formula) => Ok(Formula::Not(boxed_formula(table, alloc, *formula)?)),
        FormulaNode::And(parts) => Ok(Formula::And(formula_trees(table, alloc, parts)?)),
        FormulaNode::Or(parts) => Ok(Formula::Or(formula_trees(table, alloc, parts)?)),
        FormulaNode::Implies(left, right) => Ok(Formula::Implies(
            boxed_formula(table, alloc, *left)?,
            boxed_formula(table, alloc, *right)?,
        )),
        FormulaNode::Forall(body) => Ok(Formula::Forall(boxed_formula(table, alloc, *body)?)),
        FormulaNode::Exists(body) => Ok(Formula::Exists(boxed_formula(table, alloc, *body)?)),
    }
}

// The formula of a number, in a box, in a function of its own for the same reason.
#[cycle(formula_tree)]
#[inline(never)]
fn boxed_formula(
    table: &Terms,
    alloc: Global,
    formula: FormulaId,
) -> Result<Box<Formula>, OutOfMemory>
    requires { IsFormula table.now formula }
    ensures { IfOk result (λ tree. formula_of tree.value ≡ formula_in table.now formula) }
{
    Ok(Box::new(alloc, formula_tree(table, alloc, formula)?)?)
}

/// The formulas of numbers.
#[cycle(formula_tree)]
pub fn formula_trees(
    table: &Terms,
    alloc: Global,
    formulas: &[FormulaId],
) -> Result<Vec<Formula>, OutOfMemory>
    requires { AreFormulas table.now formulas.now }
    ensures { IfOk result (λ trees. formulas_of trees.items ≡ formulas_in table.now formulas.now) }
{
    let mut trees = Vec::with_capacity(alloc, formulas.len())?;
    for formula in formulas {
        push_out(&mut trees, boxed_formula(table, alloc, *formula)?)?;
    }
    Ok(trees)
}
