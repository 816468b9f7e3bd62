//! In which range a client is, and what holds of it by its calls.
ghost use Rattle.std.specs.Prelude.{◌≡◌, ◌∷◌, ◌++◌, pos, map, IfOk, OnOk};
ghost use Rattle.lc_term.specs.Syntax.{Number, Variable, Add, Read, Base, Le, And, formulas};
ghost use Rattle.lc_term.specs.SystemColumns.{pend, rep_columns, noted, note_columns};
ghost use Rattle.lc_term.specs.View.{term_of, formula_of, formulas_of};
ghost use Rattle.lc_action.specs.ActionView.{first_of};
ghost use Rattle.lc_cond.specs.Conditions.{is_cell, range, idle_frame, body_frame, hold_terms, justified};

use lc_action::SystemColumns;
use lc_base::{ColId, OpId, OutOfMemory};
use lc_term::{ColExpr, Formula, Term};
use std::alloc::Global;

// What the cell of client 1 holds.
fn own_cell(alloc: Global, column: ColId) -> Result<Term, OutOfMemory>
    ensures { IfOk result (λ t. term_of t ≡ Read (Base column.0) (Variable 1)) }
{
    Term::read(alloc, ColExpr::Base(column), Term::Variable(1))
}

// That the cell of client 1 holds this.
fn is_cell(alloc: Global, column: ColId, value: Term) -> Result<Formula, OutOfMemory>
    ensures { IfOk result (λ f. formula_of f ≡ is_cell column.0 (term_of value)) }
{
    Ok(Formula::Eq(own_cell(alloc, column)?, value))
}

// The variable is below the number of clients.
fn is_below_count(alloc: Global, variable: u32) -> Result<Formula, OutOfMemory>
    ensures { IfOk result (λ f. formula_of f ≡ Le (Add (Variable variable) (Number (pos 1))) (Variable 0)) }
{
    let client = Box::new(alloc, Term::Variable(variable))?;
    let one = Box::new(alloc, Term::Number(1))?;
    Ok(Formula::Le(Term::Add(client, one), Term::Variable(0)))
}

/// Appends that the variable is a client.
pub(crate) fn push_range(
    alloc: Global,
    variable: u32,
    formulas: &mut Vec<Formula>,
) -> Result<(), OutOfMemory>
    ensures { OnOk result (formulas_of formulas.new.items ≡ formulas_of formulas.old.items ++ range (Variable variable)) }
{
    formulas.push(Formula::Le(Term::Number(0), Term::Variable(variable)))?;
    formulas.push(is_below_count(alloc, variable)?)?;
    Ok(())
}

/// The variable is a client.
pub(crate) fn range(alloc: Global, variable: u32) -> Result<Vec<Formula>, OutOfMemory>
    ensures { IfOk result (λ fs. formulas_of fs.items ≡ range (Variable variable)) }
{
    let mut formulas = Vec::with_capacity(alloc, 2)?;
    push_range(alloc, variable, &mut formulas)?;
    Ok(formulas)
}

/// Client 1 has no call.
pub(crate) fn idle_frame(alloc: Global, system: SystemColumns) -> Result<Vec<Formula>, OutOfMemory>
    ensures { IfOk result (λ fs. formulas_of fs.items ≡ idle_frame (first_of system)) }
{
    let mut formulas = Vec::with_capacity(alloc, 1)?;
    formulas.push(is_cell(alloc, system.pend(), Term::Number(0))?)?;
    Ok(formulas)
}

// Client 1 is in a call of this operation.
fn in_call(
    alloc: Global,
    system: SystemColumns,
    operation: OpId,
) -> Result<Vec<Formula>, OutOfMemory>
    ensures { IfOk result (λ fs. formulas_of fs.items ≡ body_frame (first_of system) operation.0 0) }
{
    let mut formulas = Vec::with_capacity(alloc, 6)?;
    let pending = own_cell(alloc, system.pend())?;
    formulas.push(Formula::Le(Term::Number(1), pending))?;
    let pending = own_cell(alloc, system.pend())?;
    formulas.push(Formula::Le(pending, Term::Number(2)))?;
    let number = Term::Number(i64::from(operation.0));
    formulas.push(is_cell(alloc, system.operation(), number)?)?;
    Ok(formulas)
}

/// Client 1 is in a call of this operation, whose `arguments` arguments are the variables from 2 on.
pub(crate) fn body_frame(
    alloc: Global,
    system: SystemColumns,
    operation: OpId,
    arguments: usize,
) -> Result<Vec<Formula>, OutOfMemory>
    ensures { IfOk result (λ fs. formulas_of fs.items ≡ body_frame (first_of system) operation.0 arguments) }
{
    let mut formulas = in_call(alloc, system, operation)?;
    let [first, second, third] = system.arguments();
    if arguments == 0 {
        return Ok(formulas);
    }
    formulas.push(is_cell(alloc, first, Term::Variable(2))?)?;
    if arguments == 1 {
        return Ok(formulas);
    }
    formulas.push(is_cell(alloc, second, Term::Variable(3))?)?;
    if arguments == 2 {
        return Ok(formulas);
    }
    formulas.push(is_cell(alloc, third, Term::Variable(4))?)?;
    Ok(formulas)
}

// Appends that these cells of client 1 hold these terms, one each.
fn push_held(
    alloc: Global,
    columns: &[ColId],
    terms: &[Term],
    formulas: &mut Vec<Formula>,
) -> Result<(), OutOfMemory>
    ensures { OnOk result (formulas_of formulas.new.items ≡ formulas_of formulas.old.items ++ hold_terms (map (λ c. c.0) columns.now) (map term_of terms.now)) }
{
    for (i, column) in columns.iter().enumerate() {
        let Some(term) = terms.get(i) else {
            return Ok(());
        };
        formulas.push(is_cell(alloc, *column, term.try_clone(alloc)?)?)?;
    }
    Ok(())
}

// The call of client 1 is settled, and replies these terms.
fn is_settled(
    alloc: Global,
    system: SystemColumns,
    replies: &[Term],
) -> Result<Formula, OutOfMemory>
    ensures { IfOk result (λ f. formula_of f ≡ And (formulas (is_cell (pend (first_of system)) (Number (pos 2)) ∷ hold_terms (rep_columns (first_of system)) (map term_of replies.now)))) }
{
    let mut parts = Vec::with_capacity(alloc, 4)?;
    parts.push(is_cell(alloc, system.pend(), Term::Number(2))?)?;
    push_held(alloc, &system.replies(), replies, &mut parts)?;
    Ok(Formula::And(parts))
}

// The call of client 1 is not settled, and has noted these terms.
fn has_noted(alloc: Global, system: SystemColumns, replies: &[Term]) -> Result<Formula, OutOfMemory>
    ensures { IfOk result (λ f. formula_of f ≡ And (formulas (is_cell (pend (first_of system)) (Number (pos 1)) ∷ is_cell (noted (first_of system)) (Number (pos 1)) ∷ hold_terms (note_columns (first_of system)) (map term_of replies.now)))) }
{
    let mut parts = Vec::with_capacity(alloc, 5)?;
    parts.push(is_cell(alloc, system.pend(), Term::Number(1))?)?;
    parts.push(is_cell(alloc, system.noted(), Term::Number(1))?)?;
    push_held(alloc, &system.notes(), replies, &mut parts)?;
    Ok(Formula::And(parts))
}

/// The call of client 1 may reply these terms: it is settled with them, or has noted them.
pub(crate) fn justified(
    alloc: Global,
    system: SystemColumns,
    replies: &[Term],
) -> Result<Formula, OutOfMemory>
    ensures { IfOk result (λ f. formula_of f ≡ justified (first_of system) (map term_of replies.now)) }
{
    let mut ways = Vec::with_capacity(alloc, 2)?;
    ways.push(is_settled(alloc, system, replies)?)?;
    ways.push(has_noted(alloc, system, replies)?)?;
    Ok(Formula::Or(ways))
}
