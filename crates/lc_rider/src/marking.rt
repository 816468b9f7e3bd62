//! Which call a mark marks.
ghost use Rattle.std.specs.Prelude.{◌≡◌, ◌++◌, IfOk, OnOk, map};
ghost use Rattle.lc_put.specs.PutNumbers.{columns_at, AreColumns, terms_in, AreTerms};
ghost use Rattle.lc_term.specs.Said.{told, reads};
ghost use Rattle.lc_term.specs.Syntax.{Eq, Number, Or, Read, Term, formulas};
ghost use Rattle.lc_table.specs.Tables.{term_in, formulas_in, IsTerm, AreFormulas, HasFormula, Keeps};
ghost use Rattle.lc_seq.specs.Branches.{op_branches, arity};
ghost use Rattle.lc_seq.specs.SpecView.{branch_of, branches_of};
ghost use Rattle.lc_seq.specs.TextView.{specification_of};
ghost use Rattle.lc_action.specs.ActionView.{first_of};
ghost use Rattle.lc_seq.specs.Specification.{chosen};
ghost use Rattle.lc_rider.specs.MarkView.{branches_at};
ghost use Rattle.lc_rider.specs.Paths.{branch_variables};
ghost use Rattle.lc_rider.specs.RiderView.{choosing_of};
ghost use Rattle.lc_rider.specs.PathView.{path_in, IsPath};

use crate::path::Path;
use crate::rider::Choosing;
use lc_action::SystemColumns;
use lc_base::{ColId, OpId, OutOfMemory};
use lc_put::stored_column;
use lc_seq::{Branch, TextSpec};
use lc_table::{ColExprId, FormulaId, TermId, Terms};
use std::alloc::Global;

/// Which call a mark marks.
#[derive(Clone, Copy)]
pub(crate) enum Marking {
    /// The client's own.
    Own,
    /// That of this operation by another client.
    Other(OpId),
    /// The client's own, by a note.
    Note,
}

/// A mark of a rider.
#[derive(Clone, Copy)]
pub(crate) struct Mark<'a> {
    pub specification: &'a TextSpec,
    pub system: SystemColumns,
    /// The place of the rider.
    pub rider: usize,
    pub marking: Marking,
    /// The operation whose call is marked.
    pub operation: OpId,
    /// The client whose call is marked, said of the state before the edge.
    pub client: TermId,
}

/// The branches that a choice leaves.
pub(crate) fn chosen_branches<'a>(
    alloc: Global,
    branches: &'a [Branch],
    by: &Choosing,
) -> Result<Vec<&'a Branch>, OutOfMemory>
    ensures { IfOk result (λ left. branches_at left.items ≡ chosen (choosing_of by.now) (branches_of branches.now)) }
{
    let mut left = Vec::new(alloc);
    for branch in branches {
        if by.leaves(&branch.label) {
            left.push(branch)?;
        }
    }
    Ok(left)
}

/// The branches of an operation; none if there is no such operation.
pub(crate) fn operation_branches(specification: &TextSpec, operation: OpId) -> &[Branch]
    ensures { branches_of result.now ≡ op_branches (specification_of specification.now).operations operation.0 }
{
    match specification.operations().get(operation.0 as usize) {
        Some(operation) => &operation.branches,
        None => &[],
    }
}

// How many arguments an operation has.
fn arity(specification: &TextSpec, operation: OpId) -> usize
    ensures { result ≡ arity (specification_of specification.now).operations operation.0 }
{
    match specification.operations().get(operation.0 as usize) {
        Some(operation) => operation.arguments.len(),
        None => 0,
    }
}

// Appends what the client's cells of these hold to other terms.
fn push_reads(
    terms: &mut Terms,
    columns: &[(ColId, ColExprId)],
    cells: &[ColId],
    client: TermId,
    read: &mut Vec<TermId>,
) -> Result<(), OutOfMemory>
    requires columns { AreColumns terms.old columns.now }
    requires client { IsTerm terms.old client }
    requires read { AreTerms terms.old read.old.items }
    ensures are { OnOk result (AreTerms terms.new read.new.items) }
    ensures trees { OnOk result (terms_in terms.new read.new.items ≡ terms_in terms.old read.old.items ++ reads (columns_at terms.old columns.now) (map (λ c. c.0) cells.now) (term_in terms.old client)) }
    ensures kept { Keeps terms.old terms.new }
{
    for cell in cells {
        let column = stored_column(terms, columns, *cell)?;
        let cell = terms.read(column, client)?;
        read.push(cell)?;
    }
    Ok(())
}

/// The variables of a branch at the call that is marked: the client, its arguments as they are on this path, and what is
/// given for the branch's parameters.
pub(crate) fn call_variables(
    alloc: Global,
    terms: &mut Terms,
    mark: Mark<'_>,
    given: &[TermId],
    path: &Path,
) -> Result<Vec<TermId>, OutOfMemory>
    requires path { IsPath terms.old path.now }
    requires client { IsTerm terms.old mark.client }
    requires given { AreTerms terms.old given.now }
    ensures are { IfOk result (λ ks. AreTerms terms.new ks.items) }
    ensures trees { IfOk result (λ ks. terms_in terms.new ks.items ≡
        branch_variables (path_in terms.old path.now).columns (first_of mark.entry.system)
        (arity (specification_of mark.entry.specification.now).operations mark.entry.operation.0) (term_in terms.old mark.entry.client)
        (terms_in terms.old given.now)) }
    ensures kept { Keeps terms.old terms.new }
{
    let mut variables = Vec::with_capacity(alloc, 5)?;
    let zero = terms.number(0)?;
    variables.push(zero)?;
    variables.push(mark.client)?;
    let arguments = mark.system.arguments();
    let count = arity(mark.specification, mark.operation).min(3);
    let cells = &arguments[..count];
    push_reads(terms, path.columns(), cells, mark.client, &mut variables)?;
    variables.extend_from_slice(given)?;
    Ok(variables)
}

/// The guard of a branch with these variables, said of the state before the edge.
pub(crate) fn guard_on(
    alloc: Global,
    terms: &mut Terms,
    path: &Path,
    variables: &[TermId],
    branch: &Branch,
) -> Result<FormulaId, OutOfMemory>
    requires path { IsPath terms.old path.now }
    requires variables { AreTerms terms.old variables.now }
    ensures id { IfOk result (λ k. HasFormula terms.new k (told (path_in terms.old path.now).columns (terms_in terms.old variables.now) (branch_of branch.now).guard)) }
    ensures kept { Keeps terms.old terms.new }
{
    path.told_before(alloc, terms, variables, &branch.guard)
}

// The guards of branches, in order.
fn guards(
    alloc: Global,
    terms: &mut Terms,
    path: &Path,
    variables: &[TermId],
    branches: &[&Branch],
) -> Result<Vec<FormulaId>, OutOfMemory>
    requires path { IsPath terms.old path.now }
    requires variables { AreTerms terms.old variables.now }
    ensures are { IfOk result (λ ks. AreFormulas terms.new ks.items) }
    ensures trees { IfOk result (λ ks. formulas_in terms.new ks.items ≡
        map (λ b. told (path_in terms.old path.now).columns (terms_in terms.old variables.now) b.guard) (branches_at branches.now)) }
    ensures kept { Keeps terms.old terms.new }
{
    let mut guards = Vec::with_capacity(alloc, branches.len())?;
    for branch in branches {
        let guard = guard_on(alloc, terms, path, variables, branch)?;
        guards.push(guard)?;
    }
    Ok(guards)
}

/// Some guard of these branches holds.
pub(crate) fn some_guard(
    alloc: Global,
    terms: &mut Terms,
    path: &Path,
    variables: &[TermId],
    branches: &[&Branch],
) -> Result<FormulaId, OutOfMemory>
    requires path { IsPath terms.old path.now }
    requires variables { AreTerms terms.old variables.now }
    ensures id { IfOk result (λ k. HasFormula terms.new k
        (Or (formulas (map (λ b. told (path_in terms.old path.now).columns (terms_in terms.old variables.now) b.guard) (branches_at branches.now))))) }
    ensures kept { Keeps terms.old terms.new }
{
    let guards = guards(alloc, terms, path, variables, branches)?;
    terms.or(guards)
}

/// That a cell of a column holds this number.
pub(crate) fn cell_is(
    terms: &mut Terms,
    path: &Path,
    column: ColId,
    index: TermId,
    number: i64,
) -> Result<FormulaId, OutOfMemory>
    requires path { IsPath terms.old path.now }
    requires index { IsTerm terms.old index }
    ensures id { IfOk result (λ k. HasFormula terms.new k (Eq (Read ((path_in terms.old path.now).columns column.0) (term_in terms.old index)) (Number number))) }
    ensures kept { Keeps terms.old terms.new }
{
    let column = stored_column(terms, path.columns(), column)?;
    let cell = terms.read(column, index)?;
    let number = terms.number(number)?;
    terms.eq(cell, number)
}
