//! The paths past one mark, by the branches that its choice leaves.
ghost use Rattle.std.specs.Prelude.{◌≡◌, IfOk, OnOk};
ghost use Rattle.lc_put.specs.PutNumbers.{terms_in, AreTerms};
ghost use Rattle.lc_table.specs.Tables.{term_in, formula_in, IsTerm, IsFormula, HasFormula, Keeps};
ghost use Rattle.lc_term.specs.UpdateView.{updates_of};
ghost use Rattle.lc_seq.specs.Branches.{op_branches};
ghost use Rattle.lc_seq.specs.Specification.{chosen};
ghost use Rattle.lc_seq.specs.SpecView.{branch_of};
ghost use Rattle.lc_seq.specs.TextView.{specification_of};
ghost use Rattle.lc_action.specs.ActionView.{first_of};
ghost use Rattle.lc_rider.specs.MarkView.{marking_of, branches_at, with_duties, branch_path};
ghost use Rattle.lc_rider.specs.Paths.{is_empty, named_duty, owing, branch_paths, choice_paths};
ghost use Rattle.lc_rider.specs.PathView.{path_in, IsPath, HasPath};
ghost use Rattle.lc_rider.specs.PathsAdded.{AddsPaths};
ghost use Rattle.lc_rider.specs.RiderView.{choosing_of};

use crate::duty::Owing;
use crate::marked_columns::marked_columns;
use crate::marking::{
    Mark, Marking, call_variables, cell_is, chosen_branches, guard_on, operation_branches,
    some_guard,
};
use crate::path::Path;
use crate::rider::Choosing;
use lc_base::OutOfMemory;
use lc_seq::Branch;
use lc_table::{FormulaId, TermId, Terms};
use lc_term::Update;
use std::alloc::Global;

// What a mark of the call of an operation that it names asks for besides.
fn with_named_duty(terms: &mut Terms, mark: Mark<'_>, path: Path) -> Result<Path, OutOfMemory>
    requires path { IsPath terms.old path }
    requires client { IsTerm terms.old mark.client }
    ensures path { let c = term_in terms.old mark.entry.client in
        IfOk result (λ r. HasPath terms.new r (with_duties (path_in terms.old path)
        (named_duty (specification_of mark.entry.specification.now).operations (first_of mark.entry.system) mark.entry.rider
        (marking_of mark.entry.marking c) (path_in terms.old path) c))) }
    ensures kept { Keeps terms.old terms.new }
{
    let Marking::Other(operation) = mark.marking else {
        return Ok(path);
    };
    let number = i64::from(operation.0);
    let column = mark.system.operation();
    let goal = cell_is(terms, &path, column, mark.client, number)?;
    path.with_duty(Owing::Named, mark.rider, goal)
}

// What a mark asks for before one of these branches is taken.
#[tactic(auto, using(lc_table::proofs::Later::kept_on, lc_table::proofs::Later::is_term_still, lc_table::proofs::Later::is_formula_later, lc_put::proofs::ByNumber::are_terms_later, crate::proofs::PathLater::is_path_later))]
fn with_mark_duties(
    alloc: Global,
    terms: &mut Terms,
    mark: Mark<'_>,
    branches: &[&Branch],
    variables: &[TermId],
    path: Path,
) -> Result<Path, OutOfMemory>
    requires path { IsPath terms.old path }
    requires client { IsTerm terms.old mark.client }
    requires variables { AreTerms terms.old variables.now }
    ensures path { let c = term_in terms.old mark.entry.client in
        IfOk result (λ r. HasPath terms.new r (owing (specification_of mark.entry.specification.now).operations (first_of mark.entry.system) mark.entry.rider
        (marking_of mark.entry.marking c) c (terms_in terms.old variables.now) (branches_at branches.now) (path_in terms.old path))) }
    ensures kept { Keeps terms.old terms.new }
{
    let pending = cell_is(terms, &path, mark.system.pend(), mark.client, 1)?;
    let enabled = some_guard(alloc, terms, &path, variables, branches)?;
    let owed = path.with_duty(Owing::Pending, mark.rider, pending)?;
    let named = with_named_duty(terms, mark, owed)?;
    named.with_duty(Owing::Enabled, mark.rider, enabled)
}

// True if nothing is stored.
fn stores_nothing(
    alloc: Global,
    terms: &mut Terms,
    updates: &[Update],
) -> Result<FormulaId, OutOfMemory>
    ensures id { IfOk result (λ k. HasFormula terms.new k (is_empty (updates_of updates.now))) }
    ensures kept { Keeps terms.old terms.new }
{
    if updates.is_empty() {
        terms.and(Vec::new(alloc))
    } else {
        terms.or(Vec::new(alloc))
    }
}

// The path on which this branch is taken, its guard being said of the state before the edge.
#[tactic(auto, using(lc_table::proofs::Later::kept_on))]
fn taken(
    alloc: Global,
    terms: &mut Terms,
    mark: Mark<'_>,
    branch: &Branch,
    guard: FormulaId,
    variables: &[TermId],
    path: Path,
) -> Result<Path, OutOfMemory>
    requires path { IsPath terms.old path }
    requires guard { IsFormula terms.old guard }
    requires client { IsTerm terms.old mark.client }
    requires variables { AreTerms terms.old variables.now }
    ensures path { IfOk result (λ r. HasPath terms.new r
        (branch_path (specification_of mark.entry.specification.now).operations (first_of mark.entry.system) mark.entry.rider
        (marking_of mark.entry.marking (term_in terms.old mark.entry.client)) (terms_in terms.old variables.now) (branch_of branch.now)
        (formula_in terms.old guard) (path_in terms.old path))) }
    ensures kept { Keeps terms.old terms.new }
{
    let columns = marked_columns(alloc, terms, mark, &path, variables, branch)?;
    let behind = path.with_columns(columns);
    let known = behind.with_fact(guard)?;
    let Marking::Note = mark.marking else {
        return Ok(known);
    };
    let goal = stores_nothing(alloc, terms, &branch.updates)?;
    known.with_duty(Owing::Observing, mark.rider, goal)
}

// Appends a path for each branch: the guards of the branches before it fail, and its own holds.
#[tactic(auto, using(lc_table::proofs::Later::kept_on, lc_table::proofs::Later::is_term_still, lc_table::proofs::Later::is_formula_later, lc_put::proofs::ByNumber::are_terms_later, crate::proofs::PathLater::is_path_later))]
fn branch_paths(
    alloc: Global,
    terms: &mut Terms,
    mark: Mark<'_>,
    branches: &[&Branch],
    variables: &[TermId],
    mut path: Path,
    paths: &mut Vec<Path>,
) -> Result<(), OutOfMemory>
    requires path { IsPath terms.old path }
    requires client { IsTerm terms.old mark.client }
    requires variables { AreTerms terms.old variables.now }
    ensures paths { let c = term_in terms.old mark.entry.client in
        OnOk result (AddsPaths paths.old.items terms.new paths.new.items
        (branch_paths (specification_of mark.entry.specification.now).operations (first_of mark.entry.system) mark.entry.rider
        (marking_of mark.entry.marking c) (terms_in terms.old variables.now) (branches_at branches.now) (path_in terms.old path))) }
    ensures kept { Keeps terms.old terms.new }
{
    for (number, branch) in branches.iter().enumerate() {
        let guard = guard_on(alloc, terms, &path, variables, branch)?;
        if number + 1 == branches.len() {
            paths.push(taken(alloc, terms, mark, branch, guard, variables, path)?)?;
            return Ok(());
        }
        let copy = path.try_clone(alloc)?;
        let behind = taken(alloc, terms, mark, branch, guard, variables, copy)?;
        paths.push(behind)?;
        let fails = terms.not(guard)?;
        path = path.with_fact(fails)?;
    }
    Ok(())
}

/// Appends the paths after a mark by the branches that a choice leaves, with these terms for their parameters.
pub(crate) fn mark_paths(
    alloc: Global,
    terms: &mut Terms,
    mark: Mark<'_>,
    by: &Choosing,
    given: &[TermId],
    path: Path,
    paths: &mut Vec<Path>,
) -> Result<(), OutOfMemory>
    requires path { IsPath terms.old path }
    requires client { IsTerm terms.old mark.client }
    requires given { AreTerms terms.old given.now }
    ensures paths { let c = term_in terms.old mark.entry.client in
        let operations = (specification_of mark.entry.specification.now).operations in
        OnOk result (AddsPaths paths.old.items terms.new paths.new.items
        (choice_paths operations (first_of mark.entry.system) mark.entry.rider mark.entry.operation.0 (marking_of mark.entry.marking c) c
        (terms_in terms.old given.now) (chosen (choosing_of by.now) (op_branches operations mark.entry.operation.0)) (path_in terms.old path))) }
    ensures kept { Keeps terms.old terms.new }
{
    let branches = operation_branches(mark.specification, mark.operation);
    let branches = chosen_branches(alloc, branches, by)?;
    let variables = call_variables(alloc, terms, mark, given, &path)?;
    let owing = with_mark_duties(alloc, terms, mark, &branches, &variables, path)?;
    branch_paths(alloc, terms, mark, &branches, &variables, owing, paths)
}
