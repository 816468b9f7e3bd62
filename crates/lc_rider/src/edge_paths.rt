//! The paths past the riders of an edge, one rider after the other.
ghost use Rattle.std.specs.Prelude.{◌≡◌, IfOk, OnOk, map};
ghost use Rattle.lc_term.specs.Lists.{concat_map};
ghost use Rattle.lc_put.specs.PutNumbers.{terms_in, AreTerms};
ghost use Rattle.lc_term.specs.Replacement.{replacing, replace_term};
ghost use Rattle.lc_term.specs.Said.{put, said, term_at};
ghost use Rattle.lc_table.specs.Tables.{Keeps};
ghost use Rattle.lc_term.specs.UpdateView.{update_of};
ghost use Rattle.lc_term.specs.View.{term_of};
ghost use Rattle.lc_seq.specs.Branches.{op_branches};
ghost use Rattle.lc_seq.specs.TextView.{specification_of};
ghost use Rattle.lc_object.specs.EdgeView.{edge_of};
ghost use Rattle.lc_action.specs.ActionView.{first_of};
ghost use Rattle.lc_seq.specs.Sequential.{given_in};
ghost use Rattle.lc_seq.specs.Specification.{chosen};
ghost use Rattle.lc_rider.specs.MarkView.{marking_of};
ghost use Rattle.lc_rider.specs.Paths.{choice_paths, paths, edge_variables, path_start};
ghost use Rattle.lc_rider.specs.PathView.{path_in, with_columns, IsPath, ArePaths, HasPath, HavePaths};
ghost use Rattle.lc_rider.specs.PathsAdded.{AddsPaths};
ghost use Rattle.lc_rider.specs.RiderView.{choosing_of, riders_of};
ghost use Rattle.lc_rider.specs.Turns.{IsBefore, paths_of_deed, paths_of_rider};

use crate::edge::{Edge, edge_variables, path_start};
use crate::mark_paths::mark_paths;
use crate::marking::{Mark, Marking};
use crate::path::Path;
use crate::rider::{Choosing, Rider};
use lc_action::SystemColumns;
use lc_base::{OpId, OutOfMemory};
use lc_put::enter_terms;
use lc_seq::TextSpec;
use lc_table::{TermId, Terms};
use lc_term::{Term, Update};
use std::alloc::Global;

// What riders of an edge share: the specification, the operation whose code it is, and the variables after the
// instruction, said in the state before it.
#[derive(Clone, Copy)]
struct Riding<'a> {
    specification: &'a TextSpec,
    system: SystemColumns,
    operation: OpId,
    variables: &'a [TermId],
}

// The rider whose turn it is, at its place.
#[derive(Clone, Copy)]
struct Turn<'a> {
    riding: Riding<'a>,
    number: usize,
    rider: &'a Rider,
}

// The path after an assignment.
fn updated(
    alloc: Global,
    terms: &mut Terms,
    variables: &[TermId],
    update: &Update,
    path: Path,
) -> Result<Path, OutOfMemory>
    requires path { IsPath terms.old path }
    requires variables { AreTerms terms.old variables.now }
    ensures path { let p = path_in terms.old path in
        IfOk result (λ r. HasPath terms.new r (with_columns p (put p.columns (said p.columns (terms_in terms.old variables.now) (update_of update.now))))) }
    ensures kept { Keeps terms.old terms.new }
{
    let index = path.said_before(alloc, terms, variables, &update.index)?;
    let value = path.said_before(alloc, terms, variables, &update.value)?;
    path.with_store(terms, update.column, index, value)
}

// Terms over the columns of this path and these variables, said of the state before the edge.
fn said_before(
    alloc: Global,
    terms: &mut Terms,
    variables: &[TermId],
    path: &Path,
    these: &[Term],
) -> Result<Vec<TermId>, OutOfMemory>
    requires path { IsPath terms.old path.now }
    requires variables { AreTerms terms.old variables.now }
    ensures are { IfOk result (λ ks. AreTerms terms.new ks.items) }
    ensures trees { IfOk result (λ ks. terms_in terms.new ks.items ≡
        map (replace_term (replacing (path_in terms.old path.now).columns (term_at (terms_in terms.old variables.now)))) (map term_of these.now)) }
    ensures kept { Keeps terms.old terms.new }
{
    let mut said = Vec::with_capacity(alloc, these.len())?;
    for term in these {
        let term = path.said_before(alloc, terms, variables, term)?;
        said.push(term)?;
    }
    Ok(said)
}

// Appends the paths after a mark of the call of this client by a choice.
fn marked(
    alloc: Global,
    terms: &mut Terms,
    turn: Turn<'_>,
    marking: Marking,
    operation: OpId,
    client: &Term,
    by: &Choosing,
    path: Path,
    paths: &mut Vec<Path>,
) -> Result<(), OutOfMemory>
    requires { IsBefore terms.old turn path }
    ensures paths { let p = path_in terms.old path in
        let said = replace_term (replacing p.columns (term_at (terms_in terms.old turn.entry.riding.variables.now))) in
        let c = said (term_of client.now) in
        let operations = (specification_of turn.entry.riding.specification.now).operations in
        OnOk result (AddsPaths paths.old.items terms.new paths.new.items
        (choice_paths operations (first_of turn.entry.riding.system) turn.entry.number operation.0 (marking_of marking c) c
        (map said (given_in (choosing_of by.now))) (chosen (choosing_of by.now) (op_branches operations operation.0)) p)) }
    ensures kept { Keeps terms.old terms.new }
{
    let riding = turn.riding;
    let client = path.said_before(alloc, terms, riding.variables, client)?;
    let given = said_before(alloc, terms, riding.variables, &path, by.terms())?;
    let mark = Mark {
        specification: riding.specification,
        system: riding.system,
        rider: turn.number,
        marking,
        operation,
        client,
    };
    mark_paths(alloc, terms, mark, by, &given, path, paths)
}

// Appends the paths after what the rider at this place does.
fn deed_paths(
    alloc: Global,
    terms: &mut Terms,
    turn: Turn<'_>,
    path: Path,
    paths: &mut Vec<Path>,
) -> Result<(), OutOfMemory>
    requires { IsBefore terms.old turn path }
    ensures paths { OnOk result (AddsPaths paths.old.items terms.new paths.new.items (paths_of_deed terms.old turn.entry (path_in terms.old path))) }
    ensures kept { Keeps terms.old terms.new }
{
    let own = Term::Variable(1);
    let operation = turn.riding.operation;
    match turn.rider {
        Rider::Assign { update, .. } => {
            let behind = updated(alloc, terms, turn.riding.variables, update, path)?;
            paths.push(behind)?;
            Ok(())
        }
        Rider::LinSelf { by, .. } => {
            let marking = Marking::Own;
            marked(
                alloc, terms, turn, marking, operation, &own, by, path, paths,
            )
        }
        Rider::LinOther {
            client,
            operation,
            by,
            ..
        } => {
            let marking = Marking::Other(*operation);
            marked(
                alloc, terms, turn, marking, *operation, client, by, path, paths,
            )
        }
        Rider::Note { by, .. } => {
            let marking = Marking::Note;
            marked(
                alloc, terms, turn, marking, operation, &own, by, path, paths,
            )
        }
    }
}

// Appends the paths after the rider at this place: first those on which its condition holds, and then that on which it
// fails.
fn rider_paths(
    alloc: Global,
    terms: &mut Terms,
    turn: Turn<'_>,
    path: Path,
    paths: &mut Vec<Path>,
) -> Result<(), OutOfMemory>
    requires { IsBefore terms.old turn path }
    ensures paths { OnOk result (AddsPaths paths.old.items terms.new paths.new.items (paths_of_rider terms.old turn.entry (path_in terms.old path))) }
    ensures kept { Keeps terms.old terms.new }
{
    let Some(when) = turn.rider.condition() else {
        return deed_paths(alloc, terms, turn, path, paths);
    };
    let condition = path.told_before(alloc, terms, turn.riding.variables, when.formula())?;
    let copy = path.try_clone(alloc)?;
    let holds = copy.with_fact(condition)?;
    deed_paths(alloc, terms, turn, holds, paths)?;
    let negated = terms.not(condition)?;
    let fails = path.with_fact(negated)?;
    paths.push(fails)?;
    Ok(())
}

// The paths after the rider at this place, for each path before it in turn.
fn each_ridden(
    alloc: Global,
    terms: &mut Terms,
    turn: Turn<'_>,
    paths: Vec<Path>,
) -> Result<Vec<Path>, OutOfMemory>
    requires paths { ArePaths terms.old paths.items }
    requires variables { AreTerms terms.old turn.riding.variables.now }
    ensures paths { IfOk result (λ ridden. HavePaths terms.new ridden.items (concat_map (paths_of_rider terms.old turn.entry) (map (path_in terms.old) paths.items))) }
    ensures kept { Keeps terms.old terms.new }
{
    let mut ridden = Vec::new(alloc);
    for path in paths {
        rider_paths(alloc, terms, turn, path, &mut ridden)?;
    }
    Ok(ridden)
}

// The paths of riders, with the first varying slowest.
fn ridden(
    alloc: Global,
    terms: &mut Terms,
    riding: Riding<'_>,
    riders: &[Rider],
    start: Path,
) -> Result<Vec<Path>, OutOfMemory>
    requires start { IsPath terms.old start }
    requires variables { AreTerms terms.old riding.variables.now }
    ensures paths { IfOk result (λ ps. HavePaths terms.new ps.items
        (paths (specification_of riding.entry.specification.now).operations (first_of riding.entry.system) 0 riding.entry.operation.0
        (terms_in terms.old riding.entry.variables.now) (riders_of riders.now) (path_in terms.old start))) }
    ensures kept { Keeps terms.old terms.new }
{
    let mut paths = Vec::new(alloc);
    paths.push(start)?;
    for (number, rider) in riders.iter().enumerate() {
        let turn = Turn {
            riding,
            number,
            rider,
        };
        paths = each_ridden(alloc, terms, turn, paths)?;
    }
    Ok(paths)
}

/// The paths of an edge. Each fixes, of every rider in turn, whether its condition holds, and of every mark which branch
/// it takes; the first rider varies slowest, a condition holds first, and branches come in their order. What they are made
/// of is entered in the table. Nothing else can fail than memory.
pub fn paths(
    alloc: Global,
    terms: &mut Terms,
    specification: &TextSpec,
    edge: Edge<'_>,
) -> Result<Vec<Path>, OutOfMemory>
    ensures paths { IfOk result (λ ps. HavePaths terms.new ps.items
        (paths (specification_of specification.now).operations (first_of edge.entry.system) 0 edge.entry.operation.0
        (edge_variables edge.entry.variables (edge_of edge.entry.code.now)) (riders_of edge.entry.riders.now) (path_start (edge_of edge.entry.code.now)))) }
    ensures kept { Keeps terms.old terms.new }
{
    let variables = edge_variables(alloc, edge.variables, edge.code)?;
    let variables = enter_terms(terms, alloc, &variables)?;
    let riding = Riding {
        specification,
        system: edge.system,
        operation: edge.operation,
        variables: &variables,
    };
    let start = path_start(alloc, terms, edge.code)?;
    ridden(alloc, terms, riding, edge.riders, start)
}
