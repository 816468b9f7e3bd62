//! The edges of an object's code: what holds if an edge is taken, what it does, and where it leads.
ghost use Rattle.std.specs.Arc.{arc_value};
ghost use Rattle.std.specs.Prelude.{◌≡◌, ◌++◌, ◌∷◌, [], map, option_map, IfOk, OnOk};
ghost use Rattle.lc_term.specs.Syntax.{Read, Base};
ghost use Rattle.lc_term.specs.View.{term_of, formula_of, formulas_of};
ghost use Rattle.lc_object.specs.Edges.{array_columns, reads, row_updates, row_sums, row_facts, edges_at, edges};
ghost use Rattle.lc_object.specs.EdgeView.{update_of, facts_of, edge_of};
ghost use Rattle.lc_object.specs.Objects.{object_view};
ghost use Rattle.lc_object.specs.Syntax as S;
ghost use Rattle.lc_object.specs.View.{columns_of, locals_of, terms_of, instruction_of};

use crate::instr::{ArrayId, EdgeKind, Instr, LocalId};
use crate::object::Object;
use lc_base::{ColId, OutOfMemory, PointId};
use lc_term::{ColExpr, Formula, Term, Update};
use std::alloc::Global;
use std::sync::Arc;

/// What holds if an edge is taken.
#[derive(Drop)]
pub enum Facts {
    /// Each of these.
    Each(Vec<Formula>),
    /// The condition of a test, in the memory in which the object has it.
    Holds(Arc<Formula>),
    /// That the condition of a test does not hold.
    Fails(Arc<Formula>),
}

/// An edge of the instruction at a point: what holds if it is taken, what it does, and what comes next.
#[derive(Drop)]
pub struct Edge {
    /// The point that is left.
    pub point: PointId,
    pub kind: EdgeKind,
    pub facts: Facts,
    /// The locals that are written at once, and the values of each.
    pub targets: Vec<LocalId>,
    pub values: Vec<Term>,
    /// What is stored. Indexes and values are taken in the state before.
    pub updates: Vec<Update>,
    /// The point that is reached; none if the call returns.
    pub next: Option<PointId>,
    /// The numbers that are returned.
    pub replies: Vec<Term>,
}

fn row_columns(object: &Object, array: ArrayId) -> &[ColId]
    ensures { columns_of result.now ≡ array_columns (object_view object.now) array.0 }
{
    match object.parts().arrays.get(array.0 as usize) {
        None => &[],
        Some(array) => &array.columns,
    }
}

fn copy_terms(alloc: Global, terms: &[Term]) -> Result<Vec<Term>, OutOfMemory>
    ensures { IfOk result (λ copies. terms_of copies.items ≡ terms_of terms.now) }
{
    let mut copies = Vec::with_capacity(alloc, terms.len())?;
    for term in terms {
        copies.push(term.try_clone(alloc)?)?;
    }
    Ok(copies)
}

fn copy_locals(alloc: Global, locals: &[LocalId]) -> Result<Vec<LocalId>, OutOfMemory>
    ensures { IfOk result (λ copies. copies.items ≡ locals.now) }
{
    let mut copies = Vec::with_capacity(alloc, locals.len())?;
    copies.extend_from_slice(locals)?;
    Ok(copies)
}

fn read(alloc: Global, column: ColId, index: &Term) -> Result<Term, OutOfMemory>
    ensures { IfOk result (λ t. term_of t ≡ Read (Base column.0) (term_of index.now)) }
{
    Term::read(alloc, ColExpr::Base(column), index.try_clone(alloc)?)
}

// What a cell of these columns holds.
fn reads(alloc: Global, columns: &[ColId], index: &Term) -> Result<Vec<Term>, OutOfMemory>
    ensures { IfOk result (λ ts. terms_of ts.items ≡ reads (columns_of columns.now) (term_of index.now)) }
{
    let mut terms = Vec::with_capacity(alloc, columns.len())?;
    for column in columns {
        terms.push(read(alloc, *column, index)?)?;
    }
    Ok(terms)
}

// These terms stored in a cell, one in each column.
fn row_updates(
    alloc: Global,
    columns: &[ColId],
    index: &Term,
    values: &[Term],
) -> Result<Vec<Update>, OutOfMemory>
    ensures { IfOk result (λ us. map update_of us.items ≡ row_updates (columns_of columns.now) (term_of index.now) (terms_of values.now)) }
{
    let mut updates = Vec::with_capacity(alloc, columns.len())?;
    for (i, column) in columns.iter().enumerate() {
        let Some(value) = values.get(i) else {
            return Ok(updates);
        };
        updates.push(Update {
            column: *column,
            index: index.try_clone(alloc)?,
            value: value.try_clone(alloc)?,
        })?;
    }
    Ok(updates)
}

// What a cell of these columns holds, with these terms added to it, one to each.
fn row_sums(
    alloc: Global,
    columns: &[ColId],
    index: &Term,
    added: &[Term],
) -> Result<Vec<Term>, OutOfMemory>
    ensures { IfOk result (λ ts. terms_of ts.items ≡ row_sums (columns_of columns.now) (term_of index.now) (terms_of added.now)) }
{
    let mut sums = Vec::with_capacity(alloc, columns.len())?;
    for (i, column) in columns.iter().enumerate() {
        let Some(added) = added.get(i) else {
            return Ok(sums);
        };
        let before = Box::new(alloc, read(alloc, *column, index)?)?;
        let added = Box::new(alloc, added.try_clone(alloc)?)?;
        sums.push(Term::Add(before, added))?;
    }
    Ok(sums)
}

// That a cell holds these terms, one in each column.
fn row_facts(
    alloc: Global,
    columns: &[ColId],
    index: &Term,
    values: &[Term],
) -> Result<Vec<Formula>, OutOfMemory>
    ensures { IfOk result (λ fs. formulas_of fs.items ≡ row_facts (columns_of columns.now) (term_of index.now) (terms_of values.now)) }
{
    let mut facts = Vec::with_capacity(alloc, columns.len())?;
    for (i, column) in columns.iter().enumerate() {
        let Some(value) = values.get(i) else {
            return Ok(facts);
        };
        facts.push(Formula::Eq(read(alloc, *column, index)?, value.try_clone(alloc)?))?;
    }
    Ok(facts)
}

// An edge that has no facts and does nothing.
fn plain(alloc: Global, point: PointId, kind: EdgeKind, next: Option<PointId>) -> Edge
    ensures { edge_of result ≡ record { point = point.0; kind = kind; facts = []; targets = []; values = []; updates = []; next = option_map (λ p. p.0) next; replies = [] } }
{
    Edge {
        point,
        kind,
        facts: Facts::Each(Vec::new(alloc)),
        targets: Vec::new(alloc),
        values: Vec::new(alloc),
        updates: Vec::new(alloc),
        next,
        replies: Vec::new(alloc),
    }
}

// Of a load: a row is read into locals.
fn load_edge(
    alloc: Global,
    object: &Object,
    point: PointId,
    array: ArrayId,
    index: &Term,
    targets: &[LocalId],
    next: PointId,
) -> Result<Edge, OutOfMemory>
    ensures { IfOk result (λ edge. edge_of edge ∷ [] ≡ edges_at (object_view object.now) point.0 (S.Load array.0 (term_of index.now) (locals_of targets.now) next.0)) }
{
    let mut edge = plain(alloc, point, EdgeKind::Next, Some(next));
    edge.targets = copy_locals(alloc, targets)?;
    edge.values = reads(alloc, row_columns(object, array), index)?;
    Ok(edge)
}

// Of a store: a row is written.
fn store_edge(
    alloc: Global,
    object: &Object,
    point: PointId,
    array: ArrayId,
    index: &Term,
    values: &[Term],
    next: PointId,
) -> Result<Edge, OutOfMemory>
    ensures { IfOk result (λ edge. edge_of edge ∷ [] ≡ edges_at (object_view object.now) point.0 (S.Store array.0 (term_of index.now) (terms_of values.now) next.0)) }
{
    let mut edge = plain(alloc, point, EdgeKind::Next, Some(next));
    edge.updates = row_updates(alloc, row_columns(object, array), index, values)?;
    Ok(edge)
}

// This holds.
fn one_fact(alloc: Global, formula: Formula) -> Result<Facts, OutOfMemory>
    ensures { IfOk result (λ facts. facts_of facts ≡ formula_of formula ∷ []) }
{
    let mut formulas = Vec::with_capacity(alloc, 1)?;
    formulas.push(formula)?;
    Ok(Facts::Each(formulas))
}

// Of a compare-and-swap: the row is the old one and becomes the new one, or it is another one.
fn cas_edges(
    alloc: Global,
    object: &Object,
    point: PointId,
    array: ArrayId,
    index: &Term,
    old: &[Term],
    new: &[Term],
    equal: PointId,
    different: PointId,
) -> Result<(Edge, Edge), OutOfMemory>
    ensures { IfOk result (λ both. edge_of both.0 ∷ edge_of both.1 ∷ [] ≡ edges_at (object_view object.now) point.0 (S.Cas array.0 (term_of index.now) (terms_of old.now) (terms_of new.now) equal.0 different.0)) }
{
    let columns = row_columns(object, array);
    let mut then = plain(alloc, point, EdgeKind::Then, Some(equal));
    then.facts = Facts::Each(row_facts(alloc, columns, index, old)?);
    then.updates = row_updates(alloc, columns, index, new)?;
    let mut otherwise = plain(alloc, point, EdgeKind::Else, Some(different));
    let same = Formula::And(row_facts(alloc, columns, index, old)?);
    otherwise.facts = one_fact(alloc, Formula::Not(Box::new(alloc, same)?))?;
    Ok((then, otherwise))
}

// Of an assignment: locals are written at once.
fn set_edge(
    alloc: Global,
    object: &Object,
    point: PointId,
    targets: &[LocalId],
    values: &[Term],
    next: PointId,
) -> Result<Edge, OutOfMemory>
    ensures { IfOk result (λ edge. edge_of edge ∷ [] ≡ edges_at (object_view object.now) point.0 (S.Set (locals_of targets.now) (terms_of values.now) next.0)) }
{
    let mut edge = plain(alloc, point, EdgeKind::Next, Some(next));
    edge.targets = copy_locals(alloc, targets)?;
    edge.values = copy_terms(alloc, values)?;
    Ok(edge)
}

// Of a fetch-and-add: a row is read into locals, and numbers are added to it.
fn faa_edge(
    alloc: Global,
    object: &Object,
    point: PointId,
    array: ArrayId,
    index: &Term,
    targets: &[LocalId],
    added: &[Term],
    next: PointId,
) -> Result<Edge, OutOfMemory>
    ensures { IfOk result (λ edge. edge_of edge ∷ [] ≡ edges_at (object_view object.now) point.0 (S.Faa array.0 (term_of index.now) (locals_of targets.now) (terms_of added.now) next.0)) }
{
    let columns = row_columns(object, array);
    let mut edge = plain(alloc, point, EdgeKind::Next, Some(next));
    edge.targets = copy_locals(alloc, targets)?;
    edge.values = reads(alloc, columns, index)?;
    let sums = row_sums(alloc, columns, index, added)?;
    edge.updates = row_updates(alloc, columns, index, &sums)?;
    Ok(edge)
}

// Of a test: it holds, or it fails.
fn if_edges(
    alloc: Global,
    object: &Object,
    point: PointId,
    condition: &Arc<Formula>,
    holds: PointId,
    fails: PointId,
) -> Result<(Edge, Edge), OutOfMemory>
    ensures { IfOk result (λ both. edge_of both.0 ∷ edge_of both.1 ∷ [] ≡ edges_at (object_view object.now) point.0 (S.If (formula_of (arc_value condition.now)) holds.0 fails.0)) }
{
    let mut then = plain(alloc, point, EdgeKind::Then, Some(holds));
    then.facts = Facts::Holds(condition.clone()?);
    let mut otherwise = plain(alloc, point, EdgeKind::Else, Some(fails));
    otherwise.facts = Facts::Fails(condition.clone()?);
    Ok((then, otherwise))
}

// Of a return: the call ends with numbers.
fn return_edge(
    alloc: Global,
    object: &Object,
    point: PointId,
    values: &[Term],
) -> Result<Edge, OutOfMemory>
    ensures { IfOk result (λ edge. edge_of edge ∷ [] ≡ edges_at (object_view object.now) point.0 (S.Return (terms_of values.now))) }
{
    let mut edge = plain(alloc, point, EdgeKind::Next, None);
    edge.replies = copy_terms(alloc, values)?;
    Ok(edge)
}

// Appends two edges to these.
fn push_both(both: (Edge, Edge), edges: &mut Vec<Edge>) -> Result<(), OutOfMemory>
    ensures { OnOk result (map edge_of edges.new.items ≡ map edge_of edges.old.items ++ (edge_of both.0 ∷ edge_of both.1 ∷ [])) }
{
    let (then, otherwise) = both;
    edges.push(then)?;
    edges.push(otherwise)?;
    Ok(())
}

// Appends the edges of the instruction at a point to these.
fn push_edges(
    alloc: Global,
    object: &Object,
    point: PointId,
    instruction: &Instr,
    edges: &mut Vec<Edge>,
) -> Result<(), OutOfMemory>
    ensures { OnOk result (map edge_of edges.new.items ≡ map edge_of edges.old.items ++ edges_at (object_view object.now) point.0 (instruction_of instruction.now)) }
{
    match instruction {
        Instr::Load {
            array,
            index,
            targets,
            next,
        } => edges.push(load_edge(alloc, object, point, *array, index, targets, *next)?)?,
        Instr::Store {
            array,
            index,
            values,
            next,
        } => edges.push(store_edge(alloc, object, point, *array, index, values, *next)?)?,
        Instr::Cas {
            array,
            index,
            old,
            new,
            equal,
            different,
        } => push_both(
            cas_edges(
                alloc, object, point, *array, index, old, new, *equal, *different,
            )?,
            edges,
        )?,
        Instr::Set {
            targets,
            values,
            next,
        } => edges.push(set_edge(alloc, object, point, targets, values, *next)?)?,
        Instr::Faa {
            array,
            index,
            targets,
            added,
            next,
        } => edges.push(faa_edge(alloc, object, point, *array, index, targets, added, *next)?)?,
        Instr::If {
            condition,
            holds,
            fails,
        } => push_both(
            if_edges(alloc, object, point, condition, *holds, *fails)?,
            edges,
        )?,
        Instr::Return { values } => edges.push(return_edge(alloc, object, point, values)?)?,
    }
    Ok(())
}

/// The edges of an object's points, in the order of the points; of a point with two, `Then` comes first.
pub fn edges(alloc: Global, object: &Object) -> Result<Vec<Edge>, OutOfMemory>
    ensures { IfOk result (λ es. map edge_of es.items ≡ edges (object_view object.now)) }
{
    let mut edges = Vec::new(alloc);
    for (i, point) in object.parts().points.iter().enumerate() {
        push_edges(
            alloc,
            object,
            PointId(i as u32),
            &point.instruction,
            &mut edges,
        )?;
    }
    Ok(edges)
}
