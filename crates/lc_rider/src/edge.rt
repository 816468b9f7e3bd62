//! An edge of an object's code with its riders, and the terms of its variables.
ghost use Rattle.std.specs.Prelude.{◌≡◌, IfOk, map, slice_set};
ghost use Rattle.lc_term.specs.Said.{variables_from};
ghost use Rattle.lc_put.specs.PutNumbers.{columns_at, AreColumns};
ghost use Rattle.lc_table.specs.Tables.{Keeps};
ghost use Rattle.lc_term.specs.Updates.{assigned};
ghost use Rattle.lc_term.specs.View.{term_of};
ghost use Rattle.lc_object.specs.EdgeView.{edge_of};
ghost use Rattle.lc_object.specs.View.{locals_of, terms_of};
ghost use Rattle.lc_rider.specs.Paths.{edge_columns, edge_variables, path_start};
ghost use Rattle.lc_rider.specs.PathView.{HasPath};

use crate::path::Path;
use crate::rider::Rider;
use crate::stored::store_in;
use lc_action::SystemColumns;
use lc_base::{ColId, OpId, OutOfMemory};
use lc_object::LocalId;
use lc_table::{ColExprId, Terms};
use lc_term::Term;
use std::alloc::Global;

/// An edge of the code of an operation, with the riders beside it.
#[derive(Clone, Copy)]
pub struct Edge<'a> {
    pub code: &'a lc_object::Edge,
    /// The operation whose code it is.
    pub operation: OpId,
    /// How many variables that code has.
    pub variables: u32,
    pub system: SystemColumns,
    pub riders: &'a [Rider],
}

// The first `count` variables, in order.
fn variables(alloc: Global, count: u32) -> Result<Vec<Term>, OutOfMemory>
    ensures { IfOk result (λ ts. map term_of ts.items ≡ variables_from 0 count) }
{
    let mut terms = Vec::new(alloc);
    for number in 0..count {
        terms.push(Term::Variable(number))?;
    }
    Ok(terms)
}

// The terms with one in place of that at this place, if there is one.
fn put(mut terms: Vec<Term>, place: u32, term: Term) -> Vec<Term>
    ensures { map term_of result.items ≡ slice_set (map term_of terms.items) place (term_of term) }
{
    let place = place as usize;
    if place >= terms.len() {
        return terms;
    }
    terms[place] = term;
    terms
}

// Terms put to locals, one to each.
fn assigned(
    alloc: Global,
    mut terms: Vec<Term>,
    targets: &[LocalId],
    values: &[Term],
) -> Result<Vec<Term>, OutOfMemory>
    ensures { IfOk result (λ ts. map term_of ts.items ≡ assigned (map term_of terms.items) (locals_of targets.now) (terms_of values.now)) }
{
    for (i, target) in targets.iter().enumerate() {
        let Some(value) = values.get(i) else {
            return Ok(terms);
        };
        terms = put(terms, target.0, value.try_clone(alloc)?);
    }
    Ok(terms)
}

/// The variables after the instruction, as terms over those before it.
pub fn edge_variables(
    alloc: Global,
    count: u32,
    code: &lc_object::Edge,
) -> Result<Vec<Term>, OutOfMemory>
    ensures { IfOk result (λ ts. map term_of ts.items ≡ edge_variables count (edge_of code.now)) }
{
    let variables = variables(alloc, count)?;
    assigned(alloc, variables, &code.targets, &code.values)
}

// The columns after the instruction, over those before it.
fn edge_columns(
    alloc: Global,
    terms: &mut Terms,
    code: &lc_object::Edge,
) -> Result<Vec<(ColId, ColExprId)>, OutOfMemory>
    ensures are { IfOk result (λ columns. AreColumns terms.new columns.items) }
    ensures trees { IfOk result (λ columns. columns_at terms.new columns.items ≡ edge_columns (edge_of code.now)) }
    ensures kept { Keeps terms.old terms.new }
{
    let mut columns = Vec::new(alloc);
    for update in &code.updates {
        let index = terms.enter_term(&update.index)?;
        let value = terms.enter_term(&update.value)?;
        store_in(terms, &mut columns, update.column, index, value)?;
    }
    Ok(columns)
}

/// The path of an edge on which no rider has been done.
pub(crate) fn path_start(
    alloc: Global,
    terms: &mut Terms,
    code: &lc_object::Edge,
) -> Result<Path, OutOfMemory>
    ensures path { IfOk result (λ path. HasPath terms.new path (path_start (edge_of code.now))) }
    ensures kept { Keeps terms.old terms.new }
{
    Ok(Path::new(alloc, edge_columns(alloc, terms, code)?))
}
