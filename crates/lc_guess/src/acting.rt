//! The action of an edge: what its instruction and its riders store, in words of the state before.
use crate::code::{Edge, Point};
use crate::fact::{Basis, Fact};
use crate::formula::{MARKS, cell_at, holds};
use crate::marking::{TAKER, put_riders};
use crate::object::Object;
use crate::phases::Phase;
use crate::said::{KnownCell, PARAMETERS, Scope};
use crate::seen::Body;
use crate::stores::{Stored, Stores};
use crate::text::{each_cell, first_part, first_text, later, lists, text_of, within_first};
use lc_base::OutOfMemory;
use lc_reading::Part;
use lc_sexp::Cursor;
use std::alloc::Global;

/// What is stored at an edge, as far as it is known.
#[derive(Drop)]
pub(crate) struct Deeds<'a> {
    pub(crate) stores: Stores<'a>,
    /// A term that is 0 just where what is stored last is taken back, if anything is.
    pub(crate) switch: Option<String>,
}

/// An action with its call, both as text.
#[derive(Drop)]
pub(crate) struct Guessed {
    pub(crate) action: String,
    pub(crate) call: String,
}

/// What is known at a point.
#[derive(Clone, Copy)]
pub(crate) struct Standing<'a, 'b> {
    pub(crate) phase: Phase,
    /// What is asserted, as far as it may be of use in a guard.
    pub(crate) facts: &'b [Fact],
    /// The terms that are returned if the call goes on by an edge.
    pub(crate) returned: Cursor<'a>,
}

/// Notes that locals are the cells of a row, if its index is an atom that is none of them.
fn know_row<'a>(
    scope: &mut Scope<'a, '_>,
    columns: Cursor<'a>,
    index: Part<'a>,
    locals: Cursor<'a>,
) -> Result<(), OutOfMemory> {
    let name = text_of(index);
    let is_set = scope.locals.contains(name) && lists(locals, name);
    if name.is_empty() || is_set {
        return Ok(());
    }
    for (column, local) in each_cell(columns, locals) {
        let local = text_of(local);
        if scope.locals.contains(local) {
            scope.known.push(KnownCell {
                name: local,
                column,
                index: name,
            })?;
        }
    }
    Ok(())
}

/// Stores in each cell of a row these values, or these added to what is there.
fn put_row<'a>(
    alloc: Global,
    deeds: &mut Deeds<'a>,
    scope: &mut Scope<'a, '_>,
    columns: Cursor<'a>,
    index: Part<'a>,
    values: Cursor<'a>,
    is_added: bool,
) -> Result<(), OutOfMemory> {
    for (column, value) in each_cell(columns, values) {
        let index = scope.said(index)?;
        let mut value = scope.said(value)?;
        if is_added {
            value = format!(in alloc; "(+ (rd {column} {index}) {value})")?;
        }
        deeds.stores.put(Stored {
            column,
            index,
            value,
        })?;
    }
    Ok(())
}

/// Puts in what an instruction stores at an edge, and notes which locals are cells there.
fn put_stored<'a>(
    alloc: Global,
    deeds: &mut Deeds<'a>,
    scope: &mut Scope<'a, '_>,
    object: &Object<'a>,
    point: &Point<'a>,
    edge: &str,
) -> Result<(), OutOfMemory> {
    let columns = object.columns_of(first_text(point.code));
    let behind = later(point.code);
    let first = within_first(later(behind));
    let second = within_first(later(later(behind)));
    let Some(index) = first_part(behind) else {
        return Ok(());
    };
    match (point.word, edge) {
        ("load", _) => know_row(scope, columns, index, first),
        ("store", _) => put_row(alloc, deeds, scope, columns, index, first, false),
        ("faa", _) => {
            put_row(alloc, deeds, scope, columns, index, second, true)?;
            know_row(scope, columns, index, first)
        }
        ("cas", "then") => {
            know_row(scope, columns, index, first)?;
            put_row(alloc, deeds, scope, columns, index, second, false)
        }
        _ => Ok(()),
    }
}

/// Whether each local in a text is a parameter, or known to be a cell.
fn is_said(scope: &Scope<'_, '_>, text: &str) -> bool {
    let mut is_column = false;
    for word in text.split(MARKS) {
        let is_parameter = is_column || scope.used.contains(&word);
        if scope.locals.contains(word) && !is_parameter && !scope.is_cell(word) {
            return false;
        }
        is_column = word == "rd";
    }
    true
}

/// Whether a formula compares a cell, which a local is known to be, with itself.
fn is_trivial(alloc: Global, scope: &Scope<'_, '_>, formula: &str) -> Result<bool, OutOfMemory> {
    for known in &scope.known {
        let cell = cell_at(alloc, known.column, known.index)?;
        let same = format!(in alloc; "{cell} {cell})")?;
        for word in ["(= ", "(<= "] {
            if formula.strip_prefix(word) == Some(same.as_str()) {
                return Ok(true);
            }
        }
    }
    Ok(false)
}

/// Writes a fact of parameters and cells, as far as it says anything.
fn write_fact(
    alloc: Global,
    out: &mut String,
    scope: &Scope<'_, '_>,
    fact: &Fact,
) -> Result<(), OutOfMemory> {
    let mut premise = String::new(alloc);
    scope.write_text(&mut premise, &fact.premise)?;
    let mut claim = String::new(alloc);
    scope.write_text(&mut claim, &fact.claim)?;
    if is_trivial(alloc, scope, &claim)? {
        return Ok(());
    }
    if is_trivial(alloc, scope, &premise)? {
        premise = String::new(alloc);
    }
    let said = Fact::under(alloc, premise, claim, fact.basis);
    out.push_str(" ")?;
    out.push_str(&said.text(alloc)?)?;
    Ok(())
}

/// Writes what a `cas` finds in the cells in which it expects no locals.
fn write_expected<'a>(
    alloc: Global,
    out: &mut String,
    scope: &mut Scope<'a, '_>,
    object: &Object<'a>,
    point: &Point<'a>,
) -> Result<(), OutOfMemory> {
    let columns = object.columns_of(first_text(point.code));
    let behind = later(point.code);
    let expected = within_first(later(behind));
    for (column, term) in each_cell(columns, expected) {
        if scope.locals.contains(text_of(term)) {
            continue;
        }
        let index = scope.said_first(behind)?;
        let term = scope.said(term)?;
        out.push_str(" ")?;
        out.push_str(&holds(alloc, column, &index, &term)?)?;
    }
    Ok(())
}

/// The guard: what is known of the call, of what is said, and of cells.
fn guard_of<'a>(
    alloc: Global,
    scope: &mut Scope<'a, '_>,
    object: &Object<'a>,
    point: &Point<'a>,
    edge: &Edge<'a>,
    standing: Standing<'_, '_>,
) -> Result<String, OutOfMemory> {
    let is_pending = object.is_helped && (scope.is_tried || standing.phase == Phase::Called);
    let mut out = String::from_str(
        alloc,
        if is_pending {
            "(and (= (rd pend self) 1)"
        } else {
            "(and"
        },
    )?;
    if point.word == "cas" && edge.word == "then" {
        write_expected(alloc, &mut out, scope, object, point)?;
    }
    for fact in standing.facts {
        let is_own = matches!(fact.basis, Basis::Noted | Basis::Posted);
        if !is_own && is_said(scope, &fact.premise) && is_said(scope, &fact.claim) {
            write_fact(alloc, &mut out, scope, fact)?;
        }
    }
    out.push_str(")")?;
    Ok(out)
}

/// The name of the action of an edge.
fn name_of(
    alloc: Global,
    body: Body<'_, '_>,
    point: &Point<'_>,
    edge: &Edge<'_>,
) -> Result<String, OutOfMemory> {
    let mut name = String::from_str(alloc, body.operation.name)?;
    name.push_str("_")?;
    name.push_str(point.name)?;
    if edge.word == "else" {
        name.push_str("_else")?;
    }
    Ok(name)
}

/// An action of this name that stores this, with its call.
fn written(
    alloc: Global,
    name: &str,
    scope: &Scope<'_, '_>,
    guard: &str,
    deeds: &Deeds<'_>,
) -> Result<Guessed, OutOfMemory> {
    let mut call = String::from_str(alloc, name)?;
    let mut action = String::from_str(alloc, "(action ")?;
    action.push_str(name)?;
    action.push_str(" (")?;
    let mut gap = "";
    for local in &scope.used {
        action.push_str(gap)?;
        action.push_str(local)?;
        call.push_str(" ")?;
        call.push_str(local)?;
        gap = " ";
    }
    if let Some(switch) = &deeds.switch {
        action.push_str(gap)?;
        action.push_str(TAKER)?;
        call.push_str(" (+ self ")?;
        call.push_str(switch)?;
        call.push_str(")")?;
    }
    action.push_str(") ")?;
    action.push_str(guard)?;
    deeds.stores.write(alloc, &mut action)?;
    action.push_str(")")?;
    Ok(Guessed { action, call })
}

/// Whether an action has a parameter left for what takes back, if anything does.
fn has_room(scope: &Scope<'_, '_>, deeds: &Deeds<'_>) -> bool {
    deeds.switch.is_none() || scope.used.len() < PARAMETERS
}

/// The action of an edge, if it is known what is stored there.
pub(crate) fn action_of<'a>(
    alloc: Global,
    body: Body<'a, '_>,
    point: &Point<'a>,
    edge: &Edge<'a>,
    standing: Standing<'_, '_>,
) -> Result<Option<Guessed>, OutOfMemory> {
    let arguments = body.operation.arguments;
    let mut scope = Scope::new(alloc, arguments, "self", body.locals, body.is_tried())?;
    if body.is_tried() {
        scope.stores_here = Some(edge.is_storing(point));
    }
    let mut deeds = Deeds {
        stores: Stores::new(alloc),
        switch: None,
    };
    put_stored(alloc, &mut deeds, &mut scope, body.object, point, edge.word)?;
    scope.lost = Vec::from_slice(alloc, &point.sets)?;
    let riders = edge.riders;
    let returned = standing.returned;
    let is_known = put_riders(alloc, &mut scope, &mut deeds, body, point, riders, returned)?;
    if !is_known || scope.is_unsaid || !has_room(&scope, &deeds) {
        return Ok(None);
    }
    let name = name_of(alloc, body, point, edge)?;
    if body.object.actions.contains(name.as_str()) {
        return Ok(None);
    }
    scope.set_stores(Stores::new(alloc));
    let guard = guard_of(alloc, &mut scope, body.object, point, edge, standing)?;
    let guessed = written(alloc, &name, &scope, &guard, &deeds)?;
    Ok(Some(guessed))
}
