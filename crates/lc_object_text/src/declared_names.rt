//! How the names that a file declares are gathered.
ghost use Rattle.std.specs.Prelude.{◌≡◌, ◌+◌, ◌<◌, ◌++◌, ◌∷◌, [], codes, length, map, IfOk};
ghost use Rattle.lc_sexp.specs.Shown.{rest_of};
ghost use Rattle.lc_reading.specs.Listed.{names_among};
ghost use Rattle.lc_reading.specs.TableView.{listed};
ghost use Rattle.lc_object_text.specs.DeclaredView.{call_view, call_found, body_view, spans_view, calls_view, bodies_view, declared_view};
ghost use Rattle.lc_object_text.specs.ObjectNames.{names_of_columns, later, span_of, columns_of_arrays, spans_from, reply_count, call_of, call_named, name_at, body_of, bodies_from, labels_of_bodies, declared_in_sections};
ghost use Rattle.lc_object_text.specs.ObjectNames as N;
ghost use Rattle.lc_object_text.specs.Sections.{forms_in, some_forms_in};
ghost use Rattle.lc_object_text.specs.Seen.{sections_view};

use crate::declared::{Body, Call, Declared, Operations, Span};
use crate::section_finding::{behind_first, first_text, items_in_first, next_form, within_first};
use crate::sections::Sections;
use lc_base::OutOfMemory;
use lc_reading::NameTable;
use lc_sexp::{Cursor, Misfit};
use std::alloc::Global;
use std::rc::Rc;

/// How many variables an operation may have, the number of clients and the client not counted.
const VARIABLE_LIMIT: usize = 4_294_967_293;

/// A count of names, whose places have 32 bits. No file has more; more are refused with `OutOfMemory`.
fn short(count: usize) -> Result<u32, OutOfMemory>
    ensures { IfOk result (λ n. n ≡ count) }
{
    match u32::try_from(count) {
        Ok(count) => Ok(count),
        Err(_) => Err(OutOfMemory),
    }
}

/// The names with those of columns, each the first item of a list.
fn enter_columns<'a>(
    names: NameTable<'a>,
    mut list: Cursor<'a>,
) -> Result<NameTable<'a>, OutOfMemory>
    ensures names { IfOk result (λ all. listed all ≡ listed names.entry ++ names_of_columns (rest_of list.entry)) }
{
    let mut names = names.with_room(list.len())?;
    'columns: loop {
        let name = first_text(&within_first(list));
        let Ok(_) = list.item() else {
            return Ok(names);
        };
        names = names.enter(name)?;
    }
}

/// The names of columns and of arrays, and where the columns of each array are.
#[derive(Drop)]
struct Arrays<'a> {
    columns: NameTable<'a>,
    names: NameTable<'a>,
    spans: Vec<Span>,
}

/// The arrays with one more: `NAME COL ..`.
fn enter_array<'a>(arrays: Arrays<'a>, parts: Cursor<'a>) -> Result<Arrays<'a>, OutOfMemory>
    ensures columns { IfOk result (λ a. listed a.columns ≡ listed arrays.entry.columns ++ names_of_columns (later (rest_of parts.entry))) }
    ensures names { IfOk result (λ a. listed a.names ≡ listed arrays.entry.names ++ N.first_text (rest_of parts.entry) ∷ []) }
    ensures spans { IfOk result (λ a. spans_view a.spans.items ≡ spans_view arrays.entry.spans.items ++ span_of (length (listed arrays.entry.columns)) (rest_of parts.entry) ∷ []) }
{
    let Arrays {
        columns,
        names,
        mut spans,
    } = arrays;
    let own = behind_first(parts);
    spans.push(Span {
        first: short(columns.len())?,
        width: own.len() as u64,
    })?;
    let names = names.enter(first_text(&parts))?;
    let columns = enter_columns(columns, own)?;
    Ok(Arrays {
        columns,
        names,
        spans,
    })
}

/// The arrays at the beginning of a list, whose columns come after these.
fn read_arrays<'a>(
    alloc: Global,
    columns: NameTable<'a>,
    mut list: Cursor<'a>,
) -> Result<Arrays<'a>, OutOfMemory>
    ensures columns { IfOk result (λ a. listed a.columns ≡ listed columns.entry ++ columns_of_arrays (forms_in (codes "array") (rest_of list.entry))) }
    ensures names { IfOk result (λ a. listed a.names ≡ map N.first_text (forms_in (codes "array") (rest_of list.entry))) }
    ensures spans { IfOk result (λ a. spans_view a.spans.items ≡ spans_from (length (listed columns.entry)) (forms_in (codes "array") (rest_of list.entry))) }
{
    let mut arrays = Arrays {
        columns,
        names: NameTable::new(alloc),
        spans: Vec::new(alloc),
    };
    'rows: loop {
        let Some(parts) = next_form(&mut list, "array", false) else {
            return Ok(arrays);
        };
        let more = enter_array(arrays, parts)?;
        arrays = more;
    }
}

/// The number of replies that comes next, if one does.
pub(crate) fn reply_count(mut list: Cursor<'_>) -> Option<u64>
    ensures { result ≡ reply_count (rest_of list.entry) }
{
    match list.integer() {
        Ok(count) => u64::try_from(count).ok(),
        Err(Misfit::Bound(_)) => Some(9223372036854775808),
        Err(Misfit::Shape(_)) => None,
    }
}

/// How the operation of these parts is called: `NAME (ARG ..) REPLIES ..`.
fn read_call<'a>(alloc: Global, parts: Cursor<'a>) -> Result<Call<'a>, OutOfMemory>
    ensures { IfOk result (λ call. call_view call ≡ call_of (rest_of parts.entry)) }
{
    let behind_name = behind_first(parts);
    let arguments = within_first(behind_name);
    let names = NameTable::new(alloc).enter_all(arguments)?;
    let names = Rc::new(alloc, names)?;
    Ok(Call {
        arguments,
        names,
        replies: reply_count(behind_first(behind_name)),
    })
}

/// The operations of a specification.
fn read_operations<'a>(alloc: Global, mut list: Cursor<'a>) -> Result<Operations<'a>, OutOfMemory>
    ensures names { IfOk result (λ o. listed o.names ≡ map N.first_text (some_forms_in (codes "op") (rest_of list.entry))) }
    ensures calls { IfOk result (λ o. calls_view o.calls.items ≡ map call_of (some_forms_in (codes "op") (rest_of list.entry))) }
{
    let mut names = NameTable::new(alloc);
    let mut texts = Vec::new(alloc);
    let mut calls = Vec::new(alloc);
    let mut some = true;
    'operations: loop {
        let Some(parts) = next_form(&mut list, "op", some) else {
            return Ok(Operations {
                names,
                texts,
                calls,
            });
        };
        some = false;
        let name = first_text(&parts);
        names = names.enter(name)?;
        texts.push(name)?;
        let call = read_call(alloc, parts)?;
        calls.push(call)?;
    }
}

/// The names with those of a body's points.
fn enter_labels<'a>(
    names: NameTable<'a>,
    mut list: Cursor<'a>,
) -> Result<NameTable<'a>, OutOfMemory>
    ensures names { IfOk result (λ all. listed all ≡ listed names.entry ++ map N.first_text (some_forms_in (codes "point") (rest_of list.entry))) }
{
    let mut names = names.with_room(list.len())?;
    let mut some = true;
    'points: loop {
        let Some(parts) = next_form(&mut list, "point", some) else {
            return Ok(names);
        };
        some = false;
        names = names.enter(first_text(&parts))?;
    }
}

/// How the operation of this name is called, if there is one.
fn find_call<'a, 'b>(operations: &'b Operations<'a>, name: &str) -> Option<&'b Call<'a>>
    ensures { call_found result ≡ call_named (listed operations.now.names) (calls_view operations.now.calls.items) name.now }
{
    let place = operations.names.place(name)?;
    operations.calls.get(place)
}

/// The name of the operation of this number, if there is one; else no text.
fn operation_name<'a>(operations: &Operations<'a>, number: usize) -> &'a str
    ensures { result.now ≡ name_at (listed operations.now.names) number }
{
    match operations.texts.get(number) {
        Some(name) => *name,
        None => "",
    }
}

/// The arguments of a call, and how many numbers it returns; if there is no call no arguments.
fn call_parts<'a>(call: Option<&Call<'a>>) -> (Cursor<'a>, Option<u64>)
    ensures arguments { (call_found call.entry).arguments ≡ names_among (rest_of result.0) }
    ensures replies { (call_found call.entry).replies ≡ result.1 }
{
    match call {
        Some(call) => (call.arguments, call.replies),
        None => (Cursor::empty(), None),
    }
}

/// The names of the arguments of a call, in the table that it has already; if there is no call none.
fn argument_names<'a>(
    alloc: Global,
    call: Option<&Call<'a>>,
) -> Result<Rc<NameTable<'a>>, OutOfMemory>
    ensures { IfOk result (λ names. listed names.value ≡ (call_found call.entry).arguments) }
{
    match call {
        Some(call) => Ok(call.names.clone()?),
        None => Ok(Rc::new(alloc, NameTable::new(alloc))?),
    }
}

/// The body of these names, if there are not too many of them.
fn body<'a>(
    operation: &'a str,
    first: u32,
    replies: Option<u64>,
    arguments: Cursor<'a>,
    argument_names: Rc<NameTable<'a>>,
    locals: NameTable<'a>,
    labels: NameTable<'a>,
) -> Result<Body<'a>, OutOfMemory>
    requires { listed argument_names.value ≡ names_among (rest_of arguments) }
    ensures { IfOk result (λ body. body_view body ≡ record {
      operation = operation.now;
      first = first;
      call = record { arguments = names_among (rest_of arguments.entry); replies = replies };
      locals = listed locals.entry;
      labels = listed labels.entry;
    }) }
{
    let points = short(labels.len())?;
    let variables = argument_names.len().saturating_add(locals.len());
    if variables >= VARIABLE_LIMIT || first.checked_add(points).is_none() {
        return Err(OutOfMemory);
    }
    Ok(Body {
        operation,
        first,
        arguments,
        argument_names,
        replies,
        locals,
        labels,
    })
}

/// The body of these parts: `OP (LOCAL ..) (point ..) (point ..) ..`, whose first point has this number.
fn read_body<'a>(
    alloc: Global,
    operations: &Operations<'a>,
    number: usize,
    first: u32,
    parts: Cursor<'a>,
) -> Result<Body<'a>, OutOfMemory>
    ensures { IfOk result (λ body. body_view body ≡ body_of (listed operations.now.names) (calls_view operations.now.calls.items) number first (rest_of parts.entry)) }
{
    let behind_name = behind_first(parts);
    let local_items = within_first(behind_name);
    let labels = enter_labels(NameTable::new(alloc), behind_first(behind_name))?;
    let call = find_call(operations, first_text(&parts));
    let (arguments, replies) = call_parts(call);
    let names = argument_names(alloc, call)?;
    let locals = NameTable::new(alloc).enter_all(local_items)?;
    let operation = operation_name(operations, number);
    body(operation, first, replies, arguments, names, locals, labels)
}

/// The names of the points of all bodies, and the bodies.
#[derive(Drop)]
struct Bodies<'a> {
    points: NameTable<'a>,
    bodies: Vec<Body<'a>>,
}

/// As many bodies at the beginning of a list as are expected, or as many as there are.
fn read_bodies<'a>(
    alloc: Global,
    operations: &Operations<'a>,
    due: usize,
    mut list: Cursor<'a>,
) -> Result<Bodies<'a>, OutOfMemory>
    ensures bodies { IfOk result (λ b. bodies_view b.bodies.items ≡ bodies_from (listed operations.now.names) (calls_view operations.now.calls.items) 0 0 due (rest_of list.entry)) }
    ensures points { IfOk result (λ b. listed b.points ≡ labels_of_bodies (bodies_from (listed operations.now.names) (calls_view operations.now.calls.items) 0 0 due (rest_of list.entry))) }
{
    let mut points = NameTable::new(alloc);
    let mut bodies = Vec::new(alloc);
    for number in 0..due {
        let parts = items_in_first(list, "body");
        let Ok(_) = list.item() else {
            return Ok(Bodies { points, bodies });
        };
        let first = short(points.len())?;
        let body = read_body(alloc, operations, number, first, parts)?;
        let behind_name = behind_first(parts);
        let point_items = behind_first(behind_name);
        let more = enter_labels(points, point_items)?;
        points = more;
        bodies.push(body)?;
    }
    Ok(Bodies { points, bodies })
}

/// How many bodies are expected for `operations` operations.
pub fn bodies_due(operations: usize) -> usize
    ensures { result ≡ N.bodies_due operations }
{
    if operations == 0 { 1 } else { operations }
}

/// The names that these sections of a file declare, whatever else is wrong in it.
pub fn read_declarations<'a>(
    alloc: Global,
    sections: &Sections<'a>,
) -> Result<Declared<'a>, OutOfMemory>
    ensures { IfOk result (λ d. declared_view d ≡ declared_in_sections (sections_view sections.now)) }
{
    let nothing = NameTable::new(alloc);
    let abstract_items = items_in_first(sections.abstracts, "abstract");
    let first = enter_columns(nothing, abstract_items)?;
    let abstracts = short(first.len())?;
    let arrays = read_arrays(alloc, first, sections.arrays)?;
    let auxiliaries = short(arrays.columns.len())?;
    let auxiliary_items = items_in_first(sections.auxiliaries, "aux");
    let Arrays {
        columns,
        names,
        spans,
    } = arrays;
    short(spans.len())?;
    let all = enter_columns(columns, auxiliary_items)?;
    let operations = read_operations(alloc, sections.operations)?;
    let due = bodies_due(operations.names.len());
    let bodies = read_bodies(alloc, &operations, due, sections.bodies)?;
    Ok(Declared {
        columns: all,
        abstracts,
        auxiliaries,
        arrays: names,
        spans,
        operations: operations.names,
        calls: operations.calls,
        points: bodies.points,
        bodies: bodies.bodies,
    })
}
