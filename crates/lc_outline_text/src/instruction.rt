//! What the text of an instruction says about its edges.
ghost use Rattle.std.specs.Prelude.{◌≡◌, IfOk};
ghost use Rattle.lc_sexp.specs.Shown.{rest_of};
ghost use Rattle.lc_object.specs.View.{columns_of};
ghost use Rattle.lc_object.specs.WellFormed.{numbers_from};
ghost use Rattle.lc_object_text.specs.DeclaredView.{declared_view, body_view};
ghost use Rattle.lc_object_text.specs.ObjectNames as N;
ghost use Rattle.lc_outline_text.specs.Views.{totals_view};
ghost use Rattle.lc_outline_text.specs.Sizes.{text_at, label_place, count_at, array_columns, columns_written, asked_behind};

use crate::columns_stored::system_behind;
use crate::counts::sum_of;
use crate::needs::stores;
use lc_base::{ColId, OutOfMemory};
use lc_object::EdgeKind;
use lc_object_text::{Body, Declared, Span, behind_first, first_text};
use lc_sexp::Cursor;
use std::alloc::Global;

/// How many conjuncts hold in all states, and when a client is idle; and how many actions others may do, with those by which
/// calls begin and end.
#[derive(Clone, Copy)]
pub(crate) struct Totals {
    pub(crate) invariant: u64,
    pub(crate) idle: u64,
    pub(crate) actions: u64,
}

/// The text of the part of this number, if there is one and it is an atom; else none.
fn text_at<'a>(list: Cursor<'a>, place: u8) -> &'a str
    ensures { result.now ≡ text_at place (rest_of list.entry) }
{
    let mut rest = list;
    for _ in 0..place {
        rest = behind_first(rest);
    }
    first_text(&rest)
}

/// Which part of an instruction of this word is the label to which this edge leads.
fn label_place(word: &str, kind: EdgeKind) -> u8
    ensures { result ≡ label_place word.now kind }
{
    match kind {
        EdgeKind::Next if word == "set" => 2,
        EdgeKind::Next if word == "faa" => 5,
        EdgeKind::Next => 4,
        EdgeKind::Then if word == "cas" => 5,
        EdgeKind::Then => 2,
        EdgeKind::Else if word == "cas" => 6,
        EdgeKind::Else => 3,
    }
}

/// The count at this place, if there is one.
pub(crate) fn count_at(counts: &[u64], place: Option<usize>) -> u64
    ensures { result ≡ count_at counts.now place }
{
    let Some(place) = place else {
        return 0;
    };
    match counts.get(place) {
        Some(count) => *count,
        None => 0,
    }
}

/// How many conditions are about what has to hold after an edge of an instruction.
pub(crate) fn asked_behind(
    totals: Totals,
    body: &Body<'_>,
    asserts: &[u64],
    kind: EdgeKind,
    code: Cursor<'_>,
) -> Result<u64, OutOfMemory>
    ensures { IfOk result (λ count. count ≡ asked_behind (totals_view totals) (body_view body.now) asserts.now (N.first_text (rest_of code.entry)) kind (rest_of code.entry)) }
{
    let word = first_text(&code);
    if word == "return" {
        return sum_of(totals.invariant, sum_of(1, totals.idle)?);
    }
    let label = text_at(code, label_place(word, kind));
    let reached = count_at(asserts, body.labels.place(label));
    sum_of(totals.invariant, reached)
}

/// The columns of an array, if there is one of this name.
fn array_columns(
    alloc: Global,
    declared: &Declared<'_>,
    name: &str,
) -> Result<Vec<ColId>, OutOfMemory>
    ensures { IfOk result (λ columns. columns_of columns.items ≡ array_columns (declared_view declared.now) name.now) }
{
    let Some(place) = declared.arrays.place(name) else {
        return Ok(Vec::new(alloc));
    };
    let Some(span) = declared.spans.get(place) else {
        return Ok(Vec::new(alloc));
    };
    columns_of_span(alloc, *span)
}

/// The columns of this span.
fn columns_of_span(alloc: Global, span: Span) -> Result<Vec<ColId>, OutOfMemory>
    ensures { IfOk result (λ columns. columns_of columns.items ≡ numbers_from span.first span.width) }
{
    let Ok(width) = u32::try_from(span.width) else {
        return Err(OutOfMemory);
    };
    let Some(end) = span.first.checked_add(width) else {
        return Err(OutOfMemory);
    };
    let mut columns = Vec::new(alloc);
    for column in span.first..end {
        columns.push(ColId(column))?;
    }
    Ok(columns)
}

/// The columns in which an instruction itself stores at this edge.
pub(crate) fn columns_written(
    alloc: Global,
    declared: &Declared<'_>,
    kind: EdgeKind,
    code: Cursor<'_>,
) -> Result<Vec<ColId>, OutOfMemory>
    ensures { IfOk result (λ columns. columns_of columns.items ≡ columns_written (declared_view declared.now) (N.first_text (rest_of code.entry)) kind (rest_of code.entry)) }
{
    let word = first_text(&code);
    if word == "return" {
        let system = system_behind(&declared.columns)?;
        let mut columns = Vec::new(alloc);
        columns.push(system.pend())?;
        return Ok(columns);
    }
    if !stores(word, kind) {
        return Ok(Vec::new(alloc));
    }
    array_columns(alloc, declared, text_at(code, 1))
}
