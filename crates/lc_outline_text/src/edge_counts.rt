//! The conditions of edges and points, counted from a text up to a cap.
ghost use Rattle.std.specs.Prelude.{◌≡◌, codes, IfOk, OnOk};
ghost use Rattle.lc_sexp.specs.Shown.{rest_of};
ghost use Rattle.lc_object_text.specs.DeclaredView.{declared_view, body_view};
ghost use Rattle.lc_object_text.specs.ObjectNames.{first_text};
ghost use Rattle.lc_object_text.specs.Sections.{forms_in};
ghost use Rattle.lc_outline_text.specs.DeclarationsView.{declarations_view};
ghost use Rattle.lc_outline_text.specs.StoredView.{IsSet, IsStored};
ghost use Rattle.lc_outline_text.specs.Views.{capped, totals_view, rest_found};
ghost use Rattle.lc_outline_text.specs.Sizes.{on_of, columns_written, edge_conditions, kind_conditions, point_conditions, assert_count};

use crate::column_set::ColumnSet;
use crate::counts::{capped, capped_sum};
use crate::declarations::Declarations;
use crate::instruction::{Totals, asked_behind, columns_written};
use crate::needs::{branches_off, goes_next};
use crate::path_counts::path_conditions;
use crate::stored::{Stored, columns_acted};
use crate::ways::riders_in;
use lc_base::OutOfMemory;
use lc_object::EdgeKind;
use lc_object_text::{Body, behind_first, first_text, items_in_first, next_form, within_first};
use lc_outline::edge_word;
use lc_sexp::Cursor;
use std::alloc::Global;

/// What is known about a body when its conditions are counted: what the file declares, the columns in which something is
/// stored by what is declared, how many conditions are asked everywhere, the number of its operation, the body, and how many
/// assertions each of its points has.
#[derive(Clone, Copy)]
pub(crate) struct Counting<'a, 't> {
    pub(crate) declarations: &'a Declarations<'t>,
    pub(crate) stored: &'a Stored,
    pub(crate) totals: Totals,
    pub(crate) operation: u32,
    pub(crate) body: &'a Body<'t>,
    pub(crate) asserts: &'a [u64],
}

/// What comes after the edge's word in the first of the lists `(on EDGE ..)` at the beginning that has this word.
fn on_of<'a>(list: Cursor<'a>, word: &str) -> Option<Cursor<'a>>
    ensures { rest_found result ≡ on_of word.now (forms_in (codes "on") (rest_of list.entry)) }
{
    let mut rest = list;
    'ons: loop {
        let parts = next_form(&mut rest, "on", false)?;
        if first_text(&parts) == word {
            return Some(behind_first(parts));
        }
    }
}

/// The conditions of an edge, given what its `on` has after the edge's word, if there is one; how many of them are about what
/// has to hold after it; and which kind of edge of an instruction it is. Up to the cap.
fn edge_conditions(
    alloc: Global,
    declarations: &Declarations<'_>,
    stored: &Stored,
    set: &mut ColumnSet,
    operation: u32,
    on: Option<Cursor<'_>>,
    asked: u64,
    kind: EdgeKind,
    code: Cursor<'_>,
) -> Result<u64, OutOfMemory>
    requires stored { IsStored (declarations_view declarations.now) stored.now }
    requires set { IsSet set.old }
    ensures count { IfOk result (λ count. count ≡ capped (edge_conditions (declarations_view declarations.now) operation (rest_found on.entry) asked (columns_written (declared_view declarations.now.declared) (first_text (rest_of code.entry)) kind (rest_of code.entry)))) }
    ensures set { OnOk result (IsSet set.new) }
{
    let Some(parts) = on else {
        return Ok(capped(asked));
    };
    let action = columns_acted(declarations, stored, first_text(&within_first(parts)));
    let columns = columns_written(alloc, &declarations.declared, kind, code)?;
    let riders = riders_in(alloc, declarations, stored, operation, behind_first(parts))?;
    let count = path_conditions(alloc, set, action, &riders, asked, &columns)?;
    Ok(count)
}

/// The conditions of the edge of this kind of a point `NAME INSTR ASSERT ON ..`, up to the cap.
fn kind_conditions(
    alloc: Global,
    counting: Counting<'_, '_>,
    set: &mut ColumnSet,
    point: Cursor<'_>,
    kind: EdgeKind,
) -> Result<u64, OutOfMemory>
    requires stored { IsStored (declarations_view counting.declarations.now) counting.stored.now }
    requires set { IsSet set.old }
    ensures set { OnOk result (IsSet set.new) }
    ensures count { IfOk result (λ count. count ≡ capped (kind_conditions (declarations_view counting.entry.declarations.now) (totals_view counting.entry.totals) counting.entry.operation (body_view counting.entry.body.now) counting.entry.asserts.now (rest_of point.entry) kind)) }
{
    let behind_name = behind_first(point);
    let code = within_first(behind_name);
    let ons = behind_first(behind_first(behind_name));
    let asked = asked_behind(counting.totals, counting.body, counting.asserts, kind, code)?;
    let on = on_of(ons, edge_word(kind));
    let count = edge_conditions(
        alloc,
        counting.declarations,
        counting.stored,
        set,
        counting.operation,
        on,
        asked,
        kind,
        code,
    )?;
    Ok(count)
}

/// The conditions of all edges of a point, up to the cap.
pub(crate) fn point_conditions(
    alloc: Global,
    counting: Counting<'_, '_>,
    set: &mut ColumnSet,
    point: Cursor<'_>,
) -> Result<u64, OutOfMemory>
    requires stored { IsStored (declarations_view counting.declarations.now) counting.stored.now }
    requires set { IsSet set.old }
    ensures set { OnOk result (IsSet set.new) }
    ensures count { IfOk result (λ count. count ≡ capped (point_conditions (declarations_view counting.entry.declarations.now) (totals_view counting.entry.totals) counting.entry.operation (body_view counting.entry.body.now) counting.entry.asserts.now (rest_of point.entry))) }
{
    let code = within_first(behind_first(point));
    let word = first_text(&code);
    let mut count = 0;
    if goes_next(word) {
        count = kind_conditions(alloc, counting, set, point, EdgeKind::Next)?;
    }
    if branches_off(word) {
        let holds = kind_conditions(alloc, counting, set, point, EdgeKind::Then)?;
        let fails = kind_conditions(alloc, counting, set, point, EdgeKind::Else)?;
        count = capped_sum(count, capped_sum(holds, fails));
    }
    Ok(count)
}

/// How many assertions a point `NAME INSTR (assert F ..) ..` has.
pub(crate) fn assert_count(point: Cursor<'_>) -> u64
    ensures { result ≡ assert_count (rest_of point.entry) }
{
    items_in_first(behind_first(behind_first(point)), "assert").len() as u64
}
