//! How many conditions a development has, counted from its text up to a cap.
ghost use Rattle.std.specs.Prelude.{◌≡◌, map, sum, sum_by, IfOk, OnOk};
ghost use Rattle.lc_sexp.specs.Shown.{rest_of};
ghost use Rattle.lc_object_text.specs.DeclaredView.{body_view};
ghost use Rattle.lc_object_text.specs.ObjectNames.{points_in};
ghost use Rattle.lc_object_text.specs.Seen.{sections_view};
ghost use Rattle.lc_outline_text.specs.DeclarationsView.{declarations_view};
ghost use Rattle.lc_outline_text.specs.StoredView.{IsSet, IsStored};
ghost use Rattle.lc_outline_text.specs.Views.{capped, totals_view};
ghost use Rattle.lc_outline_text.specs.Sizes.{assert_count, point_conditions, body_conditions, bodies_conditions, totals_of, condition_count};

use crate::column_set::ColumnSet;
use crate::counts::{COUNT_CAP, capped_product, capped_sum, sum_of};
use crate::declarations::Declarations;
use crate::edge_counts::{Counting, assert_count, point_conditions};
use crate::instruction::{Totals, count_at};
use crate::needs::parts_in;
use crate::stored::{Stored, read_stored};
use lc_base::OutOfMemory;
use lc_object_text::{Body, Sections, behind_first, items_in_first, next_form};
use lc_reading::next_part;
use lc_sexp::Cursor;
use std::alloc::Global;

/// How many assertions each point has of a body `OP (LOCAL ..) POINT ..`.
fn assert_counts(alloc: Global, body: Cursor<'_>) -> Result<Vec<u64>, OutOfMemory>
    ensures { IfOk result (λ counts. counts.items ≡ map assert_count (points_in (rest_of body.entry))) }
{
    let mut counts = Vec::new(alloc);
    let mut rest = behind_first(behind_first(body));
    let mut some = true;
    'points: loop {
        let Some(point) = next_form(&mut rest, "point", some) else {
            return Ok(counts);
        };
        some = false;
        counts.push(assert_count(point))?;
    }
}

/// The sum of counts, up to the cap.
fn capped_total(counts: &[u64]) -> u64
    ensures { result ≡ capped (sum counts.now) }
{
    let mut total = 0;
    for count in counts {
        total = capped_sum(total, *count);
    }
    total
}

/// The conditions of all edges of the points of a body, up to the cap.
fn points_conditions(
    alloc: Global,
    counting: Counting<'_, '_>,
    set: &mut ColumnSet,
    list: Cursor<'_>,
) -> Result<u64, OutOfMemory>
    requires stored { IsStored (declarations_view counting.declarations.now) counting.stored.now }
    requires set { IsSet set.old }
    ensures set { OnOk result (IsSet set.new) }
    ensures count { IfOk result (λ count. count ≡ capped (sum_by (point_conditions (declarations_view counting.entry.declarations.now) (totals_view counting.entry.totals) counting.entry.operation (body_view counting.entry.body.now) counting.entry.asserts.now) (points_in (rest_of list.entry)))) }
{
    let mut rest = behind_first(behind_first(list));
    let mut some = true;
    let mut count = 0;
    'points: loop {
        let Some(point) = next_form(&mut rest, "point", some) else {
            return Ok(count);
        };
        some = false;
        if count >= COUNT_CAP {
            return Ok(COUNT_CAP);
        }
        let more = point_conditions(alloc, counting, set, point)?;
        count = capped_sum(count, more);
    }
}

/// The conditions of the body of the operation of this number, up to the cap.
fn body_conditions<'t>(
    alloc: Global,
    declarations: &Declarations<'t>,
    stored: &Stored,
    set: &mut ColumnSet,
    totals: Totals,
    operation: u32,
    body: &Body<'t>,
    list: Cursor<'_>,
) -> Result<u64, OutOfMemory>
    requires stored { IsStored (declarations_view declarations.now) stored.now }
    requires set { IsSet set.old }
    ensures set { OnOk result (IsSet set.new) }
    ensures count { IfOk result (λ count. count ≡ capped (body_conditions (declarations_view declarations.now) (totals_view totals) operation (body_view body.now) (rest_of list.entry))) }
{
    let asserts = assert_counts(alloc, list)?;
    let entry = capped_sum(totals.invariant, count_at(&asserts, Some(0)));
    let counting = Counting {
        declarations,
        stored,
        totals,
        operation,
        body,
        asserts: &asserts,
    };
    let edges = points_conditions(alloc, counting, set, list)?;
    let stable = capped_product(capped_total(&asserts), totals.actions);
    Ok(capped_sum(capped_sum(entry, edges), stable))
}

/// The conditions of the bodies in a row, up to the cap.
fn bodies_conditions(
    alloc: Global,
    declarations: &Declarations<'_>,
    stored: &Stored,
    set: &mut ColumnSet,
    totals: Totals,
    list: Cursor<'_>,
) -> Result<u64, OutOfMemory>
    requires stored { IsStored (declarations_view declarations.now) stored.now }
    requires set { IsSet set.old }
    ensures set { OnOk result (IsSet set.new) }
    ensures count { IfOk result (λ count. count ≡ capped (bodies_conditions (declarations_view declarations.now) (totals_view totals) 0 (declarations_view declarations.now).declared.bodies (rest_of list.entry))) }
{
    let mut rest = list;
    let mut operation = 0u32;
    let mut count = 0;
    for body in &declarations.declared.bodies {
        let Ok(part) = next_part(&mut rest) else {
            return Ok(count);
        };
        if count >= COUNT_CAP {
            return Ok(COUNT_CAP);
        }
        let parts = parts_in(part, "body");
        let more = body_conditions(
            alloc,
            declarations,
            stored,
            set,
            totals,
            operation,
            body,
            parts,
        )?;
        count = capped_sum(count, more);
        if operation == u32::MAX {
            return Err(OutOfMemory);
        }
        operation += 1;
    }
    Ok(count)
}

/// How many conjuncts hold in all states and of idle clients, and how many actions others may do.
fn totals_of(
    declarations: &Declarations<'_>,
    sections: &Sections<'_>,
) -> Result<Totals, OutOfMemory>
    ensures { IfOk result (λ totals. totals_view totals ≡ totals_of (declarations_view declarations.now) (sections_view sections.now)) }
{
    let invariant = items_in_first(sections.invariant, "invariant");
    let idle = items_in_first(behind_first(sections.invariant), "idle");
    Ok(Totals {
        invariant: invariant.len() as u64,
        idle: idle.len() as u64,
        actions: sum_of(2, declarations.actions.len() as u64)?,
    })
}

/// How many conditions the development has that is declared so, up to the cap.
pub(crate) fn condition_count(
    alloc: Global,
    declarations: &Declarations<'_>,
    sections: &Sections<'_>,
) -> Result<u64, OutOfMemory>
    ensures { IfOk result (λ count. count ≡ capped (condition_count (declarations_view declarations.now) (sections_view sections.now))) }
{
    let totals = totals_of(declarations, sections)?;
    let start = capped_sum(totals.invariant, totals.idle);
    let mut set = ColumnSet::new(alloc);
    let stored = read_stored(alloc, &mut set, declarations)?;
    let bodies = bodies_conditions(
        alloc,
        declarations,
        &stored,
        &mut set,
        totals,
        sections.bodies,
    )?;
    let stable = capped_product(totals.idle, totals.actions);
    Ok(capped_sum(capped_sum(start, bodies), stable))
}
