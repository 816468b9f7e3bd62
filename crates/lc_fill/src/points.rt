//! What is put into points.
ghost use Rattle.std.specs.Prelude.{◌≡◌, IfOk, OnOk};
ghost use Rattle.lc_sexp.specs.Shown.{rest_of, number_of};
ghost use Rattle.lc_sexp.specs.Trees.{none};
ghost use Rattle.lc_reading.specs.Parts.{tree_of, place_of};
ghost use Rattle.lc_fill.specs.Acts.{call_at};
ghost use Rattle.lc_fill.specs.Filled.{as_is, each};
ghost use Rattle.lc_fill.specs.Points.{first_text, items_within, head_of, is_rider, rides, has_call, on_filled, is_at, names_edge, unless_named, closed, storing, put_call, call_filled, code_filled, point_filled};
ghost use Rattle.lc_fill.specs.Seen.{acts_view, onto, row_view, tree_view};

use crate::acts::Acts;
use crate::edge::{Edge, storing};
use crate::plan::found;
use crate::row::{FilledTree, Row, as_is};
use lc_base::OutOfMemory;
use lc_reading::{Part, behind_word, next_part};
use lc_sexp::{Cursor, Item, Sexp};
use std::alloc::Global;

/// The text of the next item, if it is an atom; else none.
fn first_text<'a>(list: Cursor<'a>) -> &'a str
    ensures { result.now ≡ first_text (rest_of list.entry) }
{
    let mut ahead = list;
    match ahead.item() {
        Ok(Item::Atom(atom)) => atom.text(),
        _ => "",
    }
}

/// The items of a part that is a list; of an atom none.
fn items_within<'a>(part: Part<'a>) -> Cursor<'a>
    ensures { rest_of result ≡ items_within (tree_of part.entry) }
{
    let Item::List(list) = part.item() else {
        return Cursor::empty();
    };
    list
}

/// The first word of a list.
fn head_of<'a>(part: Part<'a>) -> &'a str
    ensures { result.now ≡ head_of (tree_of part.entry) }
{
    first_text(items_within(part))
}

/// Whether riders begin with this word.
fn is_rider(word: &str) -> bool
    ensures { result ≡ is_rider word.now }
{
    match word {
        "set" | "lin" | "lin-other" | "note" | "lin-by" | "lin-other-by" | "note-by" | "when" =>
            true,
        _ => false,
    }
}

/// Whether an item is a rider, where the call of an action may be.
fn rides(acts: &Acts<'_, '_>, part: Part<'_>) -> bool
    ensures { result ≡ rides (acts_view acts.now) (tree_of part.entry) }
{
    let word = head_of(part);
    is_rider(word) && !acts.names.contains(word)
}

/// Whether the first of these items is the call of an action.
fn has_call(acts: &Acts<'_, '_>, list: Cursor<'_>) -> bool
    ensures { result ≡ has_call (acts_view acts.now) (rest_of list.entry) }
{
    let mut ahead = list;
    match next_part(&mut ahead) {
        Ok(part) => !rides(acts, part),
        Err(_) => false,
    }
}

/// `(on EDGE [(ACTION T*)] RIDER*)`
#[tactic(auto, unfolding(lc_sexp::specs::Text::class_of))]
fn fill_on(alloc: Global, acts: &Acts<'_, '_>, part: Part<'_>) -> Result<FilledTree, OutOfMemory>
    ensures { IfOk result (λ f. tree_view f ≡ on_filled (acts_view acts.now) (place_of part.entry) (tree_of part.entry)) }
{
    let Ok(mut rest) = behind_word(part, "on") else {
        let same = as_is(alloc, part)?;
        return Ok(same);
    };
    let mut row = Row::of_word(alloc, "on")?;
    let more = row.keep_next(alloc, &mut rest)?;
    if !more {
        let bare = row.into_list(alloc)?;
        return Ok(bare);
    }
    fill_call(alloc, acts, &mut row, rest)?;
    let list = row.into_list(alloc)?;
    Ok(list)
}

/// `[(ACTION T*)] RIDER*`
fn fill_call(
    alloc: Global,
    acts: &Acts<'_, '_>,
    row: &mut Row,
    list: Cursor<'_>,
) -> Result<(), OutOfMemory>
    ensures { OnOk result (row_view row.new ≡ onto row.old (call_filled (acts_view acts.now) (number_of list.entry) (rest_of list.entry))) }
{
    if has_call(acts, list) {
        row.keep_all(alloc, list)?;
        return Ok(());
    }
    put_call_before(alloc, acts, row, list)?;
    Ok(())
}

/// A call that is put in before these items.
fn put_call_before(
    alloc: Global,
    acts: &Acts<'_, '_>,
    row: &mut Row,
    list: Cursor<'_>,
) -> Result<(), OutOfMemory>
    ensures { OnOk result (row_view row.new ≡ onto row.old (put_call (acts_view acts.now) (number_of list.entry) (call_at (acts_view acts.now) (number_of list.entry)) (as_is (rest_of list.entry)))) }
{
    let place = list.number();
    let call = acts.call(alloc, place)?;
    row.put_call(place, acts.is_lacking(place), call)?;
    row.keep_all(alloc, list)?;
    Ok(())
}

/// Whether an item is `(on EDGE ..)`, of this edge.
fn is_at(edge: Edge, part: Part<'_>) -> bool
    ensures { result ≡ is_at edge (tree_of part.entry) }
{
    let Ok(rest) = behind_word(part, "on") else {
        return false;
    };
    first_text(rest) == edge.word()
}

/// Whether one of these items is `(on EDGE ..)`, of this edge.
fn names_edge(edge: Edge, list: Cursor<'_>) -> bool
    ensures { result ≡ names_edge edge (rest_of list.entry) }
{
    let mut rest = list;
    'items: loop {
        let Ok(part) = next_part(&mut rest) else {
            return false;
        };
        if is_at(edge, part) {
            return true;
        }
    }
}

/// The edge at which an instruction stores, if none of these items names it.
fn edge_left_out(code: Part<'_>, list: Cursor<'_>) -> Option<Edge>
    ensures { result ≡ unless_named (rest_of list.entry) (storing (head_of (tree_of code.entry))) }
{
    let edge = storing(head_of(code))?;
    if names_edge(edge, list) {
        return None;
    }
    Some(edge)
}

/// `(on EDGE (ACTION ..))`, for an edge that stores and has none.
#[tactic(auto, unfolding(lc_sexp::specs::Text::class_of))]
fn close(
    alloc: Global,
    acts: &Acts<'_, '_>,
    row: &mut Row,
    edge: Option<Edge>,
    place: u64,
) -> Result<(), OutOfMemory>
    ensures { OnOk result (row_view row.new ≡ onto row.old (closed (acts_view acts.now) edge place)) }
{
    let edge = match edge {
        Some(edge) => edge,
        None => return Ok(()),
    };
    let word = Sexp::atom(alloc, "on")?;
    let name = edge.item(alloc)?;
    let call = acts.call(alloc, place)?;
    let on = Sexp::list(alloc, &[word, name, call])?;
    row.put_call(place, acts.is_lacking(place), on)?;
    Ok(())
}

/// `ON*`, and one for an edge that stores and has none.
fn fill_ons(
    alloc: Global,
    acts: &Acts<'_, '_>,
    row: &mut Row,
    edge: Option<Edge>,
    list: Cursor<'_>,
) -> Result<(), OutOfMemory>
    ensures { OnOk result (row_view row.new ≡ onto row.old (each (on_filled (acts_view acts.now)) (closed (acts_view acts.now) edge) (number_of list.entry) (rest_of list.entry))) }
{
    let mut rest = list;
    'items: loop {
        let place = rest.number();
        let Ok(part) = next_part(&mut rest) else {
            close(alloc, acts, row, edge, place)?;
            return Ok(());
        };
        let on = fill_on(alloc, acts, part)?;
        row.push(on)?;
    }
}

/// `INSTR [(assert F*)] ON*`
#[tactic(auto, unfolding(lc_sexp::specs::Text::class_of))]
fn fill_code(
    alloc: Global,
    acts: &Acts<'_, '_>,
    row: &mut Row,
    list: Cursor<'_>,
) -> Result<(), OutOfMemory>
    ensures { OnOk result (row_view row.new ≡ onto row.old (code_filled (acts_view acts.now) (number_of list.entry) (rest_of list.entry))) }
{
    let mut rest = list;
    let Ok(code) = next_part(&mut rest) else {
        return Ok(());
    };
    row.keep(alloc, code)?;
    let edge = edge_left_out(code, rest);
    let more = found(&acts.plan.asserts, rest.number());
    row.keep_section(alloc, "assert", more, &mut rest)?;
    fill_ons(alloc, acts, row, edge, rest)?;
    Ok(())
}

/// `(point NAME INSTR [(assert F*)] ON*)`
#[tactic(auto, unfolding(lc_sexp::specs::Text::class_of))]
pub(crate) fn fill_point(
    alloc: Global,
    acts: &Acts<'_, '_>,
    part: Part<'_>,
) -> Result<FilledTree, OutOfMemory>
    ensures { IfOk result (λ f. tree_view f ≡ point_filled (acts_view acts.now) (place_of part.entry) (tree_of part.entry)) }
{
    let Ok(mut rest) = behind_word(part, "point") else {
        let same = as_is(alloc, part)?;
        return Ok(same);
    };
    let mut row = Row::of_word(alloc, "point")?;
    let more = row.keep_next(alloc, &mut rest)?;
    if !more {
        let bare = row.into_list(alloc)?;
        return Ok(bare);
    }
    fill_code(alloc, acts, &mut row, rest)?;
    let list = row.into_list(alloc)?;
    Ok(list)
}
