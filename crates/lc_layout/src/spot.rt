ghost use Rattle.std.specs.Prelude.{◌≡◌, ◌+◌, min};
ghost use Rattle.lc_sexp.specs.Shown.{rest_of, item_tree};
ghost use Rattle.lc_layout.specs.Layout.{on_line, on_its_own, right_of, stage_behind, spot_behind, first_spot, spot_of, stage_at, stage_within, indent_of, brackets_more, brackets_behind};

use crate::stage::{Gap, Spot, Stage};
use crate::width::{end_of, fits, is_short};
use lc_sexp::{Cursor, Item};

/// The column up to which a list may begin right after a bracket, and up to which items are indented.
const DEEPEST: usize = 60;

/// The most brackets that come after an item.
const BRACKETS: usize = 30;

/// The first column beyond a line. Those after it are not distinguished.
const BEYOND: usize = 101;

/// A spot on the line of the item before.
fn on_line(gap: Gap, column: usize, stage: Stage, behind: usize) -> Spot
    ensures { result ≡ on_line gap column stage behind }
{
    Spot {
        gap,
        column,
        stage,
        behind,
    }
}

/// The spot of an item on a line of its own.
fn on_its_own(indent: usize) -> Spot
    ensures { result ≡ on_its_own indent }
{
    on_line(Gap::Line, indent, Stage::Below, 0)
}

/// The column `bytes` bytes after another.
pub(crate) fn right_of(column: usize, bytes: usize) -> usize
    ensures { result ≡ right_of column bytes }
{
    column.saturating_add(bytes).min(BEYOND)
}

/// How a list goes on after an item on its line: after a list only atoms stay there.
fn stage_behind(item: Item<'_>) -> Stage
    ensures { result ≡ stage_behind (item_tree item.entry) }
{
    match item {
        Item::Atom(_) => Stage::Named,
        Item::List(_) => Stage::Head,
    }
}

/// The spot of an item after the one before it, at this column, if it fits there.
fn spot_behind(column: usize, indent: usize, brackets: usize, item: Item<'_>) -> Spot
    ensures { result ≡ spot_behind column indent brackets (item_tree item.entry) }
{
    match end_of(item, column, brackets) {
        Some(end) => on_line(Gap::Space, column, stage_behind(item), end),
        None => on_its_own(indent),
    }
}

/// The spot of the first item of a list that is broken over lines.
fn first_spot(column: usize, indent: usize, item: Item<'_>) -> Spot
    ensures { result ≡ first_spot column indent (item_tree item.entry) }
{
    match item {
        Item::Atom(atom) => on_line(
            Gap::Nothing,
            column,
            Stage::Head,
            right_of(column, atom.text().len()),
        ),
        Item::List(_) if column <= DEEPEST => on_line(Gap::Nothing, column, Stage::Below, 0),
        Item::List(_) => on_its_own(indent),
    }
}

/// The spot of an item after the head of a list, or after a list of atoms: on the line for an atom that fits.
fn second_spot(column: usize, indent: usize, brackets: usize, item: Item<'_>) -> Spot
    ensures { result ≡ spot_of Stage.Head column indent brackets (item_tree item.entry) }
{
    match item {
        Item::Atom(_) => spot_behind(right_of(column, 1), indent, brackets, item),
        Item::List(_) => on_its_own(indent),
    }
}

/// The spot of an item after two atoms or more: on their line for an atom or a list of atoms that fits.
fn later_spot(column: usize, indent: usize, brackets: usize, item: Item<'_>) -> Spot
    ensures { result ≡ spot_of Stage.Named column indent brackets (item_tree item.entry) }
{
    if is_short(item) {
        spot_behind(right_of(column, 1), indent, brackets, item)
    } else {
        on_its_own(indent)
    }
}

/// Where the next item of a list is: the list is laid out so far, its line goes up to `column`, its items are indented by
/// `indent`, and `brackets` brackets come right after the item.
pub(crate) fn spot_of(
    stage: Stage,
    column: usize,
    indent: usize,
    brackets: usize,
    item: Item<'_>,
) -> Spot
    ensures { result ≡ spot_of stage column indent brackets (item_tree item.entry) }
{
    match stage {
        Stage::Lead => on_line(Gap::Nothing, 0, Stage::Flat, 0),
        Stage::Flat => on_line(Gap::Space, 0, Stage::Flat, 0),
        Stage::Fresh => first_spot(column, indent, item),
        Stage::Head => second_spot(column, indent, brackets, item),
        Stage::Named => later_spot(column, indent, brackets, item),
        Stage::Below => on_its_own(indent),
    }
}

/// How a list begins that begins at this column: on one line if it fits.
fn stage_at(column: usize, brackets: usize, item: Item<'_>) -> Stage
    ensures { result ≡ stage_at column brackets (item_tree item.entry) }
{
    if fits(item, column, brackets) {
        Stage::Lead
    } else {
        Stage::Fresh
    }
}

/// How a list begins in one that is laid out so far.
pub(crate) fn stage_within(stage: Stage, column: usize, brackets: usize, item: Item<'_>) -> Stage
    ensures { result ≡ stage_within stage column brackets (item_tree item.entry) }
{
    match stage {
        Stage::Lead | Stage::Flat => Stage::Lead,
        Stage::Fresh | Stage::Head | Stage::Named | Stage::Below => {
            stage_at(column, brackets, item)
        }
    }
}

/// How far the items of a list are indented whose bracket is at this column.
pub(crate) fn indent_of(column: usize, items: Cursor<'_>) -> usize
    ensures { result ≡ indent_of column (rest_of items.entry) }
{
    let mut ahead = items;
    match ahead.item() {
        Ok(Item::List(_)) => column.saturating_add(1).min(DEEPEST),
        Ok(Item::Atom(_)) => column.saturating_add(2).min(DEEPEST),
        Err(_) => column.saturating_add(2).min(DEEPEST),
    }
}

/// How many brackets come right after the last item of a list that has `brackets` brackets after it.
fn brackets_more(brackets: usize) -> usize
    ensures { result ≡ brackets_more brackets }
{
    if brackets >= BRACKETS {
        0
    } else {
        brackets + 1
    }
}

/// How many brackets come right after an item of a list, before these items.
pub(crate) fn brackets_behind(brackets: usize, items: Cursor<'_>) -> usize
    ensures { result ≡ brackets_behind brackets (rest_of items.entry) }
{
    let mut ahead = items;
    match ahead.item() {
        Ok(_) => 0,
        Err(_) => brackets_more(brackets),
    }
}
