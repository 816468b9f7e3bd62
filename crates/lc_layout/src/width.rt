//! How many columns items take on one line.
ghost use Rattle.std.specs.Prelude.{◌≡◌, ◌+◌, length, if◌then◌else◌};
ghost use Rattle.lc_sexp.specs.Printed.{printed_items};
ghost use Rattle.lc_sexp.specs.Shown.{rest_of, item_tree};
ghost use Rattle.lc_layout.specs.Layout.{fits, is_short, room_left, own_width, width_of};

use lc_sexp::{Cursor, Item};

/// The columns of a line.
const LINE: usize = 100;

/// The columns of an item without its parts: the letters of an atom, the brackets of a list.
fn own_width(item: Item<'_>) -> usize
    ensures { result ≡ own_width (item_tree item.entry) }
{
    match item {
        Item::Atom(atom) => atom.text().len(),
        Item::List(_) => 2,
    }
}

/// The room left after these items on one line, with one space between them. It looks no farther than the room goes, so
/// it recurses at most half as deep as there are columns.
fn room_behind(items: Cursor<'_>, room: usize) -> Option<usize>
    ensures { result ≡ room_left room (length (printed_items (rest_of items.entry))) }
{
    let mut rest = items;
    let mut left = room;
    let mut gap = 0;
    while let Ok(item) = rest.item() {
        let behind_gap = left.checked_sub(gap)?;
        let within = behind_gap.checked_sub(own_width(item))?;
        left = room_behind(item.parts(), within)?;
        gap = 1;
    }
    Some(left)
}

/// The column after an item that begins at `column`, if it ends in the same line with `brackets` brackets after it.
pub(crate) fn end_of(item: Item<'_>, column: usize, brackets: usize) -> Option<usize>
    ensures { result ≡ (if fits column brackets (item_tree item.entry) then Some (column + width_of (item_tree item.entry)) else None) }
{
    let behind_column = LINE.checked_sub(column)?;
    let room = behind_column.checked_sub(brackets)?;
    let within = room.checked_sub(own_width(item))?;
    let left = room_behind(item.parts(), within)?;
    Some(LINE - brackets - left)
}

/// Whether an item that begins at `column` ends in the same line, with `brackets` brackets after it.
pub(crate) fn fits(item: Item<'_>, column: usize, brackets: usize) -> bool
    ensures { result ≡ fits column brackets (item_tree item.entry) }
{
    end_of(item, column, brackets).is_some()
}

/// Whether an item is an atom, or a list of atoms.
pub(crate) fn is_short(item: Item<'_>) -> bool
    ensures { result ≡ is_short (item_tree item.entry) }
{
    let mut rest = item.parts();
    while let Ok(part) = rest.item() {
        if let Item::List(_) = part {
            return false;
        }
    }
    true
}
