//! How many paths pass the riders of an edge, counted from the text.
ghost use Rattle.std.specs.Prelude.{◌≡◌, min};
ghost use Rattle.lc_rider_text.specs.Ons.{path_cap};
ghost use Rattle.lc_sexp.specs.Shown.{rest_of};
ghost use Rattle.lc_reading.specs.Parts.{tree_of};
ghost use Rattle.lc_rider_text.specs.KnownView.{known_view, ways_there};
ghost use Rattle.lc_rider_text.specs.Paths.{mark_ways, other_ways, ways_with, deed_ways, when_ways, rider_ways, path_count};

use crate::known::{Known, Ways};
use crate::words::{Head, head_of};
use lc_base::PATH_LIMIT;
use lc_reading::{Part, headed, next_part, two};
use lc_sexp::{Cursor, Item};

/// This many paths count as any larger number.
const COUNT_CAP: u64 = PATH_LIMIT + 1;

/// This count, or the cap if it is beyond.
fn capped(count: u64) -> u64
    ensures { result ≡ min path_cap count }
{
    if count < COUNT_CAP { count } else { COUNT_CAP }
}

/// How many branches an operation has that goes so, or one if it is not known; up to the cap.
fn mark_ways(ways: Option<&Ways<'_>>) -> u64
    ensures { result ≡ min path_cap (mark_ways (ways_there ways.entry)) }
{
    match ways {
        Some(ways) => capped(ways.count),
        None => 1,
    }
}

/// `T OP`: in how many ways the call of another client is settled, up to the cap.
fn other_ways(known: Known<'_, '_>, list: Cursor<'_>) -> u64
    ensures { result ≡ min path_cap (other_ways (known_view known.entry) (rest_of list.entry)) }
{
    match two(list) {
        Ok((_, operation, _)) => mark_ways(known.ways_named(operation)),
        Err(_) => 1,
    }
}

/// In how many ways a list's other parts are done, if it begins so, in the body of an operation that goes so, if it is known; up
/// to the cap.
fn ways_with(
    known: Known<'_, '_>,
    own: Option<&Ways<'_>>,
    head: Option<Head>,
    list: Cursor<'_>,
) -> u64
    ensures { result ≡ min path_cap (ways_with (known_view known.entry) (ways_there own.entry) (rest_of list.entry) head) }
{
    match head {
        Some(Head::Lin | Head::Note) => mark_ways(own),
        Some(Head::LinOther) => other_ways(known, list),
        None | Some(Head::Set | Head::LinBy | Head::LinOtherBy | Head::NoteBy) => 1,
    }
}

/// In how many ways a rider is passed that is no `when`, up to the cap.
fn deed_ways(known: Known<'_, '_>, own: Option<&Ways<'_>>, part: Part<'_>) -> u64
    ensures { result ≡ min path_cap (deed_ways (known_view known.entry) (ways_there own.entry) (tree_of part.entry)) }
{
    let list = match part.item() {
        Item::Atom(_) => return 1,
        Item::List(list) => list,
    };
    match headed(list) {
        Ok((word, parts)) => ways_with(known, own, head_of(word), parts),
        Err(_) => 1,
    }
}

/// `F RIDER`: one way more; up to the cap.
fn when_ways(known: Known<'_, '_>, own: Option<&Ways<'_>>, list: Cursor<'_>) -> u64
    ensures { result ≡ min path_cap (when_ways (known_view known.entry) (ways_there own.entry) (rest_of list.entry)) }
{
    match two(list) {
        Ok((_, rider, _)) => capped(1 + deed_ways(known, own, rider)),
        Err(_) => 1,
    }
}

/// In how many ways a rider is passed, in the body of an operation that goes so, if it is known; `COUNT_CAP` if there are more
/// than the limit.
pub fn rider_ways(known: Known<'_, '_>, own: Option<&Ways<'_>>, part: Part<'_>) -> u64
    ensures { result ≡ min path_cap (rider_ways (known_view known.entry) (ways_there own.entry) (tree_of part.entry)) }
{
    let list = match part.item() {
        Item::Atom(_) => return 1,
        Item::List(list) => list,
    };
    match headed(list) {
        Ok((word, parts)) if word == "when" => when_ways(known, own, parts),
        Ok((word, parts)) => ways_with(known, own, head_of(word), parts),
        Err(_) => 1,
    }
}

/// How many paths the riders make that are left in a list, in the body of an operation that goes so, if it is known;
/// `COUNT_CAP` if there are more than the limit.
pub fn path_count(known: Known<'_, '_>, own: Option<&Ways<'_>>, list: Cursor<'_>) -> u64
    ensures { result ≡ min path_cap (path_count (known_view known.entry) (ways_there own.entry) (rest_of list.entry)) }
{
    let mut rest = list;
    let mut count = 1;
    'riders: loop {
        let Ok(part) = next_part(&mut rest) else {
            return count;
        };
        count = capped(count * rider_ways(known, own, part));
    }
}
