//! The place that a refusal tells.
ghost use Rattle.std.specs.Prelude.{◌≡◌, MatchOption, IfSome, length as list_length};
ghost use Rattle.lc_explain.specs.Told.{IsEnd, IsFault, IsItemOrEnd, IsTold, TellsNoPlace};

use lc_base::Refusal;
use lc_place::{Place, byte_place, item_place, open_list_place};

/// The end of a file.
fn end_place(bytes: &[u8]) -> Option<Place>
    ensures { MatchOption result ⊥ (IsEnd bytes.now) }
{
    byte_place(bytes, bytes.len() as u64)
}

/// The bracket with which a list begins.
fn bracket_of(list: Place) -> Place
    ensures offset { result.offset ≡ list.offset }
    ensures length { result.length ≡ 1 }
    ensures line { result.line ≡ list.line }
    ensures column { result.column ≡ list.column }
{
    Place { length: 1, ..list }
}

/// The byte at an offset; if the file ends before it, the bracket that was never closed, or the end.
fn fault_place(bytes: &[u8], offset: u64) -> Option<Place>
    ensures { MatchOption result ⊥ (IsFault bytes.now offset) }
{
    if offset < bytes.len() as u64 {
        return byte_place(bytes, offset);
    }
    match open_list_place(bytes) {
        Some(list) => Some(bracket_of(list)),
        None => end_place(bytes),
    }
}

/// The item of this number, or the end of a file that has no such item.
fn item_or_end(bytes: &[u8], item: u64) -> Option<Place>
    ensures { MatchOption result ⊥ (IsItemOrEnd bytes.now item) }
{
    match item_place(bytes, item) {
        Some(place) => Some(place),
        None => end_place(bytes),
    }
}

/// The place that a refusal is about, if the refusal has an offset or an item of this file.
pub(crate) fn told_place(bytes: &[u8], refusal: &Refusal) -> Option<Place>
    ensures { MatchOption result (TellsNoPlace refusal.now) (IsTold bytes.now refusal.now) }
{
    match refusal {
        Refusal::Text(offset) | Refusal::CertText(offset) => fault_place(bytes, *offset),
        Refusal::Shape(item)
        | Refusal::Unknown(item)
        | Refusal::Repeated(item)
        | Refusal::Auxiliary(item)
        | Refusal::Bound(item)
        | Refusal::CertShape(item) => item_or_end(bytes, *item),
        Refusal::Missing(_)
        | Refusal::Extra(_)
        | Refusal::Proof(..)
        | Refusal::Large(..)
        | Refusal::HistoryShape(_)
        | Refusal::Order(..) => None,
    }
}
