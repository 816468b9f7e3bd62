//! Places in files, what is said of them, and layouts.
ghost use Rattle.std.specs.Prelude.{◌≡◌, ◌↔◌, ◌≤◌, IfOk, IfSome, IsNone, MatchOption};
ghost use Rattle.lc_explain.specs.Located.{IsLocated};
ghost use Rattle.lc_explain.specs.Told.{IsExplanation, TellsNoPlace};
ghost use Rattle.lc_layout.specs.Layout.{laid_out};
ghost use Rattle.lc_place.specs.Excerpt.{IsExcerpt};
ghost use Rattle.lc_place.specs.Items.{items_in};
ghost use Rattle.lc_place.specs.Open.{AreAllClosed};
ghost use Rattle.lc_place.specs.Place.{IsItem, IsOpenList};
ghost use Rattle.lc_sexp.specs.Reads.{text_of};
ghost use Rattle.lc_sexp.specs.Shown.{rest_of};

use lc_base::{OutOfMemory, Refusal};
use lc_explain::{FileKind, Label, explanation, located};
use lc_layout::lay_out;
use lc_place::{Excerpt, Place, item_place, line_excerpt, open_list_place};
use lc_sexp::Cursor;
use std::alloc::Global;

/// An item is where it begins, in its line and column; a file has no place for an item that it does not have.
pub fn finding_an_item(bytes: &[u8], number: u64) -> Option<Place>
    ensures item { IfSome result (IsItem bytes.now number) }
    ensures none { IsNone result ↔ (items_in bytes.now ≤ number) }
{
    item_place(bytes, number)
}

/// The list that was never closed is the innermost one that is open at the end.
pub fn finding_an_open_list(bytes: &[u8]) -> Option<Place>
    ensures { MatchOption result (AreAllClosed (text_of bytes.now)) (IsOpenList bytes.now) }
{
    open_list_place(bytes)
}

/// The excerpt of a place is its line, with marks under the item.
pub fn showing_a_line(alloc: Global, bytes: &[u8], place: Place) -> Result<Excerpt, OutOfMemory>
    ensures { IfOk result (λ excerpt. IsExcerpt bytes.now place.offset place.length excerpt.line.items excerpt.marks.items) }
{
    line_excerpt(alloc, bytes, place)
}

/// A sentence of a place has its path, line and column, and then the line with marks.
pub fn locating(
    alloc: Global,
    path: &str,
    bytes: &[u8],
    place: Place,
    label: Label,
    sentence: &str,
) -> Result<Vec<u8>, OutOfMemory>
    ensures { IfOk result (λ text. IsLocated path.now bytes.now place label sentence.now text.items) }
{
    located(alloc, path, bytes, place, label, sentence)
}

/// A refusal of a text or of an item is explained at its place, and no other is.
pub fn explaining(
    alloc: Global,
    path: &str,
    kind: FileKind,
    bytes: &[u8],
    refusal: &Refusal,
) -> Result<Option<Vec<u8>>, OutOfMemory>
    ensures { IfOk result (λ told. MatchOption told (TellsNoPlace refusal.now) (λ text. IsExplanation path.now bytes.now refusal.now text.items)) }
{
    explanation(alloc, path, kind, bytes, refusal)
}

/// Trees are laid out over lines as is defined.
pub fn laying_out(alloc: Global, forms: Cursor<'_>) -> Result<Vec<u8>, OutOfMemory>
    ensures { IfOk result (λ text. text.items ≡ laid_out (rest_of forms.entry)) }
{
    lay_out(alloc, forms)
}
