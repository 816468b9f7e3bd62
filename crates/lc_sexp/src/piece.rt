//! Pieces of a file that is cut after brackets, each read by itself.
ghost use Rattle.std.specs.Prelude.{◌≡◌, [], IfOk, MatchBool, MatchOption, None, false, true};
ghost use Rattle.lc_sexp.specs.Trees.{Tree, list, none, ◌▸◌};
ghost use Rattle.lc_sexp.specs.Pieces.{HasTaken};
ghost use Rattle.lc_sexp.specs.Reads.{ReadsAs};
ghost use Rattle.lc_sexp.specs.CutFiles.{ends_in_comment, bracketed, IsClosed, IsOnly, IsPieceOf, IsPieceRead};

use crate::forms::Forms;
use crate::machine::Machine;
use crate::sexp::Sexp;
use lc_base::{Fault, OutOfMemory};
use std::alloc::Global;

/// Whether a text ends in a comment.
pub fn ends_in_comment(text: &[u8]) -> bool
    ensures { result ≡ ends_in_comment false text.now }
{
    let mut in_comment = false;
    for byte in text {
        in_comment = *byte != b'\n' && (in_comment || *byte == b';');
    }
    in_comment
}

/// Whether a text ends with a bracket that closes.
#[tactic(auto, using(crate::proofs::Pieced::closed_by))]
fn is_closed(text: &[u8]) -> bool
    ensures { MatchBool result (IsClosed text.now) (IsClosed text.now → ⊥) }
{
    match text.split_last() {
        Some((last, _)) => *last == b')',
        None => false,
    }
}

/// Takes a text between a bracket that opens and one that closes; whether nothing is misplaced and the text does not end in a
/// comment.
fn push_bracketed(machine: &mut Machine, text: &[u8]) -> Result<bool, OutOfMemory>
    requires taken { HasTaken None machine.old [] }
    requires outside { machine.old.in_comment ≡ false }
    ensures went { IfOk result (λ went. went ≡ true → (ends_in_comment false text.now ≡ false) × HasTaken None machine.new (bracketed text.now)) }
    ensures none { IfOk result (λ went. went ≡ false → (t : Tree) → IsPieceOf t text.now → ⊥) }
{
    let front = machine.push_all(b"(")?;
    if !front {
        return Ok(false);
    }
    let whole = machine.push_all(text)?;
    if !whole {
        return Ok(false);
    }
    if machine.in_comment() {
        return Ok(false);
    }
    machine.push_all(b")")
}

/// The forms of a text between a bracket that opens and one that closes, if it is read so and does not end in a comment.
fn read_bracketed(alloc: Global, text: &[u8]) -> Result<Option<Forms>, OutOfMemory>
    ensures { IfOk result (λ forms. MatchOption forms ((t : Tree) → IsPieceOf t text.now → ⊥)
        (λ ts. (ends_in_comment false text.now ≡ false) × ReadsAs (bracketed text.now) ts)) }
{
    let mut machine = Machine::with_room(alloc, text.len())?;
    if !push_bracketed(&mut machine, text)? {
        return Ok(None);
    }
    match machine.finish() {
        Ok(forms) => Ok(Some(forms)),
        Err(Fault::Refused(_)) => Ok(None),
        Err(Fault::OutOfMemory) => Err(OutOfMemory),
    }
}

/// Whether the forms are a single list with a single item.
fn is_only(forms: &Forms) -> bool
    ensures { MatchBool result ((t : Tree) × (forms.now ≡ list (t ▸ none) ▸ none)) (IsOnly forms.now None) }
{
    let mut rest = forms.cursor();
    let Ok(mut list) = rest.list() else {
        return false;
    };
    let Ok(_item) = list.item() else {
        return false;
    };
    if !list.is_empty() || !rest.is_empty() {
        return false;
    }
    true
}

/// The single item of a single list, if the forms are that.
fn only_part(forms: Forms) -> Option<Sexp>
    ensures { IsOnly forms result }
{
    if !is_only(&forms) {
        return None;
    }
    Some(forms.into_part())
}

/// The s-expression that a piece of a file is: a text that ends with the bracket that closes it, outside of comments. Nothing
/// if the text is no such piece, or nests as deeply as a file may.
pub fn read_piece(alloc: Global, text: &[u8]) -> Result<Option<Sexp>, OutOfMemory>
    ensures { IfOk result (IsPieceRead text.now) }
{
    if !is_closed(text) {
        return Ok(None);
    }
    match read_bracketed(alloc, text)? {
        Some(forms) => Ok(only_part(forms)),
        None => Ok(None),
    }
}
