//! Whether what a file has around its entries is that of a certificate.
ghost use Rattle.std.specs.Prelude.{◌≡◌, ◌++◌, IfOk, IfSome, IsTrue, [], ◌∷◌, take, drop, length};
ghost use Rattle.lc_sexp.specs.CutFiles.{BeginsOpen, IsTail};
ghost use Rattle.lc_sexp.specs.Reads.{ReadsAs};
ghost use Rattle.lc_sexp.specs.Trees.{list, none, ◌▸◌};
ghost use Rattle.lc_outline.specs.DevelopmentView.{development_view};
ghost use Rattle.lc_cert.specs.OneByOne.{IsFrame};
ghost use Rattle.lc_pool.specs.Frames.{IsHeadRow, IsHeadOf};

use lc_base::{FILE_LIMIT, Fault, OutOfMemory};
use lc_outline::Development;
use lc_sexp::{Forms, FormsReader, ends_in_comment};
use std::alloc::Global;

/// The forms of three texts one after another, if they read as forms.
fn read_joined(
    alloc: Global,
    first: &[u8],
    text: &[u8],
    last: &[u8],
) -> Result<Option<Forms>, OutOfMemory>
    ensures { IfOk result (λ forms. IfSome forms (λ f. ReadsAs ((first.now ++ text.now) ++ last.now) f)) }
{
    let mut reader = FormsReader::new(alloc);
    reader.feed(first)?;
    reader.feed(text)?;
    reader.feed(last)?;
    match reader.finish() {
        Ok(forms) => Ok(Some(forms)),
        Err(Fault::Refused(_)) => Ok(None),
        Err(Fault::OutOfMemory) => Err(OutOfMemory),
    }
}

/// Whether the forms are one list, of the word `certificate` and this name alone.
fn is_head_row(forms: &Forms, name: &str) -> bool
    ensures { IsTrue result → IsHeadRow name.now forms.now }
{
    let mut forms = forms.cursor();
    let Ok(mut list) = forms.list() else {
        return false;
    };
    let Ok(word) = list.atom() else {
        return false;
    };
    let Ok(named) = list.atom() else {
        return false;
    };
    if !list.is_empty() || !forms.is_empty() {
        return false;
    }
    word.text() == "certificate" && named.text() == name
}

/// Whether the forms are one list, with nothing in it.
fn is_empty_list(forms: &Forms) -> bool
    ensures { IsTrue result → forms.now ≡ list none ▸ none }
{
    let mut forms = forms.cursor();
    let Ok(list) = forms.list() else {
        return false;
    };
    list.is_empty() && forms.is_empty()
}

/// Whether a text begins with a bracket that opens.
fn begins_open(text: &[u8]) -> bool
    ensures { IsTrue result → BeginsOpen text.now }
{
    match text.split_first() {
        Some((first, _)) => *first == b'(',
        None => false,
    }
}

/// Whether a text is what a certificate of this object has before its first entry.
fn is_head(alloc: Global, name: &str, head: &[u8]) -> Result<bool, OutOfMemory>
    ensures { IfOk result (λ b. IsTrue b → IsHeadOf name.now head.now) }
{
    if ends_in_comment(head) {
        return Ok(false);
    }
    match read_joined(alloc, &[], head, b")")? {
        Some(forms) => Ok(is_head_row(&forms, name)),
        None => Ok(false),
    }
}

/// Whether a text is what a certificate has after its last entry.
fn is_tail(alloc: Global, tail: &[u8]) -> Result<bool, OutOfMemory>
    ensures { IfOk result (λ b. IsTrue b → IsTail tail.now) }
{
    match read_joined(alloc, b"(", tail, &[])? {
        Some(forms) => Ok(is_empty_list(&forms)),
        None => Ok(false),
    }
}

/// Whether what comes before the one place and after the other is what a certificate of the development has around its entries.
pub(crate) fn is_framed(
    alloc: Global,
    development: &Development,
    file: &[u8],
    from: usize,
    to: usize,
) -> Result<bool, OutOfMemory>
    ensures { IfOk result (λ b. IsTrue b → IsFrame (development_view development.now) file.now from to) }
{
    if from > file.len() || to > file.len() || file.len() as u64 > FILE_LIMIT {
        return Ok(false);
    }
    if !begins_open(&file[from..]) {
        return Ok(false);
    }
    let name = development.parts().object.parts().name;
    if !is_head(alloc, name.as_str(), &file[..from])? {
        return Ok(false);
    }
    is_tail(alloc, &file[to..])
}
