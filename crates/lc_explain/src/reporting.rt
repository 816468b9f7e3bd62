//! What is reported of a refused file: the least wrong part of it that is known, and what its lines say beside.
use crate::around::word_at;
use crate::brackets::{Opened, Suspect, first_suspect};
use crate::explaining::explanation;
use crate::kind::FileKind;
use crate::label::Label;
use crate::lists::List;
use crate::locating::located;
use crate::pointed::{Pointed, other_comment, wrong_part};
use lc_base::{OutOfMemory, Refusal};
use lc_place::{byte_place, item_place};
use std::alloc::Global;

/// A list in words: the word with which it begins, and a name after that.
fn list_words(alloc: Global, bytes: &[u8], list: Opened) -> Result<String, OutOfMemory> {
    let list = List::at(bytes, list.offset);
    let word = list.word;
    let name = match list.item(2) {
        Some(place) => word_at(list.bytes, place).unwrap_or(""),
        None => "",
    };
    let text = if name.is_empty() {
        format!(in alloc; "({word}")?
    } else {
        format!(in alloc; "({word} {name}")?
    };
    Ok(text)
}

/// The line of an offset, from 1.
fn line_at(bytes: &[u8], offset: usize) -> usize {
    match byte_place(bytes, offset as u64) {
        Some(place) => place.line,
        None => 0,
    }
}

/// What is said of a list that is still open where a line begins, or of a bracket that closes it too early.
fn suspect_words(alloc: Global, bytes: &[u8], suspect: Suspect) -> Result<String, OutOfMemory> {
    match suspect {
        Suspect::StillOpen { list, line } => {
            let words = list_words(alloc, bytes, list)?;
            let line = line_at(bytes, line);
            let text = format!(in alloc;
                "by indentation: `{words}` is still open at line {line}, which is not indented further"
            )?;
            Ok(text)
        }
        Suspect::ClosedEarly { list, line, .. } => {
            let words = list_words(alloc, bytes, list)?;
            let start = line_at(bytes, list.offset);
            let line = line_at(bytes, line);
            let text = format!(in alloc;
                "by indentation: this bracket closes `{words}` of line {start}, and line {line} is indented as a part of it"
            )?;
            Ok(text)
        }
    }
}

/// The byte at which a suspect is shown.
fn shown_at(suspect: Suspect) -> usize {
    match suspect {
        Suspect::StillOpen { list, .. } => list.offset,
        Suspect::ClosedEarly { bracket, .. } => bracket,
    }
}

/// Appends what the indentation of lines says of brackets.
fn push_brackets(
    alloc: Global,
    text: &mut Vec<u8>,
    path: &str,
    bytes: &[u8],
) -> Result<(), OutOfMemory> {
    let Some(suspect) = first_suspect(alloc, bytes)? else {
        return Ok(());
    };
    let Some(place) = byte_place(bytes, shown_at(suspect) as u64) else {
        return Ok(());
    };
    let words = suspect_words(alloc, bytes, suspect)?;
    let note = located(alloc, path, bytes, place, Label::Note, &words)?;
    text.extend_from_slice(&note)?;
    Ok(())
}

/// Whether a file of this kind is laid out over lines, with the items of a list indented further.
fn is_indented(kind: FileKind) -> bool {
    matches!(
        kind,
        FileKind::Formula | FileKind::Specification | FileKind::Development
    )
}

/// Whether a refusal is of a bracket: at the end of the file one was never closed, else one closes nothing.
fn is_of_a_bracket(bytes: &[u8], refusal: &Refusal) -> bool {
    let (Refusal::Text(offset) | Refusal::CertText(offset)) = refusal else {
        return false;
    };
    let Ok(offset) = usize::try_from(*offset) else {
        return false;
    };
    match bytes.get(offset) {
        Some(byte) => *byte == b')',
        None => true,
    }
}

/// What is wrong before the byte that cannot be read, or the least wrong part of the item whose shape is wrong, if it is known.
fn known_part<'a>(bytes: &'a [u8], refusal: &Refusal) -> Option<Pointed<'a>> {
    match refusal {
        Refusal::Text(offset) => other_comment(bytes, usize::try_from(*offset).ok()?),
        Refusal::Shape(item) => wrong_part(bytes, item_place(bytes, *item)?),
        _ => None,
    }
}

/// Where and why a file of s-expressions is refused, as `explanation` has it; but if a list does not fit, of its least wrong part, if
/// that is known; of a comment of another language, of its sign; and of a bracket with what the indentation of lines says of it.
pub fn report(
    alloc: Global,
    path: &str,
    kind: FileKind,
    bytes: &[u8],
    refusal: &Refusal,
) -> Result<Option<Vec<u8>>, OutOfMemory> {
    if let Some(pointed) = known_part(bytes, refusal) {
        let sentence = pointed.sentence;
        let sentence = format!(in alloc; "{sentence}")?;
        let text = located(alloc, path, bytes, pointed.place, Label::Error, &sentence)?;
        return Ok(Some(text));
    }
    let Some(mut text) = explanation(alloc, path, kind, bytes, refusal)? else {
        return Ok(None);
    };
    if is_indented(kind) && is_of_a_bracket(bytes, refusal) {
        push_brackets(alloc, &mut text, path, bytes)?;
    }
    Ok(Some(text))
}
