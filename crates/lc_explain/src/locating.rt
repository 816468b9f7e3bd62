//! A sentence of a place, with the line of the file.
ghost use Rattle.std.specs.Prelude.{◌≡◌, ◌++◌, IfOk, OnOk};
ghost use Rattle.std.specs.Fmt.{decimal};
ghost use Rattle.lc_explain.specs.Located.{IsLocated, behind_margin, blanks, position, said};

use crate::label::Label;
use lc_base::OutOfMemory;
use lc_place::{Place, line_excerpt};
use std::alloc::Global;

/// The digits of a number.
fn digits_of(alloc: Global, number: usize) -> Result<Vec<u8>, OutOfMemory>
    ensures { IfOk result (λ digits. digits.items ≡ decimal number) }
{
    let text = format!(in alloc; "{number}")?;
    Ok(text.into_bytes())
}

/// As many spaces as there are digits.
fn blanks(alloc: Global, digits: &[u8]) -> Result<Vec<u8>, OutOfMemory>
    ensures { IfOk result (λ text. text.items ≡ blanks digits.now) }
{
    let mut text = Vec::new(alloc);
    for _digit in digits {
        text.push(b' ')?;
    }
    Ok(text)
}

/// Appends the path, the line and the column of a place.
fn push_position(
    alloc: Global,
    text: &mut Vec<u8>,
    path: &str,
    place: Place,
) -> Result<(), OutOfMemory>
    ensures { OnOk result (text.new.items ≡ text.old.items ++ position path.now place) }
{
    let line = digits_of(alloc, place.line)?;
    let column = digits_of(alloc, place.column)?;
    text.extend_from_slice(path.as_bytes())?;
    text.extend_from_slice(b":")?;
    text.extend_from_slice(&line)?;
    text.extend_from_slice(b":")?;
    text.extend_from_slice(&column)?;
    Ok(())
}

/// Appends a sentence, with its label before it.
fn push_said(text: &mut Vec<u8>, label: Label, sentence: &str) -> Result<(), OutOfMemory>
    ensures { OnOk result (text.new.items ≡ text.old.items ++ said label sentence.now) }
{
    text.extend_from_slice(b": ")?;
    text.extend_from_slice(label.word().as_bytes())?;
    text.extend_from_slice(b": ")?;
    text.extend_from_slice(sentence.as_bytes())?;
    text.extend_from_slice(b"\n")?;
    Ok(())
}

/// Appends a line, with a margin before it.
fn push_behind_margin(text: &mut Vec<u8>, margin: &[u8], line: &[u8]) -> Result<(), OutOfMemory>
    ensures { OnOk result (text.new.items ≡ text.old.items ++ behind_margin margin.now line.now) }
{
    text.extend_from_slice(b"    ")?;
    text.extend_from_slice(margin)?;
    text.extend_from_slice(b" | ")?;
    text.extend_from_slice(line)?;
    text.push(b'\n')?;
    Ok(())
}

/// A sentence of a place in the file at a path, and the line of the place, or a part of it, with marks under the place.
pub fn located(
    alloc: Global,
    path: &str,
    bytes: &[u8],
    place: Place,
    label: Label,
    sentence: &str,
) -> Result<Vec<u8>, OutOfMemory>
    ensures { IfOk result (λ text. IsLocated path.now bytes.now place label sentence.now text.items) }
{
    let excerpt = line_excerpt(alloc, bytes, place)?;
    let digits = digits_of(alloc, place.line)?;
    let blanks = blanks(alloc, &digits)?;
    let mut text = Vec::new(alloc);
    push_position(alloc, &mut text, path, place)?;
    push_said(&mut text, label, sentence)?;
    push_behind_margin(&mut text, &digits, &excerpt.line)?;
    push_behind_margin(&mut text, &blanks, &excerpt.marks)?;
    Ok(text)
}
