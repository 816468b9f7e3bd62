ghost use Rattle.std.specs.Prelude.{◌≡◌, ◌++◌, ◌≤◌, map, drop, length as list_length, slice_range, OnOk, IfOk};
ghost use Rattle.lc_place.specs.Excerpt.{is_break, shown, blank, caret, under_before, under_item, carets, cut_mark, is_cut_before, is_cut_at, IsInLine, characters_in, shown_line, shown_marks, IsExcerpt};

use crate::place::{Place, begins_character};
use crate::text::counted;
use lc_base::OutOfMemory;
use std::alloc::Global;

/// The most characters of a line that are shown.
const SHOWN: usize = 160;

/// The most of them that come before the item.
const SHOWN_BEFORE: usize = 100;

/// Whether a byte ends a line that is shown.
fn is_break(byte: u8) -> bool
    ensures { result ≡ is_break byte }
{
    byte == b'\n' || byte == b'\r'
}

/// A byte as it is shown: nothing that a terminal might obey, but for tabs.
fn shown(byte: u8) -> u8
    ensures { result ≡ shown byte }
{
    if byte <= 31 && byte != b'\t' || byte == 127 {
        b'?'
    } else {
        byte
    }
}

/// What is shown under a byte before the item.
fn blank(byte: u8) -> u8
    ensures { result ≡ blank byte }
{
    if byte == b'\t' { byte } else { b' ' }
}

/// What is shown under a byte of the item.
fn caret(byte: u8) -> u8
    ensures { result ≡ caret byte }
{
    if byte == b'\t' { byte } else { b'^' }
}

/// Appends bytes as they are shown.
fn push_shown(text: &mut Vec<u8>, bytes: &[u8]) -> Result<(), OutOfMemory>
    ensures { OnOk result (text.new.items ≡ text.old.items ++ map shown bytes.now) }
{
    for byte in bytes {
        text.push(shown(*byte))?;
    }
    Ok(())
}

/// Appends what is shown under bytes before the item.
fn push_under_before(text: &mut Vec<u8>, bytes: &[u8]) -> Result<(), OutOfMemory>
    ensures { OnOk result (text.new.items ≡ text.old.items ++ under_before bytes.now) }
{
    for byte in bytes {
        if begins_character(*byte) {
            text.push(blank(*byte))?;
        }
    }
    Ok(())
}

/// Appends marks, one for each character.
fn push_carets(text: &mut Vec<u8>, bytes: &[u8]) -> Result<(), OutOfMemory>
    ensures { OnOk result (text.new.items ≡ text.old.items ++ carets bytes.now) }
{
    for byte in bytes {
        if begins_character(*byte) {
            text.push(caret(*byte))?;
        }
    }
    Ok(())
}

/// Appends the marks under the item.
fn push_under_item(text: &mut Vec<u8>, bytes: &[u8]) -> Result<(), OutOfMemory>
    ensures { OnOk result (text.new.items ≡ text.old.items ++ under_item bytes.now) }
{
    text.push(b'^')?;
    let Some((_, others)) = bytes.split_first() else {
        return Ok(());
    };
    push_carets(text, others)
}

/// Appends three of these if the line is cut.
fn push_cut(text: &mut Vec<u8>, byte: u8, cut: bool) -> Result<(), OutOfMemory>
    ensures { OnOk result (text.new.items ≡ text.old.items ++ cut_mark byte cut) }
{
    if cut {
        text.extend_from_slice(&[byte, byte, byte])?;
    }
    Ok(())
}

/// Whether the line goes on before an offset.
fn is_cut_before(bytes: &[u8], offset: usize) -> bool
    requires { offset ≤ list_length bytes.now }
    ensures { result ≡ is_cut_before bytes.now offset }
{
    offset != 0 && !is_break(bytes[offset - 1])
}

/// Whether the line goes on at an offset.
fn is_cut_at(bytes: &[u8], offset: usize) -> bool
    ensures { result ≡ is_cut_at bytes.now offset }
{
    match bytes.get(offset) {
        Some(byte) => !is_break(*byte),
        None => false,
    }
}

/// How many characters begin in these bytes.
fn characters_in(bytes: &[u8]) -> usize
    ensures { result ≡ characters_in bytes.now }
{
    bytes.iter().filter(|byte| begins_character(**byte)).count()
}

/// From where the line of an offset is shown: at most `SHOWN_BEFORE` characters come before it.
fn window_start(bytes: &[u8], offset: usize) -> usize
    requires { offset ≤ list_length bytes.now }
    ensures before { result ≤ offset }
    ensures in_line { IsInLine (slice_range bytes.now result offset) }
    ensures few { characters_in (slice_range bytes.now result offset) ≤ 100 }
{
    let mut left = SHOWN_BEFORE;
    let mut from = offset;
    while from > 0 && left > 0 && !is_break(bytes[from - 1]) {
        from -= 1;
        left -= counted(begins_character(bytes[from]));
    }
    from
}

/// Up to where the line of an offset is shown: at most `room` characters from it on.
fn window_end(bytes: &[u8], offset: usize, room: usize) -> usize
    requires { offset ≤ list_length bytes.now }
    ensures behind { offset ≤ result }
    ensures within { result ≤ list_length bytes.now }
    ensures in_line { IsInLine (slice_range bytes.now offset result) }
    ensures few { characters_in (slice_range bytes.now offset result) ≤ room }
{
    let mut left = room;
    let mut to = offset;
    while to < bytes.len() && !is_break(bytes[to]) {
        let taken = counted(begins_character(bytes[to]));
        if left < taken {
            return to;
        }
        left -= taken;
        to += 1;
    }
    to
}

/// The line of a place, or a part of it, and the marks under the place. Neither ends with a line feed.
#[derive(Drop)]
pub struct Excerpt {
    pub line: Vec<u8>,
    pub marks: Vec<u8>,
}

/// The line that is shown.
fn shown_line(alloc: Global, bytes: &[u8], from: usize, to: usize) -> Result<Vec<u8>, OutOfMemory>
    requires behind { from ≤ to }
    requires within { to ≤ list_length bytes.now }
    ensures { IfOk result (λ line. line.items ≡ shown_line bytes.now from to) }
{
    let mut line = Vec::new(alloc);
    push_cut(&mut line, b'.', is_cut_before(bytes, from))?;
    push_shown(&mut line, &bytes[from..to])?;
    push_cut(&mut line, b'.', is_cut_at(bytes, to))?;
    Ok(line)
}

/// The marks under it.
fn shown_marks(
    alloc: Global,
    bytes: &[u8],
    from: usize,
    start: usize,
    until: usize,
) -> Result<Vec<u8>, OutOfMemory>
    requires before { from ≤ start }
    requires item { start ≤ until }
    requires within { until ≤ list_length bytes.now }
    ensures { IfOk result (λ marks. marks.items ≡ shown_marks bytes.now from start until) }
{
    let mut marks = Vec::new(alloc);
    push_cut(&mut marks, b' ', is_cut_before(bytes, from))?;
    push_under_before(&mut marks, &bytes[from..start])?;
    push_under_item(&mut marks, &bytes[start..until])?;
    Ok(marks)
}

/// The line of a place, or of a long line 160 characters with the place among them, and marks under the place as far as it goes in
/// that line.
pub fn line_excerpt(alloc: Global, bytes: &[u8], place: Place) -> Result<Excerpt, OutOfMemory>
    ensures { IfOk result (λ excerpt. IsExcerpt bytes.now place.offset place.length excerpt.line.items excerpt.marks.items) }
{
    let count = bytes.len();
    let start = place.offset.min(count);
    let from = window_start(bytes, start);
    let room = SHOWN - characters_in(&bytes[from..start]);
    let to = window_end(bytes, start, room);
    let until = start + place.length.min(to - start);
    let line = shown_line(alloc, bytes, from, to)?;
    let marks = shown_marks(alloc, bytes, from, start, until)?;
    Ok(Excerpt { line, marks })
}
