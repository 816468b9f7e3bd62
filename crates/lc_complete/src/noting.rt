//! A text with a comment at the end of lines.
ghost use Rattle.std.specs.Prelude.{◌≡◌, ◌++◌, IfOk, OnOk};
ghost use Rattle.lc_complete.specs.Noted.{is_marked, line_behind, noted, noted_byte};

use lc_base::OutOfMemory;
use std::alloc::Global;

/// What is said at the end of a line that was inferred.
const COMMENT: &[u8] = b"  ; inferred";

/// Whether a line is marked.
fn is_marked(marks: &[bool], line: usize) -> bool
    ensures { result ≡ is_marked marks.now line }
{
    match marks.get(line) {
        Some(mark) => *mark,
        None => false,
    }
}

/// Appends a byte of a line that is marked or not.
fn push_noted(text: &mut Vec<u8>, mark: bool, byte: u8) -> Result<(), OutOfMemory>
    ensures { OnOk result (text.new.items ≡ text.old.items ++ noted_byte mark byte) }
{
    if byte == b'\n' && mark {
        text.extend_from_slice(COMMENT)?;
    }
    text.push(byte)?;
    Ok(())
}

/// A text with the comment at the end of each line that is marked.
pub(crate) fn noted(alloc: Global, text: &[u8], marks: &[bool]) -> Result<Vec<u8>, OutOfMemory>
    ensures { IfOk result (λ whole. whole.items ≡ noted marks.now text.now) }
{
    let mut whole = Vec::with_capacity(alloc, text.len())?;
    let mut line = 0usize;
    for byte in text {
        let mark = is_marked(marks, line);
        push_noted(&mut whole, mark, *byte)?;
        if *byte == b'\n' {
            line += 1;
        }
    }
    Ok(whole)
}
