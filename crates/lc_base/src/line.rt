//! The lines that answers print: a word and numbers.
ghost use Rattle.std.specs.Prelude.{◌≡◌, IfOk};
ghost use Rattle.lc_base.specs.Line.{line_of, refusal_line_of};

use crate::memory::OutOfMemory;
use crate::refusal::Refusal;
use std::alloc::Global;

/// A word, each number after one space, and a line feed.
pub fn write_line(alloc: Global, word: &str, numbers: &[u64]) -> Result<Vec<u8>, OutOfMemory>
    ensures { IfOk result (λ line. line.items ≡ line_of word.now numbers.now) }
{
    let mut line = Vec::from_slice(alloc, word.as_bytes())?;
    for number in numbers {
        let text = format!(in alloc; " {number}")?;
        line.extend_from_slice(text.as_bytes())?;
    }
    line.push(b'\n')?;
    Ok(line)
}

/// The line that a refusal prints: `refused`, its code, its numbers, and a line feed.
pub fn refusal_line(alloc: Global, refusal: &Refusal) -> Result<Vec<u8>, OutOfMemory>
    ensures { IfOk result (λ line. line.items ≡ refusal_line_of refusal.now) }
{
    let line = format!(in alloc; "{refusal}\n")?;
    Ok(line.into_bytes())
}
