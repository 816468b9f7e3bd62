//! Names, refusals and lines.
ghost use Rattle.std.specs.Prelude.{◌≡◌, ◌↔◌, ◌≤◌, true, IfOk, IfSome, IsSome, length};
ghost use Rattle.lc_base.specs.Limits.{name_limit};
ghost use Rattle.lc_base.specs.Line.{line_of, refusal_line_of};
ghost use Rattle.lc_base.specs.Name.{bytes_of};
ghost use Rattle.lc_base.specs.NameText.{is_name};
ghost use Rattle.lc_base.specs.Refusal.{code_of};
ghost use Rattle.lc_base.specs.declared.refusal.Fault.TheVariants.{OutOfMemory as NoMemory};

use lc_base::{Fault, Name, OutOfMemory, Refusal, code, refusal_line, write_line};
use std::alloc::Global;

/// A text is a name exactly if it is spelled as one, within the limit.
pub fn making_a_name(text: &str) -> Option<Name>
    ensures valid { IsSome result ↔ ((is_name text.now ≡ true) × (length text.now ≤ name_limit)) }
    ensures value { IfSome result (λ name. bytes_of name ≡ text.now) }
{
    Name::new(text)
}

/// Out of memory is no refusal.
pub fn running_out_of_memory(fault: OutOfMemory) -> Fault
    ensures { result ≡ NoMemory }
{
    Fault::from(fault)
}

/// The code of a refusal is its number in the table.
pub fn coding(refusal: &Refusal) -> u8
    ensures { result ≡ code_of refusal.now }
{
    code(refusal)
}

/// A line is its word, each number after one space, and a line feed.
pub fn writing_a_line(alloc: Global, word: &str, numbers: &[u64]) -> Result<Vec<u8>, OutOfMemory>
    ensures { IfOk result (λ line. line.items ≡ line_of word.now numbers.now) }
{
    write_line(alloc, word, numbers)
}

/// The line of a refusal has its code and each of its numbers.
pub fn writing_a_refusal(alloc: Global, refusal: &Refusal) -> Result<Vec<u8>, OutOfMemory>
    ensures { IfOk result (λ line. line.items ≡ refusal_line_of refusal.now) }
{
    refusal_line(alloc, refusal)
}
