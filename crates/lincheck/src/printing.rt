//! Printing answers.
ghost use Rattle.std.specs.Prelude.{◌≡◌, IfErr, IfOk, OnOk};
ghost use Rattle.std.specs.Io.KnownBytes.{Appends, Keeps};

use crate::answer::{Answer, Failure, Why};
use std::io::Write;

/// Has what was written come out.
pub fn finish<'a, O: Write>(out: &mut O) -> Result<(), Failure<'a>>
    ensures bytes { OnOk result (Keeps (O.contents out.old) (O.contents out.new)) }
    ensures fails { IfErr result (λ failure. failure ≡ Failure.CannotWrite) }
{
    match out.flush() {
        Ok(()) => Ok(()),
        Err(_) => Err(Failure::CannotWrite),
    }
}

/// Prints an answer, and returns its status.
pub fn print_answer<'a, O: Write>(out: &mut O, answer: &Answer) -> Result<u8, Failure<'a>>
    ensures prints { IfOk result (λ status. (status ≡ answer.now.status) × Appends (O.contents out.old) (O.contents out.new) answer.now.text.items) }
    ensures fails { IfErr result (λ failure. failure ≡ Failure.CannotWrite) }
{
    if out.write_all(&answer.text).is_err() {
        return Err(Failure::CannotWrite);
    }
    finish(out)?;
    Ok(answer.status)
}

/// Prints an answer, returns its status, and hands out why it is refused.
pub fn print_told<'a, O: Write>(
    out: &mut O,
    why: &mut Option<Why>,
    answer: &Answer,
) -> Result<u8, Failure<'a>>
    ensures prints { IfOk result (λ status. (status ≡ answer.now.status) × Appends (O.contents out.old) (O.contents out.new) answer.now.text.items) }
    ensures fails { IfErr result (λ failure. failure ≡ Failure.CannotWrite) }
{
    *why = answer.why;
    print_answer(out, answer)
}
