//! How a file is read at once, each s-expression into memory of its own.
ghost use Rattle.std.specs.Prelude.{◌≤◌, length, IfOk};
ghost use Rattle.lc_sexp.specs.Trees.{row, item_count_of_all};
ghost use Rattle.lc_sexp.specs.Answers.{IsAnswerInParts};

use crate::forms::Forms;
use crate::sexp::Sexp;
use lc_base::Fault;
use std::alloc::Global;

/// Reads a file of s-expressions, each into memory of its own. `Forms::read` reads them into one, which costs
/// less.
///
/// Returns the trees that it reads as. If it reads as none, returns `Refused(Text(offset))` with the offset of
/// its first fault: a byte that may not be there, a `)` without a list, a `(` nested deeper than 1,000, the
/// byte beyond the file limit, or the end, if a list is open. `OutOfMemory` says nothing about either.
pub fn read(alloc: Global, bytes: &[u8]) -> Result<Vec<Sexp>, Fault>
    ensures answer { IsAnswerInParts bytes.now result }
    ensures counted { IfOk result (λ forms. item_count_of_all (row forms.items) ≤ length bytes.now) }
{
    let forms = Forms::read(alloc, bytes)?;
    Ok(forms.parts(alloc)?)
}
