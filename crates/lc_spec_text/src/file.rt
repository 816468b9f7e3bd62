//! How the specification at the head of a file is read.
ghost use Rattle.std.specs.Prelude.{◌≡◌, ℕ, List};
ghost use Rattle.lc_sexp.specs.Reads.{ReadsAs};
ghost use Rattle.lc_sexp.specs.Shown.{rest_of, number_of};
ghost use Rattle.lc_reading.specs.Files.{IsAnswerTo};
ghost use Rattle.lc_reading.specs.Results.{IsReading};
ghost use Rattle.lc_seq.specs.TextView.{specification_of};
ghost use Rattle.lc_spec_text.specs.Specifications.{first_reading};

use crate::specification::read_specification;
use lc_base::Fault;
use lc_reading::{NameTable, Pass, ReadFault, next_part, wrong};
use lc_seq::TextSpec;
use lc_sexp::{Cursor, Forms};
use std::alloc::Global;

/// What the first of the forms of a file says.
fn read_forms(alloc: Global, forms: Cursor<'_>) -> Result<TextSpec, ReadFault>
    requires { number_of forms ≡ 0 }
    ensures { IsReading specification_of (first_reading (rest_of forms.entry)) result }
{
    let mut rest = forms;
    let Ok(form) = next_part(&mut rest) else {
        return Err(wrong(Pass::Shape, 0));
    };
    read_specification(alloc, &NameTable::new(alloc), form)
}

/// The specification of the file with these forms. If it is none, `Refused` has its first refusal, as in
/// `spec_of`.
pub fn spec_in(alloc: Global, forms: Forms) -> Result<TextSpec, Fault>
    ensures { (bytes : List ℕ) → ReadsAs bytes forms → IsAnswerTo specification_of first_reading bytes result }
{
    let spec = read_forms(alloc, forms.cursor())?;
    Ok(spec)
}

/// The specification that the first form of a file is:
/// `(spec NAME (abstract COL*) (op NAME (ARG*) REPLIES BRANCH+)+)`. Forms after it are not looked at.
///
/// If it is none, `Refused` has the first refusal: `Text` with the offset of the first text fault of the whole
/// file; else of `Shape`, `Unknown`, `Repeated` and `Bound`, in this order, the first for which an item is wrong, with
/// the least such item. `OutOfMemory` says nothing about the file.
pub fn spec_of(alloc: Global, bytes: &[u8]) -> Result<TextSpec, Fault>
    ensures { IsAnswerTo specification_of first_reading bytes.now result }
{
    let forms = Forms::read(alloc, bytes)?;
    spec_in(alloc, forms)
}
