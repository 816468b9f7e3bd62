//! How a short development is read.
ghost use Rattle.std.specs.Prelude.{◌≡◌, ℕ, List};
ghost use Rattle.lc_sexp.specs.Reads.{ReadsAs};
ghost use Rattle.lc_fill.specs.FillingView.{filling_view};
ghost use Rattle.lc_short.specs.Answers.{IsShortAnswer, IsFilledAnswer};
ghost use Rattle.lc_short.specs.Shorts.{at_meant};

use crate::short::Short;
use lc_base::{Fault, Refusal};
use lc_fill::{Filling, Plan, fill};
use lc_outline_text::{development_in, development_of};
use lc_sexp::Forms;
use std::alloc::Global;

/// A refusal of what a file is filled up to, at the item of the file that is meant.
fn at_meant(filling: &Filling, refusal: Refusal) -> Refusal
    ensures { result ≡ at_meant (filling_view filling.now).gaps refusal }
{
    match refusal {
        Refusal::Shape(item) => Refusal::Shape(filling.meant(item)),
        Refusal::Unknown(item) => Refusal::Unknown(filling.meant(item)),
        Refusal::Repeated(item) => Refusal::Repeated(filling.meant(item)),
        Refusal::Auxiliary(item) => Refusal::Auxiliary(filling.meant(item)),
        Refusal::Bound(item) => Refusal::Bound(filling.meant(item)),
        _ => refusal,
    }
}

/// The same, where nothing else is asked of what was filled.
fn meant_in(filling: Filling, refusal: Refusal) -> Refusal
    ensures { result ≡ at_meant (filling_view filling).gaps refusal }
{
    at_meant(&filling, refusal)
}

/// What the forms of a file say with what was left out put in.
fn read_filled(alloc: Global, forms: &Forms) -> Result<Short, Fault>
    ensures { IsFilledAnswer forms.now result }
{
    let plan = Plan::none(alloc)?;
    let filling = fill(alloc, &plan, forms)?;
    let text = filling.text(alloc)?;
    let whole = match development_of(alloc, &text) {
        Ok(whole) => whole,
        Err(Fault::Refused(refusal)) => return Err(Fault::Refused(meant_in(filling, refusal))),
        Err(Fault::OutOfMemory) => return Err(Fault::OutOfMemory),
    };
    let lacking = Vec::from_slice(alloc, filling.lacking())?;
    Ok(Short { whole, lacking })
}

/// The short development of the file with these forms. If it is none, `Refused` has its first refusal, as in `short_of`.
pub fn short_in(alloc: Global, forms: &Forms) -> Result<Short, Fault>
    ensures { (bytes : List ℕ) → ReadsAs bytes forms.now → IsShortAnswer bytes result }
{
    match development_in(alloc, forms) {
        Ok(whole) => Ok(Short {
            whole,
            lacking: Vec::new(alloc),
        }),
        Err(Fault::Refused(_)) => read_filled(alloc, forms),
        Err(Fault::OutOfMemory) => Err(Fault::OutOfMemory),
    }
}

/// The short development that a file is: `SPEC OBJECT` as in a development, where `(aux ..)`, `(invariant ..)`, `(idle ..)` and
/// `(assert ..)` may be left out, and so may the action after an edge:
///
/// ```text
/// POINT ::= (point NAME INSTR [(assert F*)] ON*)
/// ON    ::= (on EDGE [(ACTION T*)] RIDER*)
/// ```
///
/// The list after EDGE is a rider if it begins with a rider's word that names no action. An edge that stores needs no `on`. A
/// development is a short one that lacks nothing. If it is none, `Refused` has the first refusal, as of a development, by the items
/// of the file; of a part that was put in, at the item before which it is.
pub fn short_of(alloc: Global, bytes: &[u8]) -> Result<Short, Fault>
    ensures { IsShortAnswer bytes.now result }
{
    let forms = Forms::read(alloc, bytes)?;
    short_in(alloc, &forms)
}
