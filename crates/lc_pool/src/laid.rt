//! The conditions of one part, laid out to be proved.
ghost use Rattle.std.specs.Prelude.{◌≡◌, ◌+◌, ◌<◌, ◌≤◌, length, IfOk, IfSome, IsTrue};
ghost use Rattle.lc_base.specs.Limits.{file_limit};
ghost use Rattle.lc_kernel.specs.Proofs.{size};
ghost use Rattle.lc_kernel.specs.View.{proof_of};
ghost use Rattle.lc_outline.specs.Development.{Development as Shown};
ghost use Rattle.lc_outline.specs.DevelopmentView.{development_view};
ghost use Rattle.lc_cond.specs.Numbering.{IsNumbering};
ghost use Rattle.lc_pool.specs.Desks.{IsLaid};
ghost use Rattle.lc_pool.specs.Known.{IsDerived};

use lc_base::{Fault, OutOfMemory};
use lc_check::prove_one;
use lc_cond::laws::{conditions_have_few_variables, conditions_use_their_variables};
use lc_cond::{NumberedPart, Numbering};
use lc_kernel::Proof;
use lc_outline::Development;
use lc_table::Terms;
use std::alloc::Global;

/// The conditions of one part, in a table of their own.
pub(crate) struct Laid {
    terms: Terms,
    part: NumberedPart,
}

impl Drop for Laid {
    fn drop(self) {
        let Laid { terms: _, part: _ } = self;
    }
}

/// No conditions.
pub(crate) fn nothing_laid(alloc: Global) -> Laid
    ensures { (D : Shown) → IsLaid D result }
{
    let terms = Terms::new(alloc);
    let conditions = Vec::new(alloc);
    let part = NumberedPart {
        first: 0,
        conditions,
    };
    Laid { terms, part }
}

/// Where the condition of this number is in the part that is laid out, if it is there.
fn place_of(laid: &Laid, number: u64) -> Option<usize>
    ensures { IfSome result (λ place. (place < length laid.now.part.conditions.items) × (number ≡ laid.now.part.first + place)) }
{
    let place = number.checked_sub(laid.part.first)? as usize;
    if place < laid.part.conditions.len() {
        return Some(place);
    }
    None
}

/// Lays out the part that has the condition of this number, if it does not lie there.
pub(crate) fn lay_out(
    alloc: Global,
    development: &Development,
    numbering: &Numbering,
    laid: &mut Laid,
    number: u64,
) -> Result<(), OutOfMemory>
    requires numbering { IsNumbering (development_view development.now) numbering.now }
    requires laid { IsLaid (development_view development.now) laid.old }
    ensures { IsLaid (development_view development.now) laid.new }
{
    if place_of(laid, number).is_some() {
        return Ok(());
    }
    let mut terms = Terms::new(alloc);
    let part = numbering.part_with(alloc, development, &mut terms, number)?;
    *laid = Laid { terms, part };
    Ok(())
}

/// Whether a proof derives the condition of this number, if that is laid out.
pub(crate) fn derives(
    alloc: Global,
    development: &Development,
    laid: &mut Laid,
    number: u64,
    proof: &Proof,
) -> Result<bool, OutOfMemory>
    requires laid { IsLaid (development_view development.now) laid.old }
    requires steps { size (proof_of proof.now) ≤ file_limit }
    ensures derived { IfOk result (λ good. IsTrue good → IsDerived (development_view development.now) number (proof_of proof.now)) }
    ensures laid { IsLaid (development_view development.now) laid.new }
{
    let Some(place) = place_of(laid, number) else {
        return Ok(false);
    };
    conditions_use_their_variables(development);
    conditions_have_few_variables(development);
    let condition = &laid.part.conditions[place];
    match prove_one(alloc, &mut laid.terms, number, condition, proof) {
        Ok(()) => Ok(true),
        Err(Fault::Refused(_)) => Ok(false),
        Err(Fault::OutOfMemory) => Err(OutOfMemory),
    }
}
