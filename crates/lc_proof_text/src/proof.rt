//! How a proof is read.
ghost use Rattle.std.specs.Prelude.{◌≡◌, zero};
ghost use Rattle.lc_sexp.specs.Shown.{rest_of, number_of, owner_of};
ghost use Rattle.lc_kernel.specs.Proofs as S;
ghost use Rattle.lc_kernel.specs.View.{multiple_of, step_of, proof_of};
ghost use Rattle.lc_reading.specs.Parts.{tree_of, place_of};
ghost use Rattle.lc_reading.specs.Readings.{Reading, both};
ghost use Rattle.lc_reading.specs.Results.{IsReading, IsPushed, misshapen_too};
ghost use Rattle.lc_proof_text.specs.Heads.{own_parts};
ghost use Rattle.lc_proof_text.specs.Own.{IsBegun, branches_of, multiples_of};
ghost use Rattle.lc_proof_text.specs.Proofs.{sum_reading, proof_reading, proofs_reading, with_proofs};
ghost use Rattle.lc_proof_text.specs.Steps.{multiple_reading, multiples_reading, step_reading};

use crate::head::{Due, Head, head_of, is_sum};
use crate::numbers::only_numbers;
use crate::step::read_own;
use lc_kernel::{Multiple, Proof, Step};
use lc_reading::{
    Part, Pass, ReadFault, Reads, both, headed, misshapen_too, next_part, pushed, read_each, wrong,
};
use lc_sexp::{Cursor, Item, Misfit};
use lc_text::Scope;
use std::alloc::Global;

/// `(h k)`
fn read_multiple(part: Part<'_>) -> Result<Multiple, ReadFault>
    ensures { IsReading multiple_of (multiple_reading (place_of part.entry) (tree_of part.entry)) result }
{
    let list = match part.item() {
        Item::Atom(atom) => return Err(wrong(Pass::Shape, atom.number())),
        Item::List(list) => list,
    };
    let (hypothesis, multiplier) = only_numbers(list)?;
    Ok(Multiple {
        hypothesis,
        multiplier,
    })
}

/// Reads multiples of hypotheses.
struct Multiples;

impl Reads for Multiples {
    ghost use Rattle.std.specs.Prelude.{ℤ};
    ghost use Rattle.lc_kernel.specs.View.{multiple_of};
    ghost use Rattle.lc_proof_text.specs.Steps.{multiple_reading, step_reading};

    type Value = Multiple;

    ghost Meaning = { ℤ × ℤ };

    ghost meaning = { multiple_of };

    ghost reading = { λ _. multiple_reading };

    fn read(&self, _alloc: Global, part: Part<'_>) -> Result<Multiple, ReadFault> {
        read_multiple(part)
    }
}

/// The multiples that the items read as that are left in a list. If one is wrong, all are read anew, to tell what is wrong.
fn read_multiples(alloc: Global, list: Cursor<'_>) -> Result<Vec<Multiple>, ReadFault>
    ensures { IsReading multiples_of (multiples_reading (number_of list.entry) (rest_of list.entry)) result }
{
    let mut multiples = Vec::with_capacity(alloc, list.len())?;
    let mut rest = list;
    'multiples: while let Ok(part) = next_part(&mut rest) {
        let Ok(multiple) = read_multiple(part) else {
            return read_each(alloc, &Multiples, list);
        };
        multiples.push(multiple)?;
    }
    Ok(multiples)
}

/// `(sum (h k) ..)`
#[inline(never)]
fn read_sum(alloc: Global, list: Cursor<'_>) -> Result<Proof, ReadFault>
    ensures { IsReading proof_of (sum_reading (number_of list.entry) (rest_of list.entry)) result }
{
    let multiples = read_multiples(alloc, list)?;
    Ok(Proof {
        step: Step::Sum { multiples },
        branches: Vec::new(alloc),
    })
}

/// The step that begins so, of its own parts; the list is left at the rest after them. It is not one of the functions that call
/// one another, so that each of their levels takes little of the stack: so do `finished` and `pushed_proof`.
#[inline(never)]
fn read_begun<'a, S: Scope>(
    alloc: Global,
    scope: &S,
    head: Head,
    list: &mut Cursor<'a>,
) -> Result<Result<Step, ReadFault>, Misfit>
    ensures { IsBegun (step_reading (S.names scope.now) head (owner_of list.old) (number_of list.old) (rest_of list.old)) (own_parts head) list.old result list.new }
{
    let (step, rest) = read_own(alloc, scope, head, *list)?;
    *list = rest;
    Ok(step)
}

/// A step with its branches.
#[inline(never)]
fn finished(
    step: Result<Step, ReadFault>,
    branches: Result<Vec<Proof>, ReadFault>,
) -> Result<Proof, ReadFault>
    ensures { (r : Reading S.Step) (s : Reading S.Proofs) → IsReading step_of r step → IsReading branches_of s branches → IsReading proof_of (both S.proof r s) result }
{
    let (step, branches) = both(step, branches)?;
    Ok(Proof { step, branches })
}

/// One proof more, if all before it are read; else what is wrong in any.
#[inline(never)]
fn pushed_proof(
    proofs: Result<Vec<Proof>, ReadFault>,
    proof: Result<Proof, ReadFault>,
) -> Result<Vec<Proof>, ReadFault>
    ensures { IsPushed proofs proof result }
{
    pushed(proofs, proof)
}

/// The proofs, with the flaw too that an item is misshapen. It is not one of the functions that call one another.
#[inline(never)]
fn with_misshapen(proofs: Result<Vec<Proof>, ReadFault>, item: u64) -> Result<Vec<Proof>, ReadFault>
    ensures { result ≡ misshapen_too item proofs }
{
    misshapen_too(proofs, item)
}

/// The proof that an item reads as: a step, with its proofs.
#[cycle(read_proof)]
pub fn read_proof<S: Scope>(alloc: Global, scope: &S, part: Part<'_>) -> Result<Proof, ReadFault>
    ensures { IsReading proof_of (proof_reading (S.names scope.now) (place_of part.entry) (tree_of part.entry)) result }
{
    let list = match part.item() {
        Item::Atom(atom) => return Err(wrong(Pass::Shape, atom.number())),
        Item::List(list) => list,
    };
    let (word, mut parts) = headed(list)?;
    if is_sum(word) {
        return read_sum(alloc, parts);
    }
    match head_of(word) {
        Some(head) => read_step(alloc, scope, head, &mut parts),
        None => Err(wrong(Pass::Shape, list.owner())),
    }
}

/// The proof of a list's other parts that begins so.
#[cycle(read_proof)]
#[inline(never)]
fn read_step<S: Scope>(
    alloc: Global,
    scope: &S,
    head: Head,
    list: &mut Cursor<'_>,
) -> Result<Proof, ReadFault>
    ensures { IsReading proof_of (with_proofs (S.names scope.now) head (owner_of list.old) (number_of list.old) (rest_of list.old)) result }
{
    let owner = list.owner();
    let step = read_begun(alloc, scope, head, list)?;
    finished(
        step,
        read_branches(alloc, scope, owner, head.proofs_due(), list),
    )
}

/// The proofs that are expected among the items that are left in a list.
#[cycle(read_proof)]
fn read_branches<S: Scope>(
    alloc: Global,
    scope: &S,
    owner: u64,
    due: Due,
    list: &mut Cursor<'_>,
) -> Result<Vec<Proof>, ReadFault>
    ensures { IsReading branches_of (proofs_reading (S.names scope.now) owner zero due (number_of list.old) (rest_of list.old)) result }
{
    let mut due = due;
    let mut proofs = Ok(Vec::with_capacity(alloc, list.len())?);
    'proofs: loop {
        let number = list.number();
        let Ok(part) = next_part(list) else {
            return if due.is_met() {
                proofs
            } else {
                with_misshapen(proofs, owner)
            };
        };
        if due.is_full() {
            return with_misshapen(proofs, number);
        }
        proofs = pushed_proof(proofs, read_proof(alloc, scope, part));
        due = due.later();
    }
}
