//! A proof of the next condition: the first that the hints have, if it holds; else one that is sought.
ghost use Rattle.std.specs.Prelude.{◌≡◌, List, IfOk};
ghost use Rattle.lc_outline.specs.DevelopmentView.{development_view};
ghost use Rattle.lc_cert.specs.Certificates.{Entry as Proved, HaveFewSteps};
ghost use Rattle.lc_check.specs.Walking.{HasNext, IsKnown, IsInTurn};
ghost use Rattle.lc_find.specs.FirstView.{all_of};
ghost use Rattle.lc_find.specs.Taken.{IsHintTaken, IsSought, IsTaken};

use crate::candidates::Candidates;
use crate::fault::FindFault;
use crate::progress::Progress;
use lc_base::{FILE_LIMIT, Fault, OutOfMemory};
use lc_cert::Entry;
use lc_check::Walk;
use lc_hints::Hints;
use lc_outline::Development;
use lc_search::{End, search};
use std::alloc::Global;

/// The first proof that the hints have for the next condition, if it holds.
fn hinted_entry(
    alloc: Global,
    development: &Development,
    walk: &mut Walk,
    first: &Candidates<'_>,
) -> Result<Option<Entry>, OutOfMemory>
    requires in_turn { (taken : List Proved) × IsInTurn (development_view development.now) taken walk.old }
    requires stands { HasNext walk.old }
    requires steps { HaveFewSteps (all_of first.now) }
    ensures { IfOk result (IsHintTaken (development_view development.now) (all_of first.now) walk.old walk.new) }
{
    let number = walk.next;
    let Some(proof) = first.first(number) else {
        return Ok(None);
    };
    match walk.prove_next(alloc, development, proof) {
        Ok(()) => {
            let proof = proof.try_clone(alloc)?;
            Ok(Some(Entry { number, proof }))
        }
        Err(Fault::Refused(_)) => Ok(None),
        Err(Fault::OutOfMemory) => Err(OutOfMemory),
    }
}

/// What a search for a proof of the next condition comes to.
fn sought(alloc: Global, walk: &Walk, hints: &Hints, budget: u64) -> Result<End, OutOfMemory>
    requires known { IsKnown walk.now }
    requires stands { HasNext walk.now }
{
    let uses = hints.terms(walk.next);
    let cuts = hints.formulas(walk.next);
    let condition = &walk.part[walk.place];
    let searched = search(alloc, &walk.terms, &condition.goal, uses, cuts, budget)?;
    Ok(searched.end)
}

/// A proof of the next condition that is sought, in at most `budget` steps; reports the model in which the search ended, if it did, or
/// why it was given up.
fn sought_entry<P: Progress>(
    alloc: Global,
    development: &Development,
    walk: &mut Walk,
    hints: &Hints,
    budget: u64,
    progress: &mut P,
) -> Result<Entry, FindFault>
    requires in_turn { (taken : List Proved) × IsInTurn (development_view development.now) taken walk.old }
    requires stands { HasNext walk.old }
    ensures { IsSought (development_view development.now) budget walk.old walk.new result }
{
    let number = walk.next;
    if budget == 0 {
        return Err(FindFault::Budget(number));
    }
    let proof = match sought(alloc, walk, hints, budget)? {
        End::Found(proof) => proof,
        End::NotFound(model) => {
            progress.ended(model);
            return Err(FindFault::NotFound(number));
        }
        End::Spent(cause) => {
            progress.given_up(cause);
            return Err(FindFault::Budget(number));
        }
        End::Large => return Err(FindFault::Large(number)),
    };
    if proof.step_count() > FILE_LIMIT {
        return Err(FindFault::Budget(number));
    }
    match walk.prove_next(alloc, development, &proof) {
        Ok(()) => Ok(Entry { number, proof }),
        Err(Fault::Refused(_)) => Err(FindFault::NotFound(number)),
        Err(Fault::OutOfMemory) => Err(FindFault::OutOfMemory),
    }
}

/// A proof of the next condition.
pub(crate) fn next_entry<P: Progress>(
    alloc: Global,
    development: &Development,
    walk: &mut Walk,
    first: &Candidates<'_>,
    hints: &Hints,
    budget: u64,
    progress: &mut P,
) -> Result<Entry, FindFault>
    requires in_turn { (taken : List Proved) × IsInTurn (development_view development.now) taken walk.old }
    requires stands { HasNext walk.old }
    requires steps { HaveFewSteps (all_of first.now) }
    ensures { IsTaken (development_view development.now) (all_of first.now) budget walk.old walk.new result }
{
    match hinted_entry(alloc, development, walk, first) {
        Ok(Some(entry)) => Ok(entry),
        Ok(None) => sought_entry(alloc, development, walk, hints, budget, progress),
        Err(OutOfMemory) => Err(FindFault::OutOfMemory),
    }
}
