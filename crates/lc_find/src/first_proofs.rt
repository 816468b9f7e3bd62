//! The first of some proofs that there is for a condition.
ghost use Rattle.std.specs.Prelude.{◌≡◌, ℕ, Some, None, OnOk, if◌then◌else◌, ◌==◌};
ghost use Rattle.std.specs.Map.{lookup};
ghost use Rattle.std.specs.Option.{option_or};
ghost use Rattle.lc_cert.specs.EntryView.{entries_of};
ghost use Rattle.lc_find.specs.FirstProofs.{place_at};

use indexmap::IndexMap;
use lc_base::OutOfMemory;
use lc_cert::Entry;
use lc_kernel::Proof;
use std::alloc::Global;

/// Proofs in the order of their file, and for each number its first place.
pub(crate) struct FirstProofs<'a> {
    entries: &'a [Entry],
    places: IndexMap<u64, usize>,
    ghost placed: { (number : ℕ) → lookup (λ key. number == key) places.entries ≡ place_at (entries_of entries.now) number },
}

impl Drop for FirstProofs<'_> {
    fn drop(self) {
        let FirstProofs {
            entries: _,
            places: _,
        } = self;
    }
}

/// Notes the place of a number, unless it has one already.
fn note_place(
    places: &mut IndexMap<u64, usize>,
    number: u64,
    place: usize,
) -> Result<(), OutOfMemory>
    ensures { OnOk result ((n : ℕ) →
        lookup (λ key. n == key) places.new.entries ≡ option_or (lookup (λ key. n == key) places.old.entries) (if n == number then Some place else None)) }
{
    if !places.contains_key(&number) {
        places.insert(number, place)?;
    }
    Ok(())
}

impl<'a> FirstProofs<'a> {
    ghost use Rattle.std.specs.Prelude.{◌≡◌, IfOk, option_map};
    ghost use Rattle.lc_kernel.specs.View.{proof_of};
    ghost use Rattle.lc_cert.specs.Certificates.{proof_at};
    ghost use Rattle.lc_cert.specs.EntryView.{entries_of};
    ghost use Rattle.lc_find.specs.FirstView.{placed_in};

    /// The first of these proofs, by their numbers.
    pub(crate) fn new(alloc: Global, entries: &'a [Entry]) -> Result<FirstProofs<'a>, OutOfMemory>
        ensures { IfOk result (λ first. placed_in first ≡ entries_of entries.now) }
    {
        let mut places = IndexMap::new(alloc);
        for (place, entry) in entries.iter().enumerate() {
            note_place(&mut places, entry.number, place)?;
        }
        Ok(FirstProofs { entries, places })
    }

    /// The first proof of a number, if there is one.
    pub(crate) fn first(&self, number: u64) -> Option<&Proof>
        ensures { option_map (λ p. proof_of p.now) result ≡ proof_at (placed_in self.now) number }
    {
        let place = self.places.get(&number).copied()?;
        let entry = self.entries.get(place)?;
        Some(&entry.proof)
    }
}
