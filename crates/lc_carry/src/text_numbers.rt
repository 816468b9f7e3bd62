//! Numbers at texts, in little memory: texts share their pieces, and each piece is kept once.
ghost use Rattle.std.specs.Prelude.{◌≡◌, OnErr, OnOk};
ghost use Rattle.lc_carry.specs.TextNumbers.{noted};

use crate::pieces::{enter, known};
use indexmap::{IndexMap, IndexSet};
use lc_base::OutOfMemory;
use std::alloc::Global;
use std::marker::Model;

/// Numbers at texts. A text is kept as the numbers of its pieces.
pub(crate) struct TextNumbers {
    kept: IndexSet<Vec<u8>>,
    numbers: IndexMap<Vec<u32>, u64>,
}

impl Model for TextNumbers {
    ghost use Rattle.std.specs.Prelude.{ℕ, List};
    ghost use Rattle.lc_carry.specs.Pieces.{kept_in};
    ghost use Rattle.lc_carry.specs.TextNumbers.{listed, AreKeys};

    ghost Value = { List (List ℕ × ℕ) };

    ghost view = { λ t. listed (kept_in t.kept.keys) t.numbers.entries };

    ghost invariant = { λ t. AreKeys (kept_in t.kept.keys) t.numbers.entries };
}

// Written out and not derived, so that dropping a table is one call.
impl Drop for TextNumbers {
    fn drop(self) {
        let TextNumbers {
            kept: _,
            numbers: _,
        } = self;
    }
}

/// Notes a number at a key, unless there is one already.
fn note_key(
    numbers: &mut IndexMap<Vec<u32>, u64>,
    key: Vec<u32>,
    number: u64,
) -> Result<(), OutOfMemory>
    ensures noted { OnOk result (numbers.new.entries ≡ noted numbers.old.entries key number) }
    ensures unchanged { OnErr result (numbers.new.entries ≡ numbers.old.entries) }
{
    if !numbers.contains_key(key.as_slice()) {
        numbers.insert(key, number)?;
    }
    Ok(())
}

impl TextNumbers {
    ghost use Rattle.std.specs.Prelude.{◌≡◌, ℕ, List, [], Some, None, IfOk, OnOk, if◌then◌else◌};
    ghost use Rattle.std.specs.Option.{option_or};
    ghost use Rattle.lc_reading.specs.Words.{is};
    ghost use Rattle.lc_carry.specs.TextNumbers.{number_of};

    /// No numbers.
    pub(crate) fn new(alloc: Global) -> TextNumbers
        ensures { result ≡ [] }
    {
        TextNumbers {
            kept: IndexSet::new(alloc),
            numbers: IndexMap::new(alloc),
        }
    }

    /// The memory in which texts and numbers are kept.
    pub(crate) fn allocator(&self) -> Global {
        *self.kept.allocator()
    }

    /// The number at a text, if there is one.
    pub(crate) fn number(&self, alloc: Global, text: &[u8]) -> Result<Option<u64>, OutOfMemory>
        ensures { IfOk result (λ number. number ≡ number_of self.now text.now) }
    {
        let Some(key) = known(alloc, &self.kept, text)? else {
            return Ok(None);
        };
        Ok(self.numbers.get(key.as_slice()).copied())
    }

    /// Notes a number at a text, unless there is one already.
    pub(crate) fn note(&mut self, text: &[u8], number: u64) -> Result<(), OutOfMemory>
        ensures { OnOk result ((t : List ℕ) → number_of self.new t ≡ option_or (number_of self.old t) (if is t text.now then Some number else None)) }
    {
        let key = enter(&mut self.kept, text)?;
        note_key(&mut self.numbers, key, number)
    }
}
