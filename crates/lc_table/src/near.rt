//! Hashes that lie near one another for what is entered one after another.
ghost use Rattle.std.specs.Prelude.{◌≡◌};
ghost use Rattle.lc_table.specs.Near.{number_in, with_number};

use indexmap::{IndexMap, IndexSet};
use std::hash::{BuildHasherDefault, FoldHasher, Hasher};

/// A map whose keys are made of numbers.
pub type NearMap<K, V> = IndexMap<K, V, BuildHasherDefault<NearHasher>>;

/// A set of what is made of numbers.
pub type NearSet<T> = IndexSet<T, BuildHasherDefault<NearHasher>>;

/// As many consecutive numbers as differ in the last bits of their hashes alone.
const NEAR: u64 = 64;

/// Hashes what is written as a `FoldHasher` does, but for the last bits of the largest number, which stay the last bits of the
/// hash. What is entered after something else is often made of the same numbers but for the largest, which is a little larger.
/// A map then goes through its memory in order, where it would wait at each entry for memory that lies anywhere.
#[derive(Clone, Copy)]
pub struct NearHasher {
    folded: FoldHasher,
    /// The largest number so far.
    largest: u64,
}

impl Default for NearHasher {
    ghost use Rattle.std.specs.Prelude.{◌≡◌};
    ghost use Rattle.lc_table.specs.Near.{initial};

    ghost is_default = { λ h. h ≡ initial };

    fn default() -> NearHasher {
        NearHasher {
            folded: FoldHasher::default(),
            largest: 0,
        }
    }
}

// The number that is written in four or eight bytes, the lowest first.
#[inline(always)]
fn number_in(bytes: &[u8]) -> Option<u64>
    ensures { result ≡ number_in bytes.now }
{
    match bytes.len() {
        4 => Some(u64::from(u32::from_le_bytes([bytes[0], bytes[1], bytes[2], bytes[3]]))),
        8 => Some(u64::from_le_bytes([
            bytes[0], bytes[1], bytes[2], bytes[3], bytes[4], bytes[5], bytes[6], bytes[7],
        ])),
        _ => None,
    }
}

impl NearHasher {
    ghost use Rattle.std.specs.Prelude.{◌≡◌};
    ghost use Rattle.lc_table.specs.Near.{with_number};

    // Hashes the smaller of this number and the largest so far, in a form that shows which of them came first.
    #[inline(always)]
    fn write_number(&mut self, number: u64)
        ensures { self.new ≡ with_number self.old number }
    {
        if number < self.largest {
            self.folded.write_u64(number);
        } else {
            self.folded.write_u64(u64::MAX - self.largest);
            self.largest = number;
        }
    }
}

impl Hasher for NearHasher {
    ghost use Rattle.lc_table.specs.Near.{write, finish};

    ghost write = { write };

    ghost finish = { finish };

    #[inline(always)]
    fn finish(&self) -> u64 {
        let mut folded = self.folded;
        folded.write_u64(self.largest / NEAR);
        folded.finish() ^ (self.largest % NEAR)
    }

    #[inline(always)]
    fn write(&mut self, bytes: &[u8]) {
        match number_in(bytes) {
            Some(number) => self.write_number(number),
            None => self.folded.write(bytes),
        }
    }
}
