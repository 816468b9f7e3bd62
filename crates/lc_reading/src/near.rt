//! Hashes that lie near one another for names that differ in their last letter.
use indexmap::IndexMap;
use std::hash::{BuildHasherDefault, FoldHasher, Hasher};

/// A map by names.
pub(crate) type NameMap<'a, V> = IndexMap<&'a str, V, BuildHasherDefault<NearHasher>>;

/// Hashes a name as a `FoldHasher` does, but for its last letter, which is put on top of the last bits of the hash.
/// Consecutive names often differ in their last digit alone: a map then finds them at places one after another, where it would
/// wait at each name for memory that lies anywhere.
#[derive(Clone, Copy)]
pub(crate) struct NearHasher {
    folded: FoldHasher,
    /// The last letter, as a number.
    last: u64,
}

impl Default for NearHasher {
    ghost use Rattle.std.specs.Prelude.{◌≡◌};
    ghost use Rattle.lc_reading.specs.Near.{initial};

    ghost is_default = { λ h. h ≡ initial };

    fn default() -> NearHasher {
        NearHasher {
            folded: FoldHasher::default(),
            last: 0,
        }
    }
}

impl Hasher for NearHasher {
    ghost use Rattle.lc_reading.specs.Near.{write, finish};

    ghost write = { write };

    ghost finish = { finish };

    #[inline(always)]
    fn finish(&self) -> u64 {
        self.folded.finish() ^ self.last
    }

    #[inline(always)]
    fn write(&mut self, bytes: &[u8]) {
        if bytes.len() <= 1 {
            self.folded.write(bytes);
            return;
        }
        let end = bytes.len() - 1;
        self.folded.write(&bytes[..end]);
        self.last = u64::from(bytes[end]);
    }
}
