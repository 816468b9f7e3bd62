//! Where files are opened, as a trait.
ghost use Rattle.std.specs.Prelude.{◌≡◌, ℕ, List, Option, Some, None, IfOk, IfSome, IsErr};

use lc_base::OutOfMemory;
use std::io;
use std::io::Read;

/// Where files are opened: the system's files, or files in memory.
pub trait Files {
    type Reader: Read + Drop;

    // The bytes of the file at a path, if they are known.
    ghost bytes_at: { Self → List ℕ → Option (List ℕ) } = { λ _ _. None };

    // It is known that no file can be opened at a path.
    ghost CannotOpen: { Self → List ℕ → Type 0 } = { λ _ _. ⊥ };

    /// Opens the file at a path, to be read from its first byte on. The bytes of files stay as they are.
    fn open(&mut self, path: &str) -> io::Result<Self::Reader>
        ensures keeps { (other : List ℕ) → bytes_at self.new other ≡ bytes_at self.old other }
        ensures closed { (other : List ℕ) → CannotOpen self.old other → CannotOpen self.new other }
        ensures fails { CannotOpen self.old path.now → IsErr result }
        ensures reads { IfOk result (λ reader. IfSome (bytes_at self.old path.now) (λ bytes. Self.Reader.remaining reader ≡ Some bytes)) };

    /// Takes note of the bytes that were read next of the file that was opened last. The bytes of files stay as they are.
    fn note(&mut self, _piece: &[u8]) -> Result<(), OutOfMemory>
        ensures keeps { (other : List ℕ) → bytes_at self.new other ≡ bytes_at self.old other }
        ensures closed { (other : List ℕ) → CannotOpen self.old other → CannotOpen self.new other }
    {
        Ok(())
    }
}
