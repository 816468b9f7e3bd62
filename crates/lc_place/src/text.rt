//! The bytes of a file as its text has them.
ghost use Rattle.std.specs.Prelude.{◌≡◌, ℕ, List, ◌∷◌, if◌then◌else◌};
ghost use Rattle.lc_sexp.specs.Text.{uncommented, is_Letter, class_of};

use lc_sexp::is_atom;

/// The next byte of a file as its text has it, in which a comment counts as spaces. Whether it is in a comment is kept.
pub(crate) fn next_byte(in_comment: &mut bool, byte: u8) -> u8
    ensures { (rest : List ℕ) → uncommented in_comment.old (byte ∷ rest) ≡ result ∷ uncommented in_comment.new rest }
{
    if byte == b'\n' {
        *in_comment = false;
        return byte;
    }
    if *in_comment || byte == b';' {
        *in_comment = true;
        return b' ';
    }
    byte
}

/// Whether a byte may be in an atom.
pub(crate) fn is_letter(byte: u8) -> bool
    ensures { result ≡ is_Letter (class_of byte) }
{
    is_atom(&[byte])
}

/// 1 if a test holds, else 0.
pub(crate) fn counted(test: bool) -> usize
    ensures { result ≡ (if test then 1 else 0) }
{
    if test { 1 } else { 0 }
}
