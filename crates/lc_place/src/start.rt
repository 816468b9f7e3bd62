ghost use Rattle.std.specs.Prelude.{◌≡◌, ◌≤◌, ◌↔◌, ◌==◌, ◌||◌, ◌&&◌, not, IfSome, IsNone, drop, length};
ghost use Rattle.lc_sexp.specs.Text.{is_Letter, class_of};
ghost use Rattle.lc_sexp.specs.Reads.{text_of};
ghost use Rattle.lc_place.specs.Items.{items_in, Begins};

use crate::text::{is_letter, next_byte};

/// Whether an item begins at a byte of a text, after a letter or not.
fn begins_item(byte: u8, in_word: bool) -> bool
    ensures { result ≡ (byte == 40 || is_Letter (class_of byte) && not in_word) }
{
    byte == b'(' || is_letter(byte) && !in_word
}

/// Where the item of this number begins.
pub(crate) fn item_start(bytes: &[u8], number: u64) -> Option<usize>
    ensures within { IfSome result (λ offset. offset ≤ length bytes.now) }
    ensures begins { IfSome result (Begins bytes.now number) }
    ensures outside { IfSome result (λ offset. text_of (drop offset bytes.now) ≡ drop offset (text_of bytes.now)) }
    ensures none { IsNone result ↔ (items_in bytes.now ≤ number) }
{
    let mut left = number;
    let mut in_comment = false;
    let mut in_word = false;
    for (at, byte) in bytes.iter().enumerate() {
        let seen = next_byte(&mut in_comment, *byte);
        let begins = begins_item(seen, in_word);
        in_word = is_letter(seen);
        if !begins {
            continue;
        }
        if left == 0 {
            return Some(at);
        }
        left -= 1;
    }
    None
}
