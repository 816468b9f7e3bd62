ghost use Rattle.std.specs.Prelude.{◌≡◌, ◌+◌, ◌-◌, ◌<◌, ◌^◌, ◌==◌, true, if◌then◌else◌};
ghost use Rattle.lc_sexp.specs.Reads.{text_of};
ghost use Rattle.lc_sexp.specs.Text.{begins_word};
ghost use Rattle.lc_place.specs.Items.{begins_list, begins_item, IsListOf, IsWordOf, IsItemOf};

use crate::text::{is_letter, next_byte};

/// How many lists are open after a byte of a text.
fn depth_behind(depth: usize, byte: u8) -> usize
    requires { depth + 1 < 2 ^ 64 }
    ensures { result ≡ (if byte == 40 then depth + 1 else (if byte == 41 then depth - 1 else depth)) }
{
    match byte {
        b'(' => depth + 1,
        b')' => depth.saturating_sub(1),
        _ => depth,
    }
}

/// How many bytes the list has with which these begin: up to the bracket that closes it, or all if none does.
fn list_length(bytes: &[u8]) -> usize
    requires { begins_list (text_of bytes.now) ≡ true }
    ensures { IsListOf (text_of bytes.now) result }
{
    let mut in_comment = false;
    let mut depth = 0;
    for (at, byte) in bytes.iter().enumerate() {
        let seen = next_byte(&mut in_comment, *byte);
        depth = depth_behind(depth, seen);
        if depth == 0 {
            return at + 1;
        }
    }
    bytes.len()
}

/// How many letters are at the front.
fn word_length(bytes: &[u8]) -> usize
    requires { begins_word (text_of bytes.now) ≡ true }
    ensures { IsWordOf (text_of bytes.now) result }
{
    for (at, byte) in bytes.iter().enumerate() {
        if !is_letter(*byte) {
            return at;
        }
    }
    bytes.len()
}

/// How many bytes the item has with which these begin.
pub(crate) fn item_length(bytes: &[u8]) -> usize
    requires { begins_item (text_of bytes.now) ≡ true }
    ensures { IsItemOf (text_of bytes.now) result }
{
    if bytes[0] == b'(' {
        list_length(bytes)
    } else {
        word_length(bytes)
    }
}
