ghost use Rattle.std.specs.Prelude.{◌≡◌, ◌+◌, ◌≤◌, ◌<◌, ◌↔◌, IfSome, IsNone, IsTrue, count_by, slice_range, length as list_length};
ghost use Rattle.lc_place.specs.Items.{items_in};
ghost use Rattle.lc_place.specs.Lines.{line_of, column_of, begins_character, HasNoFeed};
ghost use Rattle.lc_place.specs.Place.{IsPlaceOf, IsItem, IsByte};

use crate::span::item_length;
use crate::start::item_start;
use memchr::memchr;

/// Where something is in the bytes of a file.
#[derive(Clone, Copy)]
pub struct Place {
    /// The offset of its first byte, from 0.
    pub offset: usize,
    /// How many bytes it has. The end of a file has none.
    pub length: usize,
    /// The line of its first byte, from 1. A line ends with a line feed.
    pub line: usize,
    /// The column of its first byte, from 1: characters are counted, if the bytes are UTF-8. A tab is one of them.
    pub column: usize,
}

/// Whether no line ends before an offset. It is looked for many bytes at a time, since the first line may be a long one.
fn is_in_first_line(bytes: &[u8], offset: usize) -> bool
    requires { offset ≤ list_length bytes.now }
    ensures { IsTrue result → HasNoFeed bytes.now offset }
{
    memchr(b'\n', &bytes[..offset]).is_none()
}

/// The line that a byte is in, from 1.
fn line_of(bytes: &[u8], offset: usize) -> usize
    requires { offset ≤ list_length bytes.now }
    ensures { result ≡ line_of bytes.now offset }
{
    if is_in_first_line(bytes, offset) {
        return 1;
    }
    bytes[..offset]
        .iter()
        .filter(|byte| **byte == b'\n')
        .count()
        + 1
}

/// Whether a byte begins a character: it does not go on with one, as the bytes 128 to 191 do in UTF-8.
pub(crate) fn begins_character(byte: u8) -> bool
    ensures { result ≡ begins_character byte }
{
    byte <= 127 || byte >= 192
}

/// Where the line of an offset begins.
fn line_start(bytes: &[u8], offset: usize) -> usize
    requires { offset ≤ list_length bytes.now }
    ensures within { result ≤ offset }
    ensures column { column_of bytes.now offset ≡ count_by begins_character (slice_range bytes.now result offset) + 1 }
{
    if is_in_first_line(bytes, offset) {
        return 0;
    }
    let mut from = offset;
    while from > 0 && bytes[from - 1] != b'\n' {
        from -= 1;
    }
    from
}

/// The column that a byte is in, from 1.
fn column_of(bytes: &[u8], offset: usize) -> usize
    requires { offset ≤ list_length bytes.now }
    ensures { result ≡ column_of bytes.now offset }
{
    bytes[line_start(bytes, offset)..offset]
        .iter()
        .filter(|byte| begins_character(**byte))
        .count()
        + 1
}

/// The place of `length` bytes from an offset on.
pub(crate) fn place_at(bytes: &[u8], offset: usize, length: usize) -> Place
    requires { offset ≤ list_length bytes.now }
    ensures { IsPlaceOf bytes.now offset length result }
{
    Place {
        offset,
        length,
        line: line_of(bytes, offset),
        column: column_of(bytes, offset),
    }
}

/// The place of the item of this number, where items are the atoms and the lists of a file, in preorder from 0. A list goes
/// up to the bracket that closes it, or to the end of the file if none does. `None` exactly if the file has no such item.
pub fn item_place(bytes: &[u8], number: u64) -> Option<Place>
    ensures item { IfSome result (IsItem bytes.now number) }
    ensures none { IsNone result ↔ (items_in bytes.now ≤ number) }
{
    let offset = item_start(bytes, number)?;
    let length = item_length(&bytes[offset..]);
    Some(place_at(bytes, offset, length))
}

/// The place of the byte at this offset, or of the end of the file. `None` exactly if the file ends before it.
pub fn byte_place(bytes: &[u8], offset: u64) -> Option<Place>
    ensures byte { IfSome result (IsByte bytes.now offset) }
    ensures none { IsNone result ↔ (list_length bytes.now < offset) }
{
    let count = bytes.len();
    if offset > count as u64 {
        return None;
    }
    let offset = offset as usize;
    Some(place_at(bytes, offset, 1.min(count - offset)))
}
