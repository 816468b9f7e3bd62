//! The lists of a file, one after another, in the order in which they begin.
use crate::around::word_at;
use lc_place::{Place, byte_place, item_place};
use lc_sexp::is_atom;
use std::str;

/// How many lists around a list are known by their words.
const KNOWN_DEPTH: usize = 8;

/// How many bytes of a list are looked at for the names in its first items, so that a file of many lists is not looked through for each.
const WINDOW: usize = 1_024;

/// Whether a byte is in a comment, by whether the one before it is.
pub(crate) fn is_in_comment(byte: u8, before: bool) -> bool {
    byte != b'\n' && (before || byte == b';')
}

/// The item that begins at an offset. Of its place the line and the column are not those of the file.
pub(crate) fn span_from(bytes: &[u8], offset: usize) -> Option<Place> {
    let item = item_place(bytes.get(offset..)?, 0)?;
    Some(Place { offset, ..item })
}

/// The place of the item that begins at an offset.
pub fn place_from(bytes: &[u8], offset: usize) -> Option<Place> {
    let item = span_from(bytes, offset)?;
    let place = byte_place(bytes, offset as u64)?;
    Some(Place {
        length: item.length,
        ..place
    })
}

/// The items of a list or of a text that were not looked at.
#[derive(Clone, Copy)]
pub(crate) struct Parts<'a> {
    /// The file up to the end of the last item.
    text: &'a [u8],
    at: usize,
}

impl<'a> Parts<'a> {
    /// All items that begin at an offset of a text or after it.
    pub(crate) fn new(text: &'a [u8], at: usize) -> Parts<'a> {
        Parts { text, at }
    }

    /// All items between the brackets of a list.
    pub(crate) fn of(bytes: &'a [u8], offset: usize, length: usize) -> Parts<'a> {
        let end = offset.saturating_add(length).saturating_sub(1);
        Parts::new(bytes.get(..end).unwrap_or(&[]), offset.saturating_add(1))
    }

    /// The item that comes next. Of its place the line and the column are not those of the file.
    pub(crate) fn next(&mut self) -> Option<Place> {
        let part = item_place(self.text.get(self.at..)?, 0)?;
        let offset = self.at.saturating_add(part.offset);
        self.at = offset.saturating_add(part.length);
        Some(Place { offset, ..part })
    }

    /// How many they are.
    pub(crate) fn count(mut self) -> usize {
        for count in 0..self.text.len() {
            if self.next().is_none() {
                return count;
            }
        }
        self.text.len()
    }
}

/// A list of a file.
#[derive(Clone, Copy)]
pub(crate) struct List<'a> {
    /// The file from its first bracket on.
    pub bytes: &'a [u8],
    /// Where it begins.
    pub offset: usize,
    /// How many lists are around it.
    pub depth: usize,
    /// The word with which it begins, which is empty if it begins with none.
    pub word: &'a str,
    /// The word of the list around it.
    pub outer: &'a str,
}

/// The file from an offset on.
fn rest_of(bytes: &[u8], offset: usize) -> &[u8] {
    bytes.get(offset..).unwrap_or(&[])
}

/// The first of these bytes, as many as are looked at for a word.
fn window(bytes: &[u8]) -> &[u8] {
    bytes.get(..WINDOW).unwrap_or(bytes)
}

/// The item of a number in these bytes, if it is an atom; empty if it is none.
fn atom_in(bytes: &[u8], number: u64) -> &str {
    match item_place(bytes, number) {
        Some(place) => word_at(bytes, place).unwrap_or(""),
        None => "",
    }
}

/// The atom with which these bytes begin, which is empty if they begin with none.
pub(crate) fn leading_atom(bytes: &[u8]) -> &str {
    let letters = bytes.iter().take_while(|byte| is_atom(&[**byte]));
    match bytes.get(..letters.count()) {
        Some(word) => str::from_utf8(word).unwrap_or(""),
        None => "",
    }
}

/// The word of the list with which these bytes begin, which is empty if it begins with none.
pub(crate) fn word_of_list(list: &[u8]) -> &str {
    let inside = window(rest_of(list, 1)).trim_ascii_start();
    match inside.first() {
        Some(b'(' | b')') | None => "",
        Some(first) if is_atom(&[*first]) => leading_atom(inside),
        Some(_) => atom_in(inside, 0),
    }
}

impl<'a> List<'a> {
    /// The list that begins at an offset; no list around it is known.
    pub(crate) fn at(bytes: &'a [u8], offset: usize) -> List<'a> {
        let bytes = rest_of(bytes, offset);
        List {
            bytes,
            offset,
            depth: 0,
            word: word_of_list(bytes),
            outer: "",
        }
    }

    /// Its items, in the bytes of the file that it is a list of.
    pub(crate) fn parts(&self, bytes: &'a [u8]) -> Parts<'a> {
        let length = match self.item(0) {
            Some(whole) => whole.length,
            None => 0,
        };
        Parts::of(bytes, self.offset, length)
    }

    /// Whether it begins with this word, and its second item is this name, if one is given.
    pub(crate) fn is_named(&self, word: &str, name: &str) -> bool {
        self.word == word && (name.is_empty() || self.atom(2) == name)
    }

    /// The place of an item, by its number in preorder from this list on; its offset counts from the list.
    pub(crate) fn item(&self, number: u64) -> Option<Place> {
        item_place(self.bytes, number)
    }

    /// The atom that is the item of a number, if it is near the beginning of the list; empty if there is none.
    pub(crate) fn atom(&self, number: u64) -> &'a str {
        atom_in(window(self.bytes), number)
    }
}

/// The lists of a file that were not looked at.
#[derive(Clone, Copy)]
pub(crate) struct Lists<'a> {
    bytes: &'a [u8],
    at: usize,
    depth: usize,
    in_comment: bool,
    words: [&'a str; KNOWN_DEPTH],
}

impl<'a> Lists<'a> {
    /// All lists of a file.
    pub(crate) fn new(bytes: &'a [u8]) -> Lists<'a> {
        Lists {
            bytes,
            at: 0,
            depth: 0,
            in_comment: false,
            words: [""; KNOWN_DEPTH],
        }
    }

    /// The word of the list that is open around one at this depth.
    fn word_around(&self, depth: usize) -> &'a str {
        match depth.checked_sub(1) {
            Some(outer) => match self.words.get(outer) {
                Some(word) => word,
                None => "",
            },
            None => "",
        }
    }

    /// The list that begins at an offset.
    fn opened(&mut self, offset: usize) -> List<'a> {
        let bytes = rest_of(self.bytes, offset);
        let depth = self.depth;
        let word = word_of_list(bytes);
        let outer = self.word_around(depth);
        if let Some(place) = self.words.get_mut(depth) {
            *place = word;
        }
        self.depth = depth.saturating_add(1);
        List {
            bytes,
            offset,
            depth,
            word,
            outer,
        }
    }

    /// The list that begins next.
    pub(crate) fn next(&mut self) -> Option<List<'a>> {
        let start = self.at;
        for (step, byte) in rest_of(self.bytes, start).iter().enumerate() {
            match *byte {
                b';' => self.in_comment = true,
                b'\n' => self.in_comment = false,
                b'(' if !self.in_comment => {
                    let at = start.saturating_add(step);
                    self.at = at.saturating_add(1);
                    return Some(self.opened(at));
                }
                b')' if !self.in_comment => self.depth = self.depth.saturating_sub(1),
                _ => {}
            }
        }
        self.at = self.bytes.len();
        None
    }
}
