//! Where the elements of the arrays of a JSON text are.
use lc_place::{Place, byte_place};

/// Whether the bytes that were walked end inside of a text in quotes.
#[derive(Clone, Copy)]
struct Quotes {
    is_open: bool,
    is_escaped: bool,
}

impl Quotes {
    const NONE: Quotes = Quotes {
        is_open: false,
        is_escaped: false,
    };

    /// Goes on by a byte, and returns whether it is outside of such texts and begins none.
    fn pass(&mut self, byte: u8) -> bool {
        if self.is_escaped {
            self.is_escaped = false;
            return false;
        }
        if self.is_open {
            self.is_escaped = byte == b'\\';
            self.is_open = byte != b'"';
            return false;
        }
        self.is_open = byte == b'"';
        !self.is_open
    }
}

/// Whether a text ends with this key, in quotes, and a colon.
fn ends_with_key(before: &[u8], key: &[u8]) -> bool {
    let Some(before) = before.trim_ascii_end().strip_suffix(b":") else {
        return false;
    };
    let Some(before) = before.trim_ascii_end().strip_suffix(b"\"") else {
        return false;
    };
    let Some(before) = before.strip_suffix(key) else {
        return false;
    };
    before.ends_with(b"\"")
}

/// Where the array under a key begins; the last one, if the key occurs twice.
fn array_offset(bytes: &[u8], key: &[u8]) -> Option<usize> {
    let mut found = None;
    let mut quotes = Quotes::NONE;
    let mut depth = 0usize;
    for (at, byte) in bytes.iter().enumerate() {
        if !quotes.pass(*byte) {
            continue;
        }
        match byte {
            b'[' | b'{' => {
                if depth == 1 && *byte == b'[' && ends_with_key(&bytes[..at], key) {
                    found = Some(at);
                }
                depth = depth.saturating_add(1);
            }
            b']' | b'}' => depth = depth.saturating_sub(1),
            _ => {}
        }
    }
    found
}

/// From where to where an element of the array goes with which these bytes begin.
fn element_span(array: &[u8], index: usize) -> Option<(usize, usize)> {
    let mut first = None;
    let mut quotes = Quotes::NONE;
    let mut depth = 0usize;
    let mut left = index;
    for (at, byte) in array.iter().enumerate() {
        let outside = quotes.pass(*byte);
        let ends = outside && depth == 1 && (*byte == b',' || *byte == b']');
        if ends {
            if let Some(from) = first {
                return Some((from, at));
            }
            left = left.checked_sub(1)?;
        } else if depth == 1 && left == 0 && first.is_none() && !byte.is_ascii_whitespace() {
            first = Some(at);
        }
        match byte {
            b'[' | b'{' if outside => depth = depth.saturating_add(1),
            b']' | b'}' if outside => depth = depth.saturating_sub(1),
            _ => {}
        }
        if depth == 0 {
            return None;
        }
    }
    None
}

/// Where an element of the array under a key of the object that a JSON text is begins, by its number from 0.
pub fn element_place(bytes: &[u8], key: &str, index: usize) -> Option<Place> {
    let offset = array_offset(bytes, key.as_bytes())?;
    let array = bytes.get(offset..)?;
    let (from, to) = element_span(array, index)?;
    let length = array.get(from..to)?.trim_ascii_end().len();
    let place = byte_place(bytes, offset.saturating_add(from) as u64)?;
    Some(Place { length, ..place })
}

/// How many elements the array has under a key of the object that a JSON text is.
pub fn element_count(bytes: &[u8], key: &str) -> usize {
    let Some(offset) = array_offset(bytes, key.as_bytes()) else {
        return 0;
    };
    let array = bytes.get(offset..).unwrap_or(&[]);
    let mut quotes = Quotes::NONE;
    let mut depth = 0usize;
    let mut count = 0usize;
    for byte in array {
        let outside = quotes.pass(*byte);
        if depth == 1 && count == 0 && !byte.is_ascii_whitespace() && *byte != b']' {
            count = 1;
        }
        match byte {
            b'[' | b'{' if outside => depth = depth.saturating_add(1),
            b']' | b'}' if outside => depth = depth.saturating_sub(1),
            b',' if outside && depth == 1 => count = count.saturating_add(1),
            _ => {}
        }
        if depth == 0 {
            return count;
        }
    }
    count
}
