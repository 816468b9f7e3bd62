//! Words and signs of other languages, and how what they say is written here.
use crate::table::text_beside;

/// How lists are written that begin with a word of another language.
static WRITTEN: [(&str, &str); 19] = [
    ("<", "(<= (+ a 1) b)"),
    (">", "(<= (+ b 1) a)"),
    (">=", "(<= b a)"),
    ("==", "(= a b)"),
    ("!=", "(not (= a b))"),
    ("<>", "(not (= a b))"),
    ("/=", "(not (= a b))"),
    ("&&", "(and F ..)"),
    ("&", "(and F ..)"),
    ("||", "(or F ..)"),
    ("|", "(or F ..)"),
    ("!", "(not F)"),
    ("->", "(=> F F)"),
    ("==>", "(=> F F)"),
    ("implies", "(=> F F)"),
    ("<=>", "(and (=> F F) (=> F F))"),
    ("iff", "(and (=> F F) (=> F F))"),
    ("select", "(rd COLUMN T)"),
    ("ite", "(and (=> F F) (=> (not F) F))"),
];

/// How a list is written that begins with a word of another language; empty if the word is none that is known.
pub(crate) fn written_for(word: &str) -> &'static str {
    text_beside(&WRITTEN, word)
}

/// Whether a word begins a comment in other languages.
pub(crate) fn begins_comment(word: &str) -> bool {
    word.starts_with("//")
        || word.starts_with('#')
        || word.starts_with("--")
        || word.starts_with("/*")
}

/// Where the line of an offset begins.
fn line_start(bytes: &[u8], offset: usize) -> usize {
    let mut start = 0;
    for (at, byte) in bytes.iter().copied().enumerate() {
        if at >= offset {
            break;
        }
        if byte == b'\n' {
            start = at.saturating_add(1);
        }
    }
    start
}

/// How many bytes the sign has with which these begin, if it begins comments in another language; 0 if none does.
fn sign_length(line: &[u8]) -> usize {
    if line.starts_with(b"//") || line.starts_with(b"/*") {
        2
    } else if line.starts_with(b"#") {
        1
    } else {
        0
    }
}

/// A sign that begins comments in another language.
#[derive(Clone, Copy)]
pub(crate) struct CommentSign {
    pub offset: usize,
    pub length: usize,
}

/// The sign with which the line of an offset begins, after blanks, if it begins comments in another language.
pub(crate) fn comment_sign(bytes: &[u8], offset: usize) -> Option<CommentSign> {
    let line = bytes.get(line_start(bytes, offset)..)?.trim_ascii_start();
    let length = sign_length(line);
    if length == 0 {
        return None;
    }
    Some(CommentSign {
        offset: bytes.len().checked_sub(line.len())?,
        length,
    })
}

/// Whether the line of an offset is a comment of another language.
pub(crate) fn is_other_comment(bytes: &[u8], offset: usize) -> bool {
    comment_sign(bytes, offset).is_some()
}

/// The operator of another language that is at an offset; empty if none is known.
pub(crate) fn operator_at(bytes: &[u8], offset: usize) -> &'static str {
    let rest = bytes.get(offset..).unwrap_or(&[]);
    if rest.starts_with(b"!=") {
        "!="
    } else if rest.starts_with(b"!") {
        "!"
    } else if rest.starts_with(b"&") {
        "&&"
    } else if rest.starts_with(b"|") {
        "||"
    } else {
        ""
    }
}
