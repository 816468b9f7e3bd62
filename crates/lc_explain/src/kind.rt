//! Kinds of files.
use crate::around::first_word;
use crate::table::beside;
use lc_place::item_place;

/// What a file is read as.
#[derive(Clone, Copy, PartialEq, Eq)]
pub enum FileKind {
    Formula,
    /// A file that begins with a specification, as a development does.
    Specification,
    Development,
    Certificate,
    Hints,
    Plan,
    History,
}

impl FileKind {
    /// What it is called.
    pub fn name(self) -> &'static str {
        match self {
            FileKind::Formula => "a formula file",
            FileKind::Specification => "a specification",
            FileKind::Development => "a development",
            FileKind::Certificate => "a certificate",
            FileKind::Hints => "a file of hints",
            FileKind::Plan => "a plan",
            FileKind::History => "a history",
        }
    }

    /// Whether a file that looks like another kind may be read as this one.
    pub(crate) fn takes(self, seen: FileKind) -> bool {
        self == seen || self == FileKind::Specification && seen == FileKind::Development
    }

    /// How many forms the file has.
    pub(crate) fn form_count(self) -> usize {
        match self {
            FileKind::Development => 2,
            _ => 1,
        }
    }

    /// The forms of the file.
    pub(crate) fn forms(self) -> &'static str {
        match self {
            FileKind::Formula => "(formula ..)",
            FileKind::Specification => "(spec ..)",
            FileKind::Development => "(spec ..) (object ..)",
            FileKind::Certificate => "(certificate ..)",
            FileKind::Hints => "(hints ..)",
            FileKind::Plan => "(plan ..)",
            FileKind::History => "{\"events\":[..],\"order\":[..]}",
        }
    }
}

/// Kinds of files, by the words of their first forms.
static FIRST_WORDS: [(&str, FileKind); 6] = [
    ("formula", FileKind::Formula),
    ("spec", FileKind::Development),
    ("object", FileKind::Development),
    ("certificate", FileKind::Certificate),
    ("hints", FileKind::Hints),
    ("plan", FileKind::Plan),
];

/// How many bytes are looked at for the first form, so that a long file is not read to its end for a word.
const LOOKED_AT: usize = 65_536;

/// What a file looks like, by its first byte and the word of its first form, which begins in the first 65,536 bytes.
pub fn looks_like(bytes: &[u8]) -> Option<FileKind> {
    let bytes = &bytes[..bytes.len().min(LOOKED_AT)];
    if bytes.trim_ascii_start().first() == Some(&b'{') {
        return Some(FileKind::History);
    }
    let form = item_place(bytes, 0)?;
    beside(&FIRST_WORDS, first_word(bytes, form))
}
