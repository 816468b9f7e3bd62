//! Tables by words.

/// What a table has beside a word, if it has the word.
pub(crate) fn beside<T: Copy>(table: &[(&'static str, T)], word: &str) -> Option<T> {
    for (own, value) in table {
        if *own == word {
            return Some(*value);
        }
    }
    None
}

/// The text that a table has beside a word; empty if it does not have the word.
pub(crate) fn text_beside(table: &[(&'static str, &'static str)], word: &str) -> &'static str {
    beside(table, word).unwrap_or("")
}

/// Whether a word is one of these.
pub(crate) fn is_among(words: &[&'static str], word: &str) -> bool {
    for own in words {
        if *own == word {
            return true;
        }
    }
    false
}
