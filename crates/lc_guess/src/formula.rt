//! Formulas as text.
use lc_base::OutOfMemory;
use std::alloc::Global;

/// What words of a text are separated by.
pub(crate) const MARKS: [char; 3] = ['(', ')', ' '];

/// Whether one of these words is in a text.
pub(crate) fn has_word(text: &str, words: &[&str]) -> bool {
    for word in text.split(MARKS) {
        for other in words {
            if *other == word {
                return true;
            }
        }
    }
    false
}

/// A text with another text for a word.
pub(crate) fn with_word(
    alloc: Global,
    text: &str,
    word: &str,
    by: &str,
) -> Result<String, OutOfMemory> {
    let mut out = String::new(alloc);
    for piece in text.split_inclusive(MARKS) {
        let found = piece.trim_end_matches(MARKS);
        out.push_str(if found == word { by } else { found })?;
        if let Some(mark) = piece.strip_prefix(found) {
            out.push_str(mark)?;
        }
    }
    Ok(out)
}

/// The cell of a column at an index.
pub(crate) fn cell_at(alloc: Global, column: &str, index: &str) -> Result<String, OutOfMemory> {
    Ok(format!(in alloc; "(rd {column} {index})")?)
}

/// That the cell of a column at an index holds a number.
pub(crate) fn holds(
    alloc: Global,
    column: &str,
    index: &str,
    number: &str,
) -> Result<String, OutOfMemory> {
    Ok(format!(in alloc; "(= (rd {column} {index}) {number})")?)
}

/// That a formula does not hold.
pub(crate) fn negated(alloc: Global, formula: &str) -> Result<String, OutOfMemory> {
    Ok(format!(in alloc; "(not {formula})")?)
}

/// The other side of an equation with a term, if it is one.
pub(crate) fn other_side<'b>(equation: &'b str, term: &str) -> Option<&'b str> {
    let sides = equation.strip_prefix("(= ")?.strip_suffix(")")?;
    if let Some(behind) = sides.strip_prefix(term)
        && let Some(side) = behind.strip_prefix(" ")
    {
        return Some(side);
    }
    sides.strip_suffix(term)?.strip_suffix(" ")
}
