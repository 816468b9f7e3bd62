//! What is expected where an item is, by the form of the list around it.
use crate::forms::{is_formula, is_instruction, is_rider, is_step};
use crate::table::{is_among, text_beside};

/// What is expected at a place of a list.
#[derive(Clone, Copy)]
pub(crate) enum Due<'a> {
    /// This part of its form.
    Part(&'a str),
    /// Nothing: the list has as many parts as its form.
    Nothing,
    /// That is not known: parts that may occur any number of times come before.
    Unknown,
}

/// Where the part ends that begins at an offset of a form.
fn part_end(form: &[u8], start: usize) -> usize {
    let mut depth = 0usize;
    for (place, byte) in form.iter().copied().enumerate().skip(start) {
        match byte {
            b' ' if depth == 0 => return place,
            b')' if depth == 0 => return place,
            b'(' => depth = depth.saturating_add(1),
            b')' => depth = depth.saturating_sub(1),
            _ => {}
        }
    }
    form.len()
}

/// What is expected after `part` items of a list that is written so.
pub(crate) fn due_in(form: &str, part: usize) -> Due<'_> {
    let mut start = 1;
    let mut last = "";
    for number in 0..form.len() {
        let end = part_end(form.as_bytes(), start);
        let text = form.get(start..end).unwrap_or("");
        let is_last = form.as_bytes().get(end) != Some(&b' ');
        if text == ".." {
            return if is_last {
                Due::Part(last)
            } else {
                Due::Unknown
            };
        }
        if number == part {
            return Due::Part(text);
        }
        if is_last {
            return Due::Nothing;
        }
        last = text;
        start = end.saturating_add(1);
    }
    Due::Unknown
}

/// How many parts a list has at least that is written so: each that may occur any number of times may be missing, unless `one` says that one
/// of the last has to be there.
pub(crate) fn least_count(form: &str, one: bool) -> usize {
    let mut start = 1;
    let mut count = 0usize;
    for _letter in form.as_bytes() {
        let end = part_end(form.as_bytes(), start);
        let is_last = form.as_bytes().get(end) != Some(&b' ');
        if form.get(start..end) != Some("..") {
            count = count.saturating_add(1);
        } else if !(one && is_last) {
            count = count.saturating_sub(1);
        }
        if is_last {
            return count;
        }
        start = end.saturating_add(1);
    }
    count
}

/// The word with which a list begins that is written so; empty if it is no word of the grammar.
pub(crate) fn head_of(part: &str) -> &str {
    let end = part_end(part.as_bytes(), 1);
    if part.starts_with('(') {
        part.get(1..end).unwrap_or("")
    } else {
        ""
    }
}

/// Whether a list that begins with a word may be there, if this part is expected.
pub(crate) fn may_stand(word: &str, part: &str) -> bool {
    match part {
        "P" => is_step(word),
        "F" | "T" | "(T ..)" => is_formula(word),
        "RIDER" => is_rider(word),
        "INSTRUCTION" => is_instruction(word),
        "HINT" => is_among(&["use", "cut", "by"], word),
        "STEP" => is_among(&["call", "upto", "times"], word),
        _ => head_of(part) == word,
    }
}

/// What is said of a part of the lists that begin with one of these words, or of any list if none is named: the words, the part, and
/// what is said.
type Note = (&'static [&'static str], &'static str, &'static str);

static NOTES: [Note; 18] = [
    (
        &["load", "store", "cas", "faa"],
        "(LOCAL ..)",
        ", one for each column of the array,",
    ),
    (
        &["load", "store", "cas", "faa"],
        "(T ..)",
        ", one for each column of the array,",
    ),
    (
        &["branch", "choice"],
        "(T ..)",
        ", as many as REPLIES says,",
    ),
    (
        &["branch", "choice"],
        "((COLUMN T T) ..)",
        ", of abstract columns,",
    ),
    (
        &["branch", "choice", "when", "if"],
        "F",
        ", which has no quantifier,",
    ),
    (&["return"], "T", ", as many as the operation has replies,"),
    (
        &["on"],
        "(ACTION T ..)",
        ", a declared action with as many T as it has parameters,",
    ),
    (
        &["lin-by", "note-by", "lin-other-by"],
        "T",
        ", as many as the choice has parameters,",
    ),
    (&["op"], "REPLIES", ", a number from 0 to 3,"),
    (
        &["call", "upto"],
        "NUMBER",
        ", as many as the operation has arguments,",
    ),
    (
        &["op"],
        "(branch ..)",
        ", or of (choice ..) for all of them,",
    ),
    (&["set"], "COLUMN", ", which is auxiliary,"),
    (&["when"], "RIDER", ", which is no `when`,"),
    (
        &["*"],
        "NUMBER",
        ", the number that a product has as its first part,",
    ),
    (&[], "(NAME a b)", ", a name and two numbers,"),
    (&[], "h", ", the number of a hypothesis,"),
    (
        &[],
        "(h NUMBER)",
        ", the number of a hypothesis and a factor,",
    ),
    (&[], "K", ", the number of a condition,"),
];

/// What is said of a part of the list that begins with this word, right after the part.
pub(crate) fn note_of(word: &str, part: &str) -> &'static str {
    for (words, due, text) in &NOTES {
        if *due == part && (words.is_empty() || is_among(words, word)) {
            return text;
        }
    }
    ""
}

/// How what is expected may be written, if its form is a letter or a word.
static LEGENDS: [(&str, &str); 9] = [
    ("T", TERMS),
    ("(T ..)", TERMS),
    (
        "F",
        "; F is (<= T T), (= T T), (not F), (and F ..), (or F ..), (=> F F), (forall NAME F) or (exists NAME F)",
    ),
    (
        "P",
        "; P begins with split, cases, push, inst, fresh, cut, written, same, affine, trich, divide, sum, opposite or open",
    ),
    (
        "RIDER",
        "; RIDER begins with set, when, lin, lin-other, note, lin-by, lin-other-by or note-by",
    ),
    (
        "INSTRUCTION",
        "; INSTRUCTION begins with load, store, cas, faa, set, if or return",
    ),
    ("HINT", "; HINT begins with use, cut or by"),
    ("STEP", "; STEP begins with call, upto or times"),
    ("EDGE", "; EDGE is next, or of `cas` and `if` then or else"),
];

const TERMS: &str = "; T is a number, a name, (+ T T), (- T T), (* NUMBER T) or (rd COLUMN T)";

/// How what is expected may be written, if its form is a letter or a word; else empty.
pub(crate) fn legend_of(part: &str) -> &'static str {
    text_beside(&LEGENDS, part)
}
