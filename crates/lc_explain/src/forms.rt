//! How the lists of files are written, by the word with which they begin and the one of the list that they are in.
use crate::declared::Sort;
use crate::spot::head_of;
use crate::table::{is_among, text_beside};

/// A specification's lists, and an object's but for its code.
static PARTS: [&str; 15] = [
    "(spec NAME (abstract COL ..) (op ..) ..)",
    "(abstract (NAME a b) ..)",
    "(op NAME (ARG ..) REPLIES (branch ..) ..)",
    "(branch F ((COLUMN T T) ..) (T ..))",
    "(choice NAME (PARAM ..) F ((COLUMN T T) ..) (T ..))",
    "(object NAME (array ..) .. (aux ..) (action ..) .. (invariant ..) (idle ..) (body ..) ..)",
    "(array NAME (NAME a b) ..)",
    "(aux (NAME a b) ..)",
    "(action NAME (PARAM ..) F (COLUMN T T) ..)",
    "(invariant (NAME F) ..)",
    "(idle F ..)",
    "(body OP (LOCAL ..) (point ..) ..)",
    "(point NAME INSTRUCTION (assert F ..) (on ..) ..)",
    "(assert F ..)",
    "(on EDGE (ACTION T ..) RIDER ..)",
];

/// Instructions.
static INSTRUCTIONS: [&str; 7] = [
    "(load ARRAY T (LOCAL ..) POINT)",
    "(store ARRAY T (T ..) POINT)",
    "(cas ARRAY T (T ..) (T ..) POINT POINT)",
    "(faa ARRAY T (LOCAL ..) (T ..) POINT)",
    "(set ((LOCAL T) ..) POINT)",
    "(if F POINT POINT)",
    "(return T ..)",
];

/// What is beside the code at an edge.
static RIDERS: [&str; 8] = [
    "(set COLUMN T T)",
    "(lin)",
    "(note)",
    "(lin-other T OP)",
    "(lin-by CHOICE T ..)",
    "(note-by CHOICE T ..)",
    "(lin-other-by T OP CHOICE T ..)",
    "(when F RIDER)",
];

/// Terms, columns and formulas.
static FORMULAS: [&str; 12] = [
    "(+ T T)",
    "(- T T)",
    "(* NUMBER T)",
    "(rd COLUMN T)",
    "(<= T T)",
    "(= T T)",
    "(not F)",
    "(and F ..)",
    "(or F ..)",
    "(=> F F)",
    "(forall NAME F)",
    "(exists NAME F)",
];

/// Steps of proofs.
static STEPS: [&str; 14] = [
    "(split h P)",
    "(cases h P ..)",
    "(push h P)",
    "(inst h T P)",
    "(fresh h P)",
    "(cut F P P)",
    "(written COLUMN T T T P)",
    "(same COLUMN T T P)",
    "(affine NUMBER NUMBER T P)",
    "(trich h P P)",
    "(divide h NUMBER F P)",
    "(sum (h NUMBER) ..)",
    "(opposite h h)",
    "(open)",
];

/// The lists of files that have proofs in them.
static FILE_PARTS: [&str; 9] = [
    "(formula (vars ..) (cols ..) (hyps ..) (goal F) (proof P))",
    "(vars NAME ..)",
    "(cols NAME ..)",
    "(hyps F ..)",
    "(goal F)",
    "(certificate NAME (proof K P) ..)",
    "(hints HINT ..)",
    "(use K T ..)",
    "(by K P)",
];

/// The lists of plans.
static PLANS: [&str; 5] = [
    "(plan CLIENTS (phase (CLIENT STEP ..) ..) ..)",
    "(phase (CLIENT STEP ..) ..)",
    "(call OP NUMBER ..)",
    "(upto TURNS OP NUMBER ..)",
    "(times COUNT (call OP NUMBER ..))",
];

/// The lists whose form depends on the word of the list around them: that word, which is empty for all others, and the form.
static SPECIAL_FORMS: [(&str, &str); 11] = [
    ("point", "(store ARRAY T (T ..) POINT)"),
    ("", "(store COLUMN T T)"),
    ("on", "(set COLUMN T T)"),
    ("when", "(set COLUMN T T)"),
    ("hints", "(cut K F)"),
    ("formula", "(proof P)"),
    ("", "(proof K P)"),
    ("rd", "(affine NUMBER NUMBER)"),
    ("store", "(affine NUMBER NUMBER)"),
    ("written", "(affine NUMBER NUMBER)"),
    ("same", "(affine NUMBER NUMBER)"),
];

/// What has to hold of the list that begins with a word, besides its form.
static NEEDS: [(&str, &str); 14] = [
    ("op", ", or with (choice ..) for each branch"),
    ("body", ", one for each operation, in their order"),
    (
        "point",
        ", with an `on` of a declared action at each edge that stores or has a rider",
    ),
    ("on", ", one at most for each edge that the instruction has"),
    ("return", ", with as many T as the operation has replies"),
    ("lin", BRANCHES),
    ("note", BRANCHES),
    ("lin-other", BRANCHES),
    ("lin-by", CHOICES),
    ("note-by", CHOICES),
    ("lin-other-by", CHOICES),
    (
        "rd",
        ", of a column that may be read here; the code reads what is its own by load, cas and faa",
    ),
    ("call", ARGUMENTS),
    ("upto", ARGUMENTS),
];

const BRANCHES: &str = ", where the operation has branches";

const CHOICES: &str =
    ", where the operation has choices, with as many T as the choice has parameters";

const ARGUMENTS: &str = ", with as many NUMBER as the operation has arguments";

/// An item of a list, by the word of the list and how many items come before it, and the sort of name that it is.
type Named = (&'static str, usize, Sort);

/// Items of lists of points.
static NAMES_IN_POINTS: [Named; 3] = [
    ("store", 1, Sort::Array),
    ("store", 4, Sort::Point),
    ("set", 1, Sort::Variable),
];

/// Items of other lists that name no variable.
static NAMES: [Named; 23] = [
    ("load", 1, Sort::Array),
    ("cas", 1, Sort::Array),
    ("faa", 1, Sort::Array),
    ("rd", 1, Sort::Column),
    ("set", 1, Sort::Column),
    ("store", 1, Sort::Column),
    ("written", 1, Sort::Column),
    ("same", 1, Sort::Column),
    ("body", 1, Sort::Operation),
    ("call", 1, Sort::Operation),
    ("lin-other", 2, Sort::Operation),
    ("lin-other-by", 2, Sort::Operation),
    ("upto", 2, Sort::Operation),
    ("lin-by", 1, Sort::Choice),
    ("note-by", 1, Sort::Choice),
    ("lin-other-by", 3, Sort::Choice),
    ("load", 4, Sort::Point),
    ("cas", 5, Sort::Point),
    ("cas", 6, Sort::Point),
    ("faa", 5, Sort::Point),
    ("set", 2, Sort::Point),
    ("if", 2, Sort::Point),
    ("if", 3, Sort::Point),
];

/// How the list is written that begins with this word, if it is one of these.
fn written_in(forms: &[&'static str], word: &str) -> Option<&'static str> {
    for form in forms {
        if head_of(form) == word {
            return Some(form);
        }
    }
    None
}

/// Whether this is the word of a step.
pub(crate) fn is_step(word: &str) -> bool {
    written_in(&STEPS, word).is_some()
}

/// Whether this is the word of a term or a formula.
pub(crate) fn is_formula(word: &str) -> bool {
    written_in(&FORMULAS, word).is_some()
}

/// Whether this is the word of an instruction.
pub(crate) fn is_instruction(word: &str) -> bool {
    written_in(&INSTRUCTIONS, word).is_some()
}

/// Whether this is the word of a rider.
pub(crate) fn is_rider(word: &str) -> bool {
    written_in(&RIDERS, word).is_some()
}

/// Whether this is the word of a list with columns that are no names.
pub(crate) fn has_columns(word: &str) -> bool {
    is_among(&["rd", "store", "written", "same"], word)
}

/// The form of the list that begins with this word and is in one that begins with `outer`, if that is special.
fn special_form(word: &str, outer: &str) -> Option<&'static str> {
    for (around, form) in &SPECIAL_FORMS {
        if (around.is_empty() || *around == outer) && head_of(form) == word {
            return Some(form);
        }
    }
    None
}

/// How the list is written that begins with this word.
fn usual_form(word: &str) -> Option<&'static str> {
    written_in(&PARTS, word)
        .or(written_in(&INSTRUCTIONS, word))
        .or(written_in(&RIDERS, word))
        .or(written_in(&FORMULAS, word))
        .or(written_in(&FILE_PARTS, word))
        .or(written_in(&STEPS, word))
        .or(written_in(&PLANS, word))
}

/// The form of the list that begins with this word and is in one that begins with `outer`.
pub(crate) fn form_of(word: &str, outer: &str) -> Option<&'static str> {
    match special_form(word, outer) {
        Some(form) => Some(form),
        None if outer == "phase" => Some("(CLIENT STEP ..)"),
        None => usual_form(word),
    }
}

/// What has to hold of the list that begins with this word, besides its form.
pub(crate) fn needs_of(word: &str) -> &'static str {
    text_beside(&NEEDS, word)
}

/// Whether a list that begins with this word has one at least of its last parts.
pub(crate) fn has_one(word: &str) -> bool {
    is_among(&["spec", "op", "array", "body", "use"], word)
}

/// What these items name, if it is one of them.
fn named_in(items: &[Named], word: &str, part: usize) -> Option<Sort> {
    for (own, number, sort) in items {
        if *number == part && *own == word {
            return Some(*sort);
        }
    }
    None
}

/// What the item of a list names, by the word of the list, that of the list around it, and how many items come before it.
pub(crate) fn sort_at(word: &str, outer: &str, part: usize) -> Sort {
    let special = if outer == "point" {
        named_in(&NAMES_IN_POINTS, word, part)
    } else {
        None
    };
    special
        .or(named_in(&NAMES, word, part))
        .unwrap_or(Sort::Variable)
}
