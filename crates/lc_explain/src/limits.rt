//! How many of what there may be.
use crate::around::Around;
use crate::sentence::Sentence;
use crate::table::beside;
use lc_base::{
    ACTION_LIMIT, ARGUMENT_LIMIT, COLUMN_LIMIT, CONDITION_LIMIT, LOCAL_LIMIT, OPERATION_LIMIT,
    PARAMETER_LIMIT, PATH_LIMIT, POINT_LIMIT, RIDER_LIMIT, WIDTH_LIMIT,
};

/// What has at most how many of what.
#[derive(Clone, Copy)]
struct Most(&'static str, u64, &'static str);

/// By the word of a list that is one more than there may be.
static BY_WORD: [(&str, Most); 5] = [
    (
        "op",
        Most("a specification", OPERATION_LIMIT as u64, "operations"),
    ),
    ("point", Most("an object", POINT_LIMIT as u64, "points")),
    ("action", Most("an object", ACTION_LIMIT, "actions")),
    ("on", Most("an edge", PATH_LIMIT, "paths")),
    ("spec", Most("a development", CONDITION_LIMIT, "conditions")),
];

/// By the word of the list around it.
static BY_OUTER: [(&str, Most); 5] = [
    ("on", Most("an edge", RIDER_LIMIT, "riders")),
    ("when", Most("an edge", RIDER_LIMIT, "riders")),
    ("abstract", Most("a development", COLUMN_LIMIT, "columns")),
    ("aux", Most("a development", COLUMN_LIMIT, "columns")),
    (
        "array",
        Most(
            "an array",
            WIDTH_LIMIT as u64,
            "columns, and a development 64",
        ),
    ),
];

/// By the word of the list whose third item is the list of a name that is one more than there may be.
static OF_NAMES: [(&str, Most); 5] = [
    (
        "op",
        Most("an operation", ARGUMENT_LIMIT as u64, "arguments"),
    ),
    ("choice", Most("a choice", PARAMETER_LIMIT, "parameters")),
    ("action", Most("an action", PARAMETER_LIMIT, "parameters")),
    ("body", Most("a body", LOCAL_LIMIT as u64, "locals")),
    ("formula", Most("a formula file", COLUMN_LIMIT, "columns")),
];

/// That there are too many.
fn too_many<'a>(most: Option<Most>) -> Sentence<'a> {
    match most {
        Some(Most(owner, limit, parts)) => Sentence::TooMany {
            owner,
            limit,
            parts,
        },
        None => Sentence::limit(),
    }
}

/// Of what there are too many, if a list that begins with this word is one more than allowed, and is in `outer`.
pub(crate) fn too_many_lists<'a>(word: &str, outer: &str) -> Sentence<'a> {
    too_many(beside(&BY_WORD, word).or(beside(&BY_OUTER, outer)))
}

/// Of what there are too many, if a name is one more than allowed in the list that is in `outer`.
pub(crate) fn too_many_names<'a>(outer: Around<'_>) -> Sentence<'a> {
    if outer.part == 2 {
        too_many(beside(&OF_NAMES, outer.word))
    } else {
        Sentence::limit()
    }
}
