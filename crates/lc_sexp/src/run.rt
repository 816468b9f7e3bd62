//! Runs of bytes that are read at once: comments, words and single bytes.
ghost use Rattle.std.specs.Prelude.{◌≡◌, ◌<◌, ◌≤◌, length, take, true, false};
ghost use Rattle.lc_sexp.specs.Text.{are_letters, begins_word};
ghost use Rattle.lc_sexp.specs.Runs.{IsRun, IsBeforeWhite};

use crate::class::{Class, classify, is_letter};

/// Bytes that are read at once: a comment, consecutive letters, or a byte alone.
#[derive(Clone, Copy)]
pub(crate) struct Run {
    /// The class of each of the bytes. Those of a comment are white.
    pub(crate) class: Class,
    /// How many bytes.
    pub(crate) length: usize,
    /// Whether a comment goes on after these bytes.
    pub(crate) in_comment: bool,
}

/// The run at the front of these bytes, which begin in a comment or not. Each class has an arm, so that whoever takes
/// the run needs no second branch.
pub(crate) fn first_run(bytes: &[u8], in_comment: bool) -> Run
    requires { 0 < length bytes.now }
    ensures { IsRun in_comment bytes.now result }
{
    if in_comment {
        return comment(bytes);
    }
    match classify(bytes[0]) {
        Class::Letter => Run {
            class: Class::Letter,
            length: word_length(bytes),
            in_comment: false,
        },
        Class::White => alone(Class::White),
        Class::Open => alone(Class::Open),
        Class::Close => alone(Class::Close),
        Class::Other if bytes[0] == b';' => comment(bytes),
        Class::Other => alone(Class::Other),
    }
}

/// Whether the run at the front of these bytes is a word with a white byte after it, which is then taken in the same step.
#[inline(always)]
pub(crate) fn is_word_before_white(run: Run, bytes: &[u8]) -> bool
    ensures { result ≡ true → IsBeforeWhite run bytes.now }
{
    match run.class {
        Class::Letter if run.length < bytes.len() => {
            matches!(classify(bytes[run.length]), Class::White)
        }
        _ => false,
    }
}

/// A byte of this class outside of comments.
fn alone(class: Class) -> Run
    ensures { result ≡ record { class = class; length = 1; in_comment = false } }
{
    Run {
        class,
        length: 1,
        in_comment: false,
    }
}

/// The rest of a comment, with the line feed that ends it.
fn comment(bytes: &[u8]) -> Run
    requires { 0 < length bytes.now }
    ensures { IsRun true bytes.now result }
{
    for (at, byte) in bytes.iter().enumerate() {
        if *byte == b'\n' {
            return Run {
                class: Class::White,
                length: at + 1,
                in_comment: false,
            };
        }
    }
    Run {
        class: Class::White,
        length: bytes.len(),
        in_comment: true,
    }
}

/// How many letters are at the front.
fn word_length(bytes: &[u8]) -> usize
    ensures within { result ≤ length bytes.now }
    ensures letters { are_letters (take result bytes.now) ≡ true }
    ensures some { begins_word bytes.now ≡ true → 0 < result }
{
    for (at, byte) in bytes.iter().enumerate() {
        if !is_letter(*byte) {
            return at;
        }
    }
    bytes.len()
}
