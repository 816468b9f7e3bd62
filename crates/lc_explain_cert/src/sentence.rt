//! The sentences.
use lc_kernel::Reason;
use std::fmt;

/// What is said of a proof.
#[derive(Clone, Copy)]
pub(crate) enum Sentence<'a> {
    Missing {
        number: u64,
        words: &'a str,
    },
    Extra(u64),
    BadStep {
        number: u64,
        step: u64,
        reason: Reason,
        words: &'a str,
    },
    LargeStep {
        number: u64,
        step: u64,
        words: &'a str,
    },
    Bad {
        step: u64,
        reason: Reason,
    },
    Large {
        step: u64,
    },
}

impl fmt::Display for Sentence<'_> {
    fn fmt<W: fmt::Write>(&self, f: &mut fmt::Formatter<W>) -> fmt::Result {
        match self {
            Sentence::Missing { number, words } => write!(
                f,
                "condition {number} has no proof ({words})"
            ),
            Sentence::Extra(it) => write!(f, "there is no condition {it}"),
            Sentence::BadStep {
                number,
                step,
                reason,
                words,
            } => write!(
                f,
                "step {step} of the proof of condition {number} does not hold: {reason} ({words})"
            ),
            Sentence::LargeStep {
                number,
                step,
                words,
            } => write!(
                f,
                "in step {step} of the proof of condition {number} a number leaves 128 bits ({words})"
            ),
            Sentence::Bad { step, reason } => write!(
                f,
                "step {step} of the proof does not hold: {reason}"
            ),
            Sentence::Large { step } => write!(
                f,
                "in step {step} of the proof a number leaves 128 bits"
            ),
        }
    }
}
