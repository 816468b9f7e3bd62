//! What a command answers: a text and a status, or why there is none.
ghost use Rattle.std.specs.Prelude.{◌≡◌, IfOk};
ghost use Rattle.lincheck.specs.Answers.{Told, ToldFault};

use lc_base::{Fault, OutOfMemory, Refusal, refusal_line, write_line};
use std::alloc::{AllocError, AllocFailed, Global};
use std::io;
use thiserror::Error;

/// The command did what it is for.
pub const SUCCESS: u8 = 0;

/// The input is refused.
pub const REFUSED: u8 = 1;

/// The command line asks for nothing that there is.
pub const COMMAND_LINE_FAULT: u8 = 2;

/// A file cannot be read, or the answer cannot be written.
pub const INPUT_OR_OUTPUT_FAULT: u8 = 3;

/// An allocation was refused, or a thread cannot be started.
pub const OUT_OF_MEMORY: u8 = 4;

/// What has run is not handed in as it should be.
pub const SEATS_DO_NOT_MATCH: u8 = 5;

/// Why a command did not do what it is for, for those who ask.
#[derive(Clone, Copy)]
pub enum Why {
    /// A file is refused.
    Refused(Refusal),
    /// Of the condition of this number no proof was found.
    Unfound(u64),
    /// The condition of this number fails where a run leads.
    Failing(u64),
    /// No order linearizes this many first events of a history.
    Unordered(u64),
    /// No order of a history was found, and of a call not all choices were tried.
    UntriedChoices,
    /// No order of a history was found, and where a call was tried a number left 64 bits.
    Overflow,
    /// The search for an order of a history was given up; it was to look at this many nodes at most.
    GivenUp(u64),
    /// The development has no point of the name that is asked for.
    NoPoint,
    /// No entry of the order has a mark with this place.
    NoMark(u64),
}

/// What a command answers: what it prints on standard output, its exit status, and why it is refused, if that can be explained.
#[derive(Drop)]
pub struct Answer {
    pub text: Vec<u8>,
    pub status: u8,
    pub why: Option<Why>,
}

/// Why a command gave no answer, or why the answer did not come out. It is printed on standard error.
#[derive(Clone, Copy, Debug, Error)]
pub enum Failure<'a> {
    /// The file at this path cannot be opened, or reading it fails, for the reason that the system gives.
    #[error("cannot read {0}")]
    CannotRead(&'a str, Option<io::Error>),
    /// Standard output takes no more.
    #[error("cannot write")]
    CannotWrite,
    /// An allocation was refused.
    #[error("out of memory")]
    OutOfMemory,
}

impl From<OutOfMemory> for Failure<'_> {
    ghost use Rattle.std.specs.Prelude.{◌≡◌};
    ghost use Rattle.lincheck.specs.declared.answer.Failure.TheVariants.{OutOfMemory};

    ghost from_gives = { λ _ failure. failure ≡ OutOfMemory };

    fn from(_: OutOfMemory) -> Self {
        Failure::OutOfMemory
    }
}

impl Failure<'_> {
    ghost use Rattle.lincheck.specs.Status.{status_of};

    /// The exit status.
    pub fn status(&self) -> u8
        ensures { result ≡ status_of self.now }
    {
        match self {
            Failure::CannotRead(_, _) | Failure::CannotWrite => INPUT_OR_OUTPUT_FAULT,
            Failure::OutOfMemory => OUT_OF_MEMORY,
        }
    }

    /// The reason that the system gives, if it gives one.
    pub fn reason(&self) -> Option<io::Error> {
        match self {
            Failure::CannotRead(_, reason) => *reason,
            Failure::CannotWrite | Failure::OutOfMemory => None,
        }
    }
}

/// The line of the refusal.
pub fn told_fault(alloc: Global, fault: Fault) -> Result<Answer, OutOfMemory>
    ensures { IfOk result (λ answer. ToldFault fault answer.text.items answer.status) }
{
    match fault {
        Fault::Refused(refusal) => {
            Ok(Answer {
                text: refusal_line(alloc, &refusal)?,
                status: REFUSED,
                why: Some(Why::Refused(refusal)),
            })
        }
        Fault::OutOfMemory => Err(OutOfMemory),
    }
}

/// The word, as a line, if a check passed; else the line of the refusal.
pub fn told(alloc: Global, word: &str, checked: Result<(), Fault>) -> Result<Answer, OutOfMemory>
    ensures { IfOk result (λ answer. Told word.now checked answer.text.items answer.status) }
{
    match checked {
        Ok(()) => {
            Ok(Answer {
                text: write_line(alloc, word, &[])?,
                status: SUCCESS,
                why: None,
            })
        }
        Err(fault) => told_fault(alloc, fault),
    }
}
