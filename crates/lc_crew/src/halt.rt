//! Why a client makes no further call.
ghost use Rattle.std.specs.Prelude.{◌≡◌};
ghost use Rattle.lc_crew.specs.Halts.{word_of};

use std::fmt;

/// Why a client makes no further call.
#[derive(Clone, Copy, Debug, PartialEq, Eq)]
pub enum Halt {
    /// A call has used its turns, and goes on.
    Spent,
    /// A number that a step reaches leaves 64 bits.
    Overflow,
    /// The run has as many labels as it may have.
    Full,
}

impl Halt {
    /// The word for it.
    pub fn word(self) -> &'static str
        ensures { result.now ≡ word_of self }
    {
        match self {
            Halt::Spent => "spent",
            Halt::Overflow => "overflow",
            Halt::Full => "full",
        }
    }
}

impl fmt::Display for Halt {
    ghost use Rattle.std.specs.Prelude.{Some};
    ghost use Rattle.lc_crew.specs.Halts.{word_of};

    ghost output = { λ halt. Some (word_of halt) };

    fn fmt<W: fmt::Write>(&self, f: &mut fmt::Formatter<W>) -> fmt::Result {
        f.write_str(self.word())
    }
}
