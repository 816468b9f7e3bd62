//! Why an order does not linearize a history, and the numbers of these reasons.
ghost use Rattle.std.specs.Prelude.{◌≡◌};
ghost use Rattle.lc_history.specs.Reason.{code_of};

use std::fmt;

/// Why an order does not linearize a history.
#[derive(Clone, Copy, Debug, PartialEq, Eq)]
pub enum Reason {
    /// The j-th entry of a client is not its j-th call in the history.
    OtherCall,
    /// That call returned another reply.
    OtherReply,
    /// A call that returned has no entry.
    MissingCall,
    /// The object does not give this reply here.
    NoStep,
    /// The call of an entry at a later place precedes it.
    Preceded,
}

impl Reason {
    /// Its number.
    pub fn code(self) -> u8
        ensures { result ≡ code_of self }
    {
        match self {
            Reason::OtherCall => 1,
            Reason::OtherReply => 2,
            Reason::MissingCall => 3,
            Reason::NoStep => 4,
            Reason::Preceded => 5,
        }
    }
}

impl fmt::Display for Reason {
    fn fmt<W: fmt::Write>(&self, f: &mut fmt::Formatter<W>) -> fmt::Result {
        f.write_str(match self {
            Reason::OtherCall => "the entry is not its client's call of this number",
            Reason::OtherReply => "the call returned another reply",
            Reason::MissingCall => "a call that returned has no entry",
            Reason::NoStep => "the object does not give this reply here",
            Reason::Preceded => "the call of a later entry precedes this one",
        })
    }
}
