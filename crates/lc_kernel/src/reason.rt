//! Why a step does not hold, and the numbers of these reasons.
ghost use Rattle.std.specs.Prelude.{◌≡◌};
ghost use Rattle.lc_kernel.specs.Reasons.{code_of};

use thiserror::Error;

/// Why a step does not hold, in the order in which the tests of a step come.
#[derive(Clone, Copy, Debug, PartialEq, Eq, Error)]
pub enum Reason {
    #[error("no hypothesis has this number")]
    NoHypothesis,
    #[error("the hypothesis has another form, or there is another number of branches")]
    WrongForm,
    #[error("a variable is not in use")]
    VariableNotInUse,
    #[error("the sum is no contradiction")]
    DoesNotClose,
    #[error("the divisor is below 1, or a coefficient is no multiple of it")]
    NotDivisible,
    #[error("the second hypothesis is not the negation of the first")]
    NotOpposite,
    #[error("the branch is left open")]
    IsOpen,
    #[error("the formula is not the quotient")]
    WrongQuotient,
}

impl Reason {
    /// The number by which a refusal tells it, 1 to 8.
    pub fn code(self) -> u8
        ensures { result ≡ code_of self }
    {
        match self {
            Reason::NoHypothesis => 1,
            Reason::WrongForm => 2,
            Reason::VariableNotInUse => 3,
            Reason::DoesNotClose => 4,
            Reason::NotDivisible => 5,
            Reason::NotOpposite => 6,
            Reason::IsOpen => 7,
            Reason::WrongQuotient => 8,
        }
    }
}

/// What is wrong with a step.
#[derive(Clone, Copy)]
pub enum Flaw {
    /// It does not hold, for this reason.
    Bad(Reason),
    /// Its arithmetic leaves 128 bits.
    Large,
}
