//! Why an input is refused, with the codes of the reasons, and what a reader answers in place of a value.
ghost use Rattle.std.specs.Prelude.{◌≡◌};
ghost use Rattle.lc_base.specs.Refusal.{code_of};

use crate::memory::OutOfMemory;
use std::alloc::{AllocError, AllocFailed};
use std::error::Error;
use std::fmt;

/// Why a file or an order is refused. Offsets count bytes and items count in preorder, both from 0.
/// It is printed as `refused`, its code and its numbers.
#[derive(Clone, Copy, Debug, PartialEq, Eq)]
pub enum Refusal {
    /// The bytes are no s-expressions. The number is the offset of the first fault.
    Text(u64),
    /// An item does not fit the grammar.
    Shape(u64),
    /// An item is a name that is not declared.
    Unknown(u64),
    /// An item is a name that is declared twice or reserved.
    Repeated(u64),
    /// An item of object code reads an auxiliary, abstract or system column.
    Auxiliary(u64),
    /// A number or a count is beyond a limit; it is reported at this item.
    Bound(u64),
    /// As `Text`, of a certificate.
    CertText(u64),
    /// An item of a certificate is refused for any reason of `Shape` to `Bound`.
    CertShape(u64),
    /// The condition of this number has no proof.
    Missing(u64),
    /// There is a proof for this number, and no such condition.
    Extra(u64),
    /// In the proof of a condition a step does not hold, for a reason: condition, step and reason.
    Proof(u64, u64, u8),
    /// In the proof of a condition the arithmetic of a step leaves 128 bits: condition and step.
    Large(u64, u64),
    /// A history is not of the form. The number is that of the first wrong event or entry, or 0.
    HistoryShape(u64),
    /// An order is no linearization: the place in the order, and the reason.
    Order(u64, u8),
}

impl fmt::Display for Refusal {
    ghost use Rattle.std.specs.Prelude.{Some};
    ghost use Rattle.lc_base.specs.Line.{refusal_text};

    ghost output = { λ refusal. Some (refusal_text refusal) };

    fn fmt<W: fmt::Write>(&self, f: &mut fmt::Formatter<W>) -> fmt::Result {
        let code = code(self);
        match self {
            Refusal::Text(number)
            | Refusal::Shape(number)
            | Refusal::Unknown(number)
            | Refusal::Repeated(number)
            | Refusal::Auxiliary(number)
            | Refusal::Bound(number)
            | Refusal::CertText(number)
            | Refusal::CertShape(number)
            | Refusal::Missing(number)
            | Refusal::Extra(number)
            | Refusal::HistoryShape(number) => write!(f, "refused {code} {number}"),
            Refusal::Proof(condition, step, reason) => {
                write!(f, "refused {code} {condition} {step} {reason}")
            }
            Refusal::Large(condition, step) => write!(f, "refused {code} {condition} {step}"),
            Refusal::Order(place, reason) => write!(f, "refused {code} {place} {reason}"),
        }
    }
}

impl Error for Refusal {}

/// What a reader answers in place of a value.
#[derive(Clone, Copy, Debug, PartialEq, Eq, thiserror::Error)]
pub enum Fault {
    /// The input is refused.
    #[error("{0}")]
    Refused(Refusal),
    /// An allocation was refused, so nothing is said about the input.
    #[error("out of memory")]
    OutOfMemory,
}

impl From<OutOfMemory> for Fault {
    ghost use Rattle.std.specs.Prelude.{◌≡◌};
    ghost use Rattle.lc_base.specs.declared.refusal.Fault.TheVariants.{OutOfMemory};

    ghost from_gives = { λ _ fault. fault ≡ OutOfMemory };

    fn from(_: OutOfMemory) -> Fault {
        Fault::OutOfMemory
    }
}

impl From<AllocError> for Fault {
    ghost use Rattle.std.specs.Prelude.{◌≡◌};
    ghost use Rattle.lc_base.specs.declared.refusal.Fault.TheVariants.{OutOfMemory};

    ghost from_gives = { λ _ fault. fault ≡ OutOfMemory };

    fn from(_: AllocError) -> Fault {
        Fault::OutOfMemory
    }
}

impl<T: Drop> From<AllocFailed<T>> for Fault {
    ghost use Rattle.std.specs.Prelude.{◌≡◌};
    ghost use Rattle.lc_base.specs.declared.refusal.Fault.TheVariants.{OutOfMemory};

    ghost from_gives = { λ _ fault. fault ≡ OutOfMemory };

    fn from(_: AllocFailed<T>) -> Fault {
        Fault::OutOfMemory
    }
}

impl From<Refusal> for Fault {
    ghost use Rattle.std.specs.Prelude.{◌≡◌};
    ghost use Rattle.lc_base.specs.declared.refusal.Fault.TheVariants.{Refused};

    ghost from_gives = { λ refusal fault. fault ≡ Refused refusal };

    fn from(refusal: Refusal) -> Fault {
        Fault::Refused(refusal)
    }
}

/// The code of a refusal, 1 to 14, in the order of its variants.
pub fn code(refusal: &Refusal) -> u8
    ensures { result ≡ code_of refusal.now }
{
    match refusal {
        Refusal::Text(_) => 1,
        Refusal::Shape(_) => 2,
        Refusal::Unknown(_) => 3,
        Refusal::Repeated(_) => 4,
        Refusal::Auxiliary(_) => 5,
        Refusal::Bound(_) => 6,
        Refusal::CertText(_) => 7,
        Refusal::CertShape(_) => 8,
        Refusal::Missing(_) => 9,
        Refusal::Extra(_) => 10,
        Refusal::Proof(..) => 11,
        Refusal::Large(..) => 12,
        Refusal::HistoryShape(_) => 13,
        Refusal::Order(..) => 14,
    }
}
