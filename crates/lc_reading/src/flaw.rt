//! What is wrong in a text, and which of two flaws is reported.
ghost use Rattle.std.specs.Prelude.{◌≡◌};
ghost use Rattle.lc_sexp.specs.Shown.{rest_of, number_of};
ghost use Rattle.lc_reading.specs.Flaws.{at, rank, is_before, lesser};
ghost use Rattle.lc_reading.specs.Results.{joined, both_results, also_results, misshapen_too, ended_result, limited_result, IsPushed};
ghost use Rattle.lc_reading.specs.declared.flaw.ReadFault.TheVariants.{Flawed};

use crate::pass::Pass;
use lc_base::{Fault, OutOfMemory, Refusal};
use lc_sexp::{Cursor, Misfit};
use std::alloc::{AllocError, AllocFailed};

/// What is wrong in a text: its first refusal, which is the least by pass and then by item, and the least item that is
/// wrong at all.
#[derive(Clone, Copy)]
pub struct Flaw {
    pub pass: Pass,
    pub item: u64,
    pub least: u64,
}

/// Why nothing is read of a text.
#[derive(Clone, Copy)]
pub enum ReadFault {
    Flawed(Flaw),
    OutOfMemory,
}

fn rank(pass: Pass) -> u8
    ensures { result ≡ rank pass }
{
    match pass {
        Pass::Shape => 0,
        Pass::Unknown => 1,
        Pass::Repeated => 2,
        Pass::Auxiliary => 3,
        Pass::Bound => 4,
    }
}

impl Flaw {
    ghost use Rattle.std.specs.Prelude.{◌≡◌};
    ghost use Rattle.lc_reading.specs.Flaws.{at, is_before, lesser, refusal_of};

    /// One item is wrong in one pass.
    pub fn at(pass: Pass, item: u64) -> Flaw
        ensures { result ≡ at pass item }
    {
        Flaw {
            pass,
            item,
            least: item,
        }
    }

    fn is_before(self, other: Flaw) -> bool
        ensures { result ≡ is_before self other }
    {
        let (own, others) = (rank(self.pass), rank(other.pass));
        own < others || (own == others && self.item < other.item)
    }

    /// Both flaws together.
    pub fn and(self, other: Flaw) -> Flaw
        ensures { result ≡ lesser self other }
    {
        let first = if other.is_before(self) { other } else { self };
        let least = if other.least < self.least {
            other.least
        } else {
            self.least
        };
        Flaw {
            pass: first.pass,
            item: first.item,
            least,
        }
    }

    /// The first refusal of a file in which this is wrong.
    pub fn refusal(self) -> Refusal
        ensures { result ≡ refusal_of self }
    {
        match self.pass {
            Pass::Shape => Refusal::Shape(self.item),
            Pass::Unknown => Refusal::Unknown(self.item),
            Pass::Repeated => Refusal::Repeated(self.item),
            Pass::Auxiliary => Refusal::Auxiliary(self.item),
            Pass::Bound => Refusal::Bound(self.item),
        }
    }
}

impl From<ReadFault> for Fault {
    ghost use Rattle.std.specs.Prelude.{◌≡◌};
    ghost use Rattle.lc_reading.specs.Results.{told};

    ghost from_gives = { λ fault answer. answer ≡ told fault };

    fn from(fault: ReadFault) -> Fault {
        match fault {
            ReadFault::Flawed(flaw) => Fault::Refused(flaw.refusal()),
            ReadFault::OutOfMemory => Fault::OutOfMemory,
        }
    }
}

impl From<Flaw> for ReadFault {
    ghost use Rattle.std.specs.Prelude.{◌≡◌};
    ghost use Rattle.lc_reading.specs.declared.flaw.ReadFault.TheVariants.{Flawed};

    ghost from_gives = { λ flaw fault. fault ≡ Flawed flaw };

    fn from(flaw: Flaw) -> ReadFault {
        ReadFault::Flawed(flaw)
    }
}

impl From<Misfit> for ReadFault {
    ghost use Rattle.std.specs.Prelude.{◌≡◌};
    ghost use Rattle.lc_reading.specs.declared.flaw.ReadFault.TheVariants.{Flawed};
    ghost use Rattle.lc_reading.specs.Flaws.{misfit_flaw};

    ghost from_gives = { λ misfit fault. fault ≡ Flawed (misfit_flaw misfit) };

    fn from(misfit: Misfit) -> ReadFault {
        match misfit {
            Misfit::Shape(item) => ReadFault::Flawed(Flaw::at(Pass::Shape, item)),
            Misfit::Bound(item) => ReadFault::Flawed(Flaw::at(Pass::Bound, item)),
        }
    }
}

impl From<OutOfMemory> for ReadFault {
    ghost use Rattle.std.specs.Prelude.{◌≡◌};
    ghost use Rattle.lc_reading.specs.declared.flaw.ReadFault.TheVariants.{OutOfMemory as Refused};

    ghost from_gives = { λ _ fault. fault ≡ Refused };

    fn from(_: OutOfMemory) -> ReadFault {
        ReadFault::OutOfMemory
    }
}

impl From<AllocError> for ReadFault {
    ghost use Rattle.std.specs.Prelude.{◌≡◌};
    ghost use Rattle.lc_reading.specs.declared.flaw.ReadFault.TheVariants.{OutOfMemory};

    ghost from_gives = { λ _ fault. fault ≡ OutOfMemory };

    fn from(_: AllocError) -> ReadFault {
        ReadFault::OutOfMemory
    }
}

impl<T: Drop> From<AllocFailed<T>> for ReadFault {
    ghost use Rattle.std.specs.Prelude.{◌≡◌};
    ghost use Rattle.lc_reading.specs.declared.flaw.ReadFault.TheVariants.{OutOfMemory};

    ghost from_gives = { λ _ fault. fault ≡ OutOfMemory };

    fn from(_: AllocFailed<T>) -> ReadFault {
        ReadFault::OutOfMemory
    }
}

fn joined(first: ReadFault, second: ReadFault) -> ReadFault
    ensures { result ≡ joined first second }
{
    match (first, second) {
        (ReadFault::Flawed(flaw), ReadFault::Flawed(other)) => ReadFault::Flawed(flaw.and(other)),
        _ => ReadFault::OutOfMemory,
    }
}

/// Both values, if both are read; else what is wrong in either.
pub fn both<A: Drop, B: Drop>(
    first: Result<A, ReadFault>,
    second: Result<B, ReadFault>,
) -> Result<(A, B), ReadFault>
    ensures { result ≡ both_results first second }
{
    match (first, second) {
        (Ok(first), Ok(second)) => Ok((first, second)),
        (Err(fault), Ok(_)) | (Ok(_), Err(fault)) => Err(fault),
        (Err(fault), Err(other)) => Err(joined(fault, other)),
    }
}

/// What is wrong in either of two.
pub fn also(first: Result<(), ReadFault>, second: Result<(), ReadFault>) -> Result<(), ReadFault>
    ensures { result ≡ also_results first second }
{
    match (first, second) {
        (Ok(()), found) | (found, Ok(())) => found,
        (Err(fault), Err(other)) => Err(joined(fault, other)),
    }
}

/// The flaw that one item is wrong in one pass.
pub fn wrong(pass: Pass, item: u64) -> ReadFault
    ensures { result ≡ Flawed (at pass item) }
{
    ReadFault::Flawed(Flaw::at(pass, item))
}

/// What was read, with the flaw too that an item is misshapen.
pub fn misshapen_too<T: Drop>(value: Result<T, ReadFault>, item: u64) -> Result<T, ReadFault>
    ensures { result ≡ misshapen_too item value }
{
    let misshapen = wrong(Pass::Shape, item);
    match value {
        Ok(_) => Err(misshapen),
        Err(fault) => Err(joined(fault, misshapen)),
    }
}

/// What was read, with the flaw too that an item is beyond a limit, if it is.
pub fn limited<T: Drop>(
    beyond: bool,
    item: u64,
    value: Result<T, ReadFault>,
) -> Result<T, ReadFault>
    ensures { result ≡ limited_result beyond item value }
{
    if !beyond {
        return value;
    }
    let wide = wrong(Pass::Bound, item);
    match value {
        Ok(_) => Err(wide),
        Err(fault) => Err(joined(fault, wide)),
    }
}

/// The value, if no item is left in the list; else the first of these is a part too many.
pub fn ended<T: Drop>(value: Result<T, ReadFault>, rest: Cursor<'_>) -> Result<T, ReadFault>
    ensures { result ≡ ended_result (number_of rest.entry) (rest_of rest.entry) value }
{
    if rest.is_empty() {
        return value;
    }
    misshapen_too(value, rest.number())
}

/// One value more, if all before it are read; else what is wrong in any.
pub fn pushed<T: Drop>(
    values: Result<Vec<T>, ReadFault>,
    value: Result<T, ReadFault>,
) -> Result<Vec<T>, ReadFault>
    ensures { IsPushed values value result }
{
    let (mut values, value) = both(values, value)?;
    values.push(value)?;
    Ok(values)
}
