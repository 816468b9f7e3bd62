//! What is to hold of numbers, and who finds out.
ghost use Rattle.std.specs.Prelude.{IfOk, IsTrue};

use crate::gate::Gate;
use lc_base::OutOfMemory;
use std::alloc::Global;
use std::marker::{Brand, Model, PhantomData};
use std::sync::Wait;

/// What is to hold of each number. Each call picks it.
pub trait Work {
    ghost use Rattle.std.specs.Prelude.{ℕ};

    ghost holds: { ℕ → Type 0 };
}

impl Work for Brand {
    ghost holds = { λ k. Unit {0} };
}

/// Finds out of one number after another whether it holds.
pub trait Checker<W: Work> {
    ghost use Rattle.std.specs.Prelude.{IfOk, IsTrue};

    /// Whether the number holds. One that is refused may hold.
    fn check(&mut self, alloc: Global, number: u64) -> Result<bool, OutOfMemory>
        ensures { IfOk result (λ good. IsTrue good → W.holds number) };
}

/// A number that holds.
#[derive(Drop)]
pub(crate) struct Known<W: Work> {
    number: u64,
    of: PhantomData<W>,
}

impl<W: Work> Model for Known<W> {
    ghost use Rattle.std.specs.Prelude.{ℕ};

    ghost Value = { ℕ };

    ghost view = { λ a. a.number };

    ghost invariant = { λ a. W.holds a.number };
}

impl<W: Work> Known<W> {
    ghost use Rattle.std.specs.Prelude.{◌≡◌};

    fn new(number: u64) -> Known<W>
        requires { W.holds number }
        ensures { result ≡ number }
    {
        Known {
            number,
            of: PhantomData,
        }
    }

    /// The number.
    pub(crate) fn number(&self) -> u64
        ensures value { result ≡ self.now }
        ensures holds { W.holds result }
    {
        self.number
    }
}

/// Whether the number holds, as is found under the gate.
pub(crate) fn holds_under<W: Work, R: Wait, G: Gate, C: Checker<W>>(
    rt: &R,
    alloc: Global,
    gate: &G,
    checker: &mut C,
    number: u64,
) -> Result<bool, OutOfMemory>
    ensures { IfOk result (λ good. IsTrue good → W.holds number) }
{
    gate.before(rt, number);
    let good = checker.check(alloc, number);
    gate.after(rt, number);
    good
}

/// The number, if it is found under the gate that it holds.
pub(crate) fn known_under<W: Work, R: Wait, G: Gate, C: Checker<W>>(
    rt: &R,
    alloc: Global,
    gate: &G,
    checker: &mut C,
    number: u64,
) -> Result<Option<Known<W>>, OutOfMemory> {
    if holds_under(rt, alloc, gate, checker, number)? {
        return Ok(Some(Known::new(number)));
    }
    Ok(None)
}
