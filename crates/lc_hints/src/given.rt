//! Hints as they are looked up.
ghost use Rattle.std.specs.Prelude.{IfOk, map};
ghost use Rattle.lc_hints.specs.HintView.{IsGiven};
ghost use Rattle.lc_hints.specs.View.{hint_of};

use crate::by_number::ByNumber;
use crate::hint::{Advice, Hint};
use lc_base::OutOfMemory;
use lc_cert::Entry;
use lc_term::{Formula, Term};
use std::alloc::Global;

/// What hints give: proofs in the order of the file, and for each number the terms and the formulas.
pub(crate) struct Given {
    pub(crate) proofs: Vec<Entry>,
    pub(crate) terms: ByNumber<Term>,
    pub(crate) formulas: ByNumber<Formula>,
}

impl Drop for Given {
    fn drop(self) {
        let Given {
            proofs: _,
            terms: _,
            formulas: _,
        } = self;
    }
}

impl Given {
    ghost use Rattle.std.specs.Prelude.{[], ◌∷◌, ◌++◌, pos, List, OnOk};
    ghost use Rattle.lc_hints.specs.Hints.{Hint as Said};
    ghost use Rattle.lc_hints.specs.HintView.{IsGiven};
    ghost use Rattle.lc_hints.specs.View.{advice_of, hint_of};

    /// Nothing.
    pub(crate) fn new(alloc: Global) -> Given
        ensures { IsGiven [] result }
    {
        Given {
            proofs: Vec::new(alloc),
            terms: ByNumber::new(alloc),
            formulas: ByNumber::new(alloc),
        }
    }

    /// Adds what a hint gives for this number.
    fn add_advice(&mut self, alloc: Global, number: u64, advice: Advice) -> Result<(), OutOfMemory>
        ensures { OnOk result ((hs : List Said) → IsGiven hs self.old → IsGiven (hs ++ (record { number = pos number; advice = advice_of advice } ∷ [])) self.new) }
    {
        match advice {
            Advice::Use(terms) => self.terms.add(number, terms),
            Advice::Cut(formula) => {
                let formulas = Vec::from_array(alloc, [formula])?;
                self.formulas.add(number, formulas)
            }
            Advice::By(proof) => {
                self.proofs.push(Entry { number, proof })?;
                Ok(())
            }
        }
    }

    /// Adds what a hint gives. One for a number below 0 is for no condition.
    fn add(&mut self, alloc: Global, hint: Hint) -> Result<(), OutOfMemory>
        ensures { OnOk result ((hs : List Said) → IsGiven hs self.old → IsGiven (hs ++ (hint_of hint ∷ [])) self.new) }
    {
        match u64::try_from(hint.number) {
            Ok(number) => self.add_advice(alloc, number, hint.advice),
            Err(_) => Ok(()),
        }
    }
}

/// What these hints give.
pub(crate) fn gathered(alloc: Global, hints: Vec<Hint>) -> Result<Given, OutOfMemory>
    ensures { IfOk result (IsGiven (map hint_of hints.items)) }
{
    let mut given = Given::new(alloc);
    for hint in hints {
        given.add(alloc, hint)?;
    }
    Ok(given)
}
