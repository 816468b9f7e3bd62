//! The hints of a file.
ghost use Rattle.lc_cert.specs.Certificates.{HaveFewSteps};
ghost use Rattle.lc_cert.specs.EntryView.{entries_of};
ghost use Rattle.lc_hints.specs.FewSteps.{few_once};

use crate::by_number::ByNumber;
use crate::given::Given;
use lc_cert::Entry;
use lc_term::{Formula, Term};
use std::alloc::Global;

/// Hints for the finder of proofs, by the numbers of the conditions that they are for.
pub struct Hints {
    given: Given,
    ghost few: { HaveFewSteps (entries_of given.proofs.items) } by { few_once (entries_of given.proofs.items) },
}

impl Drop for Hints {
    fn drop(self) {
        let Hints { given: _ } = self;
    }
}

impl Hints {
    ghost use Rattle.std.specs.Prelude.{◌≡◌, ℕ, [], map};
    ghost use Rattle.lc_cert.specs.Certificates.{HaveFewSteps};
    ghost use Rattle.lc_cert.specs.EntryView.{entries_of};
    ghost use Rattle.lc_hints.specs.HintView.{proofs_in, terms_in, formulas_in, proofs_given, terms_given, formulas_given};
    ghost use Rattle.lc_term.specs.View.{term_of, formulas_of};

    /// No hints.
    pub fn new(alloc: Global) -> Hints
        ensures proofs { proofs_in result ≡ [] }
        ensures terms { (k : ℕ) → terms_in result k ≡ [] }
        ensures formulas { (k : ℕ) → formulas_in result k ≡ [] }
    {
        Hints {
            given: Given::new(alloc),
        }
    }

    /// These proofs alone, in this order.
    pub fn of_proofs(alloc: Global, proofs: Vec<Entry>) -> Hints
        requires { HaveFewSteps (entries_of proofs.items) }
        ensures proofs { proofs_in result ≡ entries_of proofs.items }
        ensures terms { (k : ℕ) → terms_in result k ≡ [] }
        ensures formulas { (k : ℕ) → formulas_in result k ≡ [] }
    {
        Hints {
            given: Given {
                proofs,
                terms: ByNumber::new(alloc),
                formulas: ByNumber::new(alloc),
            },
        }
    }

    /// What was given.
    pub(crate) fn of_given(given: Given) -> Hints
        requires { HaveFewSteps (entries_of given.proofs.items) }
        ensures proofs { proofs_in result ≡ proofs_given given }
        ensures terms { (k : ℕ) → terms_in result k ≡ terms_given given k }
        ensures formulas { (k : ℕ) → formulas_in result k ≡ formulas_given given k }
    {
        Hints { given }
    }

    /// The whole proofs, in the order of the file. Several may have one number.
    pub fn proofs(&self) -> &[Entry]
        ensures shown { entries_of result.now ≡ proofs_in self.now }
        ensures few { HaveFewSteps (entries_of result.now) }
    {
        &self.given.proofs
    }

    /// The terms for `inst` in the condition of this number, in the order of the file.
    pub fn terms(&self, number: u64) -> &[Term]
        ensures { map term_of result.now ≡ terms_in self.now number }
    {
        self.given.terms.at(number)
    }

    /// The formulas for `cut` in the condition of this number, in the order of the file.
    pub fn formulas(&self, number: u64) -> &[Formula]
        ensures { formulas_of result.now ≡ formulas_in self.now number }
    {
        self.given.formulas.at(number)
    }
}
