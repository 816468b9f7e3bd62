//! The conditions of a development one after another, each with its proof.
ghost use Rattle.std.specs.Prelude.{◌≡◌, suc, IfOk};
ghost use Rattle.lc_base.specs.Limits.{file_limit};

use crate::proving::{Alone, Prover};
use lc_base::{Fault, OutOfMemory};
use lc_cond::laws::{conditions_have_few_variables, conditions_use_their_variables};
use lc_cond::{Condition, ConditionStream};
use lc_kernel::Proof;
use lc_outline::Development;
use lc_table::Terms;
use std::alloc::Global;

/// A table with no more entries than this is kept for the next part.
const FEW_ENTRIES: usize = 4_096;

/// How far the conditions of a development are proved. No more than one part of them is kept at a time. Each call is given
/// the same development.
pub struct Walk {
    stream: ConditionStream,
    /// The table of the part.
    pub terms: Terms,
    /// With more entries than this, some of them made by proofs, the table is begun anew before the next part is made. It is
    /// twice what was entered for the largest part, so that what parts share, as the invariant, is not entered anew for each.
    most: usize,
    /// The conditions at hand.
    pub part: Vec<Condition>,
    /// Where the next condition is in the part.
    pub place: usize,
    /// The number of the next condition.
    pub next: u64,
}

impl Drop for Walk {
    fn drop(self) {
        let Walk {
            stream: _,
            terms: _,
            most: _,
            part: _,
            place: _,
            next: _,
        } = self;
    }
}

// Begins the table anew, if it has more entries than these.
fn renew(alloc: Global, terms: &mut Terms, most: usize) {
    if terms.len() > most {
        let fresh = Terms::new(alloc);
        *terms = fresh;
    }
}

// The next number.
fn number_behind(number: u64) -> Result<u64, OutOfMemory>
    ensures { IfOk result (λ next. next ≡ suc number) }
{
    number.checked_add(1).ok_or(OutOfMemory)
}

impl Walk {
    ghost use Rattle.std.specs.Prelude.{◌≡◌, ◌≤◌, List, [], IfOk};
    ghost use Rattle.lc_kernel.specs.Proofs.{size};
    ghost use Rattle.lc_kernel.specs.View.{proof_of};
    ghost use Rattle.lc_outline.specs.DevelopmentView.{development_view};
    ghost use Rattle.lc_cert.specs.Certificates.{Entry as Proved};
    ghost use Rattle.lc_check.specs.Walking.{HasNext, IsKnown, IsInTurn, IsAdvanced, IsProvenOn};

    /// No proof was taken.
    pub fn new(alloc: Global, development: &Development) -> Result<Walk, OutOfMemory>
        ensures { IfOk result (λ walk. IsInTurn (development_view development.now) [] walk) }
    {
        let stream = ConditionStream::new(alloc, development)?;
        let terms = Terms::new(alloc);
        let part = Vec::new(alloc);
        Ok(Walk {
            stream,
            terms,
            most: FEW_ENTRIES,
            part,
            place: 0,
            next: 0,
        })
    }

    /// Goes on to the next condition, past parts with none left; whether there is one.
    pub fn advance(&mut self, alloc: Global, development: &Development) -> Result<bool, OutOfMemory>
        ensures { IfOk result (IsAdvanced (development_view development.now) self.old self.new) }
    {
        'parts: while self.place >= self.part.len() {
            // A part enters all its formulas, whether or not they are in the table already, so the time stays in proportion to
            // what the conditions say.
            renew(alloc, &mut self.terms, self.most);
            self.part = Vec::new(alloc);
            self.place = 0;
            let before = self.terms.len();
            let Some(part) = self.stream.next_part(development, &mut self.terms)? else {
                return Ok(false);
            };
            let entered = self.terms.len().saturating_sub(before);
            self.most = self.most.max(entered.saturating_mul(2));
            self.part = part;
        }
        Ok(true)
    }

    /// Whether a proof proves the next condition, so that the one after it is next; else the refusal of the proof.
    pub fn prove_next(
        &mut self,
        alloc: Global,
        development: &Development,
        proof: &Proof,
    ) -> Result<(), Fault>
        requires in_turn { (taken : List Proved) × IsInTurn (development_view development.now) taken self.old }
        requires stands { HasNext self.old }
        requires steps { size (proof_of proof.now) ≤ file_limit }
        ensures { IsProvenOn (development_view development.now) (proof_of proof.now) self.old self.new result }
    {
        self.prove_next_by(alloc, development, &mut Alone, proof)
    }

    /// Whether a proof derives the next condition, as this prover finds.
    pub fn prove_next_by<P: Prover>(
        &mut self,
        alloc: Global,
        development: &Development,
        prover: &mut P,
        proof: &Proof,
    ) -> Result<(), Fault>
        requires in_turn { (taken : List Proved) × IsInTurn (development_view development.now) taken self.old }
        requires stands { HasNext self.old }
        requires steps { size (proof_of proof.now) ≤ file_limit }
        ensures { IsProvenOn (development_view development.now) (proof_of proof.now) self.old self.new result }
    {
        conditions_use_their_variables(development);
        conditions_have_few_variables(development);
        let condition = &self.part[self.place];
        match prover.prove(
            alloc,
            development,
            &mut self.terms,
            self.next,
            condition,
            proof,
        ) {
            Ok(()) => {
                self.next = number_behind(self.next)?;
                self.place += 1;
                Ok(())
            }
            Err(fault) => Err(fault),
        }
    }

    /// Tells this prover that there is no proof of the next condition.
    pub(crate) fn report_missing<P: Prover>(
        &self,
        alloc: Global,
        development: &Development,
        prover: &mut P,
    )
        requires known { IsKnown self.now }
        requires stands { HasNext self.now }
    {
        let condition = &self.part[self.place];
        prover.miss(alloc, development, &self.terms, self.next, condition);
    }
}
