//! How far the finder or the checker is, on standard error.
ghost use Rattle.lc_cond.specs.ConditionView.{IsCondition};

use lc_base::{Fault, OutOfMemory, Refusal};
use lc_cert::Certificate;
use lc_check::{Accepted, Finished, Prover, prove_one};
use lc_complete::Rounds;
use lc_cond::{Condition, Numbering};
use lc_explain_cert::{Ending, Flaw};
use lc_find::{Cause, CounterModel, FindFault, Progress};
use lc_kernel::Proof;
use lc_outline::Development;
use lc_table::Terms;
use std::alloc::Global;
use std::io::Write;

/// What was read and found on the way to an answer, for those who ask for more than that.
pub struct Heard {
    /// The development that was read last, if it is not accepted.
    development: Option<Development>,
    /// The development that is accepted.
    accepted: Option<Accepted>,
    /// Why a proof of the condition that is refused does not hold.
    flaw: Option<Flaw>,
    /// The certificate that was found.
    certificate: Option<Certificate>,
    /// Which conditions have a proof that was carried.
    carried: Vec<u64>,
    /// The model in which the search for a proof ended, if it ended in one.
    model: Option<CounterModel>,
    /// Why the search was given up, if it was.
    cause: Option<Cause>,
    /// The text of a development that was made whole, if not all of its conditions have proofs.
    made: Vec<u8>,
}

impl Drop for Heard {
    fn drop(self) {
        let Heard {
            development: _,
            accepted: _,
            flaw: _,
            certificate: _,
            carried: _,
            model: _,
            cause: _,
            made: _,
        } = self;
    }
}

impl Heard {
    /// Nothing.
    pub fn new(alloc: Global) -> Heard {
        Heard {
            development: None,
            accepted: None,
            flaw: None,
            certificate: None,
            carried: Vec::new(alloc),
            model: None,
            cause: None,
            made: Vec::new(alloc),
        }
    }

    /// Keeps a development that was read.
    pub fn keep_development(&mut self, development: Development) {
        self.development = Some(development);
    }

    /// Keeps a development whose certificate is refused, and why a proof in it does not hold.
    pub fn keep_refused(&mut self, development: Development, flaw: Option<Flaw>) {
        self.development = Some(development);
        self.flaw = flaw;
    }

    /// Keeps what is accepted; or else the development, and why it is not.
    pub fn keep_finished(&mut self, finished: Finished, flaw: Option<Flaw>) {
        match finished {
            Finished::Accepted(accepted) => self.accepted = Some(accepted),
            Finished::Refused(_, development) => self.keep_refused(development, flaw),
        }
    }

    /// Keeps a certificate that was found, if it was.
    pub fn keep_found(&mut self, found: Result<Certificate, FindFault>) {
        if let Ok(certificate) = found {
            self.certificate = Some(certificate);
        }
    }

    /// The development that was kept.
    pub fn development(&self) -> Option<&Development> {
        match &self.accepted {
            Some(accepted) => Some(accepted.development()),
            None => self.development.as_ref(),
        }
    }

    /// Why a proof does not hold, if that was kept.
    pub fn flaw(&self) -> Option<&Flaw> {
        self.flaw.as_ref()
    }

    /// The certificate that was kept.
    pub fn certificate(&self) -> Option<&Certificate> {
        self.certificate.as_ref()
    }

    /// How many of the conditions before `until` have a proof that was carried.
    pub fn carried_before(&self, until: u64) -> u64 {
        let mut count = 0u64;
        for number in &self.carried {
            if *number < until {
                count = count.saturating_add(1);
            }
        }
        count
    }

    /// Keeps a development that was made whole, with its text, if not all of its conditions have proofs. A fault of memory changes nothing.
    pub fn keep_made(&mut self, development: Development, text: &[u8]) {
        self.development = Some(development);
        let _ = self.made.extend_from_slice(text);
    }

    /// The text of the development that was made whole.
    pub fn made(&self) -> &[u8] {
        &self.made
    }

    /// How the search for a proof ended that found none.
    pub fn ending(&self) -> Ending<'_> {
        match (&self.model, self.cause) {
            (Some(model), _) => Ending::Model(model),
            (None, Some(cause)) => Ending::GivenUp(cause),
            (None, None) => Ending::Unknown,
        }
    }
}

/// Says which condition is looked at, if that is asked for, and takes note of what else the finder reports. A fault of writing changes
/// nothing.
#[derive(Drop)]
pub struct Telling<'a, E: Write> {
    pub err: &'a mut E,
    pub heard: &'a mut Heard,
    /// Whether it is asked for how far it is.
    pub is_asked: bool,
    /// Whether more may be said of what is judged than the answer.
    pub is_kept: bool,
}

impl<E: Write> Progress for Telling<'_, E> {
    fn reached(&mut self, number: u64) {
        if self.is_asked {
            let _ = writeln!(self.err, "condition {number}");
        }
    }

    fn carried(&mut self, number: u64) {
        let _ = self.heard.carried.push(number);
    }

    fn ended(&mut self, model: CounterModel) {
        self.heard.model = Some(model);
    }

    fn given_up(&mut self, cause: Cause) {
        self.heard.cause = Some(cause);
    }
}

impl<E: Write> Rounds for Telling<'_, E> {
    fn begins(&mut self, facts: usize) {
        if self.is_asked {
            let _ = writeln!(self.err, "guesses {facts}");
        }
    }
}

/// How many lines a check says at most of how far it is.
const MOST_LINES: u64 = 100;

/// Says how many conditions of how many are proved.
pub struct Count<'a, E: Write> {
    pub err: &'a mut E,
    /// How many conditions there are.
    pub total: u64,
    /// How many are proved when it is said next.
    pub due: u64,
}

impl<E: Write> Drop for Count<'_, E> {
    fn drop(self) {
        let Count {
            err: _,
            total: _,
            due: _,
        } = self;
    }
}

impl<E: Write> Count<'_, E> {
    /// `done` conditions are proved. A fault of writing changes nothing.
    fn reached(&mut self, done: u64) {
        if done < self.due && done < self.total {
            return;
        }
        let total = self.total;
        let _ = writeln!(self.err, "proved {done} of {total}");
        self.due = done.saturating_add(total / MOST_LINES).saturating_add(1);
    }
}

/// Proves, and takes note on the way of what is said beside the verdict.
pub struct Noting<'a, E: Write> {
    /// Says how far it is.
    pub count: Count<'a, E>,
    /// Whether that is asked for.
    pub is_asked: bool,
    /// Whether it is noted why a proof does not hold.
    pub is_kept: bool,
    /// Why it does not, if one does not.
    pub flaw: Option<Flaw>,
}

impl<E: Write> Drop for Noting<'_, E> {
    fn drop(self) {
        let Noting {
            count: _,
            is_asked: _,
            is_kept: _,
            flaw: _,
        } = self;
    }
}

impl<'a, E: Write> Noting<'a, E> {
    /// Proves the conditions of a development, says how far it is, if that is asked for, and notes why a proof does not hold, if that
    /// is to be kept.
    pub fn new(
        alloc: Global,
        development: &Development,
        err: &'a mut E,
        is_asked: bool,
        is_kept: bool,
    ) -> Result<Noting<'a, E>, OutOfMemory> {
        let total = if is_asked {
            Numbering::new(alloc, development)?.count()
        } else {
            0
        };
        let count = Count { err, total, due: 0 };
        Ok(Noting {
            count,
            is_asked,
            is_kept,
            flaw: None,
        })
    }

    /// Why a proof did not hold, if that was noted.
    pub fn flaw(self) -> Option<Flaw> {
        let Noting {
            count: _,
            is_asked: _,
            is_kept: _,
            flaw,
        } = self;
        flaw
    }
}

impl<E: Write> Noting<'_, E> {
    /// Keeps what is said of a condition, if it is to be kept: this proof of it is refused so, or there is none.
    fn keep_flaw(
        &mut self,
        alloc: Global,
        development: &Development,
        terms: &Terms,
        condition: &Condition,
        proof: Option<&Proof>,
        refusal: &Refusal,
    )
        requires { IsCondition terms.now condition.now }
    {
        if self.is_kept {
            let flaw = Flaw::new(alloc, development, terms, condition, proof, refusal);
            self.flaw = flaw.ok();
        }
    }
}

impl<E: Write> Prover for Noting<'_, E> {
    fn prove(
        &mut self,
        alloc: Global,
        development: &Development,
        terms: &mut Terms,
        number: u64,
        condition: &Condition,
        proof: &Proof,
    ) -> Result<(), Fault> {
        let proved = prove_one(alloc, terms, number, condition, proof);
        match &proved {
            Ok(()) => {
                if self.is_asked {
                    self.count.reached(number.saturating_add(1));
                }
            }
            Err(Fault::Refused(refusal)) => {
                self.keep_flaw(alloc, development, terms, condition, Some(proof), refusal);
            }
            Err(_) => {}
        }
        proved
    }

    fn miss(
        &mut self,
        alloc: Global,
        development: &Development,
        terms: &Terms,
        number: u64,
        condition: &Condition,
    ) {
        let refusal = Refusal::Missing(number);
        self.keep_flaw(alloc, development, terms, condition, None, &refusal);
    }
}
