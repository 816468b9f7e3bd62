//! Trials: what a fact would bring.

use super::{Known, Probed, Weighed};
use crate::fact::{FactId, ProofId, Step};
use lc_farkas::Stop;
use lc_table::{TermId, TermNode};

/// How deep the parts of disjunctions are tried.
const LEVELS: u32 = 2;

impl Known {
    /// Tries a fact, and the parts of disjunctions down to `levels` levels. What is known stays as it was.
    #[cycle(probe)]
    pub fn probe(&mut self, fact: FactId, levels: u32) -> Result<Probed, Stop> {
        self.tick()?;
        let trial = self.start_trial()?;
        let from = trial.mark.steps;
        let probed = match self.try_fact(fact, levels)? {
            Probed::Closed(proof) => Probed::Closed(self.wrap(from, proof)?),
            Probed::Open(count) => Probed::Open(count),
        };
        self.end_trial(trial)?;
        Ok(probed)
    }

    /// Makes a fact known, and tries its parts or the disequalities that the numbers break.
    #[cycle(probe)]
    fn try_fact(&mut self, fact: FactId, levels: u32) -> Result<Probed, Stop> {
        if let Some(proof) = self.assume(&[fact])? {
            return Ok(Probed::Closed(proof));
        }
        if levels == 0 {
            return Ok(Probed::Open(1));
        }
        match self.disjunction(fact)? {
            Some(step) => {
                let step = self.weigh_parts(step, levels - 1)?;
                self.ended(step)
            }
            None => self.try_disequalities(),
        }
    }

    /// The choice of a fact that is a live disjunction.
    fn disjunction(&mut self, fact: FactId) -> Result<Option<Step>, Stop> {
        if self.disjunctions.last() == Some(&fact) || self.axioms.last() == Some(&fact) {
            self.branches(fact)
        } else {
            Ok(None)
        }
    }

    /// What a choice comes to whose branches were tried.
    fn ended(&mut self, step: Step) -> Result<Probed, Stop> {
        let open = step.open_count();
        if open == 0 {
            Ok(Probed::Closed(self.close(step)?))
        } else {
            Ok(Probed::Open(open))
        }
    }

    /// The choices of a step, each branch without a proof being tried.
    #[cycle(probe)]
    fn weigh_parts(&mut self, step: Step, levels: u32) -> Result<Step, Stop> {
        let mut step = step;
        for branch in 0..step.made.len() {
            if let Some(proof) = self.weigh_branch(&step, branch, levels)? {
                step.put_side(branch, proof);
            }
        }
        Ok(step)
    }

    /// A proof of a branch that has none.
    #[cycle(probe)]
    fn weigh_branch(
        &mut self,
        step: &Step,
        branch: usize,
        levels: u32,
    ) -> Result<Option<ProofId>, Stop> {
        if !step.is_open(branch) {
            return Ok(None);
        }
        let Some(fact) = step.only_fact(branch) else {
            return Ok(None);
        };
        match self.probe(fact, levels)? {
            Probed::Closed(proof) => Ok(Some(proof)),
            Probed::Open(_) => Ok(None),
        }
    }

    /// Tries each branch of a choice that has no proof.
    pub fn weigh(&mut self, step: Step) -> Result<Step, Stop> {
        self.weigh_parts(step, LEVELS)
    }

    /// Whether a term is a read that is not looked at.
    fn is_idle(&self, atom: TermId) -> bool {
        match self.nodes.term_node(atom) {
            Some(TermNode::Read(_, _)) => !self.active.contains_key(&atom),
            _ => false,
        }
    }

    /// Whether the numbers make the sides of a disequality equal, all of whose reads are looked at.
    fn is_broken(&mut self, fact: FactId) -> Result<bool, Stop> {
        let Some(equation) = self.nodes.denied(self.formula(fact)) else {
            return Ok(false);
        };
        let value = self.gap_value(equation)?;
        if !value.is_zero() {
            return Ok(false);
        }
        if let Some(gap) = self.nodes.gap(equation) {
            for (atom, _) in &gap.summands {
                if self.is_idle(*atom) {
                    return Ok(false);
                }
            }
        }
        Ok(true)
    }

    /// A proof by a disequality that the numbers break, both of whose sides close at once.
    #[cycle(probe)]
    fn try_disequality(&mut self, fact: FactId) -> Result<Option<ProofId>, Stop> {
        if !self.is_broken(fact)? {
            return Ok(None);
        }
        let Some(step) = self.branches(fact)? else {
            return Ok(None);
        };
        let step = self.weigh_parts(step, 0)?;
        match self.ended(step)? {
            Probed::Closed(proof) => Ok(Some(proof)),
            Probed::Open(_) => Ok(None),
        }
    }

    /// Tries the disequalities that the numbers break.
    #[cycle(probe)]
    fn try_disequalities(&mut self) -> Result<Probed, Stop> {
        for place in 0..self.disequalities.len() {
            if let Some(fact) = self.disequalities.get(place).copied()
                && let Some(proof) = self.try_disequality(fact)?
            {
                return Ok(Probed::Closed(proof));
            }
        }
        Ok(Probed::Open(1))
    }

    /// What a choice comes to, each of whose branches was tried.
    pub fn sorted(&mut self, step: Step) -> Result<Weighed, Stop> {
        let open = step.open_count();
        if open == 0 {
            return Ok(Weighed::Closed(self.close(step)?));
        }
        if open == 1 {
            let mut step = step;
            step.main = step.first_open();
            return Ok(Weighed::Unit(step));
        }
        Ok(Weighed::Split(step))
    }

    /// Tries the branches of a disjunction or a disequality; none of other facts.
    pub fn clause(&mut self, fact: FactId) -> Result<Option<Weighed>, Stop> {
        let Some(step) = self.branches(fact)? else {
            return Ok(None);
        };
        let step = self.weigh(step)?;
        Ok(Some(self.sorted(step)?))
    }
}
