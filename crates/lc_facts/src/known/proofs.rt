//! Proofs in the arena, and how they are wrapped in the steps that they use.

use super::Known;
use crate::fact::{FactId, Made, Multiplier, ProofId, Rule, Step};
use lc_farkas::{Reason, Stop, whole_multipliers};

/// Whether a number is in a sorted list.
fn is_in(sorted: &[FactId], fact: FactId) -> bool {
    sorted.binary_search(&fact).is_ok()
}

impl Known {
    /// The facts that a proof needs; none of a number that is no proof.
    fn uses_of(&self, proof: ProofId) -> &[FactId] {
        match self.proofs.get(proof) {
            Some(made) => made.uses.as_slice(),
            None => &[],
        }
    }

    /// Whether a proof needs a fact.
    pub fn uses(&self, proof: ProofId, fact: FactId) -> bool {
        is_in(self.uses_of(proof), fact)
    }

    /// Whether a proof needs one of these facts.
    pub fn uses_any(&self, proof: ProofId, facts: &[FactId]) -> bool {
        for fact in facts {
            if self.uses(proof, *fact) {
                return true;
            }
        }
        false
    }

    /// Adds what a branch's proof needs and the branch does not make.
    fn add_uses(
        &self,
        uses: &mut Vec<FactId>,
        proof: ProofId,
        made: &[FactId],
    ) -> Result<(), Stop> {
        for fact in self.uses_of(proof) {
            if !made.contains(fact) {
                uses.push(*fact)?;
            }
        }
        Ok(())
    }

    /// What a rule with proofs of its branches needs, each fact once.
    fn needed(
        &self,
        needs: &[FactId],
        made: &[Vec<FactId>],
        below: &[ProofId],
    ) -> Result<Vec<FactId>, Stop> {
        let mut uses = Vec::from_slice(self.alloc, needs)?;
        for (proof, facts) in below.iter().zip(made.iter()) {
            self.add_uses(&mut uses, *proof, facts)?;
        }
        uses.sort()?;
        let mut once: Vec<FactId> = Vec::with_capacity(self.alloc, uses.len())?;
        for fact in &uses {
            if once.last() != Some(fact) {
                once.push(*fact)?;
            }
        }
        Ok(once)
    }

    /// A proof by a rule.
    fn add_proof(
        &mut self,
        rule: Rule,
        multiples: Vec<Multiplier>,
        needs: &[FactId],
        made: Vec<Vec<FactId>>,
        below: Vec<ProofId>,
    ) -> Result<ProofId, Stop> {
        let uses = self.needed(needs, &made, &below)?;
        let number = self.proofs.len();
        self.proofs.push(Made {
            rule,
            multiples,
            made,
            below,
            uses,
        })?;
        Ok(number)
    }

    /// A proof by a rule that has no branches.
    pub(super) fn leaf(&mut self, rule: Rule, needs: &[FactId]) -> Result<ProofId, Stop> {
        let alloc = self.alloc;
        self.add_proof(
            rule,
            Vec::new(alloc),
            needs,
            Vec::new(alloc),
            Vec::new(alloc),
        )
    }

    /// A proof by a rule that has one branch, with one fact.
    pub(super) fn above(
        &mut self,
        rule: Rule,
        need: FactId,
        fact: FactId,
        proof: ProofId,
    ) -> Result<ProofId, Stop> {
        let alloc = self.alloc;
        let facts = Vec::from_array(alloc, [fact])?;
        let made = Vec::from_array(alloc, [facts])?;
        let below = Vec::from_array(alloc, [proof])?;
        self.add_proof(rule, Vec::new(alloc), &[need], made, below)
    }

    /// A proof by a sum.
    pub(super) fn sum(&mut self, multiples: Vec<Multiplier>) -> Result<ProofId, Stop> {
        let alloc = self.alloc;
        let mut needs = Vec::with_capacity(alloc, multiples.len())?;
        for multiple in &multiples {
            needs.push(multiple.fact)?;
        }
        self.add_proof(
            Rule::Sum,
            multiples,
            &needs,
            Vec::new(alloc),
            Vec::new(alloc),
        )
    }

    /// A proof by the reasons of the tableau.
    pub(super) fn conflict(&mut self, reasons: &[Reason]) -> Result<ProofId, Stop> {
        let numbers = whole_multipliers(self.alloc, reasons)?;
        let mut multiples = Vec::with_capacity(self.alloc, numbers.len())?;
        for multiplier in &numbers {
            multiples.push(Multiplier {
                fact: multiplier.fact,
                number: i64::try_from(multiplier.number).map_err(|_| Stop::Large)?,
            })?;
        }
        self.sum(multiples)
    }

    /// A proof by a step each of whose branches has one.
    pub fn close(&mut self, step: Step) -> Result<ProofId, Stop> {
        let Step {
            rule,
            needs,
            made,
            sides,
            main: _,
        } = step;
        let mut below = Vec::with_capacity(self.alloc, sides.len())?;
        for side in &sides {
            match side {
                Some(proof) => below.push(*proof)?,
                None => return Err(Stop::Spent),
            }
        }
        self.add_proof(rule, Vec::new(self.alloc), &needs, made, below)
    }

    /// Whether a proof needs a fact of the main branch of a step.
    fn is_used(&self, place: usize, proof: ProofId) -> bool {
        let Some(step) = self.steps.get(place) else {
            return false;
        };
        match step.made.get(step.main) {
            Some(facts) => self.uses_any(proof, facts),
            None => false,
        }
    }

    /// A copy of a step, with a proof of its main branch.
    fn completed(&self, place: usize, proof: ProofId) -> Result<Option<Step>, Stop> {
        let Some(step) = self.steps.get(place) else {
            return Ok(None);
        };
        let mut made = Vec::with_capacity(self.alloc, step.made.len())?;
        for facts in &step.made {
            made.push(Vec::from_slice(self.alloc, facts)?)?;
        }
        let mut sides = Vec::from_slice(self.alloc, &step.sides)?;
        if let Some(side) = sides.get_mut(step.main) {
            *side = Some(proof);
        }
        Ok(Some(Step {
            rule: step.rule,
            needs: Vec::from_slice(self.alloc, &step.needs)?,
            made,
            sides,
            main: step.main,
        }))
    }

    /// A proof under a step that was taken, if it needs what the step makes.
    fn wrap_once(&mut self, place: usize, proof: ProofId) -> Result<ProofId, Stop> {
        if !self.is_used(place, proof) {
            return Ok(proof);
        }
        match self.completed(place, proof)? {
            Some(step) => self.close(step),
            None => Ok(proof),
        }
    }

    /// A proof under those of the steps from a place on whose facts it needs.
    pub fn wrap(&mut self, from: usize, proof: ProofId) -> Result<ProofId, Stop> {
        let mut proof = proof;
        for place in (from..self.steps.len()).rev() {
            proof = self.wrap_once(place, proof)?;
        }
        Ok(proof)
    }
}
