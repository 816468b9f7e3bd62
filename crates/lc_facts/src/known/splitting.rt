//! Choices of branches.

use super::Known;
use crate::fact::{FactId, Place, Rule, Step};
use lc_farkas::Stop;
use lc_table::FormulaId;

impl Known {
    /// A choice with a branch for each of these facts, none of which has a proof.
    fn choice(&self, rule: Rule, needs: Vec<FactId>, facts: &[FactId]) -> Result<Step, Stop> {
        let mut made = Vec::with_capacity(self.alloc, facts.len())?;
        let mut sides = Vec::with_capacity(self.alloc, facts.len())?;
        for fact in facts {
            made.push(Vec::from_array(self.alloc, [*fact])?)?;
            sides.push(None)?;
        }
        Ok(Step {
            rule,
            needs,
            made,
            sides,
            main: 0,
        })
    }

    /// The choice whether a formula holds: first that it does not.
    pub fn cut(&mut self, formula: FormulaId, place: Place) -> Result<Step, Stop> {
        let negated = self.nodes.not(formula)?;
        let first = self.new_fact(negated, place)?;
        let second = self.new_fact(formula, place)?;
        self.choice(Rule::Cut(formula), Vec::new(self.alloc), &[first, second])
    }

    /// The branches of a formula, in memory of their own.
    fn branch_formulas(&mut self, formula: FormulaId) -> Result<Option<Vec<FormulaId>>, Stop> {
        self.nodes.learn_parts(formula)?;
        match self.nodes.parts(formula) {
            Some(parts) => Ok(Some(Vec::from_slice(self.alloc, parts)?)),
            None => Ok(None),
        }
    }

    /// Whether a formula is the denial of an equation.
    fn is_disequality(&self, formula: FormulaId) -> bool {
        match self.nodes.denied(formula) {
            Some(inner) => self.nodes.equated(inner).is_some(),
            None => false,
        }
    }

    /// The choice that a disjunction or a disequality leaves, with new facts; none of other facts.
    pub fn branches(&mut self, fact: FactId) -> Result<Option<Step>, Stop> {
        let known = self.fact(fact);
        let Some(parts) = self.branch_formulas(known.formula)? else {
            return Ok(None);
        };
        let facts = self.new_facts(&parts, known.place)?;
        let rule = if self.is_disequality(known.formula) {
            Rule::Trichotomy(fact)
        } else {
            Rule::Cases(fact)
        };
        let needs = Vec::from_array(self.alloc, [fact])?;
        Ok(Some(self.choice(rule, needs, &facts)?))
    }
}
