//! Comparisons that come to be known.

use super::Known;
use crate::fact::{FactId, Multiplier, ProofId, Rule, Step};
use lc_farkas::{Reason, Stop};
use lc_nodes::narrow;
use lc_table::FormulaId;

/// A divisor of all numbers of a comparison's form but the constant.
#[derive(Clone, Copy)]
pub(super) struct Divisor {
    number: i128,
}

impl Known {
    /// A number that divides the atoms' numbers of a comparison and not its constant.
    fn divisor_of(&self, formula: FormulaId) -> Result<Option<Divisor>, Stop> {
        let Some(gap) = self.nodes.gap(formula) else {
            return Ok(None);
        };
        let number = gap.divisor()?;
        if number <= 1 {
            return Ok(None);
        }
        match gap.constant.checked_rem_euclid(number) {
            Some(rest) if rest != 0 => Ok(Some(Divisor { number })),
            _ => Ok(None),
        }
    }

    /// The quotient of a `<=` whose constant is not divided.
    fn quotient_of(&mut self, formula: FormulaId, divisor: Divisor) -> Result<FormulaId, Stop> {
        let copy = match self.nodes.gap(formula) {
            Some(gap) => gap.try_clone(self.alloc)?,
            None => return Ok(formula),
        };
        self.nodes.quotient(&copy, divisor.number)
    }

    /// Takes the rounded quotient of a `<=` for it.
    fn divide(
        &mut self,
        fact: FactId,
        divisor: Divisor,
        queue: &mut Vec<FactId>,
    ) -> Result<(), Stop> {
        let known = self.fact(fact);
        let quotient = self.quotient_of(known.formula, divisor)?;
        let made = self.new_fact(quotient, known.place)?;
        let rule = Rule::Divide(fact, narrow(divisor.number)?, quotient);
        self.note_step(rule, fact, made, queue)
    }

    /// Closes an equation that no whole numbers solve: it cuts by the `<=` of its sides.
    fn close_equation(&mut self, fact: FactId, divisor: Divisor) -> Result<Option<ProofId>, Stop> {
        let known = self.fact(fact);
        let Some((left, right)) = self.nodes.equated(known.formula) else {
            return Ok(None);
        };
        let order = self.nodes.le(left, right)?;
        let mut step = self.cut(order, known.place)?;
        let above = self.close_above(fact, divisor, &step)?;
        let below = self.close_below(fact, &step)?;
        step.sides = Vec::from_array(self.alloc, [below, above])?;
        Ok(Some(self.close(step)?))
    }

    /// The branch of `(<= a b)` under `(= a b)`: its quotient is above the equation's.
    fn close_above(
        &mut self,
        fact: FactId,
        divisor: Divisor,
        step: &Step,
    ) -> Result<Option<ProofId>, Stop> {
        let Some(order) = step.only_fact(1) else {
            return Ok(None);
        };
        let known = self.fact(order);
        self.nodes.learn_gap(known.formula)?;
        let quotient = self.quotient_of(known.formula, divisor)?;
        let made = self.new_fact(quotient, known.place)?;
        let number = narrow(divisor.number)?;
        let multiples = Vec::from_array(
            self.alloc,
            [
                Multiplier { fact, number: -1 },
                Multiplier { fact: made, number },
            ],
        )?;
        let sum = self.sum(multiples)?;
        let rule = Rule::Divide(order, number, quotient);
        Ok(Some(self.above(rule, order, made, sum)?))
    }

    /// The branch of `(not (<= a b))` under `(= a b)`.
    fn close_below(&mut self, fact: FactId, step: &Step) -> Result<Option<ProofId>, Stop> {
        let Some(denial) = step.only_fact(0) else {
            return Ok(None);
        };
        let known = self.fact(denial);
        let Some(less) = self.nodes.pushed(known.formula)? else {
            return Ok(None);
        };
        let made = self.new_fact(less, known.place)?;
        let multiples = Vec::from_array(
            self.alloc,
            [
                Multiplier { fact, number: 1 },
                Multiplier {
                    fact: made,
                    number: 1,
                },
            ],
        )?;
        let sum = self.sum(multiples)?;
        Ok(Some(self.above(Rule::Push(denial), denial, made, sum)?))
    }

    /// Sets the bound of a comparison.
    fn assert(
        &mut self,
        fact: FactId,
        formula: FormulaId,
        is_equation: bool,
    ) -> Result<Option<Vec<Reason>>, Stop> {
        match self.nodes.gap(formula) {
            Some(gap) => self
                .tableau
                .assert_sum(&gap.summands, gap.constant, fact, is_equation),
            None => Ok(None),
        }
    }

    /// A comparison comes to be known.
    pub(super) fn compare(
        &mut self,
        fact: FactId,
        is_equation: bool,
        queue: &mut Vec<FactId>,
    ) -> Result<Option<ProofId>, Stop> {
        self.tick()?;
        let known = self.fact(fact);
        self.nodes.learn_gap(known.formula)?;
        if let Some(divisor) = self.divisor_of(known.formula)? {
            if is_equation {
                return self.close_equation(fact, divisor);
            }
            self.divide(fact, divisor, queue)?;
            return Ok(None);
        }
        self.activate_reads(known.formula, known.place)?;
        match self.assert(fact, known.formula, is_equation)? {
            Some(reasons) => Ok(Some(self.conflict(&reasons)?)),
            None => Ok(None),
        }
    }

    /// Finds numbers for what is known, or closes the branch.
    pub(super) fn check(&mut self) -> Result<Option<ProofId>, Stop> {
        match self.tableau.check()? {
            Some(reasons) => Ok(Some(self.conflict(&reasons)?)),
            None => Ok(None),
        }
    }
}
