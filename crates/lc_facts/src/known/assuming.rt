//! What follows from facts without a choice.

use super::Known;
use crate::fact::{Fact, FactId, ProofId, Rule, Step};
use lc_farkas::Stop;
use lc_table::{FormulaId, FormulaNode};

/// How many facts one assumption brings at most.
const FACTS: usize = 1_000_000;

/// What is done with a fact.
#[derive(Clone, Copy)]
enum Kind {
    Conjunction,
    Existence(FormulaId),
    /// A negation that is pushed inward.
    Denial,
    Disequality,
    Disjunction,
    Universal,
    Comparison(bool),
    Nothing,
}

impl Known {
    /// What is done with a formula.
    fn kind(&self, formula: FormulaId) -> Kind {
        match self.nodes.formula_node(formula) {
            Some(FormulaNode::Le(_, _)) => Kind::Comparison(false),
            Some(FormulaNode::Eq(_, _)) => Kind::Comparison(true),
            Some(FormulaNode::And(_)) => Kind::Conjunction,
            Some(FormulaNode::Or(_)) | Some(FormulaNode::Implies(_, _)) => Kind::Disjunction,
            Some(FormulaNode::Forall(_)) => Kind::Universal,
            Some(FormulaNode::Exists(body)) => Kind::Existence(*body),
            Some(FormulaNode::Not(inner)) => match self.nodes.formula_node(*inner) {
                Some(FormulaNode::Eq(_, _)) => Kind::Disequality,
                Some(FormulaNode::And(_)) => Kind::Disjunction,
                _ => Kind::Denial,
            },
            None => Kind::Nothing,
        }
    }

    /// Makes facts known, and what follows from them without a choice. A proof is returned if that is a contradiction; it is to be
    /// wrapped in the steps that were taken.
    pub fn assume(&mut self, facts: &[FactId]) -> Result<Option<ProofId>, Stop> {
        let mut queue = Vec::from_slice(self.alloc, facts)?;
        for place in 0..FACTS {
            let Some(fact) = queue.get(place).copied() else {
                return self.check();
            };
            if let Some(proof) = self.learn(fact, &mut queue)? {
                return Ok(Some(proof));
            }
        }
        Err(Stop::Spent)
    }

    /// A proof by a fact and its negation, the first of which is not live yet.
    fn opposite(&mut self, fact: FactId, other: FactId) -> Result<ProofId, Stop> {
        let formula = self.formula(fact);
        let rule = if self.nodes.denied(formula) == Some(self.formula(other)) {
            Rule::Opposite(other, fact)
        } else {
            Rule::Opposite(fact, other)
        };
        self.leaf(rule, &[fact, other])
    }

    /// A fact comes to be known. What it makes goes into the queue.
    fn learn(&mut self, fact: FactId, queue: &mut Vec<FactId>) -> Result<Option<ProofId>, Stop> {
        let known = self.fact(fact);
        if self.has(known.formula).is_some() {
            return Ok(None);
        }
        if let Some(other) = self.has_negation(known.formula) {
            return Ok(Some(self.opposite(fact, other)?));
        }
        self.have.insert(known.formula, fact)?;
        match self.kind(known.formula) {
            Kind::Comparison(is_equation) => self.compare(fact, is_equation, queue),
            Kind::Disjunction => self.keep_disjunction(fact, queue),
            Kind::Conjunction => {
                self.split(fact, known, queue)?;
                Ok(None)
            }
            Kind::Denial => {
                self.push(fact, known, queue)?;
                Ok(None)
            }
            Kind::Existence(body) => {
                self.freshen(fact, known, body, queue)?;
                Ok(None)
            }
            Kind::Disequality => {
                self.note_reads(known.formula, known.place)?;
                self.disequalities.push(fact)?;
                Ok(None)
            }
            Kind::Universal => {
                self.note_reads(known.formula, known.place)?;
                self.foralls.push(fact)?;
                Ok(None)
            }
            Kind::Nothing => Ok(None),
        }
    }

    /// A step of one branch with these facts.
    fn note_facts(
        &mut self,
        rule: Rule,
        need: FactId,
        made: Vec<FactId>,
        queue: &mut Vec<FactId>,
    ) -> Result<(), Stop> {
        queue.extend_from_slice(&made)?;
        let step = Step {
            rule,
            needs: Vec::from_array(self.alloc, [need])?,
            made: Vec::from_array(self.alloc, [made])?,
            sides: Vec::from_array(self.alloc, [None])?,
            main: 0,
        };
        self.steps.push(step)?;
        Ok(())
    }

    /// A step of one branch with one fact.
    pub(super) fn note_step(
        &mut self,
        rule: Rule,
        need: FactId,
        made: FactId,
        queue: &mut Vec<FactId>,
    ) -> Result<(), Stop> {
        let made = Vec::from_array(self.alloc, [made])?;
        self.note_facts(rule, need, made, queue)
    }

    /// The parts of a conjunction.
    fn split(&mut self, fact: FactId, known: Fact, queue: &mut Vec<FactId>) -> Result<(), Stop> {
        let Some(parts) = self.nodes.conjuncts(known.formula)? else {
            return Ok(());
        };
        if parts.is_empty() {
            return Ok(());
        }
        let made = self.new_facts(&parts, known.place)?;
        self.note_facts(Rule::Split(fact), fact, made, queue)
    }

    /// A negation pushed inward.
    fn push(&mut self, fact: FactId, known: Fact, queue: &mut Vec<FactId>) -> Result<(), Stop> {
        let Some(pushed) = self.nodes.pushed(known.formula)? else {
            return Ok(());
        };
        let made = self.new_fact(pushed, known.place)?;
        self.note_step(Rule::Push(fact), fact, made, queue)
    }

    /// A witness of an existence, by a new variable. One of the goal's is near.
    fn freshen(
        &mut self,
        fact: FactId,
        known: Fact,
        body: FormulaId,
        queue: &mut Vec<FactId>,
    ) -> Result<(), Stop> {
        let number = self.variables;
        self.variables = number.checked_add(1).ok_or(Stop::Large)?;
        if known.place.rank <= 0 {
            self.near.insert(number)?;
        }
        let witness = self.nodes.variable(number)?;
        self.tableau.enter(witness)?;
        let formula = self.nodes.instantiate(body, witness)?;
        let made = self.new_fact(formula, known.place)?;
        self.note_step(Rule::Fresh(fact, number), fact, made, queue)
    }

    /// A disjunction is kept, if it has more than one part.
    fn keep_disjunction(
        &mut self,
        fact: FactId,
        queue: &mut Vec<FactId>,
    ) -> Result<Option<ProofId>, Stop> {
        let known = self.fact(fact);
        self.nodes.learn_parts(known.formula)?;
        let (count, first) = match self.nodes.parts(known.formula) {
            Some(parts) => (parts.len(), parts.first().copied()),
            None => (0, None),
        };
        let Some(part) = first else {
            return Ok(Some(self.leaf(Rule::Cases(fact), &[fact])?));
        };
        if count == 1 {
            let made = self.new_fact(part, known.place)?;
            self.note_step(Rule::Cases(fact), fact, made, queue)?;
        } else if known.is_axiom {
            self.axioms.push(fact)?;
        } else {
            self.note_reads(known.formula, known.place)?;
            self.disjunctions.push(fact)?;
        }
        Ok(None)
    }

    /// Takes a step: its main branch is gone on with.
    pub fn take(&mut self, step: Step) -> Result<Option<ProofId>, Stop> {
        let facts = match step.made.get(step.main) {
            Some(facts) => Vec::from_slice(self.alloc, facts)?,
            None => Vec::new(self.alloc),
        };
        self.steps.push(step)?;
        self.assume(&facts)
    }

    /// Takes a step of one branch with one fact, by a rule that needs these.
    pub fn infer(
        &mut self,
        rule: Rule,
        needs: Vec<FactId>,
        fact: FactId,
    ) -> Result<Option<ProofId>, Stop> {
        self.tick()?;
        let facts = Vec::from_array(self.alloc, [fact])?;
        self.take(Step {
            rule,
            needs,
            made: Vec::from_array(self.alloc, [facts])?,
            sides: Vec::from_array(self.alloc, [None])?,
            main: 0,
        })
    }
}
