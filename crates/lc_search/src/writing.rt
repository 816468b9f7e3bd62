//! Proofs of the arena written as trees.

use lc_base::DEPTH_LIMIT;
use lc_facts::{FactId, Known, Made, ProofId, Rule};
use lc_farkas::Stop;
use lc_kernel::{Multiple, Proof, SameAccess, Step, StoredAccess};

/// The numbers that hypotheses and variables have when a proof is written.
struct Numbering {
    /// Of each fact, the number of its hypothesis.
    hypotheses: Vec<i64>,
    /// Of each variable of the search, its number.
    variables: Vec<u32>,
    next_hypothesis: i64,
    next_variable: u32,
}

impl Drop for Numbering {
    fn drop(self) {
        let Numbering {
            hypotheses: _,
            variables: _,
            next_hypothesis: _,
            next_variable: _,
        } = self;
    }
}

impl Numbering {
    /// For `count` hypotheses, which are the first facts, with the negated goal after them, and for `variables` variables.
    fn new(known: &Known, count: usize, variables: u32) -> Result<Numbering, Stop> {
        let mut numbering = Numbering {
            hypotheses: Vec::new(known.alloc),
            variables: Vec::new(known.alloc),
            next_hypothesis: 0,
            next_variable: variables,
        };
        for _ in 0..known.facts.len() {
            numbering.hypotheses.push(0)?;
        }
        for variable in 0..known.variables {
            numbering.variables.push(variable)?;
        }
        for fact in 0..count.saturating_add(1) {
            numbering.append(fact);
        }
        Ok(numbering)
    }

    /// Gives the next number to a fact.
    fn append(&mut self, fact: FactId) {
        let next = self.next_hypothesis;
        if let Some(number) = self.hypotheses.get_mut(fact) {
            *number = next;
        }
        self.next_hypothesis = next.saturating_add(1);
    }

    /// Gives the next numbers to what a step makes in a branch.
    fn append_all(&mut self, made: Option<&Vec<FactId>>) {
        if let Some(facts) = made {
            for fact in facts {
                self.append(*fact);
            }
        }
    }

    /// Gives the next number to the variable that a step makes.
    fn name(&mut self, rule: Rule) {
        if let Rule::Fresh(_, variable) = rule {
            let next = self.next_variable;
            if let Some(number) = self.variables.get_mut(variable as usize) {
                *number = next;
            }
            self.next_variable = next.saturating_add(1);
        }
    }

    fn hypothesis(&self, fact: FactId) -> i64 {
        self.hypotheses.get(fact).copied().unwrap_or(-1)
    }
}

/// A proof whose first hypotheses are the first facts, with the negated goal after them; none that nests deeper than a text may.
pub(crate) fn written(
    known: &Known,
    proof: ProofId,
    count: usize,
    variables: u32,
) -> Result<Proof, Stop> {
    let mut numbering = Numbering::new(known, count, variables)?;
    let mut proofs = Vec::with_capacity(known.alloc, 1)?;
    write(known, &mut numbering, proof, DEPTH_LIMIT, &mut proofs)?;
    match proofs.pop() {
        Some(proof) => Ok(proof),
        None => Err(Stop::Large),
    }
}

/// Appends a proof to others: a list of steps of one branch each, and what is below them. Steps and proofs are large, and are
/// made in functions of their own, so that each level of a proof takes little of the stack. At most `deep` steps may be nested.
#[cycle(write)]
fn write(
    known: &Known,
    numbering: &mut Numbering,
    proof: ProofId,
    deep: usize,
    proofs: &mut Vec<Proof>,
) -> Result<(), Stop> {
    let mut steps = Vec::new(known.alloc);
    let last = chain(known, numbering, proof, deep, &mut steps)?;
    let Some(made) = known.proofs.get(last) else {
        return Err(Stop::Large);
    };
    push_step(known, numbering, made, &mut steps)?;
    let deep = deep.checked_sub(steps.len().max(1)).ok_or(Stop::Spent)?;
    let branches = write_each(known, numbering, made, deep)?;
    push_steps(known, steps, branches, proofs)
}

/// Appends the step of a proof to others.
#[inline(never)]
fn push_step(
    known: &Known,
    numbering: &Numbering,
    made: &Made,
    steps: &mut Vec<Step>,
) -> Result<(), Stop> {
    steps.push(step_of(known, numbering, made)?)?;
    Ok(())
}

/// Writes the steps of one branch that a proof begins with, at most `most`; the proof below them is returned.
#[inline(never)]
fn chain(
    known: &Known,
    numbering: &mut Numbering,
    proof: ProofId,
    most: usize,
    steps: &mut Vec<Step>,
) -> Result<ProofId, Stop> {
    let mut proof = proof;
    for _ in 0..most {
        let Some(made) = known.proofs.get(proof) else {
            return Ok(proof);
        };
        let below = match made.below.first() {
            Some(below) if made.below.len() == 1 => *below,
            _ => return Ok(proof),
        };
        push_step(known, numbering, made, steps)?;
        numbering.name(made.rule);
        numbering.append_all(made.made.first());
        proof = below;
    }
    Ok(proof)
}

/// Appends a proof to others: steps, the last with these branches, and each other one with the next one below it.
#[inline(never)]
fn push_steps(
    known: &Known,
    steps: Vec<Step>,
    branches: Vec<Proof>,
    proofs: &mut Vec<Proof>,
) -> Result<(), Stop> {
    let mut steps = steps;
    let mut branches = branches;
    for _ in 0..steps.len() {
        if let Some(step) = steps.pop() {
            let mut below = Vec::with_capacity(known.alloc, 1)?;
            below.push(Proof { step, branches })?;
            branches = below;
        }
    }
    for proof in branches {
        proofs.push(proof)?;
    }
    Ok(())
}

/// The proofs of the branches of a step, each beginning with the same numbers.
#[cycle(write)]
fn write_each(
    known: &Known,
    numbering: &mut Numbering,
    made: &Made,
    deep: usize,
) -> Result<Vec<Proof>, Stop> {
    let mut proofs = Vec::with_capacity(known.alloc, made.below.len())?;
    for (place, below) in made.below.iter().enumerate() {
        let hypothesis = numbering.next_hypothesis;
        let variable = numbering.next_variable;
        numbering.append_all(made.made.get(place));
        write(known, numbering, *below, deep, &mut proofs)?;
        numbering.next_hypothesis = hypothesis;
        numbering.next_variable = variable;
    }
    Ok(proofs)
}

/// The multiples of a sum.
fn multiples_of(known: &Known, numbering: &Numbering, made: &Made) -> Result<Vec<Multiple>, Stop> {
    let mut multiples = Vec::with_capacity(known.alloc, made.multiples.len())?;
    for multiplier in &made.multiples {
        multiples.push(Multiple {
            hypothesis: numbering.hypothesis(multiplier.fact),
            multiplier: multiplier.number,
        })?;
    }
    Ok(multiples)
}

/// The step of a proof, with the numbers that hypotheses and variables have before it.
fn step_of(known: &Known, numbering: &Numbering, made: &Made) -> Result<Step, Stop> {
    match made.rule {
        Rule::Sum => Ok(Step::Sum {
            multiples: multiples_of(known, numbering, made)?,
        }),
        Rule::Opposite(first, second) => Ok(Step::Opposite {
            hypothesis: numbering.hypothesis(first),
            negation: numbering.hypothesis(second),
        }),
        Rule::Split(fact) => Ok(Step::Split {
            hypothesis: numbering.hypothesis(fact),
        }),
        Rule::Cases(fact) => Ok(Step::Cases {
            hypothesis: numbering.hypothesis(fact),
        }),
        Rule::Push(fact) => Ok(Step::Push {
            hypothesis: numbering.hypothesis(fact),
        }),
        Rule::Fresh(fact, _) => Ok(Step::Fresh {
            hypothesis: numbering.hypothesis(fact),
        }),
        Rule::Trichotomy(fact) => Ok(Step::Trichotomy {
            hypothesis: numbering.hypothesis(fact),
        }),
        rule => built_step(known, numbering, rule),
    }
}

/// A step that has terms or formulas.
fn built_step(known: &Known, numbering: &Numbering, rule: Rule) -> Result<Step, Stop> {
    let names = &numbering.variables;
    match rule {
        Rule::Instantiate(fact, term) => Ok(Step::Instantiate {
            hypothesis: numbering.hypothesis(fact),
            term: Box::new(known.alloc, known.nodes.term_tree(names, term)?)?,
        }),
        Rule::Cut(formula) => Ok(Step::Cut {
            formula: Box::new(known.alloc, known.nodes.formula_tree(names, formula)?)?,
        }),
        Rule::Divide(fact, divisor, quotient) => Ok(Step::Divide {
            hypothesis: numbering.hypothesis(fact),
            divisor,
            quotient: Box::new(known.alloc, known.nodes.formula_tree(names, quotient)?)?,
        }),
        rule => axiom_step(known, numbering, rule),
    }
}

/// A step that appends an axiom.
fn axiom_step(known: &Known, numbering: &Numbering, rule: Rule) -> Result<Step, Stop> {
    let names = &numbering.variables;
    match rule {
        Rule::Written(column, index, value, other) => {
            let access = StoredAccess {
                column: known.nodes.column_tree(names, column)?,
                index: known.nodes.term_tree(names, index)?,
                value: known.nodes.term_tree(names, value)?,
                other: known.nodes.term_tree(names, other)?,
            };
            Ok(Step::Written {
                access: Box::new(known.alloc, access)?,
            })
        }
        Rule::Same(column, index, other) => {
            let access = SameAccess {
                column: known.nodes.column_tree(names, column)?,
                index: known.nodes.term_tree(names, index)?,
                other: known.nodes.term_tree(names, other)?,
            };
            Ok(Step::Same {
                access: Box::new(known.alloc, access)?,
            })
        }
        Rule::Affine(slope, start, index) => Ok(Step::Affine {
            slope,
            start,
            index: Box::new(known.alloc, known.nodes.term_tree(names, index)?)?,
        }),
        _ => Ok(Step::Open),
    }
}
