//! Terms that may be put in for the variables of a block.

use crate::blocks::{Blocks, Slot, solved};
use crate::cases::{key_of, looked_at};
use crate::reach::Reach;
use crate::work::count_nodes;
use indexmap::IndexMap;
use lc_base::ColId;
use lc_facts::{Indexed, Known, Place};
use lc_farkas::{Rational, Stop};
use lc_search_model::{Model, closed_value, count_evaluated, live_places, live_variable};
use lc_table::{FormulaId, TermId};
use std::alloc::Global;

/// A term that may be put in for a variable.
#[derive(Clone, Copy)]
pub(crate) struct Candidate {
    pub(crate) term: TermId,
    pub(crate) place: Place,
    size: u32,
}

impl Candidate {
    /// Whether it is to be preferred.
    fn is_better(self, other: Candidate) -> bool {
        if self.place.is_nearer(other.place) {
            return true;
        }
        !other.place.is_nearer(self.place) && self.size < other.size
    }

    fn key(self) -> i64 {
        key_of(self.place)
            .saturating_mul(1_000_000)
            .saturating_add(i64::from(self.size))
    }
}

/// The place of what is tried only late.
const LATE: Place = Place { rank: 3, depth: 0 };

/// The work of taking a term in.
const GATHERED: usize = 3;

/// How many nodes of a term are looked at for a unit of work, and how many at most.
const LEARNT: usize = 8;

const MOST_LEARNT: usize = 10_000;

/// The work of solving an index for a variable, beside that of new nodes.
const SOLVED: usize = 5;

/// The work of looking at a term.
fn learnt(known: &Known, term: TermId) -> usize {
    (known.nodes.term_size(term) as usize).min(MOST_LEARNT) / LEARNT
}

/// How many terms of one number are kept.
pub(crate) const MOST_ALIKE: usize = 3;

/// Terms of one number: the best of them.
#[derive(Clone, Copy)]
pub(crate) struct Choice {
    pub(crate) number: Rational,
    pub(crate) count: usize,
    terms: [Candidate; MOST_ALIKE],
}

impl Choice {
    /// One of the terms: the last one stands for those that there are not.
    pub(crate) fn at(&self, place: usize) -> Candidate {
        let last = self.count.saturating_sub(1);
        self.terms[place.min(last).min(MOST_ALIKE - 1)]
    }

    fn alone(number: Rational, only: Candidate) -> Choice {
        Choice {
            number,
            count: 1,
            terms: [only; MOST_ALIKE],
        }
    }

    /// Takes a term in, if there is room for it.
    fn append(&mut self, next: Candidate) {
        if let Some(term) = self.terms.get_mut(self.count) {
            *term = next;
            self.count = self.count.saturating_add(1);
        }
    }
}

/// Terms, one for each form.
struct Gathered {
    terms: IndexMap<TermId, Candidate>,
}

impl Drop for Gathered {
    fn drop(self) {
        let Gathered { terms: _ } = self;
    }
}

impl Gathered {
    fn new(alloc: Global) -> Gathered {
        Gathered {
            terms: IndexMap::new(alloc),
        }
    }

    /// Takes a term in, unless a better one of its form is there.
    fn gather(
        &mut self,
        known: &mut Known,
        blocks: &mut Blocks,
        term: TermId,
        place: Place,
    ) -> Result<(), Stop> {
        let looked = learnt(known, term);
        known.tableau.spend(looked.saturating_add(GATHERED))?;
        let size = known.nodes.term_size(term);
        let candidate = Candidate { term, place, size };
        let standard = blocks.standard_of(&mut known.nodes, term)?;
        if self.is_best(standard, candidate) {
            self.terms.insert(standard, candidate)?;
        }
        Ok(())
    }

    /// Whether no better term of the form is there.
    fn is_best(&self, standard: TermId, candidate: Candidate) -> bool {
        match self.terms.get(&standard) {
            Some(before) => candidate.is_better(*before),
            None => true,
        }
    }

    /// The terms, the best ones first.
    fn sorted(&self, alloc: Global) -> Result<Vec<Candidate>, Stop> {
        let mut list = Vec::with_capacity(alloc, self.terms.len())?;
        for (_, candidate) in self.terms.iter() {
            list.push(*candidate)?;
        }
        list.sort_by_key(|candidate| candidate.key())?;
        Ok(list)
    }
}

/// The slot at a place, if it is one of this variable.
fn slot_at(blocks: &Blocks, formula: FormulaId, variable: u32, place: usize) -> Option<Slot> {
    let slot = *blocks.block(formula)?.slots.get(place)?;
    if slot.variable == variable {
        Some(slot)
    } else {
        None
    }
}

/// How many slots a block has.
fn slot_count(blocks: &Blocks, formula: FormulaId) -> usize {
    match blocks.block(formula) {
        Some(block) => block.slots.len(),
        None => 0,
    }
}

/// The index term of a column at a place.
fn index_at(known: &Known, column: ColId, place: usize) -> Option<Indexed> {
    known.indexes.get(&column)?.get(place).copied()
}

fn index_count(known: &Known, column: ColId) -> usize {
    match known.indexes.get(&column) {
        Some(list) => list.len(),
        None => 0,
    }
}

/// Takes in what the variable of a slot is to be for each index of its column.
fn gather_slot(
    known: &mut Known,
    blocks: &mut Blocks,
    slot: Slot,
    gathered: &mut Gathered,
) -> Result<(), Stop> {
    for place in 0..index_count(known, slot.column) {
        if let Some(indexed) = index_at(known, slot.column, place) {
            let alloc = blocks.alloc;
            let looked = learnt(known, indexed.term);
            known.tableau.spend(looked.saturating_add(SOLVED))?;
            if let Some(term) = solved(&mut known.nodes, alloc, slot, indexed.term)? {
                let rise = if term == indexed.term { 0 } else { 1 };
                let place = Place {
                    rank: indexed.place.rank.saturating_add(rise),
                    depth: indexed.place.depth,
                };
                gathered.gather(known, blocks, term, place)?;
            }
        }
    }
    Ok(())
}

/// Whether a term has a variable of the goal.
fn is_near(known: &mut Known, term: TermId) -> Result<bool, Stop> {
    known.nodes.learn_term(term)?;
    Ok(has_near(known, term))
}

fn has_near(known: &Known, term: TermId) -> bool {
    for variable in known.nodes.term_variables(term) {
        if known.near.contains(variable) {
            return true;
        }
    }
    false
}

/// The place with one more rank for a term without a variable of the goal.
fn place_for(known: &mut Known, term: TermId, place: Place) -> Result<Place, Stop> {
    let rise = if is_near(known, term)? { 0 } else { 1 };
    Ok(Place {
        rank: place.rank.saturating_add(rise),
        depth: place.depth,
    })
}

/// Takes a variable in.
fn gather_variable(
    known: &mut Known,
    blocks: &mut Blocks,
    number: u32,
    gathered: &mut Gathered,
) -> Result<(), Stop> {
    let variable = known.nodes.variable(number)?;
    let place = place_for(known, variable, Place { rank: 0, depth: 0 })?;
    gathered.gather(known, blocks, variable, place)
}

/// Takes all variables in.
fn gather_variables(
    known: &mut Known,
    blocks: &mut Blocks,
    gathered: &mut Gathered,
) -> Result<(), Stop> {
    for place in 0..live_places(known, blocks.variables) {
        if let Some(number) = live_variable(known, blocks.variables, place) {
            gather_variable(known, blocks, number, gathered)?;
        }
    }
    Ok(())
}

/// The columns that have indexes.
fn column_at(known: &Known, place: usize) -> Option<ColId> {
    match known.indexes.get_index(place) {
        Some((column, _)) => Some(*column),
        None => None,
    }
}

/// Takes all index terms in that are not nested in more than one instance.
fn gather_indexes(
    known: &mut Known,
    blocks: &mut Blocks,
    gathered: &mut Gathered,
) -> Result<(), Stop> {
    for place in 0..known.indexes.len() {
        if let Some(column) = column_at(known, place) {
            gather_column(known, blocks, column, gathered)?;
        }
    }
    Ok(())
}

fn gather_column(
    known: &mut Known,
    blocks: &mut Blocks,
    column: ColId,
    gathered: &mut Gathered,
) -> Result<(), Stop> {
    for place in 0..index_count(known, column) {
        if let Some(indexed) = index_at(known, column, place)
            && indexed.place.depth <= 1
        {
            gathered.gather(known, blocks, indexed.term, indexed.place)?;
        }
    }
    Ok(())
}

/// The formula of a live fact at a place, and the fact's place.
fn live_at(known: &Known, place: usize) -> Option<(FormulaId, Place)> {
    match known.have.get_index(place) {
        Some((formula, fact)) => Some((*formula, known.place(*fact))),
        None => None,
    }
}

/// Takes the closed terms in that live facts compare, if these are not nested in more than one instance.
fn gather_compared(
    known: &mut Known,
    blocks: &mut Blocks,
    gathered: &mut Gathered,
) -> Result<(), Stop> {
    for place in 0..known.have.len() {
        if let Some((formula, place)) = live_at(known, place)
            && place.depth <= 1
        {
            known.nodes.learn(formula)?;
            gather_sides(known, blocks, formula, place, gathered)?;
        }
    }
    Ok(())
}

fn side_at(known: &Known, formula: FormulaId, place: usize) -> Option<TermId> {
    known.nodes.compared(formula).get(place).copied()
}

fn gather_sides(
    known: &mut Known,
    blocks: &mut Blocks,
    formula: FormulaId,
    place: Place,
    gathered: &mut Gathered,
) -> Result<(), Stop> {
    for at in 0..known.nodes.compared(formula).len() {
        if let Some(term) = side_at(known, formula, at) {
            let place = place_for(known, term, place)?;
            gathered.gather(known, blocks, term, place)?;
        }
    }
    Ok(())
}

/// Takes the terms of the hints in.
fn gather_uses(
    known: &mut Known,
    blocks: &mut Blocks,
    gathered: &mut Gathered,
) -> Result<(), Stop> {
    for place in 0..blocks.uses.len() {
        if let Some(term) = use_at(blocks, place) {
            gathered.gather(known, blocks, term, Place { rank: 0, depth: 0 })?;
        }
    }
    Ok(())
}

fn use_at(blocks: &Blocks, place: usize) -> Option<TermId> {
    blocks.uses.get(place).copied()
}

/// A term that solves a comparison for a variable, at a place of the block's solutions.
fn solution_at(blocks: &Blocks, formula: FormulaId, variable: u32, place: usize) -> Option<TermId> {
    let solution = blocks.block(formula)?.solutions.get(place)?;
    if solution.variable == variable {
        Some(solution.term)
    } else {
        None
    }
}

fn solution_count(blocks: &Blocks, formula: FormulaId) -> usize {
    match blocks.block(formula) {
        Some(block) => block.solutions.len(),
        None => 0,
    }
}

/// Takes in what solves the comparisons of the body for a variable; 0 for a variable that has no other term.
fn gather_solutions(
    known: &mut Known,
    blocks: &mut Blocks,
    formula: FormulaId,
    variable: u32,
    gathered: &mut Gathered,
) -> Result<(), Stop> {
    for place in 0..solution_count(blocks, formula) {
        if let Some(term) = solution_at(blocks, formula, variable, place) {
            gathered.gather(known, blocks, term, LATE)?;
        }
    }
    if gathered.terms.is_empty() {
        let zero = known.nodes.number(0)?;
        gathered.gather(known, blocks, zero, LATE)?;
    }
    Ok(())
}

/// The terms for a variable of a block, those of one number together, that are nested in fewer instances than the reach allows.
pub(crate) fn choices(
    known: &mut Known,
    model: &mut Model,
    blocks: &mut Blocks,
    formula: FormulaId,
    variable: u32,
    reach: Reach,
) -> Result<Vec<Choice>, Stop> {
    let mut gathered = Gathered::new(blocks.alloc);
    let mut has_slot = false;
    for place in 0..slot_count(blocks, formula) {
        if let Some(slot) = slot_at(blocks, formula, variable, place) {
            has_slot = true;
            gather_slot(known, blocks, slot, &mut gathered)?;
        }
    }
    if !has_slot {
        let units = looked_at(known);
        known.tableau.spend(units)?;
        gather_variables(known, blocks, &mut gathered)?;
        gather_indexes(known, blocks, &mut gathered)?;
        gather_compared(known, blocks, &mut gathered)?;
    }
    if reach.is_late {
        gather_solutions(known, blocks, formula, variable, &mut gathered)?;
    }
    gather_uses(known, blocks, &mut gathered)?;
    count_nodes(&mut blocks.work, known)?;
    let list = gathered.sorted(blocks.alloc)?;
    let choices = by_number(known, model, &list, reach.nested)?;
    count_evaluated(known, model)?;
    Ok(choices)
}

/// Takes a term in among those of its number.
fn choose(
    choices: &mut IndexMap<Rational, Choice>,
    number: Rational,
    candidate: Candidate,
) -> Result<(), Stop> {
    match choices.get_mut(&number) {
        Some(choice) => choice.append(candidate),
        None => {
            choices.insert(number, Choice::alone(number, candidate))?;
        }
    }
    Ok(())
}

/// Terms by their numbers.
fn by_number(
    known: &Known,
    model: &mut Model,
    list: &[Candidate],
    allowed: i32,
) -> Result<Vec<Choice>, Stop> {
    let mut choices = IndexMap::new(known.alloc);
    for candidate in list {
        if candidate.place.depth < allowed {
            let number = closed_value(known, model, candidate.term)?;
            choose(&mut choices, number, *candidate)?;
        }
    }
    listed(known.alloc, &choices)
}

/// The choices in the order in which they came.
fn listed(alloc: Global, choices: &IndexMap<Rational, Choice>) -> Result<Vec<Choice>, Stop> {
    let mut list = Vec::with_capacity(alloc, choices.len())?;
    for (_, choice) in choices.iter() {
        list.push(*choice)?;
    }
    Ok(list)
}
