//! Disequalities and disjunctions that the state breaks, and what is split in the end.

use crate::turn::{Turn, taken};
use lc_facts::{FactId, Known, Place, Step, Weighed};
use lc_farkas::Stop;
use lc_search_model::{Model, closed_truth, count_evaluated};
use lc_table::FormulaId;
use std::alloc::Global;

/// How much farther, as a number, a disjunction is that is undecided.
const UNDECIDED: i64 = 1_000_000_000_000;

/// How many depths a rank is worth.
const RANK: i64 = 100_000;

/// A split that is noted, with the steps that are to be taken before it.
pub(crate) struct Noted {
    place: Place,
    open: usize,
    size: u32,
    before: Vec<Step>,
    step: Option<Step>,
}

impl Drop for Noted {
    fn drop(self) {
        let Noted {
            place: _,
            open: _,
            size: _,
            before: _,
            step: _,
        } = self;
    }
}

impl Noted {
    /// Nothing is noted.
    pub(crate) fn nothing(alloc: Global) -> Noted {
        Noted {
            place: Place { rank: 0, depth: 0 },
            open: 0,
            size: 0,
            before: Vec::new(alloc),
            step: None,
        }
    }

    /// Whether a split of the goal is noted.
    pub(crate) fn is_of_goal(&self) -> bool {
        self.step.is_some() && self.place.rank == 0
    }

    /// Whether another split is better: of the least rank, then with the fewest open branches, of the least depth and size.
    pub(crate) fn is_worse_than(&self, place: Place, open: usize, size: u32) -> bool {
        if self.step.is_none() {
            return true;
        }
        if place.rank != self.place.rank {
            return place.rank < self.place.rank;
        }
        if open != self.open {
            return open < self.open;
        }
        if place.depth != self.place.depth {
            return place.depth < self.place.depth;
        }
        size < self.size
    }

    /// Notes a split, if it is better than the one that is noted.
    pub(crate) fn note(&mut self, place: Place, size: u32, step: Step) {
        let open = step.open_count();
        if self.is_worse_than(place, open, size) {
            self.place = place;
            self.open = open;
            self.size = size;
            self.before.truncate(0);
            self.step = Some(step);
        }
    }

    /// Notes a split after other steps, if it is better than the one that is noted.
    pub(crate) fn note_behind(&mut self, place: Place, size: u32, before: Vec<Step>, step: Step) {
        let open = step.open_count();
        if self.is_worse_than(place, open, size) {
            self.place = place;
            self.open = open;
            self.size = size;
            self.before = before;
            self.step = Some(step);
        }
    }

    /// Takes the steps before the split that is noted, and returns it.
    pub(crate) fn chosen(self, known: &mut Known) -> Result<Turn, Stop> {
        let Noted {
            place: _,
            open: _,
            size: _,
            before,
            step,
        } = self;
        for step in before {
            known.steps.push(step)?;
        }
        Ok(match step {
            Some(step) => Turn::Split(step),
            None => Turn::Next,
        })
    }
}

/// How much a look at all that is known looks at.
pub(crate) fn looked_at(known: &Known) -> usize {
    known
        .steps
        .len()
        .saturating_add(known.have.len())
        .saturating_add(known.active.len())
}

/// The work of trying a branch, beside a look at what is known: at numbers alone, which takes a fourth of the time.
const TRIED: usize = 50;

/// The work of asking in a trial whether the numbers break a disequality.
const DISEQUALITY: usize = 3;

/// The work of taking in a node of what is tried.
const NODE: usize = 10;

/// The work of trying a branch, which keeps the numbers of the tableau: there is one for some of the formulas.
fn trial_work(known: &Known) -> usize {
    (looked_at(known) / 4)
        .saturating_add(known.nodes.formula_count() / 8)
        .saturating_add(known.variables as usize / 4)
        .saturating_add(known.disequalities.len().saturating_mul(DISEQUALITY))
        .saturating_add(TRIED)
}

/// Trials of branches, of which it turns out how many there are: the parts of a branch are tried as well.
#[derive(Clone, Copy)]
struct Trials {
    branches: usize,
    units: usize,
    left: u64,
}

/// Begins trials of so many branches, and counts their work.
fn begin_trials(known: &mut Known, branches: usize) -> Result<Trials, Stop> {
    let units = trial_work(known);
    known.tableau.spend(branches.saturating_mul(units))?;
    Ok(Trials {
        branches,
        units,
        left: known.left,
    })
}

/// Ends trials, and counts the work of those that were more than the branches.
fn end_trials(known: &mut Known, trials: Trials) -> Result<(), Stop> {
    let tried = usize::try_from(trials.left.saturating_sub(known.left)).unwrap_or(usize::MAX);
    let others = tried.saturating_sub(trials.branches);
    known.tableau.spend(others.saturating_mul(trials.units))
}

/// What a disjunction, an axiom or a disequality comes to, whose branches are tried; none of other facts.
pub(crate) fn weighed_clause(known: &mut Known, fact: FactId) -> Result<Option<Weighed>, Stop> {
    let formula = known.formula(fact);
    let count = match known.nodes.parts(formula) {
        Some(parts) => parts.len(),
        None => 0,
    };
    let nodes = known.nodes.formula_size(formula) as usize;
    known.tableau.spend(nodes.saturating_mul(NODE))?;
    let trials = begin_trials(known, count)?;
    let weighed = known.clause(fact)?;
    end_trials(known, trials)?;
    Ok(weighed)
}

/// Makes the reads of a formula active; whether one of them was not.
fn is_new_by_reads(known: &mut Known, formula: FormulaId, place: Place) -> Result<bool, Stop> {
    let before = known.active.len();
    known.nodes.learn(formula)?;
    known.activate_reads(formula, place)?;
    Ok(known.active.len() > before)
}

/// Splits the first disequality that the state breaks, if it cannot be decided.
pub(crate) fn broken_disequalities(known: &mut Known, model: &mut Model) -> Result<Turn, Stop> {
    for place in 0..known.disequalities.len() {
        if let Some(fact) = known.disequalities.get(place).copied() {
            let turn = broken_disequality(known, model, fact)?;
            if !turn.is_next() {
                return Ok(turn);
            }
        }
    }
    Ok(Turn::Next)
}

/// Whether a disjunction, or a disequality, holds by one of its parts.
fn clause_truth(
    known: &Known,
    model: &mut Model,
    formula: FormulaId,
) -> Result<Option<bool>, Stop> {
    let Some(parts) = known.nodes.parts(formula) else {
        return Ok(Some(true));
    };
    let mut is_told = true;
    for part in parts {
        match closed_truth(known, model, *part)? {
            Some(true) => return Ok(Some(true)),
            Some(false) => {}
            None => is_told = false,
        }
    }
    Ok(if is_told { Some(false) } else { None })
}

fn broken_disequality(known: &mut Known, model: &mut Model, fact: FactId) -> Result<Turn, Stop> {
    let formula = known.fact(fact).formula;
    known.nodes.learn_parts(formula)?;
    let holds = clause_truth(known, model, formula)?;
    count_evaluated(known, model)?;
    if holds != Some(false) {
        return Ok(Turn::Next);
    }
    if is_new_by_reads(known, formula, known.place(fact))? {
        return Ok(Turn::Again);
    }
    match weighed_clause(known, fact)? {
        Some(weighed) => taken(known, weighed),
        None => Ok(Turn::Next),
    }
}

/// A disjunction that does not hold in the state.
#[derive(Clone, Copy)]
struct Broken {
    fact: FactId,
    key: i64,
}

/// The disjunctions that the state breaks, near ones first, and after them those that it leaves undecided.
fn broken_list(known: &mut Known, model: &mut Model) -> Result<Vec<Broken>, Stop> {
    let mut broken = Vec::new(known.alloc);
    for place in 0..known.disjunctions.len() {
        if let Some(fact) = known.disjunctions.get(place).copied()
            && let Some(holds) = is_broken(known, model, fact)?
        {
            let near = key_of(known.place(fact));
            let key = if holds {
                near.saturating_add(UNDECIDED)
            } else {
                near
            };
            broken.push(Broken { fact, key })?;
        }
    }
    broken.sort_by_key(|broken| broken.key)?;
    Ok(broken)
}

/// The order of places as a number.
pub(crate) fn key_of(place: Place) -> i64 {
    i64::from(place.rank)
        .saturating_mul(RANK)
        .saturating_add(i64::from(place.depth))
}

/// Of a disjunction that does not hold in the state, whether it is undecided.
fn is_broken(known: &mut Known, model: &mut Model, fact: FactId) -> Result<Option<bool>, Stop> {
    let formula = known.fact(fact).formula;
    known.nodes.learn_parts(formula)?;
    let holds = clause_truth(known, model, formula)?;
    count_evaluated(known, model)?;
    Ok(match holds {
        Some(true) => None,
        Some(false) => Some(false),
        None => Some(true),
    })
}

/// Uses the disjunctions that do not hold in the state.
pub(crate) fn broken_disjunctions(
    known: &mut Known,
    model: &mut Model,
    noted: &mut Noted,
) -> Result<Turn, Stop> {
    let list = broken_list(known, model)?;
    for broken in &list {
        let turn = broken_disjunction(known, broken.fact, noted)?;
        if !turn.is_next() {
            return Ok(turn);
        }
    }
    Ok(Turn::Next)
}

/// Uses a disjunction.
fn broken_disjunction(known: &mut Known, fact: FactId, noted: &mut Noted) -> Result<Turn, Stop> {
    let formula = known.fact(fact).formula;
    let place = known.place(fact);
    if is_new_by_reads(known, formula, place)? {
        return Ok(Turn::Again);
    }
    match weighed_clause(known, fact)? {
        Some(Weighed::Split(step)) => {
            noted.note(place, known.nodes.formula_size(formula), step);
            Ok(Turn::Next)
        }
        Some(weighed) => taken(known, weighed),
        None => Ok(Turn::Next),
    }
}

/// Cuts by a formula of the hints that is not decided.
pub(crate) fn cut_by_hints(known: &mut Known, cuts: &[FormulaId]) -> Result<Turn, Stop> {
    for formula in cuts {
        if known.has(*formula).is_none() && known.has_negation(*formula).is_none() {
            return cut(known, *formula);
        }
    }
    Ok(Turn::Next)
}

/// Cuts by a formula.
fn cut(known: &mut Known, formula: FormulaId) -> Result<Turn, Stop> {
    let step = known.cut(formula, Place { rank: 0, depth: 0 })?;
    let trials = begin_trials(known, step.made.len())?;
    let step = known.weigh(step)?;
    end_trials(known, trials)?;
    let weighed = known.sorted(step)?;
    taken(known, weighed)
}
