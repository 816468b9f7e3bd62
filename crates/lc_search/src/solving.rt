//! The search: rule after rule, until what is known contradicts itself or nothing is left that the state breaks.

use crate::axioms::{broken_axioms, read_axioms};
use crate::blocks::Blocks;
use crate::cases::{Noted, broken_disequalities, broken_disjunctions, cut_by_hints, looked_at};
use crate::cause::Cause;
use crate::fractions::{cut_fraction, tightest_fraction};
use crate::instances::broken_instances;
use crate::reach::Reach;
use crate::turn::Turn;
use crate::work::count_work;
use lc_facts::{FactId, Known, ProofId, Step};
use lc_farkas::Stop;
use lc_search_model::Model;
use lc_table::FormulaId;

/// How many cuts at fractions may follow one another on a branch: along an unbounded line there is no end of them.
pub(crate) const MOST_CUTS: u32 = 64;

/// What the search has at hand.
pub(crate) struct Search {
    pub(crate) known: Known,
    pub(crate) model: Model,
    pub(crate) blocks: Blocks,
    pub(crate) cuts: Vec<FormulaId>,
    /// How many cuts at fractions this branch may still make.
    pub(crate) cuts_left: u32,
    /// How many facts were live as numbers were spread: as long as no fact comes, numbers that were made whole stay so.
    pub(crate) spread_at: usize,
    /// Why the search is given up; none if what it stands on gave up.
    pub(crate) cause: Option<Cause>,
}

impl Drop for Search {
    fn drop(self) {
        let Search {
            known: _,
            model: _,
            blocks: _,
            cuts: _,
            cuts_left: _,
            spread_at: _,
            cause: _,
        } = self;
    }
}

/// Notes why the search is given up.
fn give_up(search: &mut Search, cause: Cause) -> Stop {
    search.cause = Some(cause);
    Stop::Spent
}

/// Uses what the numbers of the tableau break, without quantifiers.
fn try_ground(search: &mut Search, noted: &mut Noted) -> Result<Turn, Stop> {
    let turn = read_axioms(&mut search.known, &mut search.model)?;
    if !turn.is_next() {
        return Ok(turn);
    }
    let turn = broken_axioms(&mut search.known, noted)?;
    if !turn.is_next() {
        return Ok(turn);
    }
    let turn = broken_disequalities(&mut search.known, &mut search.model)?;
    if !turn.is_next() {
        return Ok(turn);
    }
    broken_disjunctions(&mut search.known, &mut search.model, noted)
}

/// Uses hints and instances.
fn try_instances(search: &mut Search, reach: Reach, noted: &mut Noted) -> Result<Turn, Stop> {
    let turn = cut_by_hints(&mut search.known, &search.cuts)?;
    if !turn.is_next() || noted.is_of_goal() {
        return Ok(turn);
    }
    broken_instances(
        &mut search.known,
        &mut search.model,
        &mut search.blocks,
        reach,
        noted,
    )
}

/// Cuts at a fraction, if the branch may still make a cut.
fn try_fractions(search: &mut Search) -> Result<Turn, Stop> {
    if search.known.tableau.make_whole()? {
        return Ok(Turn::Again);
    }
    let Some(fraction) = tightest_fraction(&mut search.known, search.blocks.variables)? else {
        return Ok(Turn::Next);
    };
    let Some(cuts_left) = search.cuts_left.checked_sub(1) else {
        return Err(give_up(search, Cause::Cuts));
    };
    search.cuts_left = cuts_left;
    cut_fraction(&mut search.known, fraction)
}

/// How often a round looks at what is known.
const LOOKS: usize = 8;

/// One round of the rules, with the instances in reach.
fn pass(search: &mut Search, reach: Reach) -> Result<Turn, Stop> {
    search.known.tick()?;
    let units = looked_at(&search.known).saturating_mul(LOOKS);
    search.known.tableau.spend(units)?;
    count_work(search)?;
    let live = search.known.have.len();
    if search.spread_at != live {
        search.known.tableau.spread()?;
        search.spread_at = live;
    }
    let mut noted = Noted::nothing(search.known.alloc);
    let turn = try_ground(search, &mut noted)?;
    if !turn.is_next() {
        return Ok(turn);
    }
    let turn = try_instances(search, reach, &mut noted)?;
    if !turn.is_next() {
        return Ok(turn);
    }
    let turn = noted.chosen(&mut search.known)?;
    if !turn.is_next() {
        return Ok(turn);
    }
    try_fractions(search)
}

/// Searches for a contradiction of what is known; none if nothing is left to be tried. At most `nesting` splits may be nested in
/// each other.
#[cycle(solve)]
pub(crate) fn solve(
    search: &mut Search,
    reach: Reach,
    nesting: u32,
) -> Result<Option<ProofId>, Stop> {
    let mut reach = reach;
    if nesting == 0 {
        return Err(give_up(search, Cause::Splits));
    }
    for _ in 0..search.known.left {
        match pass(search, reach)? {
            Turn::Again => {}
            Turn::Closed(proof) => return Ok(Some(proof)),
            Turn::Split(step) => return split(search, step, reach, nesting - 1),
            Turn::Next => match reach.next() {
                Some(next) => reach = next,
                None => return Ok(None),
            },
        }
    }
    Err(give_up(search, Cause::Steps))
}

/// The facts of an open branch of a step.
fn open_branch(search: &Search, step: &Step, place: usize) -> Result<Option<Vec<FactId>>, Stop> {
    match step.sides.get(place) {
        Some(None) => {}
        _ => return Ok(None),
    }
    match step.made.get(place) {
        Some(facts) => Ok(Some(Vec::from_slice(search.known.alloc, facts)?)),
        None => Ok(None),
    }
}

/// Searches for a contradiction in each branch of a step that is open. A proof that does not use what its branch adds is one
/// of the whole.
#[cycle(solve)]
fn split(
    search: &mut Search,
    step: Step,
    reach: Reach,
    nesting: u32,
) -> Result<Option<ProofId>, Stop> {
    let mut step = step;
    if nesting == 0 {
        return Err(give_up(search, Cause::Splits));
    }
    for place in 0..step.sides.len() {
        if let Some(facts) = open_branch(search, &step, place)? {
            let Some(proof) = solve_branch(search, &facts, reach, nesting - 1)? else {
                return Ok(None);
            };
            if !search.known.uses_any(proof, &facts) {
                return Ok(Some(proof));
            }
            if let Some(side) = step.sides.get_mut(place) {
                *side = Some(proof);
            }
        }
    }
    search.known.close(step).map(Some)
}

/// Searches for a contradiction of what is known and these facts. If there is none, all stays as it was found. What the branch
/// used of the cuts is given back.
#[cycle(solve)]
fn solve_branch(
    search: &mut Search,
    facts: &[FactId],
    reach: Reach,
    nesting: u32,
) -> Result<Option<ProofId>, Stop> {
    if nesting == 0 {
        return Err(give_up(search, Cause::Splits));
    }
    let trial = search.known.start_trial()?;
    let mark = trial.mark;
    let cuts_left = search.cuts_left;
    let found = match search.known.assume(facts)? {
        Some(proof) => Some(proof),
        None => solve(search, reach, nesting - 1)?,
    };
    search.cuts_left = cuts_left;
    let Some(proof) = found else {
        return Ok(None);
    };
    let proof = search.known.wrap(mark.steps, proof)?;
    search.known.end_trial(trial)?;
    Ok(Some(proof))
}
