//! The search for a proof of a goal.
ghost use Rattle.lc_table.specs.Tables.{IsFormula, AreFormulas};

use crate::blocks::Blocks;
use crate::cause::Cause;
use crate::counter::{CounterModel, counter_model};
use crate::ranks::{GOAL, rank_of};
use crate::reach::Reach;
use crate::solving::{MOST_CUTS, Search, solve};
use crate::work::{allow_work, count_work};
use crate::writing::written;
use lc_base::OutOfMemory;
use lc_facts::{FactId, Known, Place};
use lc_farkas::Stop;
use lc_kernel::{Goal, Proof};
use lc_nodes::Taken;
use lc_search_model::Model;
use lc_table::{FormulaId, TermId, Terms};
use lc_term::{Formula, Term};
use std::alloc::Global;

/// How many splits may be nested in each other, in calls of three functions each.
const MOST_SPLITS: u32 = 600;

/// What a search came to.
#[derive(Drop)]
pub enum End {
    /// A proof, about which nothing is promised.
    Found(Proof),
    /// Nothing is left to be tried.
    NotFound(CounterModel),
    /// The search was given up.
    Spent(Cause),
    /// A number does not fit 128 bits.
    Large,
}

/// What a search came to, and how many steps were tried.
#[derive(Drop)]
pub struct Searched {
    pub end: End,
    pub steps: u64,
}

/// Searches for a proof of a goal, in at most `budget` steps. The terms and formulas are those of its hints: terms for the
/// variables of quantifiers, and formulas to split by. Variable 0 is taken for the number of clients: it is near to no goal.
///
/// Nothing is promised about a proof that is found: it has to be checked.
pub fn search(
    alloc: Global,
    terms: &Terms,
    goal: &Goal,
    uses: &[Term],
    cuts: &[Formula],
    budget: u64,
) -> Result<Searched, OutOfMemory>
    requires hypotheses { AreFormulas terms.now goal.now.hypotheses }
    requires goal { IsFormula terms.now goal.now.goal }
{
    let variables = goal.vars;
    let mut search = Search {
        known: Known::new(alloc, variables, budget),
        model: Model::new(alloc),
        blocks: Blocks::new(alloc, variables),
        cuts: Vec::new(alloc),
        cuts_left: MOST_CUTS,
        spread_at: usize::MAX,
        cause: None,
    };
    allow_work(&mut search.known);
    let found = begun(&mut search, terms, goal, uses, cuts);
    let steps = budget.saturating_sub(search.known.left);
    let end = match found {
        Ok(end) => end,
        Err(Stop::Spent) => End::Spent(cause_of(&search)),
        Err(Stop::Large) => End::Large,
        Err(Stop::OutOfMemory) => return Err(OutOfMemory),
    };
    Ok(Searched { end, steps })
}

/// Why a search was given up.
fn cause_of(search: &Search) -> Cause {
    match search.cause {
        Some(cause) => cause,
        None if search.known.left == 0 => Cause::Steps,
        None => Cause::Work,
    }
}

/// Enters the goal and its hints, and searches.
fn begun(
    search: &mut Search,
    terms: &Terms,
    goal: &Goal,
    uses: &[Term],
    cuts: &[Formula],
) -> Result<End, Stop>
    requires hypotheses { AreFormulas terms.now goal.now.hypotheses }
    requires goal { IsFormula terms.now goal.now.goal }
{
    search.known.tick()?;
    let facts = entered(search, terms, goal)?;
    enter_hints(search, uses, cuts)?;
    let mark = search.known.mark();
    count_work(search)?;
    let found = match search.known.assume(&facts)? {
        Some(proof) => Some(proof),
        None => solve(search, Reach::first(), MOST_SPLITS)?,
    };
    match found {
        Some(proof) => {
            let proof = search.known.wrap(mark.steps, proof)?;
            let count = goal.hypotheses.as_slice().len();
            // From here on nothing but the depth of the proof is in the way.
            search.cause = Some(Cause::Nesting);
            Ok(End::Found(written(&search.known, proof, count, goal.vars)?))
        }
        None => Ok(End::NotFound(counter_model(search)?)),
    }
}

/// The facts at the start, near ones first: the negated goal, whose number comes after those of the hypotheses, then these.
fn entered(search: &mut Search, terms: &Terms, goal: &Goal) -> Result<Vec<FactId>, Stop>
    requires hypotheses { AreFormulas terms.now goal.now.hypotheses }
    requires goal { IsFormula terms.now goal.now.goal }
{
    let mut taken = Taken::new(search.known.alloc);
    let mut facts = Vec::new(search.known.alloc);
    for hypothesis in goal.hypotheses.as_slice() {
        facts.push(entered_hypothesis(search, terms, &mut taken, *hypothesis)?)?;
    }
    let goal = search
        .known
        .nodes
        .take_formula(terms, &mut taken, goal.goal)?;
    let negated = entered_goal(search, goal)?;
    near_first(&search.known, negated, &facts)
}

/// The fact of a hypothesis.
fn entered_hypothesis(
    search: &mut Search,
    terms: &Terms,
    taken: &mut Taken,
    hypothesis: FormulaId,
) -> Result<FactId, Stop>
    requires { IsFormula terms.now hypothesis }
{
    let formula = search.known.nodes.take_formula(terms, taken, hypothesis)?;
    let rank = rank_of(search.known.alloc, &search.known.nodes, formula)?;
    search.known.new_fact(formula, Place { rank, depth: 0 })
}

/// A fact, and after it others, near ones first.
fn near_first(known: &Known, first: FactId, others: &[FactId]) -> Result<Vec<FactId>, Stop> {
    let mut all = Vec::with_capacity(known.alloc, others.len().saturating_add(1))?;
    all.push(first)?;
    for is_near in [true, false] {
        for fact in others {
            if (known.place(*fact).rank <= 1) == is_near {
                all.push(*fact)?;
            }
        }
    }
    Ok(all)
}

/// The fact of the negated goal. Its variables are near ones, except the number of clients.
fn entered_goal(search: &mut Search, goal: FormulaId) -> Result<FactId, Stop> {
    let negated = search.known.nodes.not(goal)?;
    search.known.nodes.learn(goal)?;
    for place in 0..search.known.nodes.variables(goal).len() {
        if let Some(variable) = variable_at(search, goal, place)
            && variable != 0
        {
            search.known.near.insert(variable)?;
        }
    }
    let place = Place {
        rank: GOAL,
        depth: 0,
    };
    search.known.new_fact(negated, place)
}

fn variable_at(search: &Search, formula: FormulaId, place: usize) -> Option<u32> {
    search.known.nodes.variables(formula).get(place).copied()
}

/// Enters the hints, except those with variables that the goal has not.
fn enter_hints(search: &mut Search, uses: &[Term], cuts: &[Formula]) -> Result<(), Stop> {
    for term in uses {
        let term = search.known.nodes.enter_term(term)?;
        if is_use(search, term)? {
            search.blocks.uses.push(term)?;
        }
    }
    for formula in cuts {
        let formula = search.known.nodes.enter_formula(formula)?;
        if is_cut(search, formula)? {
            search.cuts.push(formula)?;
        }
    }
    Ok(())
}

fn is_use(search: &mut Search, term: TermId) -> Result<bool, Stop> {
    search.known.nodes.learn_term(term)?;
    if search.known.nodes.term_loose(term) > 0 {
        return Ok(false);
    }
    Ok(are_below(
        search.known.nodes.term_variables(term),
        search.blocks.variables,
    ))
}

fn is_cut(search: &mut Search, formula: FormulaId) -> Result<bool, Stop> {
    search.known.nodes.learn(formula)?;
    if search.known.nodes.formula_loose(formula) > 0 {
        return Ok(false);
    }
    Ok(are_below(
        search.known.nodes.variables(formula),
        search.blocks.variables,
    ))
}

fn are_below(variables: &[u32], limit: u32) -> bool {
    for variable in variables {
        if *variable >= limit {
            return false;
        }
    }
    true
}
