//! Terms for all variables of a block, with which its body does not hold in the state.

use crate::blocks::Blocks;
use crate::candidates::{Choice, MOST_ALIKE, choices};
use crate::cases::key_of;
use crate::ranks::AFTER;
use crate::reach::Reach;
use lc_facts::{FactId, Known, Place};
use lc_farkas::{Rational, Stop};
use lc_search_model::{DEEPEST, Model, count_evaluated, truth};
use lc_table::{FormulaId, TermId};

/// How many tuples of numbers are looked at in a block: a block that has more is left out.
const MOST_TUPLES: usize = 20_000;

/// How many nodes of its body may be evaluated with these tuples: a block that has more is left out, so that it does not take all
/// the work of a search that ends without it.
const MOST_NODES: usize = 10_000_000;

/// The work of a tuple, beside that of evaluating the body.
const TUPLE: usize = 4;

/// How much farther an instance is that is not decided by the state.
const UNDECIDED: i32 = 5;

/// An instance that is to be tried: `count` terms of a list, from a place on, the one of the outermost variable first.
#[derive(Clone, Copy)]
pub(crate) struct Instance {
    pub(crate) fact: FactId,
    pub(crate) place: Place,
    pub(crate) first: usize,
    pub(crate) count: usize,
}

/// Instances that are to be tried.
pub(crate) struct Wishes {
    pub(crate) list: Vec<Instance>,
    pub(crate) terms: Vec<TermId>,
}

impl Drop for Wishes {
    fn drop(self) {
        let Wishes { list: _, terms: _ } = self;
    }
}

/// The choices for the variables of a block, the outermost first.
fn choices_of_block(
    known: &mut Known,
    model: &mut Model,
    blocks: &mut Blocks,
    formula: FormulaId,
    reach: Reach,
) -> Result<Vec<Vec<Choice>>, Stop> {
    let count = match blocks.block(formula) {
        Some(block) => block.count,
        None => 0,
    };
    let mut all = Vec::new(known.alloc);
    for outer in 0..count {
        let variable = count - 1 - outer;
        all.push(choices(known, model, blocks, formula, variable, reach)?)?;
    }
    Ok(all)
}

/// How many tuples of numbers there are.
fn tuple_count(all: &[Vec<Choice>]) -> usize {
    let mut count: usize = 1;
    for choices in all {
        count = count.saturating_mul(choices.len());
    }
    count
}

/// The choices of a tuple: that of the last variable changes first.
fn tuple_at(all: &[Vec<Choice>], place: usize, tuple: &mut Vec<Choice>) -> Result<(), Stop> {
    tuple.truncate(0);
    let mut rest = place;
    for choices in all {
        let at = rest.checked_rem(choices.len()).unwrap_or(0);
        rest = rest.checked_div(choices.len()).unwrap_or(0);
        if let Some(choice) = choices.get(at) {
            tuple.push(*choice)?;
        }
    }
    Ok(())
}

/// The numbers of a tuple.
fn numbers_of(tuple: &[Choice], numbers: &mut Vec<Rational>) -> Result<(), Stop> {
    numbers.truncate(0);
    for choice in tuple {
        numbers.push(choice.number)?;
    }
    Ok(())
}

/// How many terms of one number there are at most.
fn alike(tuple: &[Choice]) -> usize {
    let mut most = 1;
    for choice in tuple {
        most = choice.count.max(most);
    }
    most.min(MOST_ALIKE)
}

/// A fact whose instances are to be tried, nested in each other at most so often.
#[derive(Clone, Copy)]
struct Wished {
    fact: FactId,
    base: Place,
    /// How much farther its instances are than the terms in them.
    rise: i32,
    allowed: i32,
}

/// Takes instances in: the terms of a tuple.
fn wish(wishes: &mut Wishes, wished: Wished, tuple: &[Choice]) -> Result<(), Stop> {
    for at in 0..alike(tuple) {
        let first = wishes.terms.len();
        let mut rank: i32 = 0;
        let mut depth = wished.base.depth;
        for choice in tuple {
            let candidate = choice.at(at);
            rank = candidate.place.rank.max(rank);
            depth = candidate.place.depth.max(depth);
            wishes.terms.push(candidate.term)?;
        }
        let place = Place {
            rank: rank.saturating_add(wished.rise),
            depth: depth.saturating_add(1),
        };
        if place.depth <= wished.allowed {
            wishes.list.push(Instance {
                fact: wished.fact,
                place,
                first,
                count: tuple.len(),
            })?;
        }
    }
    Ok(())
}

/// Takes the instances of a tuple in, unless the body of the block holds with its numbers.
fn wish_of_tuple(
    known: &Known,
    model: &mut Model,
    wished: Wished,
    body: FormulaId,
    tuple: &[Choice],
    numbers: &mut Vec<Rational>,
    wishes: &mut Wishes,
) -> Result<(), Stop> {
    numbers_of(tuple, numbers)?;
    let rise = match truth(known, model, body, numbers, DEEPEST)? {
        Some(true) => return Ok(()),
        Some(false) => wished.rise,
        None => wished.rise.saturating_add(UNDECIDED),
    };
    wish(wishes, Wished { rise, ..wished }, tuple)
}

/// Takes in the instances of a block that do not hold.
fn wish_of_block(
    known: &mut Known,
    model: &mut Model,
    blocks: &mut Blocks,
    fact: FactId,
    reach: Reach,
    wishes: &mut Wishes,
) -> Result<(), Stop> {
    let formula = known.fact(fact).formula;
    let base = known.place(fact);
    blocks.learn(&mut known.nodes, formula)?;
    let all = choices_of_block(known, model, blocks, formula, reach)?;
    let Some(block) = blocks.block(formula) else {
        return Ok(());
    };
    let body = block.body;
    let count = tuple_count(&all);
    let size = known.nodes.formula_size(body) as usize;
    if count > MOST_TUPLES || count.saturating_mul(size) > MOST_NODES || all.is_empty() {
        return Ok(());
    }
    known.tableau.spend(count.saturating_mul(TUPLE))?;
    let rise = if base.rank == AFTER { 2 } else { 1 };
    let wished = Wished {
        fact,
        base,
        rise,
        allowed: reach.nested,
    };
    let mut tuple = Vec::new(known.alloc);
    let mut numbers = Vec::new(known.alloc);
    for place in 0..count {
        tuple_at(&all, place, &mut tuple)?;
        wish_of_tuple(known, model, wished, body, &tuple, &mut numbers, wishes)?;
        count_evaluated(known, model)?;
    }
    Ok(())
}

/// The quantified fact at a place.
fn forall_at(known: &Known, place: usize) -> Option<FactId> {
    known.foralls.get(place).copied()
}

/// The instances that do not hold and are in reach, near ones first.
pub(crate) fn wanted(
    known: &mut Known,
    model: &mut Model,
    blocks: &mut Blocks,
    reach: Reach,
) -> Result<Wishes, Stop> {
    let mut wishes = Wishes {
        list: Vec::new(known.alloc),
        terms: Vec::new(known.alloc),
    };
    for place in 0..known.foralls.len() {
        if let Some(fact) = forall_at(known, place) {
            wish_of_block(known, model, blocks, fact, reach, &mut wishes)?;
        }
    }
    wishes.list.sort_by_key(|wanted| key_of(wanted.place))?;
    Ok(wishes)
}
