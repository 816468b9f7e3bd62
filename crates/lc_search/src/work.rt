//! How much work a search takes, beside the steps that it tries.

use crate::solving::Search;
use lc_facts::Known;
use lc_farkas::Stop;

/// How much work a search may take: a unit is a row, a summand or a fact that is looked at.
const WORK: u64 = 120_000_000;

/// The work of making a node. It is more than it takes of time, since a node stays: by it memory is bounded.
const NODE: usize = 600;

/// The work of making a fact and of making a proof, and that of a fact which a proof needs: they stay too.
const FACT: usize = 30;

const PROOF: usize = 150;

const NEEDED: usize = 10;

/// How many nodes, facts and proofs were counted.
#[derive(Clone, Copy)]
pub(crate) struct Work {
    nodes: usize,
    facts: usize,
    proofs: usize,
}

impl Work {
    /// Nothing was counted.
    pub(crate) fn new() -> Work {
        Work {
            nodes: 0,
            facts: 0,
            proofs: 0,
        }
    }
}

/// Allows a search its work.
pub(crate) fn allow_work(known: &mut Known) {
    known.tableau.allow(WORK);
}

/// Counts the nodes that were made since the last time.
pub(crate) fn count_nodes(work: &mut Work, known: &mut Known) -> Result<(), Stop> {
    let nodes = known
        .nodes
        .term_count()
        .saturating_add(known.nodes.formula_count());
    let made = nodes.saturating_sub(work.nodes);
    work.nodes = nodes;
    known.tableau.spend(made.saturating_mul(NODE))
}

/// Counts the facts that were made since the last time.
fn count_facts(work: &mut Work, known: &mut Known) -> Result<(), Stop> {
    let made = known.facts.len().saturating_sub(work.facts);
    work.facts = known.facts.len();
    known.tableau.spend(made.saturating_mul(FACT))
}

/// Counts the proofs that were made since the last time.
fn count_proofs(work: &mut Work, known: &mut Known) -> Result<(), Stop> {
    let mut units: usize = 0;
    for made in known.proofs.iter().skip(work.proofs) {
        let needed = made.uses.len().saturating_mul(NEEDED);
        units = units.saturating_add(needed).saturating_add(PROOF);
    }
    work.proofs = known.proofs.len();
    known.tableau.spend(units)
}

/// Counts what came since the last time.
pub(crate) fn count_work(search: &mut Search) -> Result<(), Stop> {
    count_nodes(&mut search.blocks.work, &mut search.known)?;
    count_facts(&mut search.blocks.work, &mut search.known)?;
    count_proofs(&mut search.blocks.work, &mut search.known)
}
