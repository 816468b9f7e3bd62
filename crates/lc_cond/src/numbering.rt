//! Which conditions each part of the list has, by their numbers, so that a part can be made by itself.
ghost use Rattle.std.specs.Prelude.{◌≡◌, ◌+◌, ◌*◌, ◌≤◌, length, IfOk};
ghost use Rattle.lc_base.specs.Limits.{condition_limit};
ghost use Rattle.lc_object.specs.EdgeView.{edge_of};
ghost use Rattle.lc_outline.specs.Development.{invariant_of};
ghost use Rattle.lc_outline.specs.DevelopmentView.{development_view};
ghost use Rattle.lc_cond.specs.Conditions.{conditions_in, edge_conditions};
ghost use Rattle.lc_cond.specs.PartView.{part_of};

use crate::condition::Condition;
use crate::list::edges_of;
use crate::lookup::{asserts_at, idle_of, operation_at};
use crate::part::{Part, Wanted, action_count, part_at, push_with};
use crate::paths::push_edge;
use lc_base::OutOfMemory;
use lc_object::Edge;
use lc_outline::Development;
use lc_table::Terms;
use lc_term::Formula;
use std::alloc::Global;

/// The parts of the list of a development's conditions, by the numbers of their conditions. Each call is given the same
/// development.
#[derive(Drop)]
pub struct Numbering {
    edges: Vec<Edge>,
    /// The number of the first condition of each part, followed by the number of all conditions.
    firsts: Vec<u64>,
}

/// Consecutive conditions of a part.
#[derive(Drop)]
pub struct NumberedPart {
    /// The number of the first.
    pub first: u64,
    pub conditions: Vec<Condition>,
}

// How many conditions it is that the invariant holds, and these conjuncts.
fn count_with_invariant(development: &Development, conjuncts: &[Formula]) -> u64
    ensures { result ≡ length (invariant_of (development_view development.now)) + length conjuncts.now }
{
    let invariant = development.parts().tie.conjuncts();
    (invariant.len() + conjuncts.len()) as u64
}

// How many conditions it is that these conjuncts stay, under each action of another client.
fn stable_count(development: &Development, conjuncts: &[Formula]) -> u64
    requires { length conjuncts.now * (length (development_view development.now).actions + 2) ≤ condition_limit }
    ensures { result ≡ length conjuncts.now * (length (development_view development.now).actions + 2) }
{
    (conjuncts.len() * action_count(development)) as u64
}

// How many conditions an edge has: they are made, and dropped.
fn edge_count(alloc: Global, development: &Development, edge: &Edge) -> Result<u64, OutOfMemory>
    ensures { IfOk result (λ n. n ≡ length (edge_conditions (development_view development.now) (edge_of edge.now))) }
{
    let mut terms = Terms::new(alloc);
    let mut conditions = Vec::new(alloc);
    push_edge(alloc, &mut terms, development, edge, &mut conditions)?;
    Ok(conditions.len() as u64)
}

// How many conditions a part has. Those of an edge are counted one by one, as they depend on the ways past its riders.
fn part_count(alloc: Global, development: &Development, part: Part<'_>) -> Result<u64, OutOfMemory>
    ensures { IfOk result (λ n. n ≡ length (conditions_in (development_view development.now) (part_of part.entry))) }
{
    match part {
        Part::Start => Ok(count_with_invariant(development, idle_of(development))),
        Part::Begin(_, body) => {
            Ok(count_with_invariant(development, asserts_at(development, body.entry)))
        }
        Part::Pass(edge) => edge_count(alloc, development, edge),
        Part::Stay(number, point) => match operation_at(development, point.operation) {
            None => Ok(0),
            Some(_) => Ok(stable_count(development, asserts_at(development, number))),
        },
        Part::StayIdle => Ok(stable_count(development, idle_of(development))),
    }
}

impl Numbering {
    ghost use Rattle.std.specs.Prelude.{◌≡◌, ◌+◌, ◌<◌, ◌≤◌, suc, length, IfOk};
    ghost use Rattle.lc_table.specs.Tables.{Keeps};
    ghost use Rattle.lc_outline.specs.Development.{Development as Shown};
    ghost use Rattle.lc_outline.specs.DevelopmentView.{development_view};
    ghost use Rattle.lc_cond.specs.Conditions.{parts, conditions};
    ghost use Rattle.lc_cond.specs.Numbering.{count_before, IsNumbering, IsPartWith};

    /// The parts of the list of this development's conditions.
    pub fn new(alloc: Global, development: &Development) -> Result<Numbering, OutOfMemory>
        ensures { IfOk result (IsNumbering (development_view development.now)) }
    {
        let edges = edges_of(alloc, development)?;
        let mut firsts = Vec::new(alloc);
        let mut number = 0;
        'parts: loop {
            let part = part_at(development, &edges, firsts.len());
            firsts.push(number)?;
            let Some(part) = part else {
                return Ok(Numbering { edges, firsts });
            };
            number += part_count(alloc, development, part)?;
        }
    }

    /// How many conditions there are.
    pub fn count(&self) -> u64
        ensures { (D : Shown) → IsNumbering D self.now → result ≡ length (conditions D) }
    {
        match self.firsts.last() {
            Some(count) => *count,
            None => 0,
        }
    }

    // The place of the part that has the condition of this number.
    fn place_with(&self, number: u64) -> usize
        ensures { (D : Shown) → IsNumbering D self.now → number < length (conditions D) →
            (result < length (parts D)) × (count_before D result ≤ number) × (number < count_before D (suc result)) }
    {
        let mut low = 0;
        let mut high = self.firsts.len();
        while low + 1 < high {
            let middle = low + (high - low) / 2;
            if self.firsts[middle] <= number {
                low = middle;
            } else {
                high = middle;
            }
        }
        low
    }

    /// Consecutive conditions, with the one of this number, if there is one; entered in the table. They are those of
    /// the part that has it, but of a point with many conjuncts only those of a stretch.
    pub fn part_with(
        &self,
        alloc: Global,
        development: &Development,
        terms: &mut Terms,
        number: u64,
    ) -> Result<NumberedPart, OutOfMemory>
        requires { IsNumbering (development_view development.now) self.now }
        ensures part { IfOk result (IsPartWith (development_view development.now) terms.new number) }
        ensures kept { Keeps terms.old terms.new }
    {
        let place = self.place_with(number);
        let mut conditions = Vec::new(alloc);
        let Some(part) = part_at(development, &self.edges, place) else {
            return Ok(NumberedPart {
                first: 0,
                conditions,
            });
        };
        let before = self.firsts[place];
        let wanted = Wanted {
            place: number.saturating_sub(before),
            all: self.count(),
        };
        let first = push_with(alloc, terms, development, part, wanted, &mut conditions)?;
        Ok(NumberedPart {
            first: before + first,
            conditions,
        })
    }
}
