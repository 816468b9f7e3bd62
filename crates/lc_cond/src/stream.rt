//! The list of the conditions of a development, part by part.
ghost use Rattle.std.specs.Prelude.{◌≡◌, ◌≤◌, ◌*◌, length, map, IfOk};
ghost use Rattle.lc_table.specs.Tables.{Keeps};
ghost use Rattle.lc_outline.specs.DevelopmentView.{development_view};
ghost use Rattle.lc_cond.specs.Conditions.{conditions};
ghost use Rattle.lc_cond.specs.ConditionView.{condition_in, AreConditions};
ghost use Rattle.lc_cond.specs.PartLimits.{edge_limit, part_limit, part_size_limit};

use crate::condition::Condition;
use crate::list::edges_of;
use crate::part::{part_at, push_part};
use lc_base::OutOfMemory;
use lc_object::Edge;
use lc_outline::Development;
use lc_outline::laws::developments_are_limited;
use lc_table::Terms;
use std::alloc::Global;

/// The conditions of a development in their order, with only one part at a time kept. Each call is given the same
/// development; the bounds that are kept hold of any, as each is within its limits.
#[derive(Drop)]
pub struct ConditionStream {
    alloc: Global,
    edges: Vec<Edge>,
    /// How many parts were given.
    place: usize,
    /// How many conditions were given.
    given: u64,
    ghost few_edges: { length edges.items ≤ edge_limit },
    ghost few_parts: { place ≤ part_limit },
    ghost few_conditions: { given ≤ place * part_size_limit },
}

impl ConditionStream {
    ghost use Rattle.std.specs.Prelude.{◌≡◌, IfOk, OnErr};
    ghost use Rattle.lc_table.specs.Tables.{Keeps};
    ghost use Rattle.lc_outline.specs.DevelopmentView.{development_view};
    ghost use Rattle.lc_cond.specs.Conditions.{conditions};
    ghost use Rattle.lc_cond.specs.Stream.{conditions_left, next_number, IsNextPart};

    /// All conditions of a development, with none given yet.
    pub fn new(alloc: Global, development: &Development) -> Result<ConditionStream, OutOfMemory>
        ensures left { let d = development_view development.now in
            IfOk result (λ s. conditions_left d s ≡ conditions d) }
        ensures number { IfOk result (λ s. next_number s ≡ 0) }
    {
        let edges = edges_of(alloc, development)?;
        Ok(ConditionStream {
            alloc,
            edges,
            place: 0,
            given: 0,
        })
    }

    /// The number of the first condition that is left.
    pub fn first_number(&self) -> u64
        ensures { result ≡ next_number self.now }
    {
        self.given
    }

    /// The conditions of the next part, whose formulas are entered in the table; nothing if no part is left. A part may have
    /// no conditions. The table may be another one at each call. On `OutOfMemory` the same part is left.
    pub fn next_part(
        &mut self,
        development: &Development,
        terms: &mut Terms,
    ) -> Result<Option<Vec<Condition>>, OutOfMemory>
        ensures next { IfOk result (λ part. IsNextPart (development_view development.now) terms.new self.old self.new part) }
        ensures unchanged { OnErr result (self.new ≡ self.old) }
        ensures kept { Keeps terms.old terms.new }
    {
        let Some(part) = part_at(development, &self.edges, self.place) else {
            return Ok(None);
        };
        developments_are_limited();
        let mut conditions = Vec::new(self.alloc);
        push_part(self.alloc, terms, development, part, &mut conditions)?;
        self.place += 1;
        self.given += conditions.len() as u64;
        Ok(Some(conditions))
    }
}

/// The conditions of a development, in their order: if all of them are valid, its object is linearizable. Their formulas
/// are entered in the table.
#[tactic(auto, using(lc_table::proofs::Later::kept_on))]
pub fn conditions(
    alloc: Global,
    terms: &mut Terms,
    development: &Development,
) -> Result<Vec<Condition>, OutOfMemory>
    ensures are { IfOk result (λ cs. AreConditions terms.new cs.items) }
    ensures list { IfOk result (λ cs. map (condition_in terms.new) cs.items ≡ conditions (development_view development.now)) }
    ensures kept { Keeps terms.old terms.new }
{
    let mut stream = ConditionStream::new(alloc, development)?;
    let mut list = Vec::new(alloc);
    'parts: loop {
        let Some(mut part) = stream.next_part(development, terms)? else {
            return Ok(list);
        };
        list.append(&mut part)?;
    }
}
