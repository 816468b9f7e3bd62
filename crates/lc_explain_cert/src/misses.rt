//! The conditions for which no proof is found: the first, and those after it, for which one is sought too.
ghost use Rattle.std.specs.Prelude.{map};
ghost use Rattle.lc_check.specs.Answers.{IsBounded};
ghost use Rattle.lc_cond.specs.ConditionView.{condition_in, AreConditions, IsCondition};
ghost use Rattle.lc_cond.specs.Numbering.{IsNumbering};
ghost use Rattle.lc_outline.specs.DevelopmentView.{development_view};
ghost use Rattle.lc_table.specs.Tables.{Keeps};
ghost use Rattle.lc_term.specs.Lists.{Every};

use crate::certificate::push_unfound;
use crate::condition::condition_words;
use crate::ending::Ending;
use crate::naming::point_name;
use crate::source::Source;
use lc_base::{FILE_LIMIT, Fault, OutOfMemory, PointId};
use lc_check::prove_one;
use lc_cond::laws::{conditions_have_few_variables, conditions_use_their_variables};
use lc_cond::{Condition, NumberedPart, Numbering};
use lc_hints::Hints;
use lc_kernel::Proof;
use lc_outline::Development;
use lc_search::{Cause, CounterModel, End, search};
use lc_table::Terms;
use std::alloc::Global;

/// How many steps are tried for a condition.
const BUDGET: u64 = 1_000_000;

/// The first condition for which no proof was found, and how the search for one ended.
#[derive(Clone, Copy)]
pub struct Missed<'a> {
    pub number: u64,
    pub ending: Ending<'a>,
}

/// What a search came to.
#[derive(Drop)]
enum Ended {
    Found,
    Model(CounterModel),
    GivenUp(Cause),
    Large,
}

/// What is said of the conditions without a proof.
struct Misses<'a> {
    source: Source<'a>,
    development: &'a Development,
    hints: &'a Hints,
    first: Missed<'a>,
    /// Whether more than a line is said of each.
    is_full: bool,
    /// What is said of those at no point, and then of those at each point.
    groups: Vec<Vec<u8>>,
    count: u64,
}

impl Drop for Misses<'_> {
    fn drop(self) {
        let Misses {
            source: _,
            development: _,
            hints: _,
            first: _,
            is_full: _,
            groups: _,
            count: _,
        } = self;
    }
}

/// The first proof that hints have for the condition of a number.
fn hinted(hints: &Hints, number: u64) -> Option<&Proof> {
    for entry in hints.proofs() {
        if entry.number == number {
            return Some(&entry.proof);
        }
    }
    None
}

/// Whether the first proof that hints have for a condition holds.
fn is_hinted(
    alloc: Global,
    terms: &mut Terms,
    number: u64,
    condition: &Condition,
    hints: &Hints,
) -> Result<bool, OutOfMemory>
    requires known { IsCondition terms.old condition.now }
    requires bounded { IsBounded (condition_in terms.old condition.now) }
    ensures kept { Keeps terms.old terms.new }
{
    let Some(proof) = hinted(hints, number) else {
        return Ok(false);
    };
    if proof.step_count() > FILE_LIMIT {
        return Ok(false);
    }
    match prove_one(alloc, terms, number, condition, proof) {
        Ok(()) => Ok(true),
        Err(Fault::Refused(_)) => Ok(false),
        Err(Fault::OutOfMemory) => Err(OutOfMemory),
    }
}

/// What a search for a proof of a condition comes to.
fn sought(
    alloc: Global,
    terms: &Terms,
    number: u64,
    condition: &Condition,
    hints: &Hints,
) -> Result<Ended, OutOfMemory>
    requires known { IsCondition terms.now condition.now }
{
    let uses = hints.terms(number);
    let cuts = hints.formulas(number);
    let ended = search(alloc, terms, &condition.goal, uses, cuts, BUDGET)?.end;
    match ended {
        End::Found(_) => Ok(Ended::Found),
        End::NotFound(model) => Ok(Ended::Model(model)),
        End::Spent(cause) => Ok(Ended::GivenUp(cause)),
        End::Large => Ok(Ended::Large),
    }
}

/// The place of the group to which a condition belongs.
fn group_of(condition: &Condition) -> usize {
    match condition.place.point {
        Some(point) => (point.0 as usize).saturating_add(1),
        None => 0,
    }
}

impl Misses<'_> {
    /// What is said of a condition without a proof.
    fn said_of(
        &self,
        alloc: Global,
        terms: &Terms,
        number: u64,
        condition: &Condition,
        ending: Ending<'_>,
    ) -> Result<Vec<u8>, OutOfMemory>
        requires known { IsCondition terms.now condition.now }
    {
        let mut text = Vec::new(alloc);
        if self.is_full {
            let (source, development) = (self.source, self.development);
            push_unfound(
                alloc,
                &mut text,
                source,
                development,
                terms,
                number,
                condition,
                ending,
            )?;
            return Ok(text);
        }
        let words = condition_words(alloc, self.development, condition)?;
        let cause = ending.cause();
        let line = if cause.is_empty() {
            format!(in alloc; "  condition {number} ({words})\n")?
        } else {
            format!(in alloc; "  condition {number} ({words}), given up: {cause}\n")?
        };
        text.extend_from_slice(line.as_bytes())?;
        Ok(text)
    }

    /// Puts into its group what is said of a condition without a proof.
    fn push(
        &mut self,
        alloc: Global,
        terms: &Terms,
        number: u64,
        condition: &Condition,
        ending: Ending<'_>,
    ) -> Result<(), OutOfMemory>
        requires known { IsCondition terms.now condition.now }
    {
        let text = self.said_of(alloc, terms, number, condition, ending)?;
        let place = group_of(condition);
        for _ in self.groups.len()..place.saturating_add(1) {
            self.groups.push(Vec::new(alloc))?;
        }
        if let Some(group) = self.groups.get_mut(place) {
            group.extend_from_slice(&text)?;
        }
        self.count = self.count.saturating_add(1);
        Ok(())
    }

    /// Seeks a proof of a condition from the first without one on, and says so if none is found.
    fn seek(
        &mut self,
        alloc: Global,
        terms: &Terms,
        number: u64,
        condition: &Condition,
    ) -> Result<(), OutOfMemory>
        requires known { IsCondition terms.now condition.now }
    {
        let first = self.first;
        if number == first.number {
            return self.push(alloc, terms, number, condition, first.ending);
        }
        match sought(alloc, terms, number, condition, self.hints)? {
            Ended::Found => Ok(()),
            Ended::Model(model) => {
                self.push(alloc, terms, number, condition, Ending::Model(&model))
            }
            Ended::GivenUp(cause) => {
                self.push(alloc, terms, number, condition, Ending::GivenUp(cause))
            }
            Ended::Large => self.push(alloc, terms, number, condition, Ending::Large),
        }
    }

    /// The groups, each below its point, and how many of `total` conditions are in them.
    fn told(&self, alloc: Global, total: u64) -> Result<Vec<u8>, OutOfMemory> {
        let mut text = Vec::new(alloc);
        for (place, group) in self.groups.iter().enumerate() {
            if group.is_empty() {
                continue;
            }
            let title = title_of(alloc, self.development, place)?;
            text.extend_from_slice(title.as_bytes())?;
            text.extend_from_slice(group)?;
        }
        let count = self.count;
        let line = format!(in alloc; "of {total} conditions {count} have no proof\n")?;
        text.extend_from_slice(line.as_bytes())?;
        Ok(text)
    }
}

/// What is printed above a group.
fn title_of(alloc: Global, development: &Development, place: usize) -> Result<String, OutOfMemory> {
    let Some(point) = place.checked_sub(1) else {
        return Ok(String::from_str(alloc, "at no point:\n")?);
    };
    let point = PointId(u32::try_from(point).unwrap_or(0));
    let name = point_name(development.parts(), point);
    let title = format!(in alloc; "at {name}:\n")?;
    Ok(title)
}

/// Says of each condition of a part, from the first without a proof on, whether one is found.
fn seek_part(
    alloc: Global,
    misses: &mut Misses<'_>,
    terms: &mut Terms,
    part: &NumberedPart,
) -> Result<(), OutOfMemory>
    requires known { AreConditions terms.old part.now.conditions.items }
    requires bounded { Every IsBounded (map (condition_in terms.old) part.now.conditions.items) }
{
    for place in 0..part.conditions.len() {
        let condition = &part.conditions[place];
        let number = part.first.saturating_add(place as u64);
        if number < misses.first.number {
            continue;
        }
        if !is_hinted(alloc, terms, number, condition, misses.hints)? {
            misses.seek(alloc, terms, number, condition)?;
        }
    }
    Ok(())
}

/// The same of all conditions.
fn seek_all(
    alloc: Global,
    misses: &mut Misses<'_>,
    development: &Development,
    numbering: &Numbering,
) -> Result<(), OutOfMemory>
    requires numbering { IsNumbering (development_view development.now) numbering.now }
{
    let count = numbering.count();
    let mut number = misses.first.number;
    while number < count {
        let mut terms = Terms::new(alloc);
        let part = numbering.part_with(alloc, development, &mut terms, number)?;
        conditions_use_their_variables(development);
        conditions_have_few_variables(development);
        seek_part(alloc, misses, &mut terms, &part)?;
        let behind = part.first.saturating_add(part.conditions.len() as u64);
        if behind <= number {
            return Ok(());
        }
        number = behind;
    }
    Ok(())
}

/// The conditions for which no proof is found, a line each or in full, grouped by points: the first, and those after it, for which one is
/// sought with these hints.
pub fn unfound_conditions(
    alloc: Global,
    source: Source<'_>,
    development: &Development,
    hints: &Hints,
    first: Missed<'_>,
    is_full: bool,
) -> Result<Vec<u8>, OutOfMemory> {
    let mut misses = Misses {
        source,
        development,
        hints,
        first,
        is_full,
        groups: Vec::new(alloc),
        count: 0,
    };
    let numbering = Numbering::new(alloc, development)?;
    seek_all(alloc, &mut misses, development, &numbering)?;
    misses.told(alloc, numbering.count())
}
