//! Facts that do not hold, and those that nothing needs, are left out.
use crate::earlier::Earlier;
use crate::facts::Facts;
use crate::guards::marked_actions;
use crate::implied::unimplied_of;
use crate::marks::{are_all, is_set, marks, set};
use crate::needs::Need;
use crate::rounds::Rounds;
use crate::searching::needs_of;
use lc_base::{Fault, OutOfMemory};
use lc_fill::{Plan, Planned};
use lc_sexp::Forms;
use lc_short::completed;
use std::alloc::Global;
use std::mem;

/// How often facts are left out at most. Each time leaves out one at least.
const ROUNDS: usize = 64;

/// What conditions need of facts.
#[derive(Drop)]
struct Round {
    count: usize,
    needs: Vec<Need>,
}

impl Round {
    /// What is needed of the facts of a plan, where this is known earlier; nothing if what is completed by it is no development.
    fn of<R: Rounds>(
        alloc: Global,
        forms: &Forms,
        plan: &Plan,
        budget: u64,
        mut earlier: Earlier,
        rounds: &mut R,
    ) -> Result<Option<Round>, OutOfMemory> {
        let completion = match completed(alloc, plan, forms) {
            Ok(completion) => completion,
            Err(Fault::Refused(_)) => return Ok(None),
            Err(Fault::OutOfMemory) => return Err(OutOfMemory),
        };
        let facts = Facts::of(alloc, forms, plan, &completion.development)?;
        rounds.begins(facts.count);
        let needs = needs_of(alloc, &completion.development, &facts, budget, &mut earlier)?;
        Ok(Some(Round {
            count: facts.count,
            needs,
        }))
    }

    /// Of how many conditions no proof was found.
    fn unfound(&self) -> usize {
        let mut count = 0usize;
        for need in &self.needs {
            if !need.is_found {
                count = count.saturating_add(1);
            }
        }
        count
    }

    /// Marks the facts of which all conditions have proofs.
    fn holding(&self, alloc: Global) -> Result<Vec<bool>, OutOfMemory> {
        let mut holding = marks(alloc, self.count, true)?;
        for need in &self.needs {
            if let Some(fact) = need.asked {
                if !need.is_found {
                    set(&mut holding, fact, false);
                }
            }
        }
        Ok(holding)
    }

    /// What is known of what is needed, if only the marked facts stay.
    fn without(&self, alloc: Global, marks: &[bool]) -> Result<Earlier, OutOfMemory> {
        let mut numbers = Vec::with_capacity(alloc, marks.len())?;
        let mut count = 0usize;
        for mark in marks {
            numbers.push(if *mark { Some(count) } else { None })?;
            if *mark {
                count = count.saturating_add(1);
            }
        }
        Earlier::of(alloc, &self.needs, &numbers)
    }

    /// Marks the facts that are used for what is no guess, and for marked ones.
    fn needed(&self, alloc: Global) -> Result<Vec<bool>, OutOfMemory> {
        let mut needed = marks(alloc, self.count, false)?;
        for _ in 0..=self.count {
            if !self.spread(&mut needed) {
                return Ok(needed);
            }
        }
        Ok(needed)
    }

    /// Marks what is used for what is no guess and for marked facts. It says whether a fact was marked.
    fn spread(&self, needed: &mut [bool]) -> bool {
        let mut is_more = false;
        for need in &self.needs {
            let is_asked = match need.asked {
                Some(fact) => is_set(needed, fact),
                None => true,
            };
            if is_asked {
                for fact in &need.used {
                    is_more |= !is_set(needed, *fact);
                    set(needed, *fact, true);
                }
            }
        }
        is_more
    }
}

/// A plan, with how many conditions have no proof that was found; none if none was sought.
#[derive(Drop)]
pub struct Sieved {
    pub plan: Plan,
    pub unfound: Option<usize>,
}

/// What is planned that may be left out.
#[derive(Drop)]
struct Parts {
    asserts: Vec<Planned>,
    actions: Forms,
}

/// The parts of a plan without the facts that are not marked.
fn marked_parts(alloc: Global, plan: &Plan, marks: &[bool]) -> Result<Parts, OutOfMemory> {
    let mut asserts = Vec::with_capacity(alloc, plan.asserts.len())?;
    let mut number = 0usize;
    for planned in &plan.asserts {
        let mut items = Vec::new(alloc);
        for item in planned.items.parts(alloc)? {
            if is_set(marks, number) {
                items.push(item)?;
            }
            number = number.saturating_add(1);
        }
        asserts.push(Planned {
            place: planned.place,
            items: Forms::of(alloc, &items)?,
        })?;
    }
    let actions = marked_actions(alloc, &plan.actions, marks, number)?;
    Ok(Parts { asserts, actions })
}

/// Puts parts in a plan, and hands out those that it had.
fn exchange(plan: &mut Plan, parts: Parts) -> Parts {
    let Parts { asserts, actions } = parts;
    Parts {
        asserts: mem::replace(&mut plan.asserts, asserts),
        actions: mem::replace(&mut plan.actions, actions),
    }
}

/// A plan, with what is needed of its facts.
#[derive(Drop)]
struct Sieve {
    plan: Plan,
    round: Round,
}

/// Leaves out the facts that are not marked, unless fewer proofs are found without them.
fn thinned<R: Rounds>(
    alloc: Global,
    forms: &Forms,
    sieve: Sieve,
    marks: &[bool],
    budget: u64,
    rounds: &mut R,
) -> Result<Sieve, OutOfMemory> {
    if are_all(marks) {
        return Ok(sieve);
    }
    let Sieve { mut plan, round } = sieve;
    let earlier = round.without(alloc, marks)?;
    let fewer = marked_parts(alloc, &plan, marks)?;
    let all = exchange(&mut plan, fewer);
    match Round::of(alloc, forms, &plan, budget, earlier, rounds)? {
        Some(again) if again.unfound() <= round.unfound() => Ok(Sieve { plan, round: again }),
        _ => {
            let _fewer = exchange(&mut plan, all);
            Ok(Sieve { plan, round })
        }
    }
}

/// Marks the facts of a plan that do not follow from others.
fn unimplied(alloc: Global, forms: &Forms, sieve: &Sieve) -> Result<Vec<bool>, OutOfMemory> {
    match completed(alloc, &sieve.plan, forms) {
        Ok(completion) => {
            let facts = Facts::of(alloc, forms, &sieve.plan, &completion.development)?;
            unimplied_of(alloc, &completion.development, &facts)
        }
        Err(Fault::Refused(_)) => marks(alloc, sieve.round.count, true),
        Err(Fault::OutOfMemory) => Err(OutOfMemory),
    }
}

/// A plan without the facts that nothing needs, and those that follow from others at their point.
fn least<R: Rounds>(
    alloc: Global,
    forms: &Forms,
    plan: Plan,
    round: Round,
    budget: u64,
    rounds: &mut R,
) -> Result<Sieved, OutOfMemory> {
    let sieve = Sieve { plan, round };
    let needed = sieve.round.needed(alloc)?;
    let sieve = thinned(alloc, forms, sieve, &needed, budget, rounds)?;
    let unimplied = unimplied(alloc, forms, &sieve)?;
    let sieve = thinned(alloc, forms, sieve, &unimplied, budget, rounds)?;
    let needed = sieve.round.needed(alloc)?;
    let sieve = thinned(alloc, forms, sieve, &needed, budget, rounds)?;
    let unfound = sieve.round.unfound();
    let Sieve { plan, .. } = sieve;
    Ok(Sieved {
        plan,
        unfound: Some(unfound),
    })
}

/// A plan for a short development with these forms, without the guessed facts of which a proof is not found in at most `budget` steps, and without
/// those that nothing needs, or that follow from others: what is asserted at points, and what guards of actions ask for. What is planned else stays, and so does all if the budget is
/// 0, or no development is completed by the plan. Each round is reported to `rounds`.
pub fn sifted<R: Rounds>(
    alloc: Global,
    forms: &Forms,
    plan: Plan,
    budget: u64,
    rounds: &mut R,
) -> Result<Sieved, OutOfMemory> {
    let mut plan = plan;
    let mut earlier = Earlier::none(alloc);
    let most = if budget == 0 { 0 } else { ROUNDS };
    for _ in 0..most {
        let known = mem::replace(&mut earlier, Earlier::none(alloc));
        let Some(round) = Round::of(alloc, forms, &plan, budget, known, rounds)? else {
            break;
        };
        let holding = round.holding(alloc)?;
        if are_all(&holding) {
            return least(alloc, forms, plan, round, budget, rounds);
        }
        earlier = round.without(alloc, &holding)?;
        let fewer = marked_parts(alloc, &plan, &holding)?;
        let _all = exchange(&mut plan, fewer);
    }
    Ok(Sieved {
        plan,
        unfound: None,
    })
}
