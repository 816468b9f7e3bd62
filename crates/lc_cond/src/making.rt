//! Conditions made of formulas of a table.
ghost use Rattle.std.specs.Prelude.{OnOk};
ghost use Rattle.lc_cond.specs.Heads.{MakesOne, MakesEach};

use crate::condition::{Condition, Kind, Passage, Place, Which};
use lc_base::{OutOfMemory, PointId};
use lc_kernel::{Goal, Hypotheses};
use lc_table::FormulaId;

/// What conditions that are made together share: what they ask for, how many variables they have, and where they are.
#[derive(Clone, Copy)]
pub(crate) struct Head {
    pub kind: Kind,
    pub variables: u32,
    pub point: Option<PointId>,
    pub passage: Passage,
    pub path: Option<usize>,
}

/// One more condition, whose hypotheses these are.
pub(crate) fn push_made(
    head: Head,
    which: Which,
    hypotheses: Hypotheses,
    goal: FormulaId,
    conditions: &mut Vec<Condition>,
) -> Result<(), OutOfMemory>
    ensures { OnOk result (MakesOne head which hypotheses goal conditions.old.items conditions.new.items) }
{
    conditions.push(Condition {
        kind: head.kind,
        place: Place {
            point: head.point,
            passage: head.passage,
            path: head.path,
            which,
        },
        goal: Goal {
            vars: head.variables,
            hypotheses,
            goal,
        },
    })?;
    Ok(())
}

/// One more condition, which shares these hypotheses.
pub(crate) fn push_one(
    head: Head,
    which: Which,
    hypotheses: &Hypotheses,
    goal: FormulaId,
    conditions: &mut Vec<Condition>,
) -> Result<(), OutOfMemory>
    ensures { OnOk result (MakesOne head which hypotheses.now goal conditions.old.items conditions.new.items) }
{
    push_made(head, which, hypotheses.share()?, goal, conditions)
}

/// A condition for each of these goals, by their places.
pub(crate) fn push_each(
    head: Head,
    hypotheses: &Hypotheses,
    goals: &[FormulaId],
    conditions: &mut Vec<Condition>,
) -> Result<(), OutOfMemory>
    ensures { OnOk result (MakesEach head hypotheses.now goals.now conditions.old.items conditions.new.items) }
{
    for (number, goal) in goals.iter().enumerate() {
        let which = Which::Numbered(number);
        push_one(head, which, hypotheses, *goal, conditions)?;
    }
    Ok(())
}
