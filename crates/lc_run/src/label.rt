//! Labels of a run, and copies of them.
ghost use Rattle.std.specs.Prelude.{◌≡◌, IfOk};
ghost use Rattle.lc_seq.specs.SpecView.{choice_of};
ghost use Rattle.lc_ride.specs.RideView.{mark_of, marks_of};
ghost use Rattle.lc_steps.specs.StepView.{what_of};
ghost use Rattle.lc_run.specs.LabelView.{labels_of};
ghost use Rattle.lc_run.specs.Labels.{is_unfinished};

use lc_base::OutOfMemory;
use lc_ride::Mark;
use lc_seq::Pick;
use lc_steps::What;
use std::alloc::Global;

/// One step of a run: whose it is, what that client does, and the marks that are made.
pub struct Label {
    pub client: u32,
    pub what: What,
    pub marks: Vec<Mark>,
}

// Written out, so that dropping a label is one call.
impl Drop for Label {
    fn drop(self) {
        let Label {
            client: _,
            what: _,
            marks: _,
        } = self;
    }
}

impl Label {
    ghost use Rattle.std.specs.Prelude.{◌≡◌, IfOk};
    ghost use Rattle.lc_run.specs.LabelView.{label_of};

    /// The same label, in memory of its own.
    pub fn try_clone(&self, alloc: Global) -> Result<Label, OutOfMemory>
        ensures { IfOk result (λ copy. label_of copy ≡ label_of self.now) }
    {
        let what = copied_what(alloc, &self.what)?;
        let marks = copied_marks(alloc, &self.marks)?;
        Ok(Label {
            client: self.client,
            what,
            marks,
        })
    }
}

/// The same numbers.
pub(crate) fn copied(alloc: Global, numbers: &[i64]) -> Result<Vec<i64>, OutOfMemory>
    ensures { IfOk result (λ copy. copy.items ≡ numbers.now) }
{
    Ok(Vec::from_slice(alloc, numbers)?)
}

fn copied_what(alloc: Global, what: &What) -> Result<What, OutOfMemory>
    ensures { IfOk result (λ copy. what_of copy ≡ what_of what.now) }
{
    match what {
        What::Invoked { operation, numbers } => {
            let numbers = copied(alloc, numbers)?;
            Ok(What::Invoked {
                operation: *operation,
                numbers,
            })
        }
        What::Moved { point, edge } => Ok(What::Moved {
            point: *point,
            edge: *edge,
        }),
        What::Returned(numbers) => Ok(What::Returned(copied(alloc, numbers)?)),
    }
}

/// The same choice.
pub(crate) fn copied_pick(alloc: Global, pick: &Pick) -> Result<Pick, OutOfMemory>
    ensures { IfOk result (λ copy. choice_of copy ≡ choice_of pick.now) }
{
    match pick {
        Pick::First => Ok(Pick::First),
        Pick::Named { name, numbers } => {
            let numbers = copied(alloc, numbers)?;
            Ok(Pick::Named {
                name: *name,
                numbers,
            })
        }
    }
}

fn copied_mark(alloc: Global, mark: &Mark) -> Result<Mark, OutOfMemory>
    ensures { IfOk result (λ copy. mark_of copy ≡ mark_of mark.now) }
{
    let choice = copied_pick(alloc, &mark.choice)?;
    let reply = copied(alloc, &mark.reply)?;
    Ok(Mark {
        client: mark.client,
        note: mark.note,
        choice,
        reply,
    })
}

fn copied_marks(alloc: Global, marks: &[Mark]) -> Result<Vec<Mark>, OutOfMemory>
    ensures { IfOk result (λ copies. marks_of copies.items ≡ marks_of marks.now) }
{
    let mut copies = Vec::with_capacity(alloc, marks.len())?;
    for mark in marks {
        copies.push(copied_mark(alloc, mark)?)?;
    }
    Ok(copies)
}

/// Whether a call is unfinished after these labels of its client.
pub(crate) fn is_unfinished(labels: &[Label]) -> bool
    ensures { result ≡ is_unfinished (labels_of labels.now) }
{
    match labels.last() {
        None => false,
        Some(label) => !matches!(label.what, What::Returned(_)),
    }
}
