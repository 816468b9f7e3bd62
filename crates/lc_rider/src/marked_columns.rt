//! The columns after a mark.
ghost use Rattle.std.specs.Prelude.{◌≡◌, IfOk, OnOk, map};
ghost use Rattle.lc_put.specs.PutNumbers.{columns_at, AreColumns, terms_in, AreTerms};
ghost use Rattle.lc_term.specs.Said.{after, at_client};
ghost use Rattle.lc_term.specs.Syntax as T;
ghost use Rattle.lc_table.specs.Tables.{term_in, Keeps};
ghost use Rattle.lc_term.specs.UpdateView.{updates_of};
ghost use Rattle.lc_term.specs.View.{term_of};
ghost use Rattle.lc_seq.specs.SpecView.{branch_of};
ghost use Rattle.lc_action.specs.ActionView.{first_of};
ghost use Rattle.lc_rider.specs.MarkStores.{CanStore, AreStored};
ghost use Rattle.lc_rider.specs.MarkView.{marking_of};
ghost use Rattle.lc_rider.specs.PathView.{path_in, IsPath};
ghost use Rattle.lc_rider.specs.Paths.{mark_updates};
ghost use Rattle.lc_rider.specs.Rider.{Own, Note};

use crate::marking::{Mark, Marking};
use crate::path::Path;
use crate::stored::store_value;
use lc_action::SystemColumns;
use lc_base::{ColId, OutOfMemory};
use lc_put::{PutNumbers, put_in_term};
use lc_seq::Branch;
use lc_table::{ColExprId, TermId, Terms};
use lc_term::{Term, Update};
use std::alloc::Global;

// Updates are stored, one after another, whose indexes and values are taken with what is put in.
fn store_updates(
    alloc: Global,
    terms: &mut Terms,
    before: PutNumbers<'_>,
    updates: &[Update],
    columns: &mut Vec<(ColId, ColExprId)>,
) -> Result<(), OutOfMemory>
    requires { CanStore terms.old before columns.old.items }
    ensures are { OnOk result (AreColumns terms.new columns.new.items) }
    ensures stored { OnOk result (AreStored terms.old before.entry columns.old.items (updates_of updates.now) terms.new columns.new.items) }
    ensures kept { Keeps terms.old terms.new }
{
    for update in updates {
        let index = terms.enter_term(&update.index)?;
        let index = put_in_term(terms, alloc, before, index)?;
        store_value(
            alloc,
            terms,
            before,
            columns,
            update.column,
            index,
            &update.value,
        )?;
    }
    Ok(())
}

// Stores terms in the client's cells, one in each column.
fn store_own(
    alloc: Global,
    terms: &mut Terms,
    before: PutNumbers<'_>,
    cells: &[ColId],
    values: &[Term],
    columns: &mut Vec<(ColId, ColExprId)>,
) -> Result<(), OutOfMemory>
    requires { CanStore terms.old before columns.old.items }
    ensures are { OnOk result (AreColumns terms.new columns.new.items) }
    ensures stored { OnOk result (AreStored terms.old before.entry columns.old.items (at_client (map (λ c. c.0) cells.now) (map term_of values.now)) terms.new columns.new.items) }
    ensures kept { Keeps terms.old terms.new }
{
    let client = terms.variable(1)?;
    let client = put_in_term(terms, alloc, before, client)?;
    for (i, cell) in cells.iter().enumerate() {
        let Some(value) = values.get(i) else {
            return Ok(());
        };
        store_value(alloc, terms, before, columns, *cell, client, value)?;
    }
    Ok(())
}

// What a mark stores by a branch: the branch, and what is put in when its words are said.
#[derive(Clone, Copy)]
struct Effect<'a> {
    before: PutNumbers<'a>,
    system: SystemColumns,
    branch: &'a Branch,
}

// What is stored when a call takes effect by this branch: its updates, then its replies, then that it has.
fn store_settled(
    alloc: Global,
    terms: &mut Terms,
    effect: Effect<'_>,
    columns: &mut Vec<(ColId, ColExprId)>,
) -> Result<(), OutOfMemory>
    requires { CanStore terms.old effect.before columns.old.items }
    ensures are { OnOk result (AreColumns terms.new columns.new.items) }
    ensures stored { OnOk result (AreStored terms.old effect.entry.before columns.old.items (mark_updates (first_of effect.entry.system) Own (branch_of effect.entry.branch.now)) terms.new columns.new.items) }
    ensures kept { Keeps terms.old terms.new }
{
    store_updates(alloc, terms, effect.before, &effect.branch.updates, columns)?;
    store_own(
        alloc,
        terms,
        effect.before,
        &effect.system.replies(),
        &effect.branch.replies,
        columns,
    )?;
    store_own(
        alloc,
        terms,
        effect.before,
        &[effect.system.pend()],
        &[Term::Number(2)],
        columns,
    )
}

// What is stored when the replies of this branch are noted: that there is a note, then the replies.
fn store_noted(
    alloc: Global,
    terms: &mut Terms,
    effect: Effect<'_>,
    columns: &mut Vec<(ColId, ColExprId)>,
) -> Result<(), OutOfMemory>
    requires { CanStore terms.old effect.before columns.old.items }
    ensures are { OnOk result (AreColumns terms.new columns.new.items) }
    ensures stored { OnOk result (AreStored terms.old effect.entry.before columns.old.items (mark_updates (first_of effect.entry.system) Note (branch_of effect.entry.branch.now)) terms.new columns.new.items) }
    ensures kept { Keeps terms.old terms.new }
{
    store_own(
        alloc,
        terms,
        effect.before,
        &[effect.system.noted()],
        &[Term::Number(1)],
        columns,
    )?;
    store_own(
        alloc,
        terms,
        effect.before,
        &effect.system.notes(),
        &effect.branch.replies,
        columns,
    )
}

// What is stored at a mark.
fn store_marked(
    alloc: Global,
    terms: &mut Terms,
    marking: Marking,
    effect: Effect<'_>,
    columns: &mut Vec<(ColId, ColExprId)>,
) -> Result<(), OutOfMemory>
    requires { CanStore terms.old effect.before columns.old.items }
    ensures are { OnOk result (AreColumns terms.new columns.new.items) }
    ensures stored { (client : T.Term) → OnOk result (AreStored terms.old effect.entry.before columns.old.items
        (mark_updates (first_of effect.entry.system) (marking_of marking client) (branch_of effect.entry.branch.now)) terms.new columns.new.items) }
    ensures kept { Keeps terms.old terms.new }
{
    match marking {
        Marking::Own => store_settled(alloc, terms, effect, columns),
        Marking::Other(_) => store_settled(alloc, terms, effect, columns),
        Marking::Note => store_noted(alloc, terms, effect, columns),
    }
}

/// The columns after a mark by this branch. In its words variable 1 is the client whose call is marked, and the arguments of
/// that call follow.
pub(crate) fn marked_columns(
    alloc: Global,
    terms: &mut Terms,
    mark: Mark<'_>,
    path: &Path,
    variables: &[TermId],
    branch: &Branch,
) -> Result<Vec<(ColId, ColExprId)>, OutOfMemory>
    requires path { IsPath terms.old path.now }
    requires variables { AreTerms terms.old variables.now }
    ensures are { IfOk result (λ columns. AreColumns terms.new columns.items) }
    ensures columns { IfOk result (λ columns. columns_at terms.new columns.items ≡
        after (path_in terms.old path.now).columns (terms_in terms.old variables.now)
        (mark_updates (first_of mark.entry.system) (marking_of mark.entry.marking (term_in terms.old mark.entry.client)) (branch_of branch.now))) }
    ensures kept { Keeps terms.old terms.new }
{
    let columns = path.columns();
    let mut stored = Vec::from_slice(alloc, columns)?;
    let effect = Effect {
        before: PutNumbers { columns, variables },
        system: mark.system,
        branch,
    };
    store_marked(alloc, terms, mark.marking, effect, &mut stored)?;
    Ok(stored)
}
