//! What columns hold after updates, store by store by the numbers of a table, so that no tree of the stores is made.
ghost use Rattle.std.specs.Prelude.{◌≡◌, map, IfOk, OnOk};
ghost use Rattle.lc_put.specs.PutNumbers.{columns_at, AreColumns};
ghost use Rattle.lc_table.specs.Tables.{HasTerm, Keeps};
ghost use Rattle.lc_term.specs.Replacement.{replacing, replace_term};
ghost use Rattle.lc_term.specs.Said.{after, put, said, term_at};
ghost use Rattle.lc_term.specs.Syntax.{Base};
ghost use Rattle.lc_term.specs.UpdateView.{update_of, updates_of};
ghost use Rattle.lc_term.specs.View.{term_of};
ghost use Rattle.lc_cond.specs.Adding.{HasColumns};

use lc_action::{Before, said};
use lc_base::{ColId, OutOfMemory};
use lc_rider::store_in;
use lc_table::{ColExprId, TermId, Terms};
use lc_term::{Term, Update};
use std::alloc::Global;

// A term over these variables and the columns before, entered.
fn entered_said(
    alloc: Global,
    terms: &mut Terms,
    variables: &[Term],
    term: &Term,
) -> Result<TermId, OutOfMemory>
    ensures id { IfOk result (λ k. HasTerm terms.new k (replace_term (replacing Base (term_at (map term_of variables.now))) (term_of term.now))) }
    ensures kept { Keeps terms.old terms.new }
{
    // A number stays, so no term of its own is made.
    if let Term::Number(number) = term {
        return terms.number(*number);
    }
    let before = Before {
        columns: &[],
        variables,
    };
    let said = said(alloc, term, before)?;
    terms.enter_term(&said)
}

// One more update, whose index and value are taken over these variables and in the columns before all updates.
#[tactic(auto, using(lc_table::proofs::Later::kept_on))]
fn store_update(
    alloc: Global,
    terms: &mut Terms,
    variables: &[Term],
    update: &Update,
    columns: &mut Vec<(ColId, ColExprId)>,
) -> Result<(), OutOfMemory>
    requires { AreColumns terms.old columns.old.items }
    ensures are { OnOk result (AreColumns terms.new columns.new.items) }
    ensures stored { OnOk result (columns_at terms.new columns.new.items ≡ put (columns_at terms.old columns.old.items) (said Base (map term_of variables.now) (update_of update.now))) }
    ensures kept { Keeps terms.old terms.new }
{
    let index = entered_said(alloc, terms, variables, &update.index)?;
    let value = entered_said(alloc, terms, variables, &update.value)?;
    store_in(terms, columns, update.column, index, value)
}

/// The columns after updates that take their indexes and values together, over these variables and in the columns before, and
/// are then stored in their order.
pub(crate) fn entered_after(
    alloc: Global,
    terms: &mut Terms,
    variables: &[Term],
    updates: &[Update],
) -> Result<Vec<(ColId, ColExprId)>, OutOfMemory>
    ensures list { IfOk result (λ ps. HasColumns terms.new ps.items (after Base (map term_of variables.now) (updates_of updates.now))) }
    ensures kept { Keeps terms.old terms.new }
{
    // Another part may have entered the same stores, so no more room is made than for a table without them.
    terms.reserve(updates.len())?;
    let mut columns = Vec::new(alloc);
    for update in updates {
        store_update(alloc, terms, variables, update, &mut columns)?;
    }
    Ok(columns)
}
