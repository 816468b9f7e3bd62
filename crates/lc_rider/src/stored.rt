//! Stores into columns that are kept by their numbers.
ghost use Rattle.std.specs.Prelude.{◌≡◌, IfNone, IfSome, OnOk, OnErr};
ghost use Rattle.lc_put.specs.PutNumbers.{columns_at, AreColumns, AreTerms, replacement_at};
ghost use Rattle.lc_term.specs.Replacement.{replace_term};
ghost use Rattle.lc_term.specs.Said.{put};
ghost use Rattle.lc_table.specs.Tables.{term_in, IsTerm, Keeps};
ghost use Rattle.lc_term.specs.View.{term_of};
ghost use Rattle.lc_rider.specs.Stored.{HasNone, IsFirst};

use lc_base::{ColId, OutOfMemory};
use lc_put::{PutNumbers, put_in_term};
use lc_table::{ColExprId, TermId, Terms};
use lc_term::Term;
use std::alloc::Global;

// The place of the first entry of a column.
fn place_of(columns: &[(ColId, ColExprId)], column: ColId) -> Option<usize>
    ensures some { IfSome result (λ place. IsFirst column.0 columns.now place) }
    ensures none { IfNone result (HasNone column.0 columns.now) }
{
    for (place, entry) in columns.iter().enumerate() {
        if entry.0 == column {
            return Some(place);
        }
    }
    None
}

/// Stores a value in a column at an index, in columns by number. On `OutOfMemory` they stay as they are.
pub fn store_in(
    terms: &mut Terms,
    columns: &mut Vec<(ColId, ColExprId)>,
    column: ColId,
    index: TermId,
    value: TermId,
) -> Result<(), OutOfMemory>
    requires columns { AreColumns terms.old columns.old.items }
    requires index { IsTerm terms.old index }
    requires value { IsTerm terms.old value }
    ensures are { OnOk result (AreColumns terms.new columns.new.items) }
    ensures stored { OnOk result (columns_at terms.new columns.new.items ≡
        put (columns_at terms.old columns.old.items) (record { column = column.0; index = term_in terms.old index; value = term_in terms.old value })) }
    ensures unchanged { OnErr result (columns.new.items ≡ columns.old.items) }
    ensures kept { Keeps terms.old terms.new }
{
    let Some(place) = place_of(columns, column) else {
        let base = terms.base(column)?;
        let stored = terms.store(base, index, value)?;
        columns.push((column, stored))?;
        return Ok(());
    };
    let stored = terms.store(columns[place].1, index, value)?;
    columns[place] = (column, stored);
    Ok(())
}

// A term with what is put in, stored in a column at an index.
pub(crate) fn store_value(
    alloc: Global,
    terms: &mut Terms,
    before: PutNumbers<'_>,
    columns: &mut Vec<(ColId, ColExprId)>,
    column: ColId,
    index: TermId,
    value: &Term,
) -> Result<(), OutOfMemory>
    requires before { AreColumns terms.old before.columns.now }
    requires variables { AreTerms terms.old before.variables.now }
    requires columns { AreColumns terms.old columns.old.items }
    requires index { IsTerm terms.old index }
    ensures are { OnOk result (AreColumns terms.new columns.new.items) }
    ensures stored { OnOk result (columns_at terms.new columns.new.items ≡ put (columns_at terms.old columns.old.items) (record {
      column = column.0;
      index = term_in terms.old index;
      value = replace_term (replacement_at terms.old before.entry.columns.now before.entry.variables.now) (term_of value.now);
    })) }
    ensures kept { Keeps terms.old terms.new }
{
    let value = terms.enter_term(value)?;
    let value = put_in_term(terms, alloc, before, value)?;
    store_in(terms, columns, column, index, value)
}
