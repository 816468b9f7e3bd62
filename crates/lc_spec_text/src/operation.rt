//! How an operation is read.
ghost use Rattle.std.specs.Prelude.{ℕ, List, codes};
ghost use Rattle.lc_sexp.specs.Shown.{rest_of, number_of, owner_of};
ghost use Rattle.lc_reading.specs.Parts.{tree_of, place_of};
ghost use Rattle.lc_reading.specs.Readings.{Reading, mapped, behind_reading};
ghost use Rattle.lc_reading.specs.Results.{IsReading};
ghost use Rattle.lc_reading.specs.TableView.{listed};
ghost use Rattle.lc_seq.specs.Specification as S;
ghost use Rattle.lc_seq.specs.SpecView.{operation_of};
ghost use Rattle.lc_spec_text.specs.Operations.{operation_parts_reading, the_operation, operation_reading};
ghost use Rattle.lc_spec_text.specs.ScopeView.{columns_view};
ghost use Rattle.lc_spec_text.specs.Seen.{operation_parts};

use crate::scope::Columns;
use crate::signature::{count_in, read_arguments, read_signature};
use crate::way::read_ways;
use lc_base::{Name, OPERATION_LIMIT, OutOfMemory};
use lc_reading::{
    Declares, NameTable, Part, ReadFault, behind_word, both, is_full, limited, next_part,
};
use lc_seq::{Branch, Operation};
use lc_sexp::Cursor;
use std::alloc::Global;

/// `NAME (ARG*) REPLIES` and `BRANCH+` or `CHOICE+`, after these operations; these parts have to be the whole rest of a list.
fn read_operation_parts(
    alloc: Global,
    columns: Columns<'_, '_>,
    before: &NameTable<'_>,
    list: Cursor<'_>,
) -> Result<(((Name, Vec<Name>), u32), Vec<Branch>), ReadFault>
    ensures { IsReading operation_parts (operation_parts_reading (columns_view columns.entry) (listed before.now) (owner_of list.entry) (number_of list.entry) (rest_of list.entry)) result }
{
    let mut rest = list;
    let name = next_part(&mut rest)?;
    let arguments = next_part(&mut rest)?;
    let replies = next_part(&mut rest)?;
    let mut ahead = rest;
    next_part(&mut ahead)?;
    let (variables, arguments) = read_arguments(alloc, arguments)?;
    let signature = read_signature(before, name, arguments, replies);
    let branches = read_ways(alloc, columns, &variables, count_in(replies), rest);
    both(signature, branches)
}

/// The operation of these parts.
fn made_operation(
    parts: Result<(((Name, Vec<Name>), u32), Vec<Branch>), ReadFault>,
) -> Result<Operation, ReadFault>
    ensures { (r : Reading (((List ℕ × List (List ℕ)) × ℕ) × List S.Branch)) → IsReading operation_parts r parts → IsReading operation_of (mapped the_operation r) result }
{
    let (((name, arguments), replies), branches) = parts?;
    Ok(Operation {
        name,
        arguments,
        replies,
        branches,
    })
}

/// `(op NAME (ARG*) REPLIES BRANCH+)` or `(op NAME (ARG*) REPLIES CHOICE+)`, after these operations.
fn read_form(
    alloc: Global,
    columns: Columns<'_, '_>,
    before: &NameTable<'_>,
    part: Part<'_>,
) -> Result<Operation, ReadFault>
    ensures { IsReading operation_of (mapped the_operation (behind_reading (codes "op") (operation_parts_reading (columns_view columns.entry) (listed before.now)) (place_of part.entry) (tree_of part.entry))) result }
{
    let list = behind_word(part, "op")?;
    made_operation(read_operation_parts(alloc, columns, before, list))
}

/// An operation after these, within the limit of operations.
fn read_operation(
    alloc: Global,
    columns: Columns<'_, '_>,
    before: &NameTable<'_>,
    part: Part<'_>,
) -> Result<Operation, ReadFault>
    ensures { IsReading operation_of (operation_reading (columns_view columns.entry) (listed before.now) (place_of part.entry) (tree_of part.entry)) result }
{
    let operation = read_form(alloc, columns, before, part);
    limited(
        is_full(Some(OPERATION_LIMIT as u64), before.len()),
        part.number(),
        operation,
    )
}

/// Reads operations, where these columns are declared.
#[derive(Drop)]
pub(crate) struct Operations<'a, 'b>(pub(crate) Columns<'a, 'b>);

impl Declares for Operations<'_, '_> {
    ghost use Rattle.lc_reading.specs.Rows.{second_name};
    ghost use Rattle.lc_seq.specs.SpecView.{operation_of};
    ghost use Rattle.lc_seq.specs.Specification.{Operation};
    ghost use Rattle.lc_spec_text.specs.Operations.{operation_reading};
    ghost use Rattle.lc_spec_text.specs.ScopeView.{columns_view};

    type Value = Operation;

    ghost Meaning = { Operation };

    ghost meaning = { operation_of };

    ghost reading = { λ reader. operation_reading (columns_view reader.0) };

    ghost declares = { second_name };

    fn read(
        &self,
        alloc: Global,
        before: &NameTable<'_>,
        part: Part<'_>,
    ) -> Result<Operation, ReadFault> {
        read_operation(alloc, self.0, before, part)
    }

    fn enter<'a>(
        &self,
        names: NameTable<'a>,
        part: Part<'a>,
    ) -> Result<NameTable<'a>, OutOfMemory> {
        names.enter_second(part)
    }
}
