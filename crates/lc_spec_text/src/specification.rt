//! How a specification is read.
ghost use Rattle.std.specs.Prelude.{◌≡◌, ℕ, List, true, length, IfOk};
ghost use Rattle.lc_sexp.specs.Shown.{rest_of, number_of, owner_of};
ghost use Rattle.lc_reading.specs.Parts.{tree_of, place_of};
ghost use Rattle.lc_reading.specs.Readings.{Reading, mapped};
ghost use Rattle.lc_reading.specs.Results.{IsReading};
ghost use Rattle.lc_reading.specs.TableView.{listed};
ghost use Rattle.lc_seq.specs.Specification as S;
ghost use Rattle.lc_seq.specs.Specification.{are_resolved};
ghost use Rattle.lc_seq.specs.TextView.{specification_of};
ghost use Rattle.lc_spec_text.specs.Specifications.{operations_reading, specification_parts_reading, the_specification, specification_reading};
ghost use Rattle.lc_spec_text.specs.ScopeView.{columns_view};
ghost use Rattle.lc_spec_text.specs.Seen.{operations_of, specification_parts};

use crate::column::read_columns;
use crate::operation::Operations;
use crate::scope::Columns;
use lc_base::Name;
use lc_reading::{
    NameTable, Part, ReadFault, behind_word, both, next_part, read_declared, read_name,
};
use lc_seq::{Column, Operation, TextSpec};
use lc_sexp::Cursor;
use std::alloc::Global;

/// The operations that are left in a list, where these columns are declared.
fn read_operations(
    alloc: Global,
    columns: Columns<'_, '_>,
    list: Cursor<'_>,
) -> Result<Vec<Operation>, ReadFault>
    ensures { IsReading operations_of (operations_reading (columns_view columns.entry) (number_of list.entry) (rest_of list.entry)) result }
{
    let (_, operations) = read_declared(alloc, &Operations(columns), NameTable::new(alloc), list)?;
    operations
}

/// `NAME (abstract COL*) OP+`, which must be the whole rest of a list, where the rest of the file declares these columns.
fn read_specification_parts<'a>(
    alloc: Global,
    others: &NameTable<'a>,
    list: Cursor<'a>,
) -> Result<((Name, Vec<Column>), Vec<Operation>), ReadFault>
    ensures { IsReading specification_parts (specification_parts_reading (listed others.now) (owner_of list.entry) (number_of list.entry) (rest_of list.entry)) result }
{
    let mut rest = list;
    let name = next_part(&mut rest)?;
    let section = next_part(&mut rest)?;
    let mut ahead = rest;
    next_part(&mut ahead)?;
    let name = read_name(None, &NameTable::new(alloc), name);
    let (own, columns) = read_columns(alloc, section)?;
    let declared = Columns::new(&own, others)?;
    let operations = read_operations(alloc, declared, rest);
    both(both(name, columns), operations)
}

/// The specification of these parts, in which all names are declared, and no two operations have one name.
fn made_specification(
    parts: Result<((Name, Vec<Column>), Vec<Operation>), ReadFault>,
) -> Result<TextSpec, ReadFault>
    requires { IfOk parts (λ p. are_resolved (length p.0.1.items) (operations_of p.1) ≡ true) }
    ensures { (r : Reading ((List ℕ × List S.Column) × List S.Operation)) → IsReading specification_parts r parts → IsReading specification_of (mapped the_specification r) result }
{
    let ((name, columns), operations) = parts?;
    Ok(TextSpec::of_parts(name, columns, operations))
}

/// The specification that an item reads as, where the rest of its file declares these columns:
/// `(spec NAME (abstract COL*) (op NAME (ARG*) REPLIES BRANCH+)+)`.
pub fn read_specification<'a>(
    alloc: Global,
    others: &NameTable<'a>,
    part: Part<'a>,
) -> Result<TextSpec, ReadFault>
    ensures { IsReading specification_of (specification_reading (listed others.now) (place_of part.entry) (tree_of part.entry)) result }
{
    let list = behind_word(part, "spec")?;
    made_specification(read_specification_parts(alloc, others, list))
}
