//! Numbers and names, as they are written.
ghost use Rattle.std.specs.Prelude.{◌≡◌, ◌++◌, codes, flat_map, OnOk};
ghost use Rattle.std.specs.Fmt.{signed_decimal};
ghost use Rattle.lc_outline.specs.ColumnNames.{column_names, name_at};
ghost use Rattle.lc_outline.specs.DevelopmentView.{development_view};
ghost use Rattle.lc_trace.specs.Lines.{numbers_text, operation_name, point_name};

use lc_base::{ColId, OpId, OutOfMemory, PointId};
use lc_outline::Development;
use std::alloc::Global;

// Appends a number.
fn push_number(alloc: Global, text: &mut Vec<u8>, number: i64) -> Result<(), OutOfMemory>
    ensures { OnOk result (text.new.items ≡ text.old.items ++ signed_decimal number) }
{
    let word = format!(in alloc; "{number}")?;
    text.extend_from_slice(word.as_bytes())?;
    Ok(())
}

// Appends numbers, each behind a comma.
fn push_more_numbers(alloc: Global, text: &mut Vec<u8>, numbers: &[i64]) -> Result<(), OutOfMemory>
    ensures { OnOk result (text.new.items ≡ text.old.items ++ flat_map (λ n. codes "," ++ signed_decimal n) numbers.now) }
{
    for number in numbers {
        text.push(b',')?;
        push_number(alloc, text, *number)?;
    }
    Ok(())
}

/// Appends a list of numbers.
pub(crate) fn push_numbers(
    alloc: Global,
    text: &mut Vec<u8>,
    numbers: &[i64],
) -> Result<(), OutOfMemory>
    ensures { OnOk result (text.new.items ≡ text.old.items ++ numbers_text numbers.now) }
{
    text.push(b'[')?;
    if let Some((first, others)) = numbers.split_first() {
        push_number(alloc, text, *first)?;
        push_more_numbers(alloc, text, others)?;
    }
    text.push(b']')?;
    Ok(())
}

/// The name of an operation; an empty text if there is none.
pub(crate) fn operation_name(development: &Development, operation: OpId) -> &str
    ensures { result.now ≡ operation_name (development_view development.now) operation.0 }
{
    let operations = development.parts().specification.operations();
    let place = operation.0 as usize;
    if place < operations.len() {
        operations[place].name.as_str()
    } else {
        ""
    }
}

/// The name of a column; an empty text if there is none.
pub(crate) fn column_name(development: &Development, column: ColId) -> &str
    ensures { result.now ≡ name_at (column_names (development_view development.now)) column.0 }
{
    lc_outline::column_name(development.parts(), column)
}

/// The name of a point; an empty text if there is none.
pub(crate) fn point_name(development: &Development, point: PointId) -> &str
    ensures { result.now ≡ point_name (development_view development.now) point.0 }
{
    let points = &development.parts().object.parts().points;
    let place = point.0 as usize;
    if place < points.len() {
        points[place].name.as_str()
    } else {
        ""
    }
}
