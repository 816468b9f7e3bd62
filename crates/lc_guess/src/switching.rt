//! Terms that are 0 just where a mark under a condition is not done.
use crate::code::Point;
use crate::formula::{cell_at, other_side};
use crate::object::Object;
use crate::placing::inverse_of;
use crate::text::{each_cell, first_text, nth_text, text_of};
use lc_base::OutOfMemory;
use std::alloc::Global;

/// A cell of which the invariant says that it is 0, or 1.
#[derive(Clone, Copy)]
pub(crate) struct Bit<'b> {
    pub(crate) column: &'b str,
    pub(crate) index: &'b str,
    pub(crate) is_one: bool,
}

/// The cell of which a claim says that it is 0, or 1.
pub(crate) fn bit_in<'b>(object: &Object<'_>, claim: &'b str) -> Option<Bit<'b>> {
    let (column, behind) = claim.strip_prefix("(= (rd ")?.split_once(" ")?;
    if !object.is_of_bits(column) {
        return None;
    }
    match (behind.strip_suffix(") 1)"), behind.strip_suffix(") 0)")) {
        (Some(index), _) => Some(Bit {
            column,
            index,
            is_one: true,
        }),
        (None, Some(index)) => Some(Bit {
            column,
            index,
            is_one: false,
        }),
        (None, None) => None,
    }
}

/// The column that has the place of what is at it, as the invariant says; none if it does not.
fn place_column<'a>(object: &Object<'a>) -> Option<&'a str> {
    for claim in &object.general {
        if let Some((column, _)) = inverse_of(*claim) {
            return Some(column);
        }
    }
    None
}

/// The index of a cell, if a term is one.
fn index_in(cell: &str) -> Option<&str> {
    let (_, behind) = cell.strip_prefix("(rd ")?.split_once(" ")?;
    behind.strip_suffix(")")
}

/// The index at which the invariant finds the first cell of a column: the `T` of `(= (rd COLUMN 0) (rd OTHER T))`, if it says it.
pub(crate) fn tied_index<'b>(
    alloc: Global,
    object: &'b Object<'_>,
    column: &str,
) -> Result<Option<&'b str>, OutOfMemory> {
    let cell = cell_at(alloc, column, "0")?;
    for claim in &object.claims {
        if let Some(other) = other_side(claim, &cell)
            && let Some(index) = index_in(other)
        {
            return Ok(Some(index));
        }
    }
    Ok(None)
}

/// The index at which the invariant finds the cell that a condition is on, of a row that is read first.
fn first_index<'b>(
    alloc: Global,
    object: &'b Object<'_>,
    point: &Point<'_>,
    condition: &str,
) -> Result<Option<&'b str>, OutOfMemory> {
    let columns = object.columns_of(first_text(point.code));
    for (column, local) in each_cell(columns, point.targets()) {
        if other_side(condition, text_of(local)).is_some() {
            return tied_index(alloc, object, column);
        }
    }
    Ok(None)
}

/// The index at which a bit is looked at, at a point that reads what a condition is on.
fn index_at(
    alloc: Global,
    object: &Object<'_>,
    point: &Point<'_>,
    condition: &str,
    bit: Bit<'_>,
) -> Result<Option<String>, OutOfMemory> {
    if index_in(bit.index).is_some()
        && let Some(side) = other_side(condition, bit.index)
    {
        return Ok(Some(String::from_str(alloc, side)?));
    }
    let index = nth_text(point.code, 1);
    if index == "0" {
        return match first_index(alloc, object, point, condition)? {
            Some(index) => Ok(Some(String::from_str(alloc, index)?)),
            None => Ok(None),
        };
    }
    match place_column(object) {
        Some(column) if !index.is_empty() => Ok(Some(cell_at(alloc, column, index)?)),
        _ => Ok(None),
    }
}

/// A term that is 0 just where this condition does not hold, if that is on a cell that is read, of a column of zeros and ones.
fn switch_read(
    alloc: Global,
    object: &Object<'_>,
    point: &Point<'_>,
    condition: &str,
) -> Result<Option<String>, OutOfMemory> {
    let index = point.index(alloc)?;
    for (column, local) in each_cell(object.columns_of(first_text(point.code)), point.targets()) {
        if let Some(side) = other_side(condition, text_of(local))
            && !point.changes(&index)
            && object.stores_bits(column)
        {
            let cell = cell_at(alloc, column, &index)?;
            return Ok(match side {
                "0" => Some(format!(in alloc; "(- 1 {cell})")?),
                "1" => Some(cell),
                _ => None,
            });
        }
    }
    Ok(None)
}

/// A term that is 0 just where this condition does not hold, at a point that reads what it is on, if one is known.
pub(crate) fn switch_at(
    alloc: Global,
    object: &Object<'_>,
    point: &Point<'_>,
    condition: &str,
) -> Result<Option<String>, OutOfMemory> {
    for claim in &object.claims {
        if let Some(bit) = bit_in(object, claim)
            && let Some(index) = index_at(alloc, object, point, condition, bit)?
        {
            let cell = cell_at(alloc, bit.column, &index)?;
            return Ok(Some(if bit.is_one {
                cell
            } else {
                format!(in alloc; "(- 1 {cell})")?
            }));
        }
    }
    switch_read(alloc, object, point, condition)
}
