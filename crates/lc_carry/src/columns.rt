//! Which column of a new development has the name of an old one.
ghost use Rattle.std.specs.Prelude.{◌≡◌, IfOk, option_map};
ghost use Rattle.lc_carry.specs.Carried.{column_between};
ghost use Rattle.lc_outline.specs.DevelopmentView.{development_view};
ghost use Rattle.lc_reading.specs.Listed.{place_of};
ghost use Rattle.lc_reading.specs.TableView.{listed};
ghost use Rattle.lc_carry.specs.Renaming.{column_for};

use lc_base::{ColId, OutOfMemory};
use lc_cert::table_of;
use lc_outline::{Development, column_names};
use lc_reading::NameTable;
use std::alloc::Global;

/// The column of this name, if there is one. `OutOfMemory` is returned also if its number has more than 32 bits, as in no
/// development.
fn column_named(names: &NameTable<'_>, name: &str) -> Result<Option<ColId>, OutOfMemory>
    ensures { IfOk result (λ column. option_map (λ c. c.0) column ≡ place_of (listed names.now) name.now) }
{
    let Some(place) = names.place(name) else {
        return Ok(None);
    };
    match u32::try_from(place) {
        Ok(number) => Ok(Some(ColId(number))),
        Err(_) => Err(OutOfMemory),
    }
}

/// For each column of the old development, by its number, the column of the new one that has its name.
pub(crate) fn columns_between(
    alloc: Global,
    old: &Development,
    new: &Development,
) -> Result<Vec<Option<ColId>>, OutOfMemory>
    ensures { IfOk result (λ columns. column_for columns.items ≡ column_between (development_view old.now) (development_view new.now)) }
{
    let names = column_names(alloc, old.parts())?;
    let others = column_names(alloc, new.parts())?;
    let table = table_of(alloc, &others)?;
    let mut columns = Vec::with_capacity(alloc, names.len())?;
    for name in &names {
        columns.push(column_named(&table, name)?)?;
    }
    Ok(columns)
}
