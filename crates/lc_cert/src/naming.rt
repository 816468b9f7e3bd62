//! The names of columns, found by a hash.
ghost use Rattle.std.specs.Prelude.{◌≡◌, IfOk};
ghost use Rattle.lc_reading.specs.TableView.{listed};
ghost use Rattle.lc_reading.specs.Words.{names_in};

use lc_base::OutOfMemory;
use lc_reading::NameTable;
use std::alloc::Global;

/// A table of these names.
pub fn table_of<'a>(alloc: Global, names: &[&'a str]) -> Result<NameTable<'a>, OutOfMemory>
    ensures { IfOk result (λ table. listed table ≡ names_in names.now) }
{
    let mut table = NameTable::new(alloc);
    for name in names {
        table = table.enter(name)?;
    }
    Ok(table)
}
