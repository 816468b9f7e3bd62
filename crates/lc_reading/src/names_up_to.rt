//! Names in a row, with a limit on their number.
use crate::declared::Declares;
use crate::flaw::ReadFault;
use crate::names::read_name;
use crate::part::Part;
use crate::table::NameTable;
use lc_base::{Name, OutOfMemory};
use std::alloc::Global;

/// Reads names where they are declared, up to a limit of all, those before them counted too.
#[derive(Drop)]
pub struct NamesUpTo(pub u64);

impl Declares for NamesUpTo {
    ghost use Rattle.std.specs.Prelude.{ℕ, List, Some};
    ghost use Rattle.lc_base.specs.Name.{bytes_of};
    ghost use Rattle.lc_reading.specs.Listed.{declared_by};
    ghost use Rattle.lc_reading.specs.Naming.{name_reading};

    type Value = Name;

    ghost Meaning = { List ℕ };

    ghost meaning = { bytes_of };

    ghost reading = { λ reader. name_reading (Some reader.0) };

    ghost declares = { declared_by };

    fn read(&self, _: Global, before: &NameTable<'_>, part: Part<'_>) -> Result<Name, ReadFault> {
        read_name(Some(self.0), before, part)
    }

    fn enter<'a>(
        &self,
        names: NameTable<'a>,
        part: Part<'a>,
    ) -> Result<NameTable<'a>, OutOfMemory> {
        names.enter_part(part)
    }
}
