//! The operations that a plan may call, found by their names.
ghost use Rattle.std.specs.Prelude.{◌≡◌, IfOk};
ghost use Rattle.lc_reading.specs.TableView.{listed};
ghost use Rattle.lc_seq.specs.SpecView.{operations_of};
ghost use Rattle.lc_plan.specs.Readings.{names_of};

use lc_base::{OpId, OutOfMemory};
use lc_reading::{NameTable, Part, ReadFault, read_use};
use lc_seq::Operation;
use lc_sexp::Item;
use std::alloc::Global;

/// The operations that a plan may call, found by their names.
pub(crate) struct Operations<'a> {
    names: NameTable<'a>,
    pub(crate) all: &'a [Operation],
    ghost named: { listed names ≡ names_of (operations_of all.now) },
}

impl Drop for Operations<'_> {
    fn drop(self) {
        let Operations { names: _, all: _ } = self;
    }
}

/// The names of operations, in their order.
fn names_of<'a>(alloc: Global, all: &'a [Operation]) -> Result<NameTable<'a>, OutOfMemory>
    ensures { IfOk result (λ names. listed names ≡ names_of (operations_of all.now)) }
{
    let mut names = NameTable::new(alloc);
    for operation in all {
        names = names.enter(operation.name.as_str())?;
    }
    Ok(names)
}

impl<'a> Operations<'a> {
    ghost use Rattle.std.specs.Prelude.{◌≡◌, IfOk};
    ghost use Rattle.lc_seq.specs.SpecView.{operations_of};
    ghost use Rattle.lc_reading.specs.Naming.{use_reading};
    ghost use Rattle.lc_reading.specs.Parts.{tree_of, place_of};
    ghost use Rattle.lc_reading.specs.Results.{IsReading};
    ghost use Rattle.lc_plan.specs.Readings.{arity_named, names_of};
    ghost use Rattle.lc_plan.specs.View.{all_in};

    /// These operations, by their names.
    pub(crate) fn new(alloc: Global, all: &'a [Operation]) -> Result<Operations<'a>, OutOfMemory>
        ensures { IfOk result (λ operations. all_in operations ≡ operations_of all.now) }
    {
        let names = names_of(alloc, all)?;
        Ok(Operations { names, all })
    }

    /// The operation that an item names.
    pub(crate) fn read(&self, part: Part<'_>) -> Result<OpId, ReadFault>
        ensures { IsReading (λ op. op.0) (use_reading (names_of (all_in self.now)) (place_of part.entry) (tree_of part.entry)) result }
    {
        let place = read_use(&self.names, part)?;
        match u32::try_from(place) {
            Ok(place) => Ok(OpId(place)),
            Err(_) => Err(ReadFault::OutOfMemory),
        }
    }

    /// How many numbers the operation takes that an item names, if it names one.
    pub(crate) fn arity_named(&self, part: Part<'_>) -> Option<u64>
        ensures { result ≡ arity_named (all_in self.now) (tree_of part.entry) }
    {
        let atom = match part.item() {
            Item::Atom(atom) => atom,
            Item::List(_) => return None,
        };
        let place = self.names.place(atom.text())?;
        let operation = self.all.get(place)?;
        Some(operation.arguments.len() as u64)
    }
}
