//! How the parameters of an action are read.
ghost use Rattle.std.specs.Prelude.{◌≡◌, IfOk};
ghost use Rattle.lc_reading.specs.Parts.{tree_of, place_of};
ghost use Rattle.lc_reading.specs.Results.{IsReading};
ghost use Rattle.lc_reading.specs.TableView.{listed};
ghost use Rattle.lc_rider_text.specs.Actions.{parameters_reading, parameters_in};
ghost use Rattle.lc_rider_text.specs.Seen.{names_of};

use lc_base::{Name, OutOfMemory, PARAMETER_LIMIT};
use lc_reading::{NameTable, NamesUpTo, Part, Pass, ReadFault, read_declared, wrong};
use lc_sexp::Item;
use std::alloc::Global;

/// The names that an item declares as parameters, in a table and as what they are read into.
pub(crate) fn read_parameters<'a>(
    alloc: Global,
    part: Part<'a>,
) -> Result<(NameTable<'a>, Result<Vec<Name>, ReadFault>), OutOfMemory>
    ensures names { IfOk result (λ r. listed r.0 ≡ parameters_in (tree_of part.entry)) }
    ensures read { IfOk result (λ r. IsReading names_of (parameters_reading (place_of part.entry) (tree_of part.entry)) r.1) }
{
    let names = NameTable::new(alloc);
    match part.item() {
        Item::Atom(atom) => Ok((names, Err(wrong(Pass::Shape, atom.number())))),
        Item::List(list) => read_declared(alloc, &NamesUpTo(PARAMETER_LIMIT), names, list),
    }
}
