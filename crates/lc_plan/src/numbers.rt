//! How the numbers of a plan are read.
ghost use Rattle.std.specs.Prelude.{◌≡◌, ◌+◌};
ghost use Rattle.lc_reading.specs.Parts.{tree_of, place_of};
ghost use Rattle.lc_reading.specs.Results.{IsReading};
ghost use Rattle.lc_reading.specs.TableView.{listed};
ghost use Rattle.lc_plan.specs.Numbers.{between, bounded, count_reading, turns_reading, client_reading};
ghost use Rattle.lc_text.specs.Terms.{number_reading};

use crate::limits::MOST_TURNS;
use lc_base::SEAT_LIMIT;
use lc_reading::{NameTable, Part, Pass, ReadFault, wrong};
use lc_sexp::{Item, Misfit};
use lc_text::read_number;

/// This number, if it is from the first of these on and before the other one.
fn between(least: u32, end: u32, item: u64, number: i64) -> Result<u32, ReadFault>
    ensures { IsReading (λ k. k) (between least end item number) result }
{
    match u32::try_from(number) {
        Ok(number) if least <= number && number < end => Ok(number),
        _ => Err(wrong(Pass::Bound, item)),
    }
}

/// A NUMBER from the first of these on and before the other one.
fn read_between(least: u32, end: u32, part: Part<'_>) -> Result<u32, ReadFault>
    ensures { IsReading (λ k. k) (bounded least end (place_of part.entry) (number_reading (place_of part.entry) (tree_of part.entry))) result }
{
    let number = read_number(part)?;
    between(least, end, part.number(), number)
}

/// How many clients there are.
pub(crate) fn read_count(part: Part<'_>) -> Result<u32, ReadFault>
    ensures { IsReading (λ k. k) (count_reading (place_of part.entry) (tree_of part.entry)) result }
{
    read_between(1, SEAT_LIMIT + 1, part)
}

/// A number of turns, or of times.
pub(crate) fn read_turns(part: Part<'_>) -> Result<u32, ReadFault>
    ensures { IsReading (λ k. k) (turns_reading (place_of part.entry) (tree_of part.entry)) result }
{
    read_between(0, MOST_TURNS + 1, part)
}

/// One of `clients` clients, after those of these texts.
pub(crate) fn read_client(
    clients: u32,
    before: &NameTable<'_>,
    part: Part<'_>,
) -> Result<u32, ReadFault>
    ensures { IsReading (λ k. k) (client_reading clients (listed before.now) (place_of part.entry) (tree_of part.entry)) result }
{
    let atom = match part.item() {
        Item::Atom(atom) => atom,
        Item::List(list) => return Err(wrong(Pass::Shape, list.owner())),
    };
    match atom.integer() {
        Err(Misfit::Shape(item)) => Err(wrong(Pass::Shape, item)),
        _ if before.contains(atom.text()) => Err(wrong(Pass::Repeated, atom.number())),
        Err(Misfit::Bound(item)) => Err(wrong(Pass::Bound, item)),
        Ok(number) => between(0, clients, atom.number(), number),
    }
}
