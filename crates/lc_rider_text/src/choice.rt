//! How it is read by which choice a mark's branch is taken.
ghost use Rattle.std.specs.Prelude.{◌≡◌};
ghost use Rattle.lc_base.specs.Name.{bytes_of};
ghost use Rattle.lc_sexp.specs.Shown.{rest_of, number_of, owner_of};
ghost use Rattle.lc_reading.specs.Parts.{tree_of, place_of};
ghost use Rattle.lc_reading.specs.Results.{IsReading};
ghost use Rattle.lc_rider.specs.RiderView.{choosing_of};
ghost use Rattle.lc_rider_text.specs.Choices.{may_choose, may_go_in_order, in_order_reading, choice_use, terms_due, choice_reading, by_reading};
ghost use Rattle.lc_rider_text.specs.KnownView.{ways_view, ways_there};

use crate::known::Ways;
use crate::terms::read_arguments;
use lc_base::{Name, is_name};
use lc_reading::{Part, Pass, ReadFault, both, next_part, read_use, wrong};
use lc_rider::Choosing;
use lc_sexp::{Cursor, Item};
use lc_text::Scope;
use std::alloc::Global;

/// Whether an operation goes by choices, if it is known how it goes.
fn may_choose(ways: Option<&Ways<'_>>) -> bool
    ensures { result ≡ may_choose (ways_there ways.entry) }
{
    match ways {
        Some(ways) => ways.has_choices(),
        None => false,
    }
}

/// Whether it goes by branches, if it is known.
fn may_go_in_order(ways: Option<&Ways<'_>>) -> bool
    ensures { result ≡ may_go_in_order (ways_there ways.entry) }
{
    match ways {
        Some(ways) => !ways.has_choices(),
        None => false,
    }
}

/// How the branch is chosen for a mark that names no choice, by the rider of this number: such a mark is not allowed if the
/// operation goes by choices.
pub(crate) fn read_in_order(ways: Option<&Ways<'_>>, rider: u64) -> Result<Choosing, ReadFault>
    ensures { IsReading choosing_of (in_order_reading (ways_there ways.entry) rider) result }
{
    if may_choose(ways) {
        return Err(wrong(Pass::Shape, rider));
    }
    Ok(Choosing::First)
}

/// The name of a choice that the operation has.
fn read_known_choice(ways: &Ways<'_>, part: Part<'_>) -> Result<Name, ReadFault>
    ensures { IsReading bytes_of (choice_use (Some (ways_view ways.now)) (place_of part.entry) (tree_of part.entry)) result }
{
    read_use(&ways.choices, part)?;
    let atom = match part.item() {
        Item::Atom(atom) => atom,
        Item::List(list) => return Err(wrong(Pass::Shape, list.owner())),
    };
    match Name::new(atom.text()) {
        Some(name) => Ok(name),
        None => Err(wrong(Pass::Bound, atom.number())),
    }
}

/// The name of a choice, if it is not known which there are.
fn read_any_choice(part: Part<'_>) -> Result<Name, ReadFault>
    ensures { IsReading bytes_of (choice_use None (place_of part.entry) (tree_of part.entry)) result }
{
    let atom = match part.item() {
        Item::Atom(atom) => atom,
        Item::List(list) => return Err(wrong(Pass::Shape, list.owner())),
    };
    if !is_name(atom.text().as_bytes()) {
        return Err(wrong(Pass::Shape, atom.number()));
    }
    match Name::new(atom.text()) {
        Some(name) => Ok(name),
        None => Err(wrong(Pass::Bound, atom.number())),
    }
}

/// The name of a choice.
fn read_choice_name(ways: Option<&Ways<'_>>, part: Part<'_>) -> Result<Name, ReadFault>
    ensures { IsReading bytes_of (choice_use (ways_there ways.entry) (place_of part.entry) (tree_of part.entry)) result }
{
    match ways {
        Some(ways) => read_known_choice(ways, part),
        None => read_any_choice(part),
    }
}

/// With how many terms the choice is taken that an item names, if it names one.
fn terms_due(ways: Option<&Ways<'_>>, part: Part<'_>) -> Option<u64>
    ensures { result ≡ terms_due (ways_there ways.entry) (tree_of part.entry) }
{
    let ways = ways?;
    let atom = match part.item() {
        Item::Atom(atom) => atom,
        Item::List(_) => return None,
    };
    let place = ways.choices.place(atom.text())?;
    ways.parameters.get(place).copied()
}

/// `NAME T*`
fn read_choice<S: Scope>(
    alloc: Global,
    scope: &S,
    ways: Option<&Ways<'_>>,
    list: Cursor<'_>,
) -> Result<Choosing, ReadFault>
    ensures { IsReading choosing_of (choice_reading (S.names scope.now) (ways_there ways.entry) (owner_of list.entry) (number_of list.entry) (rest_of list.entry)) result }
{
    let mut rest = list;
    let choice = next_part(&mut rest)?;
    let due = terms_due(ways, choice);
    let name = read_choice_name(ways, choice);
    match both(name, read_arguments(alloc, scope, due, rest)) {
        Ok((name, terms)) => Ok(Choosing::Named { name, terms }),
        Err(fault) => Err(fault),
    }
}

/// How the branch is chosen for a mark that names a choice, `NAME T*`: such a mark is not allowed if the operation goes by branches.
pub(crate) fn read_by<S: Scope>(
    alloc: Global,
    scope: &S,
    ways: Option<&Ways<'_>>,
    list: Cursor<'_>,
) -> Result<Choosing, ReadFault>
    ensures { IsReading choosing_of (by_reading (S.names scope.now) (ways_there ways.entry) (owner_of list.entry) (number_of list.entry) (rest_of list.entry)) result }
{
    if may_go_in_order(ways) {
        return Err(wrong(Pass::Shape, list.owner()));
    }
    read_choice(alloc, scope, ways, list)
}
