//! The parts of lists: the next one, the first word, and that none is left.
ghost use Rattle.std.specs.Prelude.{◌≡◌};
ghost use Rattle.lc_reading.specs.Parts.{IsNext, IsHeaded, IsOne, IsTwo, IsThree, IsBehindWord};

use crate::part::Part;
use lc_sexp::{Cursor, Item, Misfit};

impl<'a> Part<'a> {
    ghost use Rattle.std.specs.Prelude.{◌≡◌};
    ghost use Rattle.lc_reading.specs.Parts.{tree_of, place_of};
    ghost use Rattle.lc_reading.specs.Placed.{IsPlaced, item_number, tree_of_item};

    /// The item.
    pub fn item(self) -> Item<'a>
        ensures tree { tree_of_item result ≡ tree_of self.entry }
        ensures number { item_number result ≡ place_of self.entry }
        ensures placed { IsPlaced result }
    {
        self.item
    }

    /// Its number.
    pub fn number(self) -> u64
        ensures { result ≡ place_of self.entry }
    {
        match self.item {
            Item::Atom(atom) => atom.number(),
            Item::List(list) => list.owner(),
        }
    }
}

/// The next part of a list.
pub fn next_part<'a>(list: &mut Cursor<'a>) -> Result<Part<'a>, Misfit>
    ensures { IsNext list.old result list.new }
{
    let item = list.item()?;
    Ok(Part { item })
}

/// The first word of a list, and the rest after it.
pub fn headed<'a>(list: Cursor<'a>) -> Result<(&'a str, Cursor<'a>), Misfit>
    ensures { IsHeaded list.entry result }
{
    let mut parts = list;
    match parts.atom() {
        Ok(atom) => Ok((atom.text(), parts)),
        Err(_) => Err(Misfit::Shape(list.owner())),
    }
}

/// The first part of a list, and the rest after it.
pub fn one<'a>(mut list: Cursor<'a>) -> Result<(Part<'a>, Cursor<'a>), Misfit>
    ensures { IsOne list.entry result }
{
    let first = next_part(&mut list)?;
    Ok((first, list))
}

/// The first two parts of a list, and the rest after them.
pub fn two<'a>(mut list: Cursor<'a>) -> Result<(Part<'a>, Part<'a>, Cursor<'a>), Misfit>
    ensures { IsTwo list.entry result }
{
    let first = next_part(&mut list)?;
    let second = next_part(&mut list)?;
    Ok((first, second, list))
}

/// The first three parts of a list, and the rest after them.
pub fn three<'a>(mut list: Cursor<'a>) -> Result<(Part<'a>, Part<'a>, Part<'a>, Cursor<'a>), Misfit>
    ensures { IsThree list.entry result }
{
    let first = next_part(&mut list)?;
    let second = next_part(&mut list)?;
    let third = next_part(&mut list)?;
    Ok((first, second, third, list))
}

/// The rest of a part after a word; the part has to be a list that begins with this word.
pub fn behind_word<'a>(part: Part<'a>, word: &str) -> Result<Cursor<'a>, Misfit>
    ensures { IsBehindWord word.now part.entry result }
{
    let list = match part.item() {
        Item::Atom(atom) => return Err(Misfit::Shape(atom.number())),
        Item::List(list) => list,
    };
    let mut rest = list;
    match rest.atom() {
        Ok(head) if head.text() == word => Ok(rest),
        _ => Err(Misfit::Shape(list.owner())),
    }
}
