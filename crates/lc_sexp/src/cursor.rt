//! How the items of a text are walked: a cursor that gives each part with its number, or names the misfit.
ghost use Rattle.std.specs.Prelude.{◌+◌, ◌<◌, ◌^◌};
ghost use Rattle.lc_sexp.specs.Trees.{item_count_of_all};
ghost use Rattle.lc_sexp.specs.Flat.{trees_of, IsFlat};
ghost use Rattle.lc_sexp.specs.Text.{are_letters};
ghost use Rattle.std.specs.Prelude.{◌≡◌, ◌≤◌, true, take, drop, length as list_length};

use crate::builder::{Builder, short};
use crate::misfit::Misfit;
use crate::node::Node;
use crate::numerals::{read_integer, read_variable};
use crate::sexp::Sexp;
use lc_base::{OutOfMemory, is_name};
use std::alloc::Global;

/// Walks the s-expressions of a list, or the forms of a file, in order, and knows the item number of each:
/// items are the atoms and the lists of a file, in preorder from 0.
///
/// Each call that asks for a part goes on after it if it is there, and otherwise stays and names the misfit.
#[derive(Clone, Copy)]
pub struct Cursor<'a> {
    /// The items of the rest.
    nodes: &'a [Node],
    text: &'a [u8],
    /// The number of the first item of the rest, or of what comes after the last item.
    number: u64,
    /// The number at which a missing part is reported: of the list, or for a file how many items it has.
    owner: u64,
    ghost flat: { IsFlat text.now nodes.now },
    ghost in_range: { number + item_count_of_all (trees_of text.now nodes.now) < 2 ^ 64 },
}

/// An atom, with its item number.
#[derive(Clone, Copy)]
pub struct Atom<'a> {
    number: u64,
    text: &'a [u8],
    ghost letters: { are_letters text.now ≡ true },
}

/// An item: an atom, or a list with a cursor at its beginning.
#[derive(Clone, Copy)]
pub enum Item<'a> {
    Atom(Atom<'a>),
    List(Cursor<'a>),
}

impl<'a> Cursor<'a> {
    ghost use Rattle.std.specs.Prelude.{◌≡◌, ◌+◌, ◌<◌, ◌≤◌, ◌↔◌, ◌^◌, ◌==◌, IsOk, Ok, Err, IfErr};
    ghost use Rattle.lc_sexp.specs.Trees.{none, list, item_count_of_all};
    ghost use Rattle.std.specs.Prelude.{true, false, IfOk};
    ghost use Rattle.lc_sexp.specs.Flat.{trees_of, IsFlat};
    ghost use Rattle.lc_sexp.specs.declared.misfit.Misfit.TheVariants.{Shape};
    ghost use Rattle.lc_sexp.specs.Parts.{any_fit, atom_fit, name_fit, integer_fit, variable_fit, list_fit, form_fit, begins_form};
    ghost use Rattle.lc_sexp.specs.Shown.{rest_of, number_of, owner_of, part_count, ShowsItem, ShowsAtom, ShowsText, ShowsNumber, IsWithin, IsBehindWord, GivesPart, GivesEnd};

    /// A cursor at the first of these forms, which have `count` items.
    #[tactic(auto, unfolding(crate::specs::Shown::rest_of))]
    pub(crate) fn new(nodes: &'a [Node], text: &'a [u8], count: u64) -> Cursor<'a>
        requires flat { IsFlat text.now nodes.now }
        requires counted { item_count_of_all (trees_of text.now nodes.now) ≡ count }
        ensures rest { rest_of result ≡ trees_of text.now nodes.now }
        ensures number { number_of result ≡ 0 }
        ensures owner { owner_of result ≡ item_count_of_all (trees_of text.now nodes.now) }
    {
        Cursor {
            nodes,
            text,
            number: 0,
            owner: count,
        }
    }

    /// A cursor at the first of these items, whose number is `number`; what comes after them has the number `behind`.
    #[tactic(auto, unfolding(crate::specs::Shown::rest_of))]
    pub(crate) fn numbered(
        nodes: &'a [Node],
        text: &'a [u8],
        number: u64,
        behind: u64,
    ) -> Cursor<'a>
        requires flat { IsFlat text.now nodes.now }
        requires counted { number + item_count_of_all (trees_of text.now nodes.now) ≡ behind }
        ensures rest { rest_of result ≡ trees_of text.now nodes.now }
        ensures number { number_of result ≡ number }
        ensures owner { owner_of result ≡ number + item_count_of_all (trees_of text.now nodes.now) }
    {
        Cursor {
            nodes,
            text,
            number,
            owner: behind,
        }
    }

    /// A cursor with nothing left.
    #[tactic(auto, unfolding(crate::specs::Shown::rest_of, crate::specs::Flat::trees_of))]
    pub fn empty() -> Cursor<'a>
        ensures rest { rest_of result ≡ none }
        ensures number { number_of result ≡ 0 }
        ensures owner { owner_of result ≡ 0 }
    {
        Cursor {
            nodes: &[],
            text: &[],
            number: 0,
            owner: 0,
        }
    }

    /// The number of the next item, or of what comes after if none is left.
    pub fn number(&self) -> u64
        ensures { result ≡ number_of self.now }
    {
        self.number
    }

    /// The number at which a missing part is reported: of the list, or for a file how many items it has.
    pub fn owner(&self) -> u64
        ensures { result ≡ owner_of self.now }
    {
        self.owner
    }

    /// Goes on after the first item of the rest, if there is one.
    fn skip(&mut self) -> bool
        ensures behind { result ≡ false → rest_of self.old ≡ none }
        ensures skipped { result ≡ true → part_count (rest_of self.old) ≡ part_count (rest_of self.new) + 1 }
    {
        self.item().is_ok()
    }

    /// How many s-expressions are left. It goes over them all.
    pub fn len(&self) -> usize
        ensures { result ≡ part_count (rest_of self.now) }
    {
        let mut ahead = *self;
        let mut count = 0;
        while ahead.skip() {
            count += 1;
        }
        count
    }

    /// Whether none is left.
    pub fn is_empty(&self) -> bool
        ensures { result ≡ (part_count (rest_of self.now) == 0) }
    {
        self.nodes.is_empty()
    }

    /// Refuses what is left as a part too many, at the first one's number.
    #[tactic(auto, unfolding(crate::specs::Shown::rest_of, crate::specs::Flat::trees_of))]
    pub fn end(&self) -> Result<(), Misfit>
        ensures { GivesEnd self.now result }
    {
        match self.nodes.split_first() {
            None => Ok(()),
            Some(_) => Err(Misfit::Shape(self.number)),
        }
    }

    /// Refuses the list if fewer parts than these are left, at its own number.
    pub fn at_least(&self, parts: usize) -> Result<(), Misfit>
        ensures enough { IsOk result ↔ (parts ≤ part_count (rest_of self.now)) }
        ensures missing { IfErr result (λ misfit. misfit ≡ Shape (owner_of self.now)) }
    {
        if parts <= self.len() {
            Ok(())
        } else {
            Err(Misfit::Shape(self.owner))
        }
    }

    /// The next item, of any form.
    #[tactic(auto, unfolding(crate::specs::Shown::rest_of, crate::specs::Flat::trees_of))]
    pub fn item(&mut self) -> Result<Item<'a>, Misfit>
        ensures { GivesPart any_fit ShowsItem self.old result self.new }
    {
        let Some((first, others)) = self.nodes.split_first() else {
            return Err(Misfit::Shape(self.owner));
        };
        let number = self.number;
        match *first {
            Node::Atom { start, length } => {
                self.nodes = others;
                self.number = number + 1;
                let text = letters_at(self.text, start, length);
                Ok(Item::Atom(Atom { number, text }))
            }
            Node::List { inside } => {
                let (items, behind) = others.split_at(inside as usize);
                self.nodes = behind;
                self.number = number + 1 + u64::from(inside);
                Ok(Item::List(Cursor {
                    nodes: items,
                    text: self.text,
                    number: number + 1,
                    owner: number,
                }))
            }
            Node::Open => unreachable!(),
        }
    }

    /// The list of copies of what is left.
    fn to_list(&self, alloc: Global) -> Result<Sexp, OutOfMemory>
        ensures { IfOk result (λ sexp. sexp ≡ list (rest_of self.now)) }
    {
        let mut built = Builder::new(alloc);
        built.push_list(short(self.nodes.len())?)?;
        built.push_row(self.nodes, self.text)?;
        Ok(built.into_sexp())
    }

    /// The next item, which is an atom.
    pub fn atom(&mut self) -> Result<Atom<'a>, Misfit>
        ensures { GivesPart atom_fit ShowsAtom self.old result self.new }
    {
        let mut ahead = *self;
        match ahead.item()? {
            Item::Atom(atom) => {
                *self = ahead;
                Ok(atom)
            }
            Item::List(list) => Err(Misfit::Shape(list.owner)),
        }
    }

    /// The text of the next item, which is a NAME: a letter or `_`, then letters, digits, `_`, `-` and `.`, of
    /// any length.
    pub fn name(&mut self) -> Result<&'a str, Misfit>
        ensures { GivesPart name_fit ShowsText self.old result self.new }
    {
        let mut ahead = *self;
        let name = ahead.atom()?.name()?;
        *self = ahead;
        Ok(name)
    }

    /// The next item, which is a NUMBER: `0`, or digits that do not begin with 0, with `-` before these or not.
    /// `Bound` is returned for one that is not of 64 bits.
    pub fn integer(&mut self) -> Result<i64, Misfit>
        ensures { GivesPart integer_fit ShowsNumber self.old result self.new }
    {
        let mut ahead = *self;
        let integer = ahead.atom()?.integer()?;
        *self = ahead;
        Ok(integer)
    }

    /// The number k of the next item, which is a variable `?k`: k is `0` or digits that do not begin with 0.
    /// `Bound` is returned for one that is not of 32 bits.
    pub fn variable(&mut self) -> Result<u32, Misfit>
        ensures { GivesPart variable_fit ShowsNumber self.old result self.new }
    {
        let mut ahead = *self;
        let variable = ahead.atom()?.variable()?;
        *self = ahead;
        Ok(variable)
    }

    /// A cursor at the beginning of the next item, which is a list.
    pub fn list(&mut self) -> Result<Cursor<'a>, Misfit>
        ensures { GivesPart list_fit IsWithin self.old result self.new }
    {
        let mut ahead = *self;
        match ahead.item()? {
            Item::Atom(atom) => Err(Misfit::Shape(atom.number)),
            Item::List(list) => {
                *self = ahead;
                Ok(list)
            }
        }
    }

    /// A cursor after the first word of the next item, which is a list that begins with this word.
    pub fn form(&mut self, word: &str) -> Result<Cursor<'a>, Misfit>
        ensures { GivesPart (form_fit word.now) IsBehindWord self.old result self.new }
    {
        let mut ahead = *self;
        let mut list = ahead.list()?;
        let owner = list.owner;
        match list.atom() {
            Ok(atom) if atom.text() == word => {
                *self = ahead;
                Ok(list)
            }
            _ => Err(Misfit::Shape(owner)),
        }
    }

    /// Whether the next item is a list that begins with this word.
    pub fn is_at_form(&self, word: &str) -> bool
        ensures { result ≡ begins_form word.now (rest_of self.now) }
    {
        let mut ahead = *self;
        ahead.form(word).is_ok()
    }
}

impl<'a> Item<'a> {
    ghost use Rattle.std.specs.Prelude.{◌≡◌, IfOk};
    ghost use Rattle.lc_sexp.specs.Shown.{rest_of, item_tree, item_parts};

    /// A cursor at the beginning of the list that it is; of an atom, one with nothing left.
    pub fn parts(self) -> Cursor<'a>
        ensures { rest_of result ≡ item_parts self.entry }
    {
        let Item::List(list) = self else {
            return Cursor::empty();
        };
        list
    }

    /// A copy of it, with memory of its own.
    pub fn to_sexp(&self, alloc: Global) -> Result<Sexp, OutOfMemory>
        ensures { IfOk result (λ sexp. sexp ≡ item_tree self.now) }
    {
        match self {
            Item::Atom(atom) => Sexp::of_letters(alloc, atom.text),
            Item::List(list) => list.to_list(alloc),
        }
    }
}

impl<'a> Atom<'a> {
    ghost use Rattle.std.specs.Prelude.{◌≡◌};
    ghost use Rattle.lc_sexp.specs.Trees.{atom};
    ghost use Rattle.lc_sexp.specs.Parts.{name_fit, integer_fit, variable_fit};
    ghost use Rattle.lc_sexp.specs.Shown.{text_of, atom_number, Answers, IsText, Same};

    /// Its item number.
    pub fn number(&self) -> u64
        ensures { result ≡ atom_number self.now }
    {
        self.number
    }

    /// Its letters.
    pub(crate) fn letters(&self) -> &'a [u8]
        ensures { result.now ≡ text_of self.now }
    {
        self.text
    }

    /// Its text.
    pub fn text(&self) -> &'a str
        ensures { result.now ≡ text_of self.now }
    {
        as_text(self.text)
    }

    /// Its text, if it is a NAME.
    pub fn name(&self) -> Result<&'a str, Misfit>
        ensures { Answers (name_fit (atom (text_of self.now))) IsText (atom_number self.now) result }
    {
        if is_name(self.text) {
            Ok(as_text(self.text))
        } else {
            Err(Misfit::Shape(self.number))
        }
    }

    /// The NUMBER that it is. `Bound` is returned for one that is not of 64 bits.
    pub fn integer(&self) -> Result<i64, Misfit>
        ensures { Answers (integer_fit (atom (text_of self.now))) Same (atom_number self.now) result }
    {
        read_integer(self.text, self.number)
    }

    /// The number of the variable `?k` that it is. `Bound` is returned for one that is not of 32 bits.
    pub fn variable(&self) -> Result<u32, Misfit>
        ensures { Answers (variable_fit (atom (text_of self.now))) Same (atom_number self.now) result }
    {
        read_variable(self.text, self.number)
    }
}

/// The letters of an atom.
pub(crate) fn letters_at(text: &[u8], start: u32, length: u32) -> &[u8]
    requires { start + length ≤ list_length text.now }
    ensures { result.now ≡ take length (drop start text.now) }
{
    let start = start as usize;
    &text[start..start + length as usize]
}

/// Letters as text. They are ASCII, which is proved here and not tested.
fn as_text(letters: &[u8]) -> &str
    requires { are_letters letters.now ≡ true }
    ensures { result.now ≡ letters.now }
{
    unsafe { str::from_utf8_unchecked(letters) }
}
