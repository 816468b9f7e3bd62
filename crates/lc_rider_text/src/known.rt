//! What the reader of riders knows of the rest of the file.
use crate::columns::Columns;
use lc_object_text::{first_text, within_first};
use lc_reading::{NameTable, Part};
use lc_sexp::{Cursor, Item};

/// How an operation goes, by its text: by `count` branches; or by choices.
pub struct Ways<'a> {
    /// How many branches or choices it has.
    pub count: u64,
    /// The names of its choices, if it has choices.
    pub choices: NameTable<'a>,
    /// How many parameters each of these has.
    pub parameters: Vec<u64>,
}

impl Drop for Ways<'_> {
    fn drop(self) {
        let Ways {
            count: _,
            choices: _,
            parameters: _,
        } = self;
    }
}

impl Ways<'_> {
    ghost use Rattle.std.specs.Prelude.{◌≡◌};
    ghost use Rattle.lc_rider_text.specs.Known as K;
    ghost use Rattle.lc_rider_text.specs.KnownView.{ways_view};

    /// Whether it goes by choices, and not by branches.
    pub(crate) fn has_choices(&self) -> bool
        ensures { result ≡ K.has_choices (ways_view self.now) }
    {
        self.choices.len() > 0
    }
}

/// The names that a development file declares, as the riders beside the code see them.
#[derive(Clone, Copy)]
pub struct Known<'a, 'b> {
    pub columns: Columns<'a, 'b>,
    pub operations: &'b NameTable<'a>,
    /// How each operation goes.
    pub ways: &'b [Ways<'a>],
    pub actions: &'b NameTable<'a>,
    /// How many parameters each action has.
    pub parameters: &'b [u64],
}

impl<'a, 'b> Known<'a, 'b> {
    ghost use Rattle.std.specs.Prelude.{◌≡◌};
    ghost use Rattle.lc_reading.specs.Parts.{tree_of};
    ghost use Rattle.lc_rider_text.specs.KnownView.{known_view, ways_there};
    ghost use Rattle.lc_rider_text.specs.Riders.{ways_named};

    /// The same, if the column of the first of these updates is asked for next, as in most lists all are of one column.
    pub(crate) fn expecting(self, updates: Cursor<'_>) -> Known<'a, 'b>
        ensures { known_view result ≡ known_view self.entry }
    {
        let mut known = self;
        known.columns = self.columns.expecting(first_text(&within_first(updates)));
        known
    }

    /// How the operation goes that an item names, if it names one.
    pub(crate) fn ways_named(self, part: Part<'_>) -> Option<&'b Ways<'a>>
        ensures { ways_there result ≡ ways_named (known_view self.entry) (tree_of part.entry) }
    {
        let atom = match part.item() {
            Item::Atom(atom) => atom,
            Item::List(_) => return None,
        };
        let place = self.operations.place(atom.text())?;
        self.ways.get(place)
    }
}
