//! Single entries of a certificate, each read from a text of its own.
ghost use Rattle.std.specs.Prelude.{◌≡◌, IfOk};
ghost use Rattle.lc_base.specs.Limits.{file_limit};
ghost use Rattle.lc_reading.specs.Parts.{tree_of, place_of};
ghost use Rattle.lc_reading.specs.TableView.{listed};
ghost use Rattle.lc_cert.specs.ColumnNames.{names_with};
ghost use Rattle.lc_cert.specs.OneByOne.{number_before, IsGiven};
ghost use Rattle.lc_cert.specs.Readings.{entry_reading};

use crate::entry::Entry;
use crate::naming::table_of;
use crate::reading::read_entry;
use lc_base::OutOfMemory;
use lc_outline::{Parts, column_names};
use lc_reading::{NameTable, Part, ReadFault, next_part};
use lc_sexp::{Sexp, read_piece};
use std::alloc::Global;

/// An entry that was read alone, and how many items its text has.
#[derive(Drop)]
pub struct Single {
    pub entry: Entry,
    pub items: u64,
}

/// Reads entries of certificates of a development, each from its text alone.
pub struct EntryReader<'a> {
    columns: NameTable<'a>,
}

impl Drop for EntryReader<'_> {
    fn drop(self) {
        let EntryReader { columns: _ } = self;
    }
}

/// The number before this one, if there is one.
#[tactic(auto, using(crate::proofs::Alone::before_is))]
fn number_before(number: u64) -> Option<u64>
    ensures { result ≡ number_before number }
{
    if number == 0 {
        return None;
    }
    Some(number - 1)
}

/// The entry that a part is, if it is one.
#[tactic(auto, using(crate::proofs::Alone::not_given))]
fn read_part(
    alloc: Global,
    columns: &NameTable<'_>,
    last: Option<u64>,
    part: Part<'_>,
) -> Result<Option<Entry>, OutOfMemory>
    ensures { IfOk result (IsGiven (entry_reading (names_with (listed columns.now)) last (place_of part.entry) (tree_of part.entry))) }
{
    match read_entry(alloc, columns, last, part) {
        Ok(entry) => Ok(Some(entry)),
        Err(ReadFault::Flawed(_)) => Ok(None),
        Err(ReadFault::OutOfMemory) => Err(OutOfMemory),
    }
}

/// The entry that a piece is as this item, if it is one.
fn read_item(
    alloc: Global,
    columns: &NameTable<'_>,
    last: Option<u64>,
    piece: &Sexp,
    item: u64,
) -> Result<Option<Entry>, OutOfMemory>
    ensures { IfOk result (IsGiven (entry_reading (names_with (listed columns.now)) last item piece.now)) }
{
    let mut rest = piece.cursor_from(item)?;
    let Ok(part) = next_part(&mut rest) else {
        unreachable!()
    };
    read_part(alloc, columns, last, part)
}

impl<'a> EntryReader<'a> {
    ghost use Rattle.std.specs.Prelude.{◌≡◌, ◌≤◌, IfOk, IfSome};
    ghost use Rattle.lc_kernel.specs.Proofs.{size};
    ghost use Rattle.lc_kernel.specs.View.{proof_of};
    ghost use Rattle.lc_outline.specs.PartsView.{parts_view};
    ghost use Rattle.lc_outline.specs.ColumnNames.{column_names};
    ghost use Rattle.lc_cert.specs.ColumnNames.{names_with};
    ghost use Rattle.lc_cert.specs.OneByOne.{names_known, IsSingleRead};

    /// A reader of entries of certificates of this development.
    pub fn new(alloc: Global, development: &'a Parts) -> Result<EntryReader<'a>, OutOfMemory>
        ensures { IfOk result (λ reader. names_known reader ≡ names_with (column_names (parts_view development.now))) }
    {
        let names = column_names(alloc, development)?;
        let columns = table_of(alloc, &names)?;
        Ok(EntryReader { columns })
    }

    /// The entry of this number that the text is, read as this item of a file and after the number before. `None` if the
    /// text is no piece of a file, or its tree no such entry.
    pub fn read(
        &self,
        alloc: Global,
        text: &[u8],
        number: u64,
        item: u64,
    ) -> Result<Option<Single>, OutOfMemory>
        ensures exactly { IfOk result (IsSingleRead (names_known self.now) text.now number item) }
        ensures few { IfOk result (λ single. IfSome single (λ s. size (proof_of s.entry.proof) ≤ file_limit)) }
    {
        let Some(piece) = read_piece(alloc, text)? else {
            return Ok(None);
        };
        let last = number_before(number);
        let Some(entry) = read_item(alloc, &self.columns, last, &piece, item)? else {
            return Ok(None);
        };
        if entry.number != number {
            return Ok(None);
        }
        let items = piece.item_count() as u64;
        Ok(Some(Single { entry, items }))
    }
}
