//! Where one worker checks conditions.
ghost use Rattle.std.specs.Prelude.{◌≡◌, ◌≤◌, IfOk, IfSome, IsTrue};
ghost use Rattle.lc_base.specs.Limits.{file_limit};
ghost use Rattle.lc_kernel.specs.Proofs.{size};
ghost use Rattle.lc_kernel.specs.View.{proof_of};
ghost use Rattle.lc_cert.specs.ColumnNames.{names_with};
ghost use Rattle.lc_outline.specs.ColumnNames.{column_names};
ghost use Rattle.lc_cert.specs.EntryView.{entry_of};
ghost use Rattle.lc_cert.specs.OneByOne.{names_known, IsReadAlone};
ghost use Rattle.lc_cond.specs.Numbering.{IsNumbering};
ghost use Rattle.lc_pool.specs.Desks.{development_in, cuts_in, items_in, IsKnownIn, IsPieceIn, IsLaid};

use crate::laid::{Laid, derives, lay_out, nothing_laid};
use crate::work::{Checker, Work};
use lc_base::OutOfMemory;
use lc_cert::{Entry, EntryReader};
use lc_cond::Numbering;
use lc_outline::Development;
use std::alloc::Global;
use std::marker::{Model, PhantomData};

/// What all workers look at: a development, the parts of its conditions, a certificate file, and where that is cut.
#[derive(Clone, Copy)]
pub(crate) struct Files<'a> {
    pub development: &'a Development,
    pub numbering: &'a Numbering,
    pub file: &'a [u8],
    pub places: &'a [usize],
    pub items: &'a [u64],
}

/// The text of one entry, and the items at which it begins and ends.
#[derive(Clone, Copy)]
struct Piece<'a> {
    text: &'a [u8],
    item: u64,
    behind: u64,
}

/// The piece of this number, if there is one.
fn piece_of<'a>(files: &Files<'a>, number: u64) -> Option<Piece<'a>>
    ensures { IfSome result (IsPieceIn files.now number) }
{
    let place = number as usize;
    let next = place.checked_add(1)?;
    if next >= files.places.len() || next >= files.items.len() {
        return None;
    }
    let (from, to) = (files.places[place], files.places[next]);
    if from > to || to > files.file.len() {
        return None;
    }
    Some(Piece {
        text: &files.file[from..to],
        item: files.items[place],
        behind: files.items[next],
    })
}

/// The entry of this number, if its piece is one and the next piece is the item after it.
fn entry_at(
    alloc: Global,
    files: &Files<'_>,
    reader: &EntryReader<'_>,
    number: u64,
) -> Result<Option<Entry>, OutOfMemory>
    requires { names_known reader.now ≡ names_with (column_names (development_in files.now)) }
    ensures alone { let f = files.now in
        IfOk result (λ entry. IfSome entry (λ e. IsReadAlone (names_with (column_names (development_in f))) f.file.now (cuts_in f) (items_in f) number (entry_of e))) }
    ensures few { IfOk result (λ entry. IfSome entry (λ e. size (proof_of e.proof) ≤ file_limit)) }
{
    let Some(piece) = piece_of(files, number) else {
        return Ok(None);
    };
    let Some(single) = reader.read(alloc, piece.text, number, piece.item)? else {
        return Ok(None);
    };
    let Some(behind) = piece.item.checked_add(single.items) else {
        return Ok(None);
    };
    if behind != piece.behind {
        return Ok(None);
    }
    Ok(Some(single.entry))
}

/// Whether it is found that the entry of this number derives the condition of this number.
fn is_known(
    alloc: Global,
    files: &Files<'_>,
    reader: &EntryReader<'_>,
    laid: &mut Laid,
    number: u64,
) -> Result<bool, OutOfMemory>
    requires numbering { IsNumbering (development_in files.now) files.now.numbering.now }
    requires reader { names_known reader.now ≡ names_with (column_names (development_in files.now)) }
    requires laid { IsLaid (development_in files.now) laid.old }
    ensures known { IfOk result (λ good. IsTrue good → IsKnownIn files.now number) }
    ensures laid { IsLaid (development_in files.now) laid.new }
{
    let Some(entry) = entry_at(alloc, files, reader, number)? else {
        return Ok(false);
    };
    lay_out(alloc, files.development, files.numbering, laid, number)?;
    derives(alloc, files.development, laid, number, &entry.proof)
}

/// Where one worker checks conditions: those of one part, in a table of its own.
pub(crate) struct Desk<'a, W: Work> {
    files: Files<'a>,
    reader: EntryReader<'a>,
    laid: Laid,
    of: PhantomData<W>,
}

impl<W: Work> Drop for Desk<'_, W> {
    fn drop(self) {
        let Desk {
            files: _,
            reader: _,
            laid: _,
            of: _,
        } = self;
    }
}

impl<'a, W: Work> Model for Desk<'a, W> {
    ghost use Rattle.std.specs.Prelude.{ℕ, List};

    ghost Value = { List ℕ };

    ghost use Rattle.lc_pool.specs.Desks.{IsDesk};

    ghost view = { λ d. d.files.file.now };

    ghost invariant = { λ d. IsDesk W.holds d.files d.reader d.laid };
}

impl<'a, W: Work> Desk<'a, W> {
    ghost use Rattle.std.specs.Prelude.{ℕ};
    ghost use Rattle.lc_cond.specs.Numbering.{IsNumbering};
    ghost use Rattle.lc_pool.specs.Desks.{development_in, IsKnownIn};

    /// A desk at which nothing lies.
    pub(crate) fn new(alloc: Global, files: Files<'a>) -> Result<Desk<'a, W>, OutOfMemory>
        requires numbering { IsNumbering (development_in files) files.numbering.now }
        requires known { (k : ℕ) → IsKnownIn files k → W.holds k }
    {
        let reader = EntryReader::new(alloc, files.development.parts())?;
        let laid = nothing_laid(alloc);
        Ok(Desk {
            files,
            reader,
            laid,
            of: PhantomData,
        })
    }
}

impl<W: Work> Checker<W> for Desk<'_, W> {
    fn check(&mut self, alloc: Global, number: u64) -> Result<bool, OutOfMemory> {
        is_known(alloc, &self.files, &self.reader, &mut self.laid, number)
    }
}
