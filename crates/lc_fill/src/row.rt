//! Rows of items that are being filled.
ghost use Rattle.std.specs.Prelude.{◌≡◌, true, IfOk};
ghost use Rattle.lc_sexp.specs.Printed.{is_atom};
ghost use Rattle.lc_sexp.specs.Shown.{rest_of};
ghost use Rattle.lc_sexp.specs.Trees.{atom, list, ◌▸◌};
ghost use Rattle.lc_reading.specs.Parts.{tree_of, place_of};
ghost use Rattle.lc_fill.specs.Filled.{as_is};
ghost use Rattle.lc_fill.specs.Forms.{bare, extended};
ghost use Rattle.lc_fill.specs.Seen.{tree_view};

use crate::gap::Gap;
use lc_base::OutOfMemory;
use lc_reading::{Part, behind_word, next_part};
use lc_sexp::{Cursor, Sexp};
use std::alloc::Global;

/// An item, with what was put into it.
#[derive(Drop)]
pub(crate) struct FilledTree {
    pub(crate) whole: Sexp,
    pub(crate) gaps: Vec<Gap>,
    pub(crate) lacking: Vec<u64>,
}

/// The first items of a row, and what was put between and into them.
#[derive(Drop)]
pub(crate) struct Row {
    pub(crate) items: Vec<Sexp>,
    pub(crate) gaps: Vec<Gap>,
    /// The places at which a call of the stand-in was put in.
    pub(crate) lacking: Vec<u64>,
}

/// An item as it is.
pub(crate) fn as_is(alloc: Global, part: Part<'_>) -> Result<FilledTree, OutOfMemory>
    ensures { IfOk result (λ f. tree_view f ≡ as_is (tree_of part.entry)) }
{
    Ok(FilledTree {
        whole: part.item().to_sexp(alloc)?,
        gaps: Vec::new(alloc),
        lacking: Vec::new(alloc),
    })
}

/// `(WORD)`
pub(crate) fn bare(alloc: Global, word: &str) -> Result<Sexp, OutOfMemory>
    requires { is_atom word.now ≡ true }
    ensures { IfOk result (λ form. form ≡ bare word.now) }
{
    let atom = Sexp::atom(alloc, word)?;
    let list = Sexp::list(alloc, &[atom])?;
    Ok(list)
}

/// The list of these items.
pub(crate) fn list_of(alloc: Global, items: Cursor<'_>) -> Result<Sexp, OutOfMemory>
    ensures { IfOk result (λ sexp. sexp ≡ list (rest_of items.entry)) }
{
    let mut row = Row::new(alloc);
    row.keep_all(alloc, items)?;
    let list = row.into_list(alloc)?;
    Ok(list.whole)
}

/// `(WORD ..)`, with these items after the word.
fn form_of(alloc: Global, word: &str, items: Cursor<'_>) -> Result<Sexp, OutOfMemory>
    requires { is_atom word.now ≡ true }
    ensures { IfOk result (λ sexp. sexp ≡ list (atom word.now ▸ rest_of items.entry)) }
{
    let mut row = Row::of_word(alloc, word)?;
    row.keep_all(alloc, items)?;
    let list = row.into_list(alloc)?;
    Ok(list.whole)
}

/// A list that begins with a word, with more at its end.
fn extended(
    alloc: Global,
    word: &str,
    more: Cursor<'_>,
    part: Part<'_>,
) -> Result<FilledTree, OutOfMemory>
    requires { is_atom word.now ≡ true }
    ensures { IfOk result (λ f. tree_view f ≡ extended word.now (rest_of more.entry) (place_of part.entry) (tree_of part.entry)) }
{
    let Ok(rest) = behind_word(part, word) else {
        let same = as_is(alloc, part)?;
        return Ok(same);
    };
    let mut row = Row::of_word(alloc, word)?;
    row.keep_and_put(alloc, rest, more)?;
    let list = row.into_list(alloc)?;
    Ok(list)
}

impl Row {
    ghost use Rattle.std.specs.Prelude.{◌≡◌, ◌+◌, ℕ, false, true, if◌then◌else◌, IfOk, OnOk};
    ghost use Rattle.lc_sexp.specs.Trees.{Trees, atom, list, none, item_count};
    ghost use Rattle.lc_sexp.specs.Printed.{is_atom};
    ghost use Rattle.lc_sexp.specs.Shown.{rest_of, number_of};
    ghost use Rattle.lc_reading.specs.Parts.{tree_of};
    ghost use Rattle.lc_fill.specs.Filled.{Filled, Filler, as_is, inside, kept, put, put_all, lacking_at, followed, past, ending};
    ghost use Rattle.lc_fill.specs.Forms.{section, while_forms};
    ghost use Rattle.lc_fill.specs.Seen.{onto, row_view, tree_view, after};

    /// No items.
    pub(crate) fn new(alloc: Global) -> Row
        ensures { (r : Filled Trees) → onto result r ≡ r }
    {
        Row {
            items: Vec::new(alloc),
            gaps: Vec::new(alloc),
            lacking: Vec::new(alloc),
        }
    }

    /// A word alone.
    pub(crate) fn of_word(alloc: Global, word: &str) -> Result<Row, OutOfMemory>
        requires { is_atom word.now ≡ true }
        ensures { IfOk result (λ row. (r : Filled Trees) → onto row r ≡ kept (atom word.now) r) }
    {
        let mut row = Row::new(alloc);
        let atom = Sexp::atom(alloc, word)?;
        row.items.push(atom)?;
        Ok(row)
    }

    /// Appends a copy of an item.
    pub(crate) fn keep(&mut self, alloc: Global, part: Part<'_>) -> Result<(), OutOfMemory>
        ensures { OnOk result ((r : Filled Trees) → onto self.new r ≡ onto self.old (kept (tree_of part.entry) r)) }
    {
        let copy = part.item().to_sexp(alloc)?;
        self.items.push(copy)?;
        Ok(())
    }

    /// Puts in an item, before the item of this number.
    pub(crate) fn put(&mut self, place: u64, item: Sexp) -> Result<(), OutOfMemory>
        ensures { OnOk result ((r : Filled Trees) → onto self.new r ≡ onto self.old (put place item r)) }
    {
        let size = item.item_count() as u64;
        self.gaps.push(Gap { place, size })?;
        self.items.push(item)?;
        Ok(())
    }

    /// Puts in an item with a call, which may be that of the stand-in.
    pub(crate) fn put_call(
        &mut self,
        place: u64,
        is_lacking: bool,
        item: Sexp,
    ) -> Result<(), OutOfMemory>
        ensures { OnOk result ((r : Filled Trees) → onto self.new r ≡ onto self.old (if is_lacking then lacking_at place (put place item r) else put place item r)) }
    {
        self.put(place, item)?;
        if !is_lacking {
            return Ok(());
        }
        self.lacking.push(place)?;
        Ok(())
    }

    /// Puts in copies of all items that are left in a list.
    pub(crate) fn put_all(
        &mut self,
        alloc: Global,
        place: u64,
        list: Cursor<'_>,
    ) -> Result<(), OutOfMemory>
        ensures { OnOk result ((r : Filled Trees) → onto self.new r ≡ onto self.old (put_all place (rest_of list.entry) r)) }
    {
        let mut rest = list;
        'items: loop {
            let Ok(part) = next_part(&mut rest) else {
                return Ok(());
            };
            let copy = part.item().to_sexp(alloc)?;
            self.put(place, copy)?;
        }
    }

    /// Appends copies of all items that are left in a list, and puts in those of another.
    fn keep_and_put(
        &mut self,
        alloc: Global,
        list: Cursor<'_>,
        more: Cursor<'_>,
    ) -> Result<(), OutOfMemory>
        ensures { OnOk result (row_view self.new ≡ onto self.old (ending (rest_of more.entry) (number_of list.entry) (rest_of list.entry))) }
    {
        let mut rest = list;
        'items: loop {
            let place = rest.number();
            let Ok(part) = next_part(&mut rest) else {
                self.put_all(alloc, place, more)?;
                return Ok(());
            };
            self.keep(alloc, part)?;
        }
    }

    /// Appends an item with what was put into it.
    pub(crate) fn push(&mut self, item: FilledTree) -> Result<(), OutOfMemory>
        ensures { OnOk result ((r : Filled Trees) → onto self.new r ≡ onto self.old (followed (tree_view item) r)) }
    {
        let FilledTree {
            whole,
            gaps,
            lacking,
        } = item;
        self.items.push(whole)?;
        self.gaps.extend_from_slice(&gaps)?;
        self.lacking.extend_from_slice(&lacking)?;
        Ok(())
    }

    /// Appends the items of another row.
    pub(crate) fn append(&mut self, other: Row) -> Result<(), OutOfMemory>
        ensures { OnOk result ((r : Filled Trees) → onto self.new r ≡ onto self.old (onto other r)) }
    {
        let Row {
            mut items,
            gaps,
            lacking,
        } = other;
        self.items.append(&mut items)?;
        self.gaps.extend_from_slice(&gaps)?;
        self.lacking.extend_from_slice(&lacking)?;
        Ok(())
    }

    /// Appends a copy of the next item of a list, if there is one.
    pub(crate) fn keep_next(
        &mut self,
        alloc: Global,
        rest: &mut Cursor<'_>,
    ) -> Result<bool, OutOfMemory>
        ensures { IfOk result (λ more. (next : Filler) →
            onto self.new (after more next (number_of rest.new) (rest_of rest.new)) ≡ onto self.old (past next (number_of rest.old) (rest_of rest.old))) }
    {
        let Ok(part) = next_part(rest) else {
            return Ok(false);
        };
        self.keep(alloc, part)?;
        Ok(true)
    }

    /// Appends copies of all items that are left in a list.
    pub(crate) fn keep_all(&mut self, alloc: Global, list: Cursor<'_>) -> Result<(), OutOfMemory>
        ensures { OnOk result (row_view self.new ≡ onto self.old (as_is (rest_of list.entry))) }
    {
        let mut rest = list;
        'items: loop {
            let Ok(part) = next_part(&mut rest) else {
                return Ok(());
            };
            self.keep(alloc, part)?;
        }
    }

    /// Appends copies of the lists at the beginning that begin with a word.
    pub(crate) fn keep_forms(
        &mut self,
        alloc: Global,
        word: &str,
        rest: &mut Cursor<'_>,
    ) -> Result<(), OutOfMemory>
        ensures { OnOk result ((next : Filler) →
            onto self.new (next (number_of rest.new) (rest_of rest.new)) ≡ onto self.old (while_forms word.now next (number_of rest.old) (rest_of rest.old))) }
    {
        'items: loop {
            if !rest.is_at_form(word) {
                return Ok(());
            }
            let Ok(part) = next_part(rest) else {
                return Ok(());
            };
            self.keep(alloc, part)?;
        }
    }

    /// Appends a copy of the next item with more at its end, if it is a list that begins with this word; else such a list is put
    /// in.
    pub(crate) fn keep_section(
        &mut self,
        alloc: Global,
        word: &str,
        more: Cursor<'_>,
        rest: &mut Cursor<'_>,
    ) -> Result<(), OutOfMemory>
        requires { is_atom word.now ≡ true }
        ensures { OnOk result ((next : Filler) →
            onto self.new (next (number_of rest.new) (rest_of rest.new)) ≡ onto self.old (section word.now (rest_of more.entry) next (number_of rest.old) (rest_of rest.old))) }
    {
        if !rest.is_at_form(word) {
            let form = form_of(alloc, word, more)?;
            self.put(rest.number(), form)?;
            return Ok(());
        }
        let Ok(part) = next_part(rest) else {
            return Ok(());
        };
        let filled = extended(alloc, word, more, part)?;
        self.push(filled)?;
        Ok(())
    }

    /// The list of the items.
    pub(crate) fn into_list(self, alloc: Global) -> Result<FilledTree, OutOfMemory>
        ensures { IfOk result (λ f. tree_view f ≡ inside list (row_view self)) }
    {
        let Row {
            items,
            gaps,
            lacking,
        } = self;
        let whole = Sexp::list(alloc, &items)?;
        Ok(FilledTree {
            whole,
            gaps,
            lacking,
        })
    }
}
