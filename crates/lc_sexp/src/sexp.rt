//! The type of s-expressions, and the texts that may be atoms.
ghost use Rattle.std.specs.Prelude.{◌≡◌, ◌+◌, ◌++◌, IfOk, OnOk};
ghost use Rattle.lc_sexp.specs.Text.{are_letters};
ghost use Rattle.lc_sexp.specs.Printed.{is_atom};
ghost use Rattle.lc_sexp.specs.Trees.{row, item_count_of_all};
ghost use Rattle.lc_sexp.specs.Entries.{entries_of_all};
ghost use Rattle.lc_sexp.specs.Built.{entries_in};

use crate::builder::{Builder, short};
use crate::class::is_letter;
use crate::cursor::Cursor;
use crate::node::Node;
use lc_base::OutOfMemory;
use std::alloc::Global;
use std::marker::Model;

/// An s-expression: an atom, or a list of s-expressions. A clause sees its tree.
///
/// It lies flat: a node for each item, in preorder, and the letters of all atoms. It has fewer than 2^32 of
/// each; `OutOfMemory` is returned if more were to lie in one.
#[derive(Drop)]
pub struct Sexp {
    nodes: Vec<Node>,
    text: Vec<u8>,
}

impl Model for Sexp {
    ghost use Rattle.lc_sexp.specs.Trees.{Tree};
    ghost use Rattle.lc_sexp.specs.TreeCode.{tree_code, head_tree};

    ghost Value = { Tree };

    ghost coded = { tree_code };

    ghost use Rattle.lc_sexp.specs.Flat.{trees_of, IsOne};

    ghost view = { λ s. head_tree (trees_of s.text.items s.nodes.items) };

    ghost invariant = { λ s. IsOne s.text.items s.nodes.items };
}

impl Sexp {
    ghost use Rattle.std.specs.Prelude.{◌≡◌, ◌+◌, ◌++◌, true, IfOk, OnOk};
    ghost use Rattle.lc_sexp.specs.Trees.{atom, list, none, ◌▸◌, row, item_count};
    ghost use Rattle.lc_sexp.specs.TreeCode.{head_tree};
    ghost use Rattle.lc_sexp.specs.Entries.{entries_of};
    ghost use Rattle.lc_sexp.specs.Flat.{trees_of, IsOne};
    ghost use Rattle.lc_sexp.specs.Printed.{is_atom};
    ghost use Rattle.lc_sexp.specs.Text.{are_letters};
    ghost use Rattle.lc_sexp.specs.Shown.{rest_of, number_of, owner_of};
    ghost use Rattle.lc_sexp.specs.Built.{entries_in};

    /// The s-expression of these nodes, whose letters lie in the text.
    pub(crate) fn new(nodes: Vec<Node>, text: Vec<u8>) -> Sexp
        requires { IsOne text.items nodes.items }
        ensures { result ≡ head_tree (trees_of text.items nodes.items) }
    {
        Sexp { nodes, text }
    }

    /// The atom of this text.
    pub fn atom(alloc: Global, text: &str) -> Result<Sexp, OutOfMemory>
        requires { is_atom text.now ≡ true }
        ensures { IfOk result (λ sexp. sexp ≡ atom text.now) }
    {
        Sexp::of_letters(alloc, text.as_bytes())
    }

    /// The atom of these letters.
    pub(crate) fn of_letters(alloc: Global, letters: &[u8]) -> Result<Sexp, OutOfMemory>
        requires { are_letters letters.now ≡ true }
        ensures { IfOk result (λ sexp. sexp ≡ atom letters.now) }
    {
        let mut built = Builder::with_room(alloc, 1, letters.len())?;
        built.push_atom(letters)?;
        Ok(built.into_sexp())
    }

    /// The list of these s-expressions.
    pub fn list(alloc: Global, items: &[Sexp]) -> Result<Sexp, OutOfMemory>
        ensures { IfOk result (λ sexp. sexp ≡ list (row items.now)) }
    {
        let mut built = Builder::new(alloc);
        built.push_list(count_of_all(items)?)?;
        put_all(&mut built, items)?;
        Ok(built.into_sexp())
    }

    /// How many items it has in preorder: its atoms and lists, with itself.
    pub fn item_count(&self) -> usize
        ensures { result ≡ item_count self.now }
    {
        self.nodes.len()
    }

    /// A cursor at it, with nothing after it.
    pub fn cursor(&self) -> Cursor<'_>
        ensures rest { rest_of result ≡ self.now ▸ none }
        ensures number { number_of result ≡ 0 }
        ensures owner { owner_of result ≡ item_count self.now }
    {
        let count = self.nodes.len();
        Cursor::new(&self.nodes, &self.text, count as u64)
    }

    /// The same, with its items numbered from `number` on, as in the file that it is a part of. `OutOfMemory` is
    /// returned if their numbers have more than 64 bits, as in no file.
    pub fn cursor_from(&self, number: u64) -> Result<Cursor<'_>, OutOfMemory>
        ensures rest { IfOk result (λ cursor. rest_of cursor ≡ self.now ▸ none) }
        ensures number { IfOk result (λ cursor. number_of cursor ≡ number) }
        ensures owner { IfOk result (λ cursor. owner_of cursor ≡ number + item_count self.now) }
    {
        let count = self.nodes.len();
        let Some(behind) = number.checked_add(count as u64) else {
            return Err(OutOfMemory);
        };
        Ok(Cursor::numbered(&self.nodes, &self.text, number, behind))
    }

    /// Appends a copy of its items to others.
    pub(crate) fn put(&self, built: &mut Builder) -> Result<(), OutOfMemory>
        ensures { OnOk result (entries_in built.new ≡ entries_in built.old ++ entries_of self.now) }
    {
        built.push_row(&self.nodes, &self.text)
    }
}

/// How many items these s-expressions have together.
pub(crate) fn count_of_all(sexps: &[Sexp]) -> Result<u32, OutOfMemory>
    ensures { IfOk result (λ count. count ≡ item_count_of_all (row sexps.now)) }
{
    let mut count = 0u32;
    for sexp in sexps {
        let Some(more) = count.checked_add(short(sexp.item_count())?) else {
            return Err(OutOfMemory);
        };
        count = more;
    }
    Ok(count)
}

/// Appends copies of all items of these s-expressions to others.
pub(crate) fn put_all(built: &mut Builder, sexps: &[Sexp]) -> Result<(), OutOfMemory>
    ensures { OnOk result (entries_in built.new ≡ entries_in built.old ++ entries_of_all (row sexps.now)) }
{
    for sexp in sexps {
        sexp.put(built)?;
    }
    Ok(())
}

fn are_letters(bytes: &[u8]) -> bool
    ensures { result ≡ are_letters bytes.now }
{
    bytes.iter().all(|byte| is_letter(*byte))
}

/// Whether a text is an atom: one letter or more, and nothing else. Letters here are ASCII letters, digits
/// and `+ - * / < > = _ . ?`.
pub fn is_atom(text: &[u8]) -> bool
    ensures { result ≡ is_atom text.now }
{
    match text.split_first() {
        None => false,
        Some((first, others)) => is_letter(*first) && are_letters(others),
    }
}
