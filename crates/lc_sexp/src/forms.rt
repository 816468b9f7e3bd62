//! The type of rows of s-expressions, as the forms of a file.
use crate::builder::Builder;
use crate::cursor::Cursor;
use crate::machine::Machine;
use crate::node::Node;
use crate::sexp::{Sexp, put_all};
use lc_base::{Fault, OutOfMemory, Refusal};
use std::alloc::Global;
use std::marker::Model;

/// A row of s-expressions, as the forms of a file. A clause sees their trees.
///
/// They lie flat: a node for each item, in preorder, and the letters of all atoms.
#[derive(Drop)]
pub struct Forms {
    nodes: Vec<Node>,
    text: Vec<u8>,
}

impl Model for Forms {
    ghost use Rattle.lc_sexp.specs.Trees.{Trees};
    ghost use Rattle.lc_sexp.specs.TreeCode.{trees_code};

    ghost Value = { Trees };

    ghost coded = { trees_code };

    ghost use Rattle.lc_sexp.specs.Flat.{trees_of, IsFlat};

    ghost view = { λ f. trees_of f.text.items f.nodes.items };

    ghost invariant = { λ f. IsFlat f.text.items f.nodes.items };
}

impl Forms {
    ghost use Rattle.std.specs.Prelude.{◌≡◌, ◌≤◌, length, IfOk};
    ghost use Rattle.lc_sexp.specs.Answers.{IsAnswerTo};
    ghost use Rattle.lc_sexp.specs.Trees.{Tree, list, none, ◌▸◌, row, item_count_of_all};
    ghost use Rattle.lc_sexp.specs.Flat.{trees_of, IsFlat};
    ghost use Rattle.lc_sexp.specs.Shown.{rest_of, number_of, owner_of};

    /// The forms of these nodes, whose letters lie in the text.
    pub(crate) fn new(nodes: Vec<Node>, text: Vec<u8>) -> Forms
        requires { IsFlat text.items nodes.items }
        ensures { result ≡ trees_of text.items nodes.items }
    {
        Forms { nodes, text }
    }

    /// Reads a file of s-expressions.
    ///
    /// Returns the trees that it reads as. If it reads as none, returns `Refused(Text(offset))` with the offset of
    /// its first fault: a byte that may not be there, a `)` without a list, a `(` nested deeper than 1,000, the
    /// byte beyond the file limit, or the end, if a list is open. `OutOfMemory` says nothing about either.
    pub fn read(alloc: Global, bytes: &[u8]) -> Result<Forms, Fault>
        ensures answer { IsAnswerTo bytes.now result }
        ensures counted { IfOk result (λ forms. item_count_of_all forms ≤ length bytes.now) }
    {
        let mut machine = Machine::new(alloc);
        let whole = machine.push_all(bytes)?;
        if !whole {
            return Err(Fault::Refused(Refusal::Text(machine.offset())));
        }
        machine.finish()
    }

    /// The single item of the list that is alone here.
    pub(crate) fn into_part(self) -> Sexp
        requires { (t : Tree) × (self ≡ list (t ▸ none) ▸ none) }
        ensures { self ≡ list (result ▸ none) ▸ none }
    {
        let Forms { mut nodes, text } = self;
        let _ = nodes.remove(0);
        Sexp::new(nodes, text)
    }

    /// Copies of these s-expressions in one row.
    pub fn of(alloc: Global, sexps: &[Sexp]) -> Result<Forms, OutOfMemory>
        ensures { IfOk result (λ forms. forms ≡ row sexps.now) }
    {
        let mut built = Builder::new(alloc);
        put_all(&mut built, sexps)?;
        Ok(built.into_forms())
    }

    /// The s-expressions of the row, each with memory of its own.
    pub fn parts(&self, alloc: Global) -> Result<Vec<Sexp>, OutOfMemory>
        ensures { IfOk result (λ sexps. row sexps.items ≡ self.now) }
    {
        let mut parts = Vec::new(alloc);
        let mut rest = self.cursor();
        while let Ok(item) = rest.item() {
            parts.push(item.to_sexp(alloc)?)?;
        }
        Ok(parts)
    }

    /// A cursor at the first form.
    pub fn cursor(&self) -> Cursor<'_>
        ensures rest { rest_of result ≡ self.now }
        ensures number { number_of result ≡ 0 }
        ensures owner { owner_of result ≡ item_count_of_all self.now }
    {
        let count = self.nodes.len();
        Cursor::new(&self.nodes, &self.text, count as u64)
    }
}
