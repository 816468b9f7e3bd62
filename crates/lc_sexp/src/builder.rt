//! Trees that lie flat, put together from atoms, lists and copies of other items.
ghost use Rattle.std.specs.Prelude.{◌≡◌, ◌++◌, ◌∷◌, [], length, true, vec_len, OnOk, IfOk};
ghost use Rattle.std.specs.List.{list_all};
ghost use Rattle.lc_sexp.specs.Text.{are_letters};
ghost use Rattle.lc_sexp.specs.Flat.{entry_of, entries, is_within, IsFlat};

use crate::cursor::letters_at;
use crate::forms::Forms;
use crate::node::Node;
use crate::sexp::Sexp;
use lc_base::OutOfMemory;
use std::alloc::Global;

/// Items in preorder that are appended one after another, with letters of their own.
#[derive(Drop)]
pub(crate) struct Builder {
    pub(crate) nodes: Vec<Node>,
    pub(crate) text: Vec<u8>,
    ghost within: { list_all (is_within (vec_len text)) nodes.items ≡ true },
    ghost letters: { are_letters text.items ≡ true },
}

impl Builder {
    ghost use Rattle.lc_sexp.specs.Trees.{Tree, Trees};
    ghost use Rattle.lc_sexp.specs.Entries.{leaf, branch, entries_of, entries_of_all};
    ghost use Rattle.lc_sexp.specs.Built.{entries_in};

    pub(crate) fn new(alloc: Global) -> Builder
        ensures { entries_in result ≡ [] }
    {
        Builder {
            nodes: Vec::new(alloc),
            text: Vec::new(alloc),
        }
    }

    /// The same, with room for `items` items and `letters` letters.
    pub(crate) fn with_room(
        alloc: Global,
        items: usize,
        letters: usize,
    ) -> Result<Builder, OutOfMemory>
        ensures { IfOk result (λ built. entries_in built ≡ []) }
    {
        Ok(Builder {
            nodes: Vec::with_capacity(alloc, items)?,
            text: Vec::with_capacity(alloc, letters)?,
        })
    }

    /// Appends an atom with these letters.
    pub(crate) fn push_atom(&mut self, letters: &[u8]) -> Result<(), OutOfMemory>
        requires { are_letters letters.now ≡ true }
        ensures { OnOk result (entries_in self.new ≡ entries_in self.old ++ (leaf letters.now ∷ [])) }
    {
        let start = short(self.text.len())?;
        let length = short(letters.len())?;
        self.text.extend_from_slice(letters)?;
        self.nodes.push(Node::Atom { start, length })?;
        Ok(())
    }

    /// Appends a list of `inside` items, which are to follow.
    pub(crate) fn push_list(&mut self, inside: u32) -> Result<(), OutOfMemory>
        ensures { OnOk result (entries_in self.new ≡ entries_in self.old ++ (branch inside ∷ [])) }
    {
        self.nodes.push(Node::List { inside })?;
        Ok(())
    }

    /// Appends a copy of an item, whose letters lie in this text.
    pub(crate) fn push_copy(&mut self, node: Node, text: &[u8]) -> Result<(), OutOfMemory>
        requires within { is_within (length text.now) node ≡ true }
        requires letters { are_letters text.now ≡ true }
        ensures { OnOk result (entries_in self.new ≡ entries_in self.old ++ (entry_of text.now node ∷ [])) }
    {
        match node {
            Node::Atom { start, length } => self.push_atom(letters_at(text, start, length)),
            Node::List { inside } => self.push_list(inside),
            Node::Open => {
                self.nodes.push(Node::Open)?;
                Ok(())
            }
        }
    }

    /// Appends copies of a row's items.
    pub(crate) fn push_row(&mut self, nodes: &[Node], text: &[u8]) -> Result<(), OutOfMemory>
        requires { IsFlat text.now nodes.now }
        ensures { OnOk result (entries_in self.new ≡ entries_in self.old ++ entries text.now nodes.now) }
    {
        for node in nodes {
            self.push_copy(*node, text)?;
        }
        Ok(())
    }

    /// The one tree that was put.
    #[tactic(auto, unfolding(crate::specs::Flat::trees_of))]
    pub(crate) fn into_sexp(self) -> Sexp
        requires { (t : Tree) × (entries_in self ≡ entries_of t) }
        ensures { (t : Tree) → entries_in self ≡ entries_of t → result ≡ t }
    {
        let Builder { nodes, text } = self;
        Sexp::new(nodes, text)
    }

    /// The trees that were put.
    #[tactic(auto, unfolding(crate::specs::Flat::trees_of))]
    pub(crate) fn into_forms(self) -> Forms
        requires { (ts : Trees) × (entries_in self ≡ entries_of_all ts) }
        ensures { (ts : Trees) → entries_in self ≡ entries_of_all ts → result ≡ ts }
    {
        let Builder { nodes, text } = self;
        Forms::new(nodes, text)
    }
}

/// A number of letters or items, if it is below 2^32, as it is in trees that lie flat.
pub(crate) fn short(number: usize) -> Result<u32, OutOfMemory>
    ensures { IfOk result (λ n. n ≡ number) }
{
    if number > u32::MAX as usize {
        return Err(OutOfMemory);
    }
    Ok(number as u32)
}
