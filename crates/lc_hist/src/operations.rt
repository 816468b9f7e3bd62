//! The operations of a specification, found by their names.
ghost use Rattle.std.specs.Prelude.{◌≡◌, ℕ, List, true, false, Some, None, OnOk, IfSome, MatchOption, if◌then◌else◌, bytes_eq};
ghost use Rattle.std.specs.List.{list_any};
ghost use Rattle.lc_base.specs.Name.{bytes_of};
ghost use Rattle.lc_seq.specs.Specification.{names, is_in_order};
ghost use Rattle.std.specs.Map.{lookup};
ghost use Rattle.std.specs.Option.{option_or};
ghost use Rattle.lc_seq.specs.SpecView.{operations_of, branches_of};
ghost use Rattle.lc_hist.specs.JsonValues.{place_of};

use crate::tokens::are_same;
use indexmap::IndexMap;
use lc_base::{Name, OpId, OutOfMemory};
use lc_seq::{Branch, Label, Operation};
use std::alloc::Global;
use std::str;

/// How many operations are looked through before their table is asked.
const EARLY: usize = 4;

/// The operations of a specification, which are found by their names.
pub(crate) struct Operations<'a> {
    all: &'a [Operation],
    /// For each name the place of its first occurrence.
    places: IndexMap<&'a str, usize>,
    ghost placed: { (name : List ℕ) → lookup (λ key. bytes_eq name key.now) places.entries ≡ place_of (operations_of all.now) name },
}

impl Drop for Operations<'_> {
    fn drop(self) {
        let Operations { all: _, places: _ } = self;
    }
}

/// Notes the place of a name, unless it has one already.
fn note_place<'a>(
    places: &mut IndexMap<&'a str, usize>,
    name: &'a str,
    place: usize,
) -> Result<(), OutOfMemory>
    ensures { OnOk result ((w : List ℕ) →
        lookup (λ key. bytes_eq w key.now) places.new.entries ≡ option_or (lookup (λ key. bytes_eq w key.now) places.old.entries) (if bytes_eq w name.now then Some place else None)) }
{
    if !places.contains_key(name) {
        places.insert(name, place)?;
    }
    Ok(())
}

/// Whether this is the name of an operation.
fn is_named(operation: &Operation, name: &[u8]) -> bool
    ensures { result ≡ bytes_eq name.now (bytes_of operation.now.name) }
{
    are_same(name, operation.name.as_str().as_bytes())
}

/// The place at which a name occurs first, if it is one of the first few: there it is found sooner than in a table.
#[tactic(auto, using(lc_lemmas::proofs::Options::counted_on))]
fn early_place(all: &[Operation], name: &[u8]) -> Option<usize>
    ensures { IfSome result (λ place. place_of (operations_of all.now) name.now ≡ Some place) }
{
    for (place, operation) in all.iter().enumerate() {
        if place == EARLY {
            return None;
        }
        if is_named(operation, name) {
            return Some(place);
        }
    }
    None
}

/// The name of a branch with the name `text`, and `count` parameters.
fn named_branch(branches: &[Branch], text: &str, count: usize) -> Option<Name>
    ensures { MatchOption result (list_any (λ b. names b.label text.now count) (branches_of branches.now) ≡ false)
        (λ name. (bytes_of name ≡ text.now) × (list_any (λ b. names b.label text.now count) (branches_of branches.now) ≡ true)) }
{
    for branch in branches {
        match &branch.label {
            Label::Named { name, .. } if branch.label.names(text, count) => return Some(*name),
            _ => {}
        }
    }
    None
}

/// Whether a branch has no name.
fn has_ordered(branches: &[Branch]) -> bool
    ensures { result ≡ list_any (λ b. is_in_order b.label) (branches_of branches.now) }
{
    for branch in branches {
        if branch.label.is_in_order() {
            return true;
        }
    }
    false
}

impl<'a> Operations<'a> {
    ghost use Rattle.std.specs.Prelude.{◌≡◌, ℤ, List, true, false, length, Some, IfOk, IfSome, MatchOption, slice_get, option_map};
    ghost use Rattle.lc_seq.specs.Specification.{takes};
    ghost use Rattle.lc_seq.specs.SpecView.{operations_of};
    ghost use Rattle.lc_hist.specs.JsonSeen.{all_of, number_of};
    ghost use Rattle.lc_hist.specs.JsonValues.{operation_of, has_replies, has_choice};
    ghost use Rattle.lc_seq.specs.Sequential.{InOrder, ByName};
    ghost use Rattle.lc_base.specs.Name.{bytes_of};

    /// These operations, by their names.
    pub(crate) fn new(alloc: Global, all: &'a [Operation]) -> Result<Operations<'a>, OutOfMemory>
        ensures { IfOk result (λ operations. all_of operations ≡ operations_of all.now) }
    {
        let mut places = IndexMap::new(alloc);
        for (place, operation) in all.iter().enumerate() {
            note_place(&mut places, operation.name.as_str(), place)?;
        }
        Ok(Operations { all, places })
    }

    /// The operation of a name.
    pub(crate) fn named(&self, name: &str) -> Option<OpId>
        ensures { number_of result ≡ operation_of (all_of self.now) name.now }
    {
        let place = self.places.get(name).copied()?;
        Some(OpId(u32::try_from(place).ok()?))
    }

    /// The operation whose name has these bytes. `None` says nothing of the name.
    pub(crate) fn spelled(&self, name: &[u8]) -> Option<OpId>
        ensures { IfSome result (λ op. operation_of (all_of self.now) name.now ≡ Some op.0) }
    {
        if let Some(place) = early_place(self.all, name) {
            return Some(OpId(u32::try_from(place).ok()?));
        }
        match str::from_utf8(name) {
            Ok(name) => self.named(name),
            Err(_) => None,
        }
    }

    /// Whether an operation takes `count` numbers.
    pub(crate) fn takes(&self, op: OpId, count: usize) -> bool
        ensures { result ≡ takes (slice_get (all_of self.now) op.0) count }
    {
        match self.all.get(op.0 as usize) {
            Some(operation) => operation.arguments.len() == count,
            None => false,
        }
    }

    /// The name of the choice of an operation with the name `text`, and `count` parameters.
    pub(crate) fn choice(&self, op: OpId, text: &str, count: usize) -> Option<Name>
        ensures { (given : List ℤ) → length given ≡ count →
            MatchOption result (has_choice (slice_get (all_of self.now) op.0) (ByName text.now given) ≡ false)
            (λ name. (bytes_of name ≡ text.now) × (has_choice (slice_get (all_of self.now) op.0) (ByName text.now given) ≡ true)) }
    {
        match self.all.get(op.0 as usize) {
            Some(operation) => named_branch(&operation.branches, text, count),
            None => None,
        }
    }

    /// Whether an operation has a branch that is taken in order.
    pub(crate) fn is_ordered(&self, op: OpId) -> bool
        ensures { result ≡ has_choice (slice_get (all_of self.now) op.0) InOrder }
    {
        match self.all.get(op.0 as usize) {
            Some(operation) => has_ordered(&operation.branches),
            None => false,
        }
    }

    /// Whether an operation replies `count` numbers.
    pub(crate) fn has_replies(&self, op: OpId, count: usize) -> bool
        ensures { result ≡ has_replies (slice_get (all_of self.now) op.0) count }
    {
        match self.all.get(op.0 as usize) {
            Some(operation) => operation.replies as usize == count,
            None => false,
        }
    }
}
