//! Terms and column expressions of a table, moved below further quantifiers.
ghost use Rattle.std.specs.Prelude.{◌≡◌, IfOk, IfErr, OnOk, slice_get, Some, is_some, true, false, IsTrue};
ghost use Rattle.lc_term.specs.Chains.{is_store};
ghost use Rattle.lc_table.specs.NodeChains.{stored_to};
ghost use Rattle.lc_table.specs.Nodes.{is_term};
ghost use Rattle.lc_term.specs.Syntax as S;
ghost use Rattle.lc_put.specs.NodeReplacement.{part_in, part_passes, replaced_part, AreReplaced};
ghost use Rattle.lc_put.specs.declared.node_shift.Unmoved.TheVariants.{NoPlace};
ghost use Rattle.lc_term.specs.Places.{term_passes, column_passes, shift_fits};
ghost use Rattle.lc_term.specs.Replacement.{replace_column};
ghost use Rattle.lc_term.specs.Substitution.{shifting, shifted_term};
ghost use Rattle.lc_table.specs.Tables.{parts, term_in, column_in, IsTerm, IsColumn, HasTerm, HasColumn, Keeps};

use crate::deep::{LEVELS, terms_below};
use lc_base::OutOfMemory;
use lc_table::{ColExprId, NearMap, TermId, TermNode, Terms};
use std::alloc::{AllocFailed, Global};
use std::hash::BuildHasherDefault;

// Why nothing is moved below further quantifiers.
#[derive(Clone, Copy)]
pub(crate) enum Unmoved {
    OutOfMemory,
    // The number of a bound variable has no place in 32 bits.
    NoPlace,
}

impl From<OutOfMemory> for Unmoved {
    ghost use Rattle.lc_put.specs.declared.node_shift.Unmoved.TheVariants.{OutOfMemory};

    ghost from_gives = { λ _ fault. fault ≡ OutOfMemory };

    fn from(_: OutOfMemory) -> Unmoved {
        Unmoved::OutOfMemory
    }
}

impl<T: Drop> From<AllocFailed<T>> for Unmoved {
    ghost use Rattle.lc_put.specs.declared.node_shift.Unmoved.TheVariants.{OutOfMemory};

    ghost from_gives = { λ _ fault. fault ≡ OutOfMemory };

    fn from(_: AllocFailed<T>) -> Unmoved {
        Unmoved::OutOfMemory
    }
}

// The number of a bound variable after a shift.
fn moved(number: u32, added: u32, cutoff: u32) -> Result<u32, Unmoved>
    ensures moved { IfOk result (λ n. S.Bound n ≡ (shifting added cutoff).bounds number) }
    ensures place { IfErr result (λ fault. (shift_fits added cutoff 0).bounds number ≡ false) }
{
    if number < cutoff {
        Ok(number)
    } else {
        number.checked_add(added).ok_or(Unmoved::NoPlace)
    }
}

/// The term below `added` further quantifiers: bound variables that point beyond the innermost `cutoff`
/// quantifiers get `added` added to their numbers.
pub fn shift(
    table: &mut Terms,
    alloc: Global,
    term: TermId,
    added: u32,
    cutoff: u32,
) -> Result<TermId, OutOfMemory>
    requires term { IsTerm table.old term }
    requires fits { IsTrue (term_passes (shift_fits added cutoff 0) (term_in table.old term)) }
    ensures id { IfOk result (λ k. HasTerm table.new k (shifted_term added cutoff (term_in table.old term))) }
    ensures kept { Keeps table.old table.new }
{
    match moved_term(table, alloc, term, added, cutoff) {
        Ok(moved) => Ok(moved),
        Err(Unmoved::OutOfMemory) => Err(OutOfMemory),
        Err(Unmoved::NoPlace) => unreachable!(),
    }
}

// The same for any term of the table.
pub(crate) fn moved_term(
    table: &mut Terms,
    alloc: Global,
    term: TermId,
    added: u32,
    cutoff: u32,
) -> Result<TermId, Unmoved>
    requires { IsTerm table.old term }
    ensures id { IfOk result (λ k. HasTerm table.new k (shifted_term added cutoff (term_in table.old term))) }
    ensures kept { Keeps table.old table.new }
    ensures place { IfErr result (λ fault. fault ≡ NoPlace → term_passes (shift_fits added cutoff 0) (term_in table.old term) ≡ false) }
{
    let mut done = NearMap::with_hasher(alloc, BuildHasherDefault::new());
    shifted_term(table, term, added, cutoff, &mut done, LEVELS)
}

// The column expression, moved in the same way.
pub(crate) fn moved_column(
    table: &mut Terms,
    alloc: Global,
    column: ColExprId,
    added: u32,
    cutoff: u32,
) -> Result<ColExprId, Unmoved>
    requires { IsColumn table.old column }
    ensures id { IfOk result (λ k. HasColumn table.new k (replace_column (shifting added cutoff) (column_in table.old column))) }
    ensures kept { Keeps table.old table.new }
    ensures place { IfErr result (λ fault. fault ≡ NoPlace → column_passes (shift_fits added cutoff 0) (column_in table.old column) ≡ false) }
{
    let mut done = NearMap::with_hasher(alloc, BuildHasherDefault::new());
    shifted_column(table, column, added, cutoff, &mut done, LEVELS)
}

#[cycle(shifted_part)]
#[tactic(auto, using(crate::proofs::NodeReplacement::term_replaced, crate::proofs::NodeReplacement::term_at, crate::proofs::NodeReplacement::term_noted, lc_table::proofs::Later::term_stands))]
fn shifted_term(
    table: &mut Terms,
    term: TermId,
    added: u32,
    cutoff: u32,
    done: &mut NearMap<u32, u32>,
    levels: u32,
) -> Result<TermId, Unmoved>
    requires there { IsTerm table.old term }
    requires done { AreReplaced (shifting added cutoff) (parts table.old) done.old.entries }
    ensures id { IfOk result (λ k. HasTerm table.new k (shifted_term added cutoff (term_in table.old term))) }
    ensures kept { Keeps table.old table.new }
    ensures done { OnOk result (AreReplaced (shifting added cutoff) (parts table.new) done.new.entries) }
    ensures place { IfErr result (λ fault. fault ≡ NoPlace → term_passes (shift_fits added cutoff 0) (term_in table.old term) ≡ false) }
{
    if let Some(number) = done.get(&term.0) {
        return Ok(TermId(*number));
    }
    let Some(levels) = levels.checked_sub(1) else {
        shift_below(table, term, added, cutoff, done)?;
        return shifted_term(table, term, added, cutoff, done, LEVELS);
    };
    let number = shifted_part(table, term.0, added, cutoff, done, levels)?;
    done.insert(term.0, number)?;
    Ok(TermId(number))
}

#[cycle(shifted_part)]
#[tactic(auto, using(lc_table::proofs::Later::kept_on))]
fn shifted_column(
    table: &mut Terms,
    column: ColExprId,
    added: u32,
    cutoff: u32,
    done: &mut NearMap<u32, u32>,
    levels: u32,
) -> Result<ColExprId, Unmoved>
    requires there { IsColumn table.old column }
    requires done { AreReplaced (shifting added cutoff) (parts table.old) done.old.entries }
    ensures id { IfOk result (λ k. HasColumn table.new k (replace_column (shifting added cutoff) (column_in table.old column))) }
    ensures kept { Keeps table.old table.new }
    ensures done { OnOk result (AreReplaced (shifting added cutoff) (parts table.new) done.new.entries) }
    ensures place { IfErr result (λ fault. fault ≡ NoPlace → column_passes (shift_fits added cutoff 0) (column_in table.old column) ≡ false) }
{
    let mut chain = table.chain_to_done(table.allocator(), column, done)?;
    let mut moved = chain.below();
    'stores: while let Some(store) = chain.stores.pop() {
        moved = shifted_store(table, store, moved, added, cutoff, done, levels)?;
    }
    Ok(moved)
}

// A store, moved, where what it stores to is moved to `below`.
#[cycle(shifted_part)]
#[tactic(auto, using(lc_table::proofs::Later::kept_on, lc_table::proofs::Later::is_term_later, lc_table::proofs::Later::is_term_still))]
fn shifted_store(
    table: &mut Terms,
    store: ColExprId,
    below: ColExprId,
    added: u32,
    cutoff: u32,
    done: &mut NearMap<u32, u32>,
    levels: u32,
) -> Result<ColExprId, Unmoved>
    requires there { IsColumn table.old store }
    requires store { is_store (column_in table.old store) ≡ true }
    requires below { HasColumn table.old below (replace_column (shifting added cutoff) (stored_to (column_in table.old store))) }
    requires done { AreReplaced (shifting added cutoff) (parts table.old) done.old.entries }
    ensures id { IfOk result (λ k. HasColumn table.new k (replace_column (shifting added cutoff) (column_in table.old store))) }
    ensures kept { Keeps table.old table.new }
    ensures done { OnOk result (AreReplaced (shifting added cutoff) (parts table.new) done.new.entries) }
    ensures place { IfErr result (λ fault. fault ≡ NoPlace → column_passes (shift_fits added cutoff 0) (column_in table.old store) ≡ false) }
{
    match table.column_node(store) {
        TermNode::Store(_, index, value) => {
            let index = shifted_term(table, index, added, cutoff, done, levels)?;
            let value = shifted_term(table, value, added, cutoff, done, levels)?;
            let number = table.store(below, index, value)?;
            done.insert(store.0, number.0)?;
            Ok(number)
        }
        _ => unreachable!(),
    }
}

// Moves everything below a term that is not moved yet. Each part has its own parts moved before it, so that none goes
// down far. A part without a place is found again with the term.
#[cycle(shifted_part)]
#[inline(never)]
#[tactic(auto, using(lc_table::proofs::Later::kept_on, lc_table::proofs::Later::keeps_itself, lc_table::proofs::Later::is_term_still))]
fn shift_below(
    table: &mut Terms,
    term: TermId,
    added: u32,
    cutoff: u32,
    done: &mut NearMap<u32, u32>,
) -> Result<(), OutOfMemory>
    requires there { IsTerm table.old term }
    requires done { AreReplaced (shifting added cutoff) (parts table.old) done.old.entries }
    ensures kept { Keeps table.old table.new }
    ensures done { OnOk result (AreReplaced (shifting added cutoff) (parts table.new) done.new.entries) }
{
    let below = terms_below(table, table.allocator(), term.0, done)?;
    for term in &below {
        match shifted_term(table, *term, added, cutoff, done, LEVELS) {
            Ok(_) => {}
            Err(Unmoved::OutOfMemory) => return Err(OutOfMemory),
            Err(Unmoved::NoPlace) => {
                done.clear();
                break;
            }
        }
    }
    Ok(())
}

// A term, moved, which is not moved yet.
#[cycle(shifted_part)]
#[tactic(auto, using(lc_table::proofs::Later::kept_on, lc_table::proofs::Later::keeps_itself, lc_table::proofs::Later::is_term_later, lc_table::proofs::Later::is_column_later, lc_table::proofs::Later::is_term_still, crate::proofs::NodeReplacement::part_there))]
fn shifted_part(
    table: &mut Terms,
    part: u32,
    added: u32,
    cutoff: u32,
    done: &mut NearMap<u32, u32>,
    levels: u32,
) -> Result<u32, Unmoved>
    requires there { is_some (slice_get (parts table.old) part) ≡ true }
    requires term { is_term (slice_get (parts table.old) part) ≡ true }
    requires done { AreReplaced (shifting added cutoff) (parts table.old) done.old.entries }
    ensures id { IfOk result (λ k. slice_get (parts table.new) k ≡ Some (replaced_part (shifting added cutoff) (part_in table.old part))) }
    ensures kept { Keeps table.old table.new }
    ensures done { OnOk result (AreReplaced (shifting added cutoff) (parts table.new) done.new.entries) }
    ensures place { IfErr result (λ fault. fault ≡ NoPlace → part_passes (shift_fits added cutoff 0) (part_in table.old part) ≡ false) }
{
    match table.part_node(part) {
        TermNode::Bound(number) => Ok(table.bound(moved(number, added, cutoff)?)?.0),
        TermNode::Number(_) | TermNode::Variable(_) => Ok(part),
        TermNode::Add(left, right) => {
            let left = shifted_term(table, left, added, cutoff, done, levels)?;
            let right = shifted_term(table, right, added, cutoff, done, levels)?;
            Ok(table.add(left, right)?.0)
        }
        TermNode::Subtract(left, right) => {
            let left = shifted_term(table, left, added, cutoff, done, levels)?;
            let right = shifted_term(table, right, added, cutoff, done, levels)?;
            Ok(table.subtract(left, right)?.0)
        }
        TermNode::Multiply(factor, term) => {
            let term = shifted_term(table, term, added, cutoff, done, levels)?;
            Ok(table.multiply(factor, term)?.0)
        }
        TermNode::Read(column, index) => {
            let column = shifted_column(table, column, added, cutoff, done, levels)?;
            let index = shifted_term(table, index, added, cutoff, done, levels)?;
            Ok(table.read(column, index)?.0)
        }
        TermNode::Base(_) | TermNode::Affine(_, _) | TermNode::Store(_, _, _) => unreachable!(),
    }
}
