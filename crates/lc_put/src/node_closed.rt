//! Terms and column expressions of a table without bound variables: below quantifiers they are the same.
ghost use Rattle.std.specs.Prelude.{◌≡◌, IfOk, slice_get, is_some, true};
ghost use Rattle.lc_put.specs.NodeReplacement.{part_in};
ghost use Rattle.lc_put.specs.NodeClosed.{is_closed_part};
ghost use Rattle.lc_term.specs.Replacement.{replace_column};
ghost use Rattle.lc_term.specs.Substitution.{shifting, shifted_term};
ghost use Rattle.lc_table.specs.Tables.{parts, term_in, column_in, IsTerm, IsColumn, HasTerm, HasColumn, Keeps};

use crate::node_shift::{moved_column, moved_term};
use lc_base::OutOfMemory;
use lc_table::{ColExprId, TermId, TermNode, Terms};
use std::alloc::Global;

// How many nodes are looked at for a bound variable. What is shared is looked at again, so that without a bound this could
// take far longer than a shift, which remembers what it has seen.
const LOOKS: u32 = 512;

// How many more are looked at for each store of the outermost chain, which is as long as the updates that made it. There are never
// more looks left than at first, so that a term in it is not gone down further.
const LOOKS_OF_A_STORE: u32 = 8;

// Whether it is seen that no bound variable occurs in the part at the number `part`. `false` says nothing. Each store of
// the chain at this number, but none of those in its terms, adds `brought` looks.
fn is_seen_closed(table: &Terms, part: u32, looks: &mut u32, brought: u32) -> bool
    requires { is_some (slice_get (parts table.now) part) ≡ true }
    ensures { result ≡ true → is_closed_part (part_in table.now part) ≡ true }
{
    let mut rest = part;
    'stores: loop {
        if *looks == 0 {
            return false;
        }
        *looks -= 1;
        match table.part_node(rest) {
            TermNode::Number(_)
            | TermNode::Variable(_)
            | TermNode::Base(_)
            | TermNode::Affine(_, _) => return true,
            TermNode::Bound(_) => return false,
            TermNode::Add(left, right) | TermNode::Subtract(left, right) => {
                return is_seen_closed(table, left.0, looks, 0)
                    && is_seen_closed(table, right.0, looks, 0);
            }
            TermNode::Multiply(_, term) => return is_seen_closed(table, term.0, looks, 0),
            TermNode::Read(column, index) => {
                return is_seen_closed(table, column.0, looks, 0)
                    && is_seen_closed(table, index.0, looks, 0);
            }
            TermNode::Store(below, index, value) => {
                *looks = looks.saturating_add(brought).min(LOOKS);
                if !is_seen_closed(table, index.0, looks, 0)
                    || !is_seen_closed(table, value.0, looks, 0)
                {
                    return false;
                }
                rest = below.0;
            }
        }
    }
}

// The same, by as many looks as are spent on it.
fn has_no_bound_variable(table: &Terms, part: u32) -> bool
    requires { is_some (slice_get (parts table.now) part) ≡ true }
    ensures { result ≡ true → is_closed_part (part_in table.now part) ≡ true }
{
    let mut looks = LOOKS;
    is_seen_closed(table, part, &mut looks, LOOKS_OF_A_STORE)
}

// A term below `depth` further quantifiers. For a number that has no place it returns the error of a table that is full:
// what is put in is not asked to have room below all the quantifiers around its places.
#[tactic(auto, using(crate::proofs::NodeClosed::term_raised_nowhere, crate::proofs::NodeClosed::closed_term_stays))]
pub(crate) fn raised(
    table: &mut Terms,
    alloc: Global,
    term: TermId,
    depth: u32,
) -> Result<TermId, OutOfMemory>
    requires { IsTerm table.old term }
    ensures id { IfOk result (λ k. HasTerm table.new k (shifted_term depth 0 (term_in table.old term))) }
    ensures kept { Keeps table.old table.new }
{
    if depth == 0 {
        return Ok(term);
    }
    if has_no_bound_variable(table, term.0) {
        Ok(term)
    } else {
        moved_term(table, alloc, term, depth, 0).map_err(|_| OutOfMemory)
    }
}

// A column expression below `depth` further quantifiers, with the same error.
#[tactic(auto, using(crate::proofs::NodeClosed::column_raised_nowhere, crate::proofs::NodeClosed::closed_column_stays))]
pub(crate) fn raised_column(
    table: &mut Terms,
    alloc: Global,
    column: ColExprId,
    depth: u32,
) -> Result<ColExprId, OutOfMemory>
    requires { IsColumn table.old column }
    ensures id { IfOk result (λ k. HasColumn table.new k (replace_column (shifting depth 0) (column_in table.old column))) }
    ensures kept { Keeps table.old table.new }
{
    if depth == 0 {
        return Ok(column);
    }
    if has_no_bound_variable(table, column.0) {
        Ok(column)
    } else {
        moved_column(table, alloc, column, depth, 0).map_err(|_| OutOfMemory)
    }
}
