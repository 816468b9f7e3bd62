//! The stores of a column expression as a list, so that a walk over a long chain of them is a loop.
ghost use Rattle.std.specs.Prelude.{◌≡◌, IfOk, false};
ghost use Rattle.lc_term.specs.Chains.{Stored, with_stores, is_store, stores_of, AreInside};
ghost use Rattle.lc_term.specs.Syntax.{Store};
ghost use Rattle.lc_term.specs.View.{term_of, column_of};

use crate::term::{ColExpr, Term};
use lc_base::OutOfMemory;
use std::alloc::Global;

/// A value that is stored at an index.
#[derive(Clone, Copy)]
pub struct StoreAt<'a> {
    pub index: &'a Term,
    pub value: &'a Term,
}

/// A column expression in parts: what is stored to, which is no store, and the stores, the outermost first.
#[derive(Drop)]
pub struct Chain<'a> {
    pub base: &'a ColExpr,
    pub stores: Vec<StoreAt<'a>>,
}

/// A column expression in parts.
pub fn chain_of(alloc: Global, column: &ColExpr) -> Result<Chain<'_>, OutOfMemory>
    ensures same { IfOk result (λ chain. column_of column.now ≡ with_stores (column_of chain.base.now) (stores_of chain.stores.items)) }
    ensures base { IfOk result (λ chain. is_store (column_of chain.base.now) ≡ false) }
    ensures inside { IfOk result (λ chain. AreInside column.now chain.stores.items) }
{
    let mut stores = Vec::new(alloc);
    let mut base = column;
    'stores: loop {
        match base {
            ColExpr::Base(_) | ColExpr::Affine(..) => return Ok(Chain { base, stores }),
            ColExpr::Store(below, index, value) => {
                stores.push(StoreAt { index, value })?;
                base = below;
            }
        }
    }
}

/// What is stored to, in memory of its own; it needs none after that.
pub fn base_of(base: &ColExpr) -> ColExpr
    requires { is_store (column_of base.now) ≡ false }
    ensures { column_of result ≡ column_of base.now }
{
    match base {
        ColExpr::Base(column) => ColExpr::Base(*column),
        ColExpr::Affine(slope, start) => ColExpr::Affine(*slope, *start),
        ColExpr::Store(..) => unreachable!(),
    }
}

/// A column with a value stored at an index.
pub fn with_store(
    alloc: Global,
    column: ColExpr,
    index: Term,
    value: Term,
) -> Result<ColExpr, OutOfMemory>
    ensures { IfOk result (λ stored. column_of stored ≡ Store (column_of column) (term_of index) (term_of value)) }
{
    Ok(ColExpr::Store(
        Box::new(alloc, column)?,
        Box::new(alloc, index)?,
        Box::new(alloc, value)?,
    ))
}
