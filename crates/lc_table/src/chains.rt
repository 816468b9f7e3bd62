//! The stores of a column expression of a table, by number, so that a walk over a long chain of them is a loop.
ghost use Rattle.std.specs.Prelude.{◌≡◌, ◌≤◌, IfOk, IfSome, None, false};
ghost use Rattle.lc_term.specs.Chains.{is_store};
ghost use Rattle.lc_table.specs.NodeChains.{below_stores, AreStores};
ghost use Rattle.lc_table.specs.Tables.{column_in, IsColumn};

use crate::near::NearMap;
use crate::node::{ColExprId, TermNode};
use crate::table::Terms;
use lc_base::OutOfMemory;
use std::alloc::Global;

/// A chain, as far as it is not known already what becomes of it: what is known to become of the base, if that is.
#[derive(Drop)]
pub struct Waiting {
    pub base: ColExprId,
    pub known: Option<u32>,
    pub stores: Vec<ColExprId>,
}

impl Waiting {
    /// What is below the stores; what is no store stays as it is.
    pub fn below(&self) -> ColExprId
        ensures known { IfSome self.now.known (λ number. result.0 ≡ number) }
        ensures base { self.now.known ≡ None → result.0 ≡ self.now.base.0 }
    {
        match self.known {
            Some(number) => ColExprId(number),
            None => self.base,
        }
    }
}

/// Of terms and column expressions of a table, what is known already to become of them.
pub trait KnownParts {
    ghost use Rattle.std.specs.Prelude.{ℕ, IfSome};

    ghost Becomes: { Self → ℕ → ℕ → Type 0 };

    /// The number of what becomes of a part, if it is known.
    fn known(&self, part: u32) -> Option<u32>
        ensures { IfSome result (Becomes self.now part) };
}

impl KnownParts for NearMap<u32, u32> {
    ghost use Rattle.std.specs.Prelude.{◌≡◌, Some, nat_eq};
    ghost use Rattle.std.specs.Map.{lookup};

    ghost Becomes = { λ done part number. lookup (nat_eq part) done.entries ≡ Some number };

    fn known(&self, part: u32) -> Option<u32> {
        self.get(&part).copied()
    }
}

impl Terms {
    /// A column expression in parts, down to where it is known already what becomes of it.
    pub fn chain_to_done<K: KnownParts>(
        &self,
        alloc: Global,
        column: ColExprId,
        done: &K,
    ) -> Result<Waiting, OutOfMemory>
        requires { IsColumn self.now column }
        ensures stores { IfOk result (λ chain. AreStores self.now column.0 (column_in self.now column) chain.stores.items) }
        ensures below { IfOk result (λ chain. below_stores (column_in self.now column) chain.stores.items ≡ column_in self.now chain.base) }
        ensures is { IfOk result (λ chain. IsColumn self.now chain.base) }
        ensures within { IfOk result (λ chain. chain.base.0 ≤ column.0) }
        ensures known { IfOk result (λ chain. IfSome chain.known (K.Becomes done.now chain.base.0)) }
        ensures base { IfOk result (λ chain. chain.known ≡ None → is_store (column_in self.now chain.base) ≡ false) }
    {
        let mut stores = Vec::new(alloc);
        let mut base = column;
        'stores: loop {
            let known = done.known(base.0);
            if known.is_some() {
                return Ok(Waiting {
                    base,
                    known,
                    stores,
                });
            }
            match self.column_node(base) {
                TermNode::Store(below, _, _) => {
                    stores.push(base)?;
                    base = below;
                }
                TermNode::Base(_) | TermNode::Affine(_, _) => {
                    return Ok(Waiting {
                        base,
                        known,
                        stores,
                    });
                }
                _ => unreachable!(),
            }
        }
    }
}
