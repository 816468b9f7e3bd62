//! The stores of a column expression of a table, by number, so that a walk over a long chain of them is a loop.
ghost use Rattle.std.specs.Prelude.{◌≡◌, ◌≤◌, IfOk, false};
ghost use Rattle.lc_term.specs.Chains.{is_store};
ghost use Rattle.lc_table.specs.NodeChains.{below_stores, AreStores};
ghost use Rattle.lc_table.specs.Tables.{column_in, IsColumn};

use lc_base::OutOfMemory;
use lc_table::{ColExprId, TermNode, Terms};
use std::alloc::Global;

/// A column expression in parts: what is stored to, which is no store, and the stores, the outermost first.
#[derive(Drop)]
pub(crate) struct NodeChain {
    pub(crate) base: ColExprId,
    pub(crate) stores: Vec<ColExprId>,
}

/// A column expression in parts.
pub(crate) fn node_chain(
    table: &Terms,
    alloc: Global,
    column: ColExprId,
) -> Result<NodeChain, OutOfMemory>
    requires { IsColumn table.now column }
    ensures stores { IfOk result (λ chain. AreStores table.now column.0 (column_in table.now column) chain.stores.items) }
    ensures below { IfOk result (λ chain. below_stores (column_in table.now column) chain.stores.items ≡ column_in table.now chain.base) }
    ensures is { IfOk result (λ chain. IsColumn table.now chain.base) }
    ensures within { IfOk result (λ chain. chain.base.0 ≤ column.0) }
    ensures base { IfOk result (λ chain. is_store (column_in table.now chain.base) ≡ false) }
{
    let mut stores = Vec::new(alloc);
    let mut base = column;
    'stores: loop {
        match table.column_node(base) {
            TermNode::Store(below, _, _) => {
                stores.push(base)?;
                base = below;
            }
            TermNode::Base(_) | TermNode::Affine(_, _) => {
                return Ok(NodeChain { base, stores });
            }
            _ => unreachable!(),
        }
    }
}
