//! The stores of a column expression as a list, so that a walk over a long chain of them is a loop.

use super::Nodes;
use lc_farkas::Stop;
use lc_table::{ColExprId, TermId, TermNode};

/// A value that is stored at an index.
#[derive(Clone, Copy)]
pub(super) struct StoreAt {
    pub(super) index: TermId,
    pub(super) value: TermId,
}

/// Stores of a column expression, the outermost first, and the column expression below them.
#[derive(Drop)]
pub(super) struct Chain {
    pub(super) base: ColExprId,
    pub(super) stores: Vec<StoreAt>,
}

impl Nodes {
    /// All stores of a column expression.
    pub(super) fn chain(&self, column: ColExprId) -> Result<Chain, Stop> {
        let mut stores = Vec::new(self.alloc);
        let mut base = column;
        for _ in 0..self.parts.len() {
            let Some(TermNode::Store(below, index, value)) = self.column_node(base) else {
                break;
            };
            stores.push(StoreAt { index, value })?;
            base = below;
        }
        Ok(Chain { base, stores })
    }
}
