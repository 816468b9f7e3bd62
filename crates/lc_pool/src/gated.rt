//! The prover of a session that calls a gate.
use crate::gate::Gate;
use lc_base::Fault;
use lc_check::{Prover, prove_one};
use lc_cond::Condition;
use lc_kernel::Proof;
use lc_outline::Development;
use lc_table::Terms;
use std::alloc::Global;
use std::sync::Wait;

/// Proves conditions under a gate.
#[derive(Clone, Copy)]
pub(crate) struct Gated<'a, R, G> {
    pub rt: &'a R,
    pub gate: &'a G,
}

impl<R: Wait, G: Gate> Prover for Gated<'_, R, G> {
    fn prove(
        &mut self,
        alloc: Global,
        _development: &Development,
        terms: &mut Terms,
        number: u64,
        condition: &Condition,
        proof: &Proof,
    ) -> Result<(), Fault> {
        self.gate.before(self.rt, number);
        let found = prove_one(alloc, terms, number, condition, proof);
        self.gate.after(self.rt, number);
        found
    }
}
