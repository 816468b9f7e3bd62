//! An entry of a certificate: a proof, and the number of its condition.
use lc_kernel::Proof;

/// A proof, and the number of the condition that it is to prove.
#[derive(Drop)]
pub struct Entry {
    pub number: u64,
    pub proof: Proof,
}
