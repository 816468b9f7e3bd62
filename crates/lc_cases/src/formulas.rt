//! Cases of formula files.
use lc_base::{Fault, Refusal};
use lc_kernel::{ProofFault, prove};
use lc_proof_text::formula_of;
use std::alloc::Global;
use std::io;

/// Whether the proof in a formula file holds, else the first refusal.
fn check_formula(alloc: Global, text: &[u8]) -> Result<(), Fault> {
    let mut file = formula_of(alloc, text)?;
    match prove(&mut file.terms, alloc, &file.goal, &file.proof) {
        Ok(()) => Ok(()),
        Err(ProofFault::Bad { step, reason }) => {
            Err(Fault::Refused(Refusal::Proof(0, u64::from(step), reason.code())))
        }
        Err(ProofFault::Large { step }) => {
            Err(Fault::Refused(Refusal::Large(0, u64::from(step))))
        }
        Err(ProofFault::OutOfMemory) => Err(Fault::OutOfMemory),
    }
}

/// Prints the answer to a text as a formula file.
pub fn answer_formula(rt: &HostRuntime, name: &str, text: &[u8]) -> io::Result<()> {
    match check_formula(rt.alloc(), text) {
        Ok(()) => println!(rt; "{name}: proved"),
        Err(fault) => println!(rt; "{name}: {fault}"),
    }
}

/// Prints the answer to each beginning of a text as a formula file.
pub fn answer_prefixes(rt: &HostRuntime, name: &str, text: &[u8]) -> io::Result<()> {
    for length in 0..text.len() {
        print!(rt; "cut to {length}, ")?;
        answer_formula(rt, name, &text[..length])?;
    }
    Ok(())
}
