//! The command `formula` alone, which the launcher compiles first, since that takes a fifth of the time of all commands.
//!
//! The word of its command line is the path of a formula file. If that can be read and answered, it prints what
//! `lincheck formula` prints, with the same status; else it prints nothing, and its status is `NO_ANSWER`.
#![tactic(auto)]

use lc_base::{Fault, Refusal};
use lc_kernel::{ProofFault, prove};
use lc_proof_text::formula_of;
use std::alloc::Global;
use std::process::ExitCode;
use std::{env, fs};

const PROVED: u8 = 0;

const REFUSED: u8 = 1;

/// The whole program has to answer.
const NO_ANSWER: u8 = 70;

/// The number of the only condition that a formula file has.
const ONLY_CONDITION: u64 = 0;

fn main(rt: HostRuntime) -> ExitCode {
    ExitCode::from(answer_words(&rt).unwrap_or(NO_ANSWER))
}

/// Answers the file at the path that the command line names, with the exit status.
fn answer_words(rt: &HostRuntime) -> Option<u8> {
    let path = env::args(rt).ok()?.nth(1)?;
    let bytes = fs::read(rt, path.as_str()).ok()?;
    match check_formula(rt.alloc(), bytes.as_slice()) {
        Ok(()) => {
            println!(rt; "proved").ok()?;
            Some(PROVED)
        }
        Err(Fault::Refused(refusal)) => {
            println!(rt; "{refusal}").ok()?;
            Some(REFUSED)
        }
        Err(Fault::OutOfMemory) => None,
    }
}

/// Whether the proof in a formula file derives what the file claims; else the first refusal.
fn check_formula(alloc: Global, bytes: &[u8]) -> Result<(), Fault> {
    let mut file = formula_of(alloc, bytes)?;
    match prove(&mut file.terms, alloc, &file.goal, &file.proof) {
        Ok(()) => Ok(()),
        Err(ProofFault::Bad { step, reason }) => {
            let reason = reason.code();
            Err(Fault::Refused(Refusal::Proof(ONLY_CONDITION, u64::from(step), reason)))
        }
        Err(ProofFault::Large { step }) => {
            Err(Fault::Refused(Refusal::Large(ONLY_CONDITION, u64::from(step))))
        }
        Err(ProofFault::OutOfMemory) => Err(Fault::OutOfMemory),
    }
}
