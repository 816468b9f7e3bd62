//! Prints what short developments are with guesses for what was left out, or why they are refused.
#![tactic(auto)]

use anyhow::Context;
use lc_base::Fault;
use lc_fill::{Plan, fill};
use lc_guess::{Reach, guess};
use lc_sexp::Forms;
use std::alloc::Global;
use std::{env, fs};

/// What a text is with what is guessed.
fn answer(alloc: Global, bytes: &[u8]) -> Result<Vec<u8>, Fault> {
    let forms = Forms::read(alloc, bytes)?;
    let bare = fill(alloc, &Plan::none(alloc)?, &forms)?;
    let plan = guess(alloc, &forms, bare.lacking(), Reach::Told)?;
    let text = fill(alloc, &plan, &forms)?.text(alloc)?;
    Ok(text)
}

fn main(rt: HostRuntime) -> anyhow::Result<()> {
    for path in env::args(&rt)?.skip(1) {
        let bytes = fs::read(&rt, path.as_str())?;
        match answer(rt.alloc(), &bytes) {
            Ok(text) => print!(rt; "{}", str::from_utf8(&text).context("a text is of ASCII")?)?,
            Err(fault) => println!(rt; "{fault}")?,
        }
    }
    Ok(())
}
