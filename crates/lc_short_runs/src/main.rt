//! Prints what short developments are with what was left out put in, or why they are refused.
#![tactic(auto)]

use anyhow::Context;
use lc_base::Fault;
use lc_outline_print::development_text;
use lc_short::short_of;
use std::alloc::Global;
use std::{env, fs};

/// What a text says.
fn answer(alloc: Global, bytes: &[u8]) -> Result<Vec<u8>, Fault> {
    let short = short_of(alloc, bytes)?;
    Ok(development_text(alloc, short.whole())?)
}

fn main(rt: HostRuntime) -> anyhow::Result<()> {
    for path in env::args(&rt)?.skip(1) {
        let bytes = fs::read(&rt, path.as_str())?;
        match answer(rt.alloc(), &bytes) {
            Ok(text) => println!(rt; "{}", str::from_utf8(&text).context("a text is of ASCII")?)?,
            Err(fault) => println!(rt; "{fault}")?,
        }
    }
    Ok(())
}
