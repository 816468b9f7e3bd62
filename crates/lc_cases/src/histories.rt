//! Cases of specifications and of histories.
use anyhow::Context;
use lc_base::{Fault, Refusal};
use lc_hist::{history_from_json, history_to_json};
use lc_history::{JudgeFault, judge};
use lc_spec_text::spec_of;
use std::alloc::Global;
use std::{io, str};

/// Whether the order of a history linearizes it, or `None` if a number is beyond 64 bits; else the first refusal.
fn judge_history(alloc: Global, development: &[u8], text: &[u8]) -> Result<Option<()>, Fault> {
    let spec = spec_of(alloc, development)?;
    let (history, order) = history_from_json(alloc, &spec, text)?;
    match judge(alloc, &spec, &history, &order) {
        Ok(()) => Ok(Some(())),
        Err(JudgeFault::Order { place, reason }) => {
            Err(Fault::Refused(Refusal::Order(place, reason.code())))
        }
        Err(JudgeFault::Overflow) => Ok(None),
        Err(JudgeFault::OutOfMemory) => Err(Fault::OutOfMemory),
    }
}

/// Prints whether the first form of a text is a specification, or its first refusal.
pub fn answer_specification(rt: &HostRuntime, name: &str, text: &[u8]) -> io::Result<()> {
    match spec_of(rt.alloc(), text) {
        Ok(_) => println!(rt; "{name}: read"),
        Err(fault) => println!(rt; "{name}: {fault}"),
    }
}

/// What a history and its order are, written again.
fn rewrite(alloc: Global, development: &[u8], text: &[u8]) -> Result<Vec<u8>, Fault> {
    let spec = spec_of(alloc, development)?;
    let (history, order) = history_from_json(alloc, &spec, text)?;
    Ok(history_to_json(alloc, &spec, &history, &order)?)
}

/// Prints a history and its order again, which come after a development and a tab.
pub fn answer_rewritten(rt: &HostRuntime, name: &str, text: &str) -> anyhow::Result<()> {
    let (development, history) = text
        .split_once('\t')
        .context("a tab stands between a development and a history")?;
    match rewrite(rt.alloc(), development.as_bytes(), history.as_bytes()) {
        Ok(bytes) => {
            let text = str::from_utf8(&bytes)?;
            println!(rt; "{name}: {text}")?;
        }
        Err(fault) => println!(rt; "{name}: {fault}")?,
    }
    Ok(())
}

/// Prints the answer to a development and a history, with a tab between them.
pub fn answer_history(rt: &HostRuntime, name: &str, text: &str) -> anyhow::Result<()> {
    let (development, history) = text
        .split_once('\t')
        .context("a tab stands between a development and a history")?;
    match judge_history(rt.alloc(), development.as_bytes(), history.as_bytes()) {
        Ok(Some(())) => println!(rt; "{name}: linearizable")?,
        Ok(None) => println!(rt; "{name}: overflow")?,
        Err(fault) => println!(rt; "{name}: {fault}")?,
    }
    Ok(())
}
