//! Answers whether some order linearizes a history, a line for each. What has to be printed was worked out by an independent
//! program, which tries all orders.
//!
//! A word of the command line is a file with a specification and a file of histories, with a colon between them. A line of the
//! latter is a name, a space, and the JSON text of a history and an order, which is tried first. What is printed is the name and
//! the answer. If a native object has the operations of the specification, in its order, it is named after another colon, and its
//! answer is printed too, if it is another one.
#![tactic(auto)]

use anyhow::{Context, bail};
use lc_base::{Fault, OutOfMemory};
use lc_hist::history_from_json;
use lc_history::{Done, History};
use lc_native::{NatCounter, NatLock, NatQueue};
use lc_order::{Decision, Searchable, decide};
use lc_seq::TextSpec;
use lc_spec_text::spec_of;
use std::alloc::{AllocError, Global};
use std::{env, fs};

/// How many nodes are looked at.
const BUDGET: u64 = 1_000_000;

/// A native object that has the operations of a specification.
#[derive(Clone, Copy)]
enum Native {
    Counter,
    Lock,
    Queue,
}

/// The native object of this name.
fn native_of(name: &str) -> Option<Native> {
    match name {
        "counter" => Some(Native::Counter),
        "lock" => Some(Native::Lock),
        "queue" => Some(Native::Queue),
        _ => None,
    }
}

/// The words of a decision.
fn words_of<C: Drop, H: Drop, R: Drop>(
    alloc: Global,
    decision: &Decision<C, H, R>,
) -> Result<String, AllocError> {
    match decision {
        Decision::Order(_) => format!(in alloc; "linearizable"),
        Decision::NotLinearizable(front) => format!(in alloc; "not linearizable {front}"),
        Decision::Unknown => format!(in alloc; "unknown"),
        Decision::Overflow => format!(in alloc; "overflow"),
        Decision::Budget => format!(in alloc; "budget"),
    }
}

/// What is known of a history by the steps of an object.
fn known_by<S: Searchable>(
    alloc: Global,
    object: &S,
    history: &History,
    order: Vec<Done<S::Call, S::Choice, S::Reply>>,
) -> Result<String, OutOfMemory> {
    let decision = decide(alloc, object, history, order, BUDGET)?;
    Ok(words_of(alloc, &decision)?)
}

/// What is known of the history that a text says; and by a native object, if that is something else.
fn answer(
    alloc: Global,
    spec: &TextSpec,
    native: Option<Native>,
    text: &[u8],
) -> Result<String, Fault> {
    let (history, order) = history_from_json(alloc, spec, text)?;
    let known = known_by(alloc, spec, &history, order)?;
    let other = match native {
        None => return Ok(known),
        Some(Native::Counter) => known_by(alloc, &NatCounter, &history, Vec::new(alloc))?,
        Some(Native::Lock) => known_by(alloc, &NatLock, &history, Vec::new(alloc))?,
        Some(Native::Queue) => known_by(alloc, &NatQueue, &history, Vec::new(alloc))?,
    };
    if other.as_str() == known.as_str() {
        return Ok(known);
    }
    Ok(format!(in alloc; "{known}, and by the native object {other}")?)
}

fn answer_histories(
    rt: &HostRuntime,
    spec: &TextSpec,
    path: &str,
    native: Option<Native>,
) -> anyhow::Result<()> {
    let histories = fs::read_to_string(rt, path)?;
    for line in histories.as_str().split('\n') {
        if !line.is_empty() {
            let (name, text) = line.split_once(' ').context(
                "a line has a name and a history, with a space between them",
            )?;
            match answer(rt.alloc(), spec, native, text.as_bytes()) {
                Ok(answer) => println!(rt; "{name}: {answer}")?,
                Err(fault) => println!(rt; "{name}: {fault}")?,
            }
        }
    }
    Ok(())
}

fn main(rt: HostRuntime) -> anyhow::Result<()> {
    for word in env::args(&rt)?.skip(1) {
        let (spec, rest) = word
            .as_str()
            .split_once(':')
            .context("a word is two files, with a colon between them")?;
        let (histories, native) = match rest.split_once(':') {
            Some((histories, name)) => (histories, native_of(name)),
            None => (rest, None),
        };
        match spec_of(rt.alloc(), &fs::read(&rt, spec)?) {
            Ok(spec) => answer_histories(&rt, &spec, histories, native)?,
            Err(_) => bail!("this is no specification"),
        }
    }
    Ok(())
}
