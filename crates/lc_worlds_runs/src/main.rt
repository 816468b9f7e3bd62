//! Explores developments of the library, each by a plan or by any calls, and prints a line for each. How many worlds there are was counted by an
//! independent program.
//!
//! A word of the command line is an object of the library and what its clients call, with a colon between them: a file with a plan; or, as 2x1, the
//! number of clients and how many calls each makes, which are any, with the numbers 0 and 1.
#![tactic(auto)]

use anyhow::{Context, bail};
use lc_base::{Fault, OutOfMemory, SEAT_LIMIT};
use lc_lib_texts::{Lib, development};
use lc_outline::Development;
use lc_outline_text::development_of;
use lc_plan::plan_of;
use lc_seq::TextCall;
use lc_tour::{Toured, any_scripts, scripts_of, tour};
use lc_watch::Claim;
use lc_worlds::Wrong;
use std::alloc::{AllocError, Global};
use std::{env, fs};

/// How many worlds are met at most.
const BUDGET: usize = 1_000_000;

/// What clients call.
#[derive(Drop)]
enum Calls {
    /// The calls of the plan in a text.
    Plan(Vec<u8>),
    /// So many clients make so many calls each.
    Any { clients: u32, calls: usize },
}

/// What is wrong.
fn told(alloc: Global, wrong: Wrong) -> Result<String, AllocError> {
    match wrong {
        Wrong::Unlawful => format!(in alloc; "unlawful"),
        Wrong::NoAction => format!(in alloc; "no action"),
        Wrong::Overflow => format!(in alloc; "overflow"),
        Wrong::Broken(Claim::Invariant(number)) => format!(in alloc; "invariant {number}"),
        Wrong::Broken(Claim::Asserted { client, number }) => {
            format!(in alloc; "asserted {client} {number}")
        }
    }
}

/// What exploring a development by scripts says.
fn answer(
    alloc: Global,
    development: &Development,
    scripts: &[Vec<Vec<TextCall>>],
) -> Result<String, OutOfMemory> {
    let numbers = vec![in alloc; -1, 0, 1, 2, 3, 4, 5, 6, 7, 8]?;
    if scripts.len() > SEAT_LIMIT as usize {
        return Ok(format!(in alloc; "too many clients")?);
    }
    Ok(match tour(alloc, development, scripts, &numbers, BUDGET)? {
        Toured::Explored(worlds) => format!(in alloc; "explored {worlds}"),
        Toured::Fails(run) => {
            let wrong = told(alloc, run.wrong)?;
            format!(in alloc; "{wrong} after {} steps", run.ways.len() + 1)
        }
        Toured::Budget => format!(in alloc; "budget"),
    }?)
}

/// What exploring an object by such calls says.
fn explored(alloc: Global, name: &str, calls: Calls) -> Result<Option<String>, Fault> {
    let Some(object) = Lib::named(name) else {
        return Ok(None);
    };
    let development = development_of(alloc, development(object))?;
    let scripts = match calls {
        Calls::Plan(text) => scripts_of(alloc, &plan_of(alloc, &development, &text)?)?,
        Calls::Any { clients, calls } => {
            let numbers = vec![in alloc; 0, 1]?;
            any_scripts(alloc, &development.parts().object, clients, calls, &numbers)?
        }
    };
    Ok(Some(answer(alloc, &development, &scripts)?))
}

/// So many clients with so many calls each, if a word says that.
fn any_calls(word: &str) -> Option<Calls> {
    let (clients, calls) = word.split_once('x')?;
    Some(Calls::Any {
        clients: clients.parse().ok()?,
        calls: calls.parse().ok()?,
    })
}

fn main(rt: HostRuntime) -> anyhow::Result<()> {
    for word in env::args(&rt)?.skip(1) {
        let (name, by) = word.as_str().split_once(':').context(
            "a word is an object and what its clients call, with a colon between them",
        )?;
        let calls = match any_calls(by) {
            Some(calls) => calls,
            None => Calls::Plan(fs::read(&rt, by)?),
        };
        match explored(rt.alloc(), name, calls) {
            Ok(Some(answer)) => println!(rt; "{name} {by}: {answer}")?,
            Ok(None) => bail!("there is no such object"),
            Err(fault) => println!(rt; "{name} {by}: {fault}")?,
        }
    }
    Ok(())
}
