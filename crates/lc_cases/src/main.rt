//! Answers cases, a line for each. What has to be printed was worked out by hand, or by an independent program.
//!
//! A word of the command line is a kind of cases and a file, with a colon between them. A line of the file is a case: a
//! name, a space, and a text. What is printed is the name and the answer. A `formula-file` is one case as it is.
#![tactic(auto)]

mod formulas;
mod histories;
mod objects;
mod terms;

use crate::formulas::{answer_formula, answer_prefixes};
use crate::histories::{answer_history, answer_rewritten, answer_specification};
use crate::objects::answer_object;
use crate::terms::{Place, answer_term};
use anyhow::{Context, bail};
use std::{env, fs};

fn answer_case(rt: &HostRuntime, kind: &str, name: &str, text: &str) -> anyhow::Result<()> {
    match kind {
        "formula" => answer_formula(rt, name, text.as_bytes())?,
        "prefixes" => answer_prefixes(rt, name, text.as_bytes())?,
        "spec" => answer_specification(rt, name, text.as_bytes())?,
        "judge" => answer_history(rt, name, text)?,
        "history" => answer_rewritten(rt, name, text)?,
        "object" => answer_object(rt, name, text.as_bytes())?,
        "term" => answer_term(rt, Place { everything: true }, name, text)?,
        "plain-term" => answer_term(rt, Place { everything: false }, name, text)?,
        _ => bail!("there is no such kind of cases"),
    }
    Ok(())
}

/// Answers a file that is one case.
fn answer_file(rt: &HostRuntime, path: &str) -> anyhow::Result<()> {
    let text = fs::read(rt, path)?;
    answer_formula(rt, path, &text)?;
    Ok(())
}

fn answer_cases(rt: &HostRuntime, kind: &str, path: &str) -> anyhow::Result<()> {
    let cases = fs::read_to_string(rt, path)?;
    for line in cases.as_str().split('\n') {
        if !line.is_empty() {
            let (name, text) = line
                .split_once(' ')
                .context("a case has a name and a text, with a space between them")?;
            answer_case(rt, kind, name, text)?;
        }
    }
    Ok(())
}

fn main(rt: HostRuntime) -> anyhow::Result<()> {
    for word in env::args(&rt)?.skip(1) {
        let (kind, path) = word
            .as_str()
            .split_once(':')
            .context("a word is a kind and a file, with a colon between them")?;
        if kind == "formula-file" {
            answer_file(&rt, path)?;
        } else {
            answer_cases(&rt, kind, path)?;
        }
    }
    Ok(())
}
