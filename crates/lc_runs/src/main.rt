//! Makes calls and prints what they answer: verdicts by many workers, then calls whose allocations are refused.
//!
//! Given the word of a call, it makes that one alone: `check`, `pieces`, `workers`, `find`, `judge`, `history`, `plan`, `steps` or
//! `finish`. Given the words DEV CERT WORKERS, it prints the verdict on these files by WORKERS workers, and nothing else.
#![tactic(auto)]

mod calls;
mod meeting;
mod running;
mod workers;

use calls::{make_call, make_calls, read_texts};
use std::env;
use std::rt::Files;
use std::sync::Wait;
use std::thread::Threads;
use workers::{check_files, check_lines};

/// Does what the words say.
fn answer<R: Files + Print + AllocGlobal + Threads + Wait + Sync>(
    rt: &R,
    words: &[String],
) -> anyhow::Result<()> {
    match words {
        [_, word] => make_call(rt, word, &read_texts(rt)?),
        [_, development, certificate, workers] => {
            check_files(
                rt,
                development.as_str(),
                certificate.as_str(),
                workers.as_str(),
            )
        }
        _ => {
            check_lines(rt)?;
            make_calls(rt, &read_texts(rt)?)
        }
    }
}

fn main(rt: HostRuntime) -> anyhow::Result<()> {
    let words: Vec<String> = env::args(&rt)?.collect(rt.alloc())?;
    answer(&rt, words.as_slice())
}
