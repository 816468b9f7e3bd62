//! The verdicts of many workers. What has to be printed was worked out by hand.
//!
//! A line of the file `files` has a development and a certificate, with a space between them. What is printed of it is the line, then
//! the verdict by 1 worker, by 2, by 7, and by 64.
//!
//! A line of the file `side_by_side` has the same. What is printed of it is the line, then the verdict by 2 workers under a gate that
//! holds each of conditions 0 and 1 until the other is begun, and whether that came about.
use crate::meeting::Meeting;
use anyhow::Context;
use lc_check::Verdict;
use lc_pool::{NoGate, check_with};
use std::fs;
use std::rt::Files;
use std::sync::Wait;
use std::thread::Threads;

/// Prints a verdict.
pub fn print_verdict<R: Print>(rt: &R, verdict: &Verdict) -> anyhow::Result<()> {
    match verdict {
        Verdict::Accepted(accepted) => {
            println!(rt; "accepted {} {}", accepted.name(), accepted.count())?;
        }
        Verdict::Refused(refusal) => println!(rt; "{refusal}")?,
    }
    Ok(())
}

/// The two files that a line names.
fn two_files<R: Files + AllocGlobal>(rt: &R, line: &str) -> anyhow::Result<(Vec<u8>, Vec<u8>)> {
    let (development, certificate) = line
        .split_once(' ')
        .context("a line has two files, with a space between them")?;
    let dev = fs::read(rt, development)?;
    let cert = fs::read(rt, certificate)?;
    Ok((dev, cert))
}

/// Prints the verdict on two files by `workers` workers.
fn check_by<R: Print + AllocGlobal + Threads + Wait + Sync>(
    rt: &R,
    dev: &[u8],
    cert: &[u8],
    workers: u64,
) -> anyhow::Result<()> {
    let verdict = check_with(rt, rt.alloc(), dev, cert, workers, &NoGate)?;
    print_verdict(rt, &verdict)
}

/// Checks the two files of a line, by few workers and by many.
fn check_line<R: Files + Print + AllocGlobal + Threads + Wait + Sync>(
    rt: &R,
    line: &str,
) -> anyhow::Result<()> {
    let (dev, cert) = two_files(rt, line)?;
    println!(rt; "{line}")?;
    for workers in [1, 2, 7, 64] {
        check_by(rt, &dev, &cert, workers)?;
    }
    Ok(())
}

/// Checks the two files of a line by two workers, each of which waits for the other.
fn check_side_by_side<R: Files + Print + AllocGlobal + Threads + Wait + Sync>(
    rt: &R,
    line: &str,
) -> anyhow::Result<()> {
    let (dev, cert) = two_files(rt, line)?;
    println!(rt; "side by side {line}")?;
    let meeting = Meeting::new();
    let verdict = check_with(rt, rt.alloc(), &dev, &cert, 2, &meeting)?;
    print_verdict(rt, &verdict)?;
    let begun = if meeting.came_about() {
        "both begun"
    } else {
        "not both begun"
    };
    println!(rt; "{begun}")?;
    Ok(())
}

/// Checks the files of all lines.
pub fn check_lines<R: Files + Print + AllocGlobal + Threads + Wait + Sync>(
    rt: &R,
) -> anyhow::Result<()> {
    let lines = fs::read_to_string(rt, "files")?;
    for line in lines.as_str().lines() {
        check_line(rt, line)?;
    }
    let lines = fs::read_to_string(rt, "side_by_side")?;
    for line in lines.as_str().lines() {
        check_side_by_side(rt, line)?;
    }
    Ok(())
}

/// Prints the verdict on the two files of these names, by as many workers as are said.
pub fn check_files<R: Files + Print + AllocGlobal + Threads + Wait + Sync>(
    rt: &R,
    development: &str,
    certificate: &str,
    workers: &str,
) -> anyhow::Result<()> {
    let workers = workers.parse().context("WORKERS is a number")?;
    let dev = fs::read(rt, development)?;
    let cert = fs::read(rt, certificate)?;
    check_by(rt, &dev, &cert, workers)
}
