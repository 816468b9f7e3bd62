//! Runs the program on command lines over the files of the system, and prints what it did. What has to be printed was
//! worked out by hand or by an independent program.
//!
//! A line of the file `runs` has the words of a command line, with a space between two. What is printed of it is the line after a `$`,
//! what the program wrote on standard output, then what it wrote on standard error, and its status.
//!
//! A line of the file `edits` has a command line, a file that it reads, a text that is in it once, and another text, with ` : `
//! between them. What is printed of it is the same as of a line of `runs`, with the other text in its place.
//!
//! A line of the file `pieces` has a development and a certificate, with a space between them. What is printed of it is the
//! line, then the verdict when the certificate comes in pieces of 1 byte, of 2, of 7, and whole.
//!
//! A line of the file `made` has two command lines, with ` : ` between them. What is printed of it is the line, then the verdict
//! on what they write on standard output: a development and a certificate.
//!
//! A line of the file `carried` has four command lines, with ` : ` between them: an old development, its certificate, a new
//! development, and hints for it. What is printed of it is the line, how many proofs are carried, the verdict on the certificate that
//! `carry` makes of what they write on standard output, and whether that is carried to the same development as it is.
//!
//! A line of the file `planned` has two command lines and a file, with ` : ` between them: a development, its certificate, and a plan.
//! What is printed of it is the line, and what `run` writes on standard output. Its clients come one after the other, so that it is
//! the same each time.
//!
//! A line of the file `raced` has the same, with clients side by side. What is printed of it is the line, then the first line that `run`
//! writes and each that names a client, and what `judge` says of the history.
#![tactic(auto)]

mod folder;

ghost use Rattle.std.specs.Prelude.{◌≤◌};

use anyhow::{Context, bail};
use folder::{Edited, Folder, Kept, Planned};
use lc_base::FILE_LIMIT;
use lc_carry::carried_entries;
use lc_cert::certificate_of;
use lc_check::{Session, Verdict};
use lc_outline_text::development_of;
use lincheck::{Disk, Files, execute};
use std::alloc::{AllocError, Global};
use std::rt::Files as System;
use std::sync::Wait;
use std::thread::Threads;
use std::{fs, str};

/// More bytes than a file has.
const WHOLE: usize = FILE_LIMIT as usize + 1;

fn words_of(alloc: Global, line: &str) -> Result<Vec<String>, AllocError> {
    let mut words = Vec::new(alloc);
    for word in line.split(' ') {
        words.push(String::from_str(alloc, word)?)?;
    }
    Ok(words)
}

/// What the program did on a command line.
#[derive(Drop)]
struct Ran {
    out: Vec<u8>,
    err: Vec<u8>,
    status: u8,
}

/// Runs the program on the words of a line, over these files.
fn run_over<R: Threads + Wait + Sync, F: Files>(
    rt: &R,
    alloc: Global,
    line: &str,
    files: &mut F,
) -> anyhow::Result<Ran> {
    let words = words_of(alloc, line)?;
    let mut out = Vec::new(alloc);
    let mut err = Vec::new(alloc);
    let status = execute(rt, alloc, words.as_slice(), files, &mut out, &mut err);
    Ok(Ran { out, err, status })
}

/// Runs the program on the words of a line, over the files of the system.
fn run_words<R: System + Print + AllocGlobal + Threads + Wait + Sync>(
    rt: &R,
    line: &str,
) -> anyhow::Result<Ran> {
    run_over(rt, rt.alloc(), line, &mut Disk::new(rt))
}

/// Prints what the program did on a line.
fn print_run<R: Print>(rt: &R, line: &str, ran: &Ran) -> anyhow::Result<()> {
    let out = str::from_utf8(&ran.out)?;
    let err = str::from_utf8(&ran.err)?;
    println!(rt; "$ {line}\n{out}{err}status {}\n", ran.status)?;
    Ok(())
}

/// Runs the program on the words of a line, and prints what it did.
fn run_line<R: System + Print + AllocGlobal + Threads + Wait + Sync>(
    rt: &R,
    line: &str,
) -> anyhow::Result<()> {
    let ran = run_words(rt, line)?;
    print_run(rt, line, &ran)
}

/// A text with another text in place of one that is in it once.
fn edited(alloc: Global, text: &str, old: &str, new: &str) -> anyhow::Result<String> {
    let (before, behind) = text
        .split_once(old)
        .context("the text does not stand there")?;
    if behind.contains(old) {
        bail!("the text stands there twice");
    }
    Ok(format!(in alloc; "{before}{new}{behind}")?)
}

/// The files that these words name.
fn files_of<'a, R: System + AllocGlobal>(rt: &R, words: &'a str) -> anyhow::Result<Vec<Kept<'a>>> {
    let mut files = Vec::new(rt.alloc());
    for path in words.split(' ') {
        if let Ok(bytes) = fs::read(rt, path) {
            files.push(Kept { path, bytes })?;
        }
    }
    Ok(files)
}

/// Runs the program on the words of a line over its file with its edit, and prints what it did.
fn edit_line<R: System + Print + AllocGlobal + Threads + Wait + Sync>(
    rt: &R,
    line: &str,
) -> anyhow::Result<()> {
    let mut parts = line.split(" : ");
    let words = parts.next().context("no command line")?;
    let path = parts.next().context("no file")?;
    let old = parts.next().context("no text")?;
    let new = parts.next().context("no other text")?;
    let text = fs::read_to_string(rt, path)?;
    let text = edited(rt.alloc(), text.as_str(), old, new)?;
    let others = files_of(rt, words)?;
    let mut files = Edited {
        path,
        text: &text,
        others: &others,
    };
    let ran = run_over(rt, rt.alloc(), words, &mut files)?;
    print_run(rt, line, &ran)
}

/// Prints the verdict on a development file and a certificate file that comes in pieces of `size` bytes.
fn check_pieces<R: Print + AllocGlobal>(
    rt: &R,
    dev: &[u8],
    cert: &[u8],
    size: usize,
) -> anyhow::Result<()>
    requires { 1 ≤ size }
{
    let mut session = Session::new(rt.alloc(), dev)?;
    for piece in cert.chunks(size) {
        session.feed(piece)?;
    }
    match session.finish()? {
        Verdict::Accepted(accepted) => {
            println!(rt; "accepted {} {}", accepted.name(), accepted.count())?;
        }
        Verdict::Refused(refusal) => println!(rt; "{refusal}")?,
    }
    Ok(())
}

/// Checks the two files of a line.
fn check_line<R: System + Print + AllocGlobal>(rt: &R, line: &str) -> anyhow::Result<()> {
    let (development, certificate) = line
        .split_once(' ')
        .context("a line has two files, with a space between them")?;
    let dev = fs::read(rt, development)?;
    let cert = fs::read(rt, certificate)?;
    println!(rt; "pieces {line}")?;
    check_pieces(rt, &dev, &cert, 1)?;
    check_pieces(rt, &dev, &cert, 2)?;
    check_pieces(rt, &dev, &cert, 7)?;
    check_pieces(rt, &dev, &cert, WHOLE)
}

/// Checks what the two command lines of a line make.
fn check_made<R: System + Print + AllocGlobal + Threads + Wait + Sync>(
    rt: &R,
    line: &str,
) -> anyhow::Result<()> {
    let (development, certificate) = line
        .split_once(" : ")
        .context("a line has two command lines, with a colon between them")?;
    let dev = run_words(rt, development)?;
    let cert = run_words(rt, certificate)?;
    println!(rt; "made {line}")?;
    check_pieces(rt, &dev.out, &cert.out, WHOLE)
}

/// How many proofs are carried from an old development to a new one.
fn count_carried(alloc: Global, dev: &[u8], cert: &[u8], new: &[u8]) -> anyhow::Result<usize> {
    let old = development_of(alloc, dev)?;
    let certificate = certificate_of(alloc, &old, cert)?;
    let new = development_of(alloc, new)?;
    let carried = carried_entries(alloc, &old, &certificate, &new)?;
    Ok(carried.len())
}

/// The certificate that `carry` makes of the files in a folder.
fn carried_in<R: Threads + Wait + Sync>(
    rt: &R,
    alloc: Global,
    folder: &mut Folder<'_>,
) -> anyhow::Result<Vec<u8>> {
    let words = "lincheck carry old certificate new --hints hints";
    Ok(run_over(rt, alloc, words, folder)?.out)
}

/// Carries a certificate between what the command lines of a line make, and then on to the same development.
fn carry_line<R: System + Print + AllocGlobal + Threads + Wait + Sync>(
    rt: &R,
    line: &str,
) -> anyhow::Result<()> {
    let mut commands = line.split(" : ");
    let old = run_words(rt, commands.next().context("no old development")?)?;
    let certificate = run_words(rt, commands.next().context("no certificate")?)?;
    let new = run_words(rt, commands.next().context("no new development")?)?;
    let hints = run_words(rt, commands.next().context("no hints")?)?;
    let count = count_carried(rt.alloc(), &old.out, &certificate.out, &new.out)?;
    println!(rt; "carried {line}\n{count} proofs are carried")?;
    let mut folder = Folder {
        old: &old.out,
        certificate: &certificate.out,
        new: &new.out,
        hints: &hints.out,
    };
    let carried = carried_in(rt, rt.alloc(), &mut folder)?;
    check_pieces(rt, &new.out, &carried, WHOLE)?;
    let mut folder = Folder {
        old: &new.out,
        certificate: &carried,
        new: &new.out,
        hints: b"(hints)",
    };
    let again = carried_in(rt, rt.alloc(), &mut folder)?;
    if again.as_slice() == carried.as_slice() {
        println!(rt; "carried on, it is the same certificate")?;
    }
    Ok(())
}

/// The files that a line names for a run: what two command lines write, and a plan.
#[derive(Drop)]
struct Plans {
    development: Vec<u8>,
    certificate: Vec<u8>,
    plan: Vec<u8>,
}

fn plans_of<R: System + Print + AllocGlobal + Threads + Wait + Sync>(
    rt: &R,
    line: &str,
) -> anyhow::Result<Plans> {
    let mut parts = line.split(" : ");
    let development = run_words(rt, parts.next().context("no development")?)?;
    let certificate = run_words(rt, parts.next().context("no certificate")?)?;
    let plan = fs::read(rt, parts.next().context("no plan")?)?;
    Ok(Plans {
        development: development.out,
        certificate: certificate.out,
        plan,
    })
}

/// What `run` writes on standard output.
fn ran_by<R: AllocGlobal + Threads + Wait + Sync>(
    rt: &R,
    plans: &Plans,
) -> anyhow::Result<Vec<u8>> {
    let mut folder = Planned {
        development: &plans.development,
        certificate: &plans.certificate,
        plan: &plans.plan,
        history: &[],
    };
    let words = "lincheck run development certificate plan";
    Ok(run_over(rt, rt.alloc(), words, &mut folder)?.out)
}

/// Runs what a line names by its plan, and prints what is written.
fn run_planned<R: System + Print + AllocGlobal + Threads + Wait + Sync>(
    rt: &R,
    line: &str,
) -> anyhow::Result<()> {
    let plans = plans_of(rt, line)?;
    let out = ran_by(rt, &plans)?;
    let out = str::from_utf8(&out)?;
    println!(rt; "planned {line}\n{out}")?;
    Ok(())
}

/// Runs what a line names by its plan, and prints what is the same each time, with what `judge` says of the history.
fn run_raced<R: System + Print + AllocGlobal + Threads + Wait + Sync>(
    rt: &R,
    line: &str,
) -> anyhow::Result<()> {
    let plans = plans_of(rt, line)?;
    let out = ran_by(rt, &plans)?;
    let out = str::from_utf8(&out)?;
    println!(rt; "raced {line}")?;
    for told in out.split('\n') {
        if told.starts_with("linearizable") || told.starts_with("client") {
            println!(rt; "{told}")?;
        }
        if told.starts_with("{") {
            let mut folder = Planned {
                development: &plans.development,
                certificate: &[],
                plan: &[],
                history: told.as_bytes(),
            };
            let judged = run_over(
                rt,
                rt.alloc(),
                "lincheck judge development history",
                &mut folder,
            )?;
            let verdict = str::from_utf8(&judged.out)?;
            println!(rt; "judged {verdict}")?;
        }
    }
    Ok(())
}

fn run_lines<R: System + Print + AllocGlobal + Threads + Wait + Sync>(
    rt: &R,
) -> anyhow::Result<()> {
    let lines = fs::read_to_string(rt, "runs")?;
    for line in lines.as_str().split('\n') {
        if !line.is_empty() {
            run_line(rt, line)?;
        }
    }
    Ok(())
}

fn edit_lines<R: System + Print + AllocGlobal + Threads + Wait + Sync>(
    rt: &R,
) -> anyhow::Result<()> {
    let lines = fs::read_to_string(rt, "edits")?;
    for line in lines.as_str().split('\n') {
        if !line.is_empty() {
            edit_line(rt, line)?;
        }
    }
    Ok(())
}

fn check_lines<R: System + Print + AllocGlobal>(rt: &R) -> anyhow::Result<()> {
    let lines = fs::read_to_string(rt, "pieces")?;
    for line in lines.as_str().split('\n') {
        if !line.is_empty() {
            check_line(rt, line)?;
        }
    }
    Ok(())
}

fn check_made_lines<R: System + Print + AllocGlobal + Threads + Wait + Sync>(
    rt: &R,
) -> anyhow::Result<()> {
    let lines = fs::read_to_string(rt, "made")?;
    for line in lines.as_str().split('\n') {
        if !line.is_empty() {
            check_made(rt, line)?;
        }
    }
    Ok(())
}

fn carry_lines<R: System + Print + AllocGlobal + Threads + Wait + Sync>(
    rt: &R,
) -> anyhow::Result<()> {
    let lines = fs::read_to_string(rt, "carried")?;
    for line in lines.as_str().split('\n') {
        if !line.is_empty() {
            carry_line(rt, line)?;
        }
    }
    Ok(())
}

fn run_planned_lines<R: System + Print + AllocGlobal + Threads + Wait + Sync>(
    rt: &R,
) -> anyhow::Result<()> {
    let lines = fs::read_to_string(rt, "planned")?;
    for line in lines.as_str().split('\n') {
        if !line.is_empty() {
            run_planned(rt, line)?;
        }
    }
    Ok(())
}

fn run_raced_lines<R: System + Print + AllocGlobal + Threads + Wait + Sync>(
    rt: &R,
) -> anyhow::Result<()> {
    let lines = fs::read_to_string(rt, "raced")?;
    for line in lines.as_str().split('\n') {
        if !line.is_empty() {
            run_raced(rt, line)?;
        }
    }
    Ok(())
}

fn main(rt: HostRuntime) -> anyhow::Result<()> {
    run_lines(&rt)?;
    edit_lines(&rt)?;
    check_lines(&rt)?;
    check_made_lines(&rt)?;
    carry_lines(&rt)?;
    run_planned_lines(&rt)?;
    run_raced_lines(&rt)
}
