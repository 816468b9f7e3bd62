//! Calls on a counter, each made once more if it returns `OutOfMemory`. So with any one allocation of a call refused,
//! what is printed is what is printed with ample memory, which `stress/refused-commands --calls` shows, refusing each in turn. What a call
//! is made on is made before its word is printed, so the allocations of the call are those after the word.
use crate::running::{print_finish, print_steps};
use crate::workers::print_verdict;
use anyhow::bail;
use lc_base::{Fault, OutOfMemory};
use lc_cert::certificate_text;
use lc_check::{Accepted, Session, Verdict, check};
use lc_find::{FindFault, find};
use lc_hints::Hints;
use lc_hist::{history_from_json, history_to_json};
use lc_history::{JudgeFault, judge};
use lc_outline::Development;
use lc_outline_text::development_of;
use lc_plan::plan_of;
use lc_pool::{NoGate, check_with};
use lc_seq::TextSpec;
use lc_spec_text::spec_of;
use std::alloc::Global;
use std::fs;
use std::rt::Files;
use std::sync::{Arc, Wait};
use std::thread::Threads;

/// The bytes of a certificate that are fed at a time.
const PIECE: usize = 100;

/// Proof steps that are tried for each condition.
const BUDGET: u64 = 1_000_000;

const PLAN: &str = "(plan 2 (phase (0 (call inc) (times 3 (call get))) (1 (upto 9 inc))))";

/// The files that the calls are made on.
pub struct Texts {
    development: Vec<u8>,
    certificate: Vec<u8>,
    history: Vec<u8>,
}

impl Drop for Texts {
    fn drop(self) {
        let Texts {
            development: _,
            certificate: _,
            history: _,
        } = self;
    }
}

/// By which call a certificate is checked.
#[derive(Clone, Copy)]
enum Checker {
    Whole,
    InPieces,
    TwoWorkers,
}

fn checked_in_pieces(alloc: Global, dev: &[u8], cert: &[u8]) -> Result<Verdict, OutOfMemory> {
    let mut session = Session::new(alloc, dev)?;
    for piece in cert.chunks(PIECE) {
        session.feed(piece)?;
    }
    session.finish()
}

fn verdict_by<R: AllocGlobal + Threads + Wait + Sync>(
    rt: &R,
    checker: Checker,
    texts: &Texts,
) -> Result<Verdict, OutOfMemory> {
    let (alloc, dev, cert) = (rt.alloc(), &texts.development, &texts.certificate);
    match checker {
        Checker::Whole => check(alloc, dev, cert),
        Checker::InPieces => checked_in_pieces(alloc, dev, cert),
        Checker::TwoWorkers => check_with(rt, alloc, dev, cert, 2, &NoGate),
    }
}

/// Prints the verdict on the development and its certificate.
fn print_verdict_by<R: Print + AllocGlobal + Threads + Wait + Sync>(
    rt: &R,
    word: &str,
    checker: Checker,
    texts: &Texts,
) -> anyhow::Result<()> {
    print!(rt; "{word}: ")?;
    let verdict = match verdict_by(rt, checker, texts) {
        Err(OutOfMemory) => verdict_by(rt, checker, texts)?,
        Ok(verdict) => verdict,
    };
    print_verdict(rt, &verdict)
}

/// The text of a certificate that is found.
fn found_text(
    alloc: Global,
    development: &Development,
    hints: &Hints,
) -> Result<Vec<u8>, FindFault> {
    let certificate = find(alloc, development, hints, BUDGET)?;
    Ok(certificate_text(alloc, development, &certificate)?)
}

/// Prints how long the certificate is that is found without hints.
fn print_found<R: Print + AllocGlobal>(rt: &R, texts: &Texts) -> anyhow::Result<()> {
    let alloc = rt.alloc();
    let development = development_of(alloc, &texts.development)?;
    let hints = Hints::new(alloc);
    print!(rt; "find: ")?;
    let text = match found_text(alloc, &development, &hints) {
        Err(FindFault::OutOfMemory) => found_text(alloc, &development, &hints)?,
        told => told?,
    };
    println!(rt; "a certificate of {} bytes", text.len())?;
    Ok(())
}

/// Whether the order of the history linearizes it.
fn is_linearized(alloc: Global, spec: &TextSpec, json: &[u8]) -> Result<bool, Fault> {
    let (history, order) = history_from_json(alloc, spec, json)?;
    match judge(alloc, spec, &history, &order) {
        Ok(()) => Ok(true),
        Err(JudgeFault::OutOfMemory) => Err(Fault::OutOfMemory),
        Err(_) => Ok(false),
    }
}

fn print_judgement<R: Print + AllocGlobal>(rt: &R, texts: &Texts) -> anyhow::Result<()> {
    let alloc = rt.alloc();
    let spec = spec_of(alloc, &texts.development)?;
    print!(rt; "judge: ")?;
    let is_linear = match is_linearized(alloc, &spec, &texts.history) {
        Err(Fault::OutOfMemory) => is_linearized(alloc, &spec, &texts.history)?,
        told => told?,
    };
    if is_linear {
        println!(rt; "the order linearizes the history")?;
    } else {
        println!(rt; "the order does not linearize the history")?;
    }
    Ok(())
}

/// The text of a history that was read.
fn history_again(alloc: Global, spec: &TextSpec, json: &[u8]) -> Result<Vec<u8>, Fault> {
    let (history, order) = history_from_json(alloc, spec, json)?;
    Ok(history_to_json(alloc, spec, &history, &order)?)
}

fn print_history<R: Print + AllocGlobal>(rt: &R, texts: &Texts) -> anyhow::Result<()> {
    let alloc = rt.alloc();
    let spec = spec_of(alloc, &texts.development)?;
    print!(rt; "history: ")?;
    let text = match history_again(alloc, &spec, &texts.history) {
        Err(Fault::OutOfMemory) => history_again(alloc, &spec, &texts.history)?,
        told => told?,
    };
    println!(rt; "a text of {} bytes", text.len())?;
    Ok(())
}

fn print_plan<R: Print + AllocGlobal>(rt: &R, texts: &Texts) -> anyhow::Result<()> {
    let alloc = rt.alloc();
    let development = development_of(alloc, &texts.development)?;
    print!(rt; "plan: ")?;
    let plan = match plan_of(alloc, &development, PLAN.as_bytes()) {
        Err(Fault::OutOfMemory) => plan_of(alloc, &development, PLAN.as_bytes())?,
        told => told?,
    };
    println!(rt; "a plan of {} clients", plan.clients)?;
    Ok(())
}

/// The counter, accepted by its certificate.
fn accepted(alloc: Global, texts: &Texts) -> anyhow::Result<Arc<Accepted>> {
    match check(alloc, &texts.development, &texts.certificate)? {
        Verdict::Accepted(accepted) => Ok(Arc::new(alloc, accepted)?),
        Verdict::Refused(_) => bail!("the counter is refused"),
    }
}

/// Makes the call of a word.
pub fn make_call<R: Print + AllocGlobal + Threads + Wait + Sync>(
    rt: &R,
    word: &str,
    texts: &Texts,
) -> anyhow::Result<()> {
    match word {
        "check" => print_verdict_by(rt, word, Checker::Whole, texts),
        "pieces" => print_verdict_by(rt, word, Checker::InPieces, texts),
        "workers" => print_verdict_by(rt, word, Checker::TwoWorkers, texts),
        "find" => print_found(rt, texts),
        "judge" => print_judgement(rt, texts),
        "history" => print_history(rt, texts),
        "plan" => print_plan(rt, texts),
        "steps" => print_steps(rt, accepted(rt.alloc(), texts)?),
        "finish" => print_finish(rt, accepted(rt.alloc(), texts)?),
        _ => bail!("no call has this word"),
    }
}

pub fn read_texts<R: Files + AllocGlobal>(rt: &R) -> anyhow::Result<Texts> {
    Ok(Texts {
        development: fs::read(rt, "counter.lc")?,
        certificate: fs::read(rt, "counter.cert")?,
        history: fs::read(rt, "linearizable.json")?,
    })
}

/// Makes each call.
pub fn make_calls<R: Print + AllocGlobal + Threads + Wait + Sync>(
    rt: &R,
    texts: &Texts,
) -> anyhow::Result<()> {
    for word in [
        "check", "pieces", "workers", "find", "judge", "history", "plan", "steps", "finish",
    ] {
        make_call(rt, word, texts)?;
    }
    Ok(())
}
