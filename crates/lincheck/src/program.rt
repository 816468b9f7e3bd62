//! What the program does with its command line.
ghost use Rattle.std.specs.Prelude.{◌≡◌, ◌⊎◌, true, IfSome, IsErr};
ghost use Rattle.clap.specs.Words.{kind_of};
ghost use Rattle.lc_words.specs.Reading.{AreWrong, AskFor, AskForHelp, AsksForText};
ghost use Rattle.lc_words.specs.Tasks.{Task, task_of, texts_of};
ghost use Rattle.lincheck.specs.Execution.{AnswersTask, Ends, IsUnread};
ghost use Rattle.lincheck.specs.Printing.{Leaves};
ghost use Rattle.lincheck.specs.Status.{status_of};

use crate::answer::{COMMAND_LINE_FAULT, Failure, SUCCESS, Why};
use crate::carry::answer_carry;
use crate::check::answer_check;
use crate::complete::answer_complete;
use crate::conditions::answer_conditions;
use crate::draw::answer_draw;
use crate::explain::{explain, is_kept};
use crate::explore::{Exploration, answer_explore};
use crate::files::Files;
use crate::formula::answer_formula;
use crate::judge::answer_judge;
use crate::kept::{Kept, Texts};
use crate::library::answer_library;
use crate::new::answer_new;
use crate::order::{Search, answer_order};
use crate::printing::print_told;
use crate::prove::answer_prove;
use crate::run::answer_run;
use crate::show::answer_show;
use crate::telling::{Heard, Telling};
use clap::error::ErrorKind;
use lc_words::{Request, read_words};
use std::alloc::Global;
use std::io;
use std::io::Write;
use std::sync::Wait;
use std::thread::Threads;

/// Whether a request asks to say how far it is.
fn tells_progress(request: Request<'_>) -> bool {
    matches!(
        request,
        Request::Check { progress: true, .. }
            | Request::Prove { progress: true, .. }
            | Request::Carry { progress: true, .. }
            | Request::Complete { progress: true, .. }
    )
}

/// Does what is asked for, prints the answer, returns its status, and hands out why it is refused and what the finder reported. Files
/// are opened, read and judged in the order of the command, so that none is opened after a refusal.
fn carry_out<'a, R: Threads + Wait + Sync, F: Files, O: Write, E: Write>(
    rt: &R,
    alloc: Global,
    request: Request<'a>,
    files: &mut F,
    out: &mut O,
    err: &mut E,
    why: &mut Option<Why>,
    heard: &mut Heard,
    is_kept: bool,
) -> Result<u8, Failure<'a>>
    ensures unread { IsUnread (F.CannotOpen files.old) (F.bytes_at files.old) (task_of request.entry) → IsErr result × (out.new ≡ out.old) }
    ensures leaves { Leaves (task_of request.entry) (AnswersTask (F.bytes_at files.old) (task_of request.entry)) (O.contents out.old) (O.contents out.new) result }
{
    let mut telling = Telling {
        err,
        heard,
        is_asked: tells_progress(request),
        is_kept,
    };
    match request {
        Request::Formula(path) => print_told(out, why, &answer_formula(alloc, files, path)?),
        Request::Judge {
            development,
            history,
        } => {
            let answer = answer_judge(alloc, files, development, history)?;
            print_told(out, why, &answer)
        }
        Request::Show { development, lines } => {
            let answer = answer_show(alloc, files, development, lines)?;
            print_told(out, why, &answer)
        }
        Request::Conditions {
            development,
            chosen,
        } => answer_conditions(alloc, files, development, chosen, out, why),
        Request::Check {
            development,
            certificate,
            workers,
            ..
        } => {
            let answer = answer_check(
                rt,
                alloc,
                files,
                development,
                certificate,
                workers,
                &mut telling,
            )?;
            print_told(out, why, &answer)
        }
        Request::Prove {
            development,
            hints,
            ..
        } => {
            let answer = answer_prove(alloc, files, development, hints, &mut telling)?;
            print_told(out, why, &answer)
        }
        Request::Carry {
            old,
            certificate,
            new,
            hints,
            ..
        } => {
            let answer = answer_carry(alloc, files, old, certificate, new, hints, &mut telling)?;
            print_told(out, why, &answer)
        }
        Request::Run {
            development,
            certificate,
            plan,
            turns,
        } => {
            let answer = answer_run(
                rt,
                alloc,
                files,
                development,
                certificate,
                plan,
                turns,
                telling.err,
            )?;
            print_told(out, why, &answer)
        }
        Request::Draw {
            development,
            history,
            shown,
        } => {
            let answer = answer_draw(alloc, files, development, history, shown)?;
            print_told(out, why, &answer)
        }
        Request::Order {
            development,
            history,
            check,
            budget,
        } => {
            let search = Search { check, budget };
            let answer = answer_order(alloc, files, development, history, search)?;
            print_told(out, why, &answer)
        }
        Request::Complete { short, budget, .. } => {
            let answer = answer_complete(alloc, files, short, budget, &mut telling)?;
            print_told(out, why, &answer)
        }
        Request::Explore {
            development,
            scope,
            bare,
            budget,
        } => {
            let search = Exploration { bare, budget };
            let answer = answer_explore(alloc, files, development, scope, search)?;
            print_told(out, why, &answer)
        }
        Request::New(name) => print_told(out, why, &answer_new(alloc, name)?),
        Request::Library { lib, text } => {
            print_told(out, why, &answer_library(alloc, lib, text)?)
        }
    }
}

/// Says on standard error why there is no answer, with the reason of the system if it gives one, and returns the status. A fault
/// of standard error changes nothing.
fn complain<E: Write>(err: &mut E, failure: &Failure<'_>) -> u8
    ensures { result ≡ status_of failure.now }
{
    let _ = writeln!(err, "lincheck: {failure}");
    if let Some(reason) = failure.reason() {
        let _ = writeln!(err, "  {reason}");
    }
    failure.status()
}

fn print_help<O: Write>(out: &mut O, help: &clap::Error) -> io::Result<()> {
    write!(out, "{help}")?;
    out.flush()
}

/// Shows what `clap` has to say: help on standard output, faults on standard error.
fn tell_usage<O: Write, E: Write>(error: &clap::Error, out: &mut O, err: &mut E) -> u8
    ensures memory { kind_of error.now ≡ ErrorKind.OutOfMemory → (result ≡ 4) × (out.new ≡ out.old) }
    ensures help { AsksForText (kind_of error.now) → (result ≡ 0) ⊎ (result ≡ 3) }
    ensures fault { (AsksForText (kind_of error.now) → ⊥) → ((result ≡ 2) ⊎ (result ≡ 4)) × (out.new ≡ out.old) }
{
    if error.kind() == ErrorKind::OutOfMemory {
        return complain(err, &Failure::OutOfMemory);
    }
    if error.use_stderr() {
        let _ = write!(err, "{error}");
        return COMMAND_LINE_FAULT;
    }
    match print_help(out, error) {
        Ok(()) => SUCCESS,
        Err(_) => complain(err, &Failure::CannotWrite),
    }
}

/// Runs the program on the words of its command line, and returns its exit status.
///
/// Answers and help are written to `out`, all else to `err`: so what is written to `out` and what is answered depends on the task
/// that the words ask for, and not on what they ask to be said beside it. The lines of `conditions` are written as they are made:
/// if memory runs out a beginning of them may have been written. Threads are started, and waited for, by `check` with more than one
/// worker and by `run` alone.
pub fn execute<R: Threads + Wait + Sync, F: Files, O: Write, E: Write>(
    rt: &R,
    alloc: Global,
    words: &[String],
    files: &mut F,
    out: &mut O,
    err: &mut E,
) -> u8
    ensures answers { (task : Task) → AskFor (texts_of words.now) task → Ends task (AnswersTask (F.bytes_at files.old) task) (O.contents out.old) (O.contents out.new) result }
    ensures unread { (task : Task) → AskFor (texts_of words.now) task → IsUnread (F.CannotOpen files.old) (F.bytes_at files.old) task
        → ((result ≡ 3) ⊎ (result ≡ 4)) × (out.new ≡ out.old) }
    ensures help { AskForHelp (texts_of words.now) → ((result ≡ 0) ⊎ ((result ≡ 3) ⊎ (result ≡ 4))) × (files.new ≡ files.old) }
    ensures wrong { AreWrong (texts_of words.now) → ((result ≡ 2) ⊎ (result ≡ 4)) × (out.new ≡ out.old) × (files.new ≡ files.old) }
{
    match read_words(alloc, words) {
        Err(error) => tell_usage(&error, out, err),
        Ok(asked) => {
            let mut why = None;
            let mut heard = Heard::new(alloc);
            let is_kept = is_kept(&asked);
            let mut kept = Kept {
                files,
                texts: Texts::new(alloc),
                is_kept,
            };
            match carry_out(
                rt,
                alloc,
                asked.request,
                &mut kept,
                out,
                err,
                &mut why,
                &mut heard,
                is_kept,
            ) {
                Ok(status) => {
                    explain(alloc, &asked, why, &kept.texts, &heard, err);
                    status
                }
                Err(failure) => complain(err, &failure),
            }
        }
    }
}
