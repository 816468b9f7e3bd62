//! The command `run`.
ghost use Rattle.std.specs.Prelude.{◌≡◌, ◌++◌, ◌-◌, ℕ, List, Some, flat_map, IfOk, IsErr, OnOk};
ghost use Rattle.std.specs.Arc.{arc_value};
ghost use Rattle.lc_sexp.specs.Pieces.{WasFed};
ghost use Rattle.lc_reading.specs.Files.{IsAnswerTo};
ghost use Rattle.lc_check.specs.VerdictView.{development_in};
ghost use Rattle.lc_crew.specs.Ran.{IsRunOf};
ghost use Rattle.lc_outline.specs.DevelopmentView.{development_view};
ghost use Rattle.lc_plan.specs.Readings.{plan_reading};
ghost use Rattle.lc_plan.specs.View.{plan_of};
ghost use Rattle.lc_run.specs.LabelView.{labels_of};
ghost use Rattle.lc_trace.specs.Traces.{TellsSteps};
ghost use Rattle.lc_words.specs.Tasks.{RunPlan};
ghost use Rattle.lincheck.specs.Execution.{AnswersTask, IsUnread};
ghost use Rattle.lincheck.specs.Reading.{OfFile};
ghost use Rattle.lincheck.specs.Run.{AnswersPlan, AnswersProvenRun, IsUnreadPlan, OpensAccepted, OpensPlan, RunsBy, TellsBy, TellsRun, TellsSeeds, TellsTrace, TracesRan, end_text, ended_text, halt_text, ran_text, seed_text};

use crate::answer::{Answer, Failure, SEATS_DO_NOT_MATCH, SUCCESS, told_fault};
use crate::check::open_development;
use crate::files::Files;
use crate::reading::{feed_file, feed_forms};
use crate::sink::Proving;
use lc_base::{Fault, OutOfMemory, write_line};
use lc_check::{Accepted, Alone, CertificateSession, Verdict};
use lc_crew::{Ended, Halt, Ran, Stop, run, run_drawn};
use lc_hist::history_to_json;
use lc_outline::Development;
use lc_plan::{Plan, plan_in};
use lc_sexp::FormsReader;
use lc_trace::{TraceFault, trace};
use lc_words::Turns;
use std::alloc::Global;
use std::io::Write;
use std::sync::{Arc, Wait};
use std::thread::Threads;

/// The development, if the certificate at a path proves it; else the answer that tells its refusal.
fn accept_at<'a, F: Files>(
    alloc: Global,
    files: &mut F,
    development: Development,
    path: &'a str,
) -> Result<Result<Accepted, Answer>, Failure<'a>>
    ensures keeps { (other : List ℕ) → F.bytes_at files.new other ≡ F.bytes_at files.old other }
    ensures closed { (other : List ℕ) → F.CannotOpen files.old other → F.CannotOpen files.new other }
    ensures unread { F.CannotOpen files.old path.now → IsErr result }
    ensures opens { IfOk result (λ opened. OfFile (F.bytes_at files.old path.now) (λ file. OpensAccepted (development_view development) file opened)) }
{
    let session = CertificateSession::new(alloc, development)?;
    let prover = Alone;
    let mut proving = Proving { session, prover };
    feed_file(files, path, &mut proving)?;
    let Proving { session, prover: _ } = proving;
    let verdict = session.finish()?;
    match verdict {
        Verdict::Accepted(accepted) => Ok(Ok(accepted)),
        Verdict::Refused(refusal) => Ok(Err(told_fault(alloc, Fault::Refused(refusal))?)),
    }
}

/// The plan for a development in the file that a reader was fed; else its first refusal.
fn plan_fed(alloc: Global, development: &Development, reader: FormsReader) -> Result<Plan, Fault>
    requires { (bytes : List ℕ) × WasFed reader bytes }
    ensures { (bytes : List ℕ) → WasFed reader bytes → IsAnswerTo plan_of (plan_reading (development_view development.now)) bytes result }
{
    let forms = reader.finish()?;
    plan_in(alloc, development, forms)
}

/// The plan for a development in the file at a path; else the answer that tells its first refusal.
pub(crate) fn open_plan<'a, F: Files>(
    alloc: Global,
    files: &mut F,
    development: &Development,
    path: &'a str,
) -> Result<Result<Plan, Answer>, Failure<'a>>
    ensures unread { F.CannotOpen files.old path.now → IsErr result }
    ensures opens { IfOk result (λ opened. OfFile (F.bytes_at files.old path.now) (λ file. OpensPlan (development_view development.now) file opened)) }
{
    let reader = feed_forms(alloc, files, path)?;
    match plan_fed(alloc, development, reader) {
        Ok(plan) => Ok(Ok(plan)),
        Err(fault) => Ok(Err(told_fault(alloc, fault)?)),
    }
}

/// Appends the line for a client that makes no further call.
fn push_halt(alloc: Global, text: &mut Vec<u8>, client: u32, halt: Halt) -> Result<(), OutOfMemory>
    ensures { OnOk result (text.new.items ≡ text.old.items ++ halt_text client (Some halt)) }
{
    let line = format!(in alloc; "client {client} {halt}\n")?;
    text.extend_from_slice(line.as_bytes())?;
    Ok(())
}

/// Appends the line for a client, if it did not come to its end.
fn push_end(alloc: Global, text: &mut Vec<u8>, ended: &Ended) -> Result<(), OutOfMemory>
    ensures { OnOk result (text.new.items ≡ text.old.items ++ end_text ended.now) }
{
    match ended.halt {
        Some(halt) => push_halt(alloc, text, ended.client, halt),
        None => Ok(()),
    }
}

/// Appends the lines for the clients that did not come to their ends.
fn push_ends(alloc: Global, text: &mut Vec<u8>, ends: &[Ended]) -> Result<(), OutOfMemory>
    ensures { OnOk result (text.new.items ≡ text.old.items ++ flat_map end_text ends.now) }
{
    for ended in ends {
        push_end(alloc, text, ended)?;
    }
    Ok(())
}

/// What is printed of a run.
fn ran_text(alloc: Global, development: &Development, ran: &Ran) -> Result<Vec<u8>, OutOfMemory>
    ensures { IfOk result (λ text. text.items ≡ ran_text (development_view development.now) ran.now) }
{
    let mut text = write_line(alloc, "linearizable", &[ran.log.order.len() as u64])?;
    push_ends(alloc, &mut text, &ran.ends)?;
    let specification = &development.parts().specification;
    let history = history_to_json(alloc, specification, &ran.log.history, &ran.log.order)?;
    text.extend_from_slice(&history)?;
    text.push(b'\n')?;
    Ok(text)
}

/// Appends what the line of a run by a seed says of a client, if it did not come to its end.
fn push_ended(alloc: Global, line: &mut Vec<u8>, ended: &Ended) -> Result<(), OutOfMemory>
    ensures { OnOk result (line.new.items ≡ line.old.items ++ ended_text ended.now) }
{
    let Some(halt) = ended.halt else {
        return Ok(());
    };
    let client = ended.client;
    let words = format!(in alloc; " client {client} {halt}")?;
    line.extend_from_slice(words.as_bytes())?;
    Ok(())
}

/// Appends what the line of a run by a seed says of the clients that did not come to their ends.
fn push_all_ended(alloc: Global, line: &mut Vec<u8>, ends: &[Ended]) -> Result<(), OutOfMemory>
    ensures { OnOk result (line.new.items ≡ line.old.items ++ flat_map ended_text ends.now) }
{
    for ended in ends {
        push_ended(alloc, line, ended)?;
    }
    Ok(())
}

/// The line of a run by a seed.
fn seed_line(
    alloc: Global,
    seed: u64,
    entries: usize,
    ends: &[Ended],
) -> Result<Vec<u8>, OutOfMemory>
    ensures { IfOk result (λ line. line.items ≡ seed_text seed entries ends.now) }
{
    let words = format!(in alloc; "seed {seed} linearizable {entries}")?;
    let mut line = words.into_bytes();
    push_all_ended(alloc, &mut line, ends)?;
    line.push(b'\n')?;
    Ok(line)
}

/// What is printed of runs by a plan and each of these seeds.
fn seeds_text<R: Wait>(
    rt: &R,
    alloc: Global,
    accepted: Arc<Accepted>,
    plan: &Plan,
    first: u64,
    end: u64,
) -> Result<Vec<u8>, Stop>
    ensures { IfOk result (λ text. TellsSeeds (development_in (arc_value accepted)) (plan_of plan.now) (end - first) first text.items) }
{
    let mut text = Vec::new(alloc);
    for seed in first..end {
        let ours = Arc::try_clone(&accepted)?;
        let ran = run_drawn(rt, alloc, ours, plan, seed)?;
        let line = seed_line(alloc, seed, ran.log.order.len(), &ran.ends)?;
        text.extend_from_slice(&line)?;
    }
    Ok(text)
}

/// What runs by a plan, in threads, or drawn from a seed.
fn ran_with<R: Threads + Wait + Sync>(
    rt: &R,
    alloc: Global,
    accepted: Arc<Accepted>,
    plan: &Plan,
    seed: Option<u64>,
) -> Result<Ran, Stop>
    ensures { IfOk result (IsRunOf (development_in (arc_value accepted)) plan.now.clients (plan_of plan.now).phases) }
{
    match seed {
        None => run(rt, alloc, accepted, plan),
        Some(seed) => run_drawn(rt, alloc, accepted, plan, seed),
    }
}

/// What is printed of a run by a plan.
fn text_with<R: Threads + Wait + Sync>(
    rt: &R,
    alloc: Global,
    accepted: Arc<Accepted>,
    plan: &Plan,
    seed: Option<u64>,
) -> Result<Vec<u8>, Stop>
    ensures { IfOk result (λ text. TellsRun (development_in (arc_value accepted)) (plan_of plan.now) text.items) }
{
    let ours = Arc::try_clone(&accepted)?;
    let ran = ran_with(rt, alloc, accepted, plan, seed)?;
    Ok(ran_text(alloc, ours.development(), &ran)?)
}

/// The lines of the steps of what has run.
fn step_lines(
    alloc: Global,
    development: &Development,
    clients: u32,
    ran: &Ran,
) -> Result<Vec<u8>, Stop>
    ensures { IfOk result (λ lines. TellsSteps (development_view development.now) clients (labels_of ran.now.log.labels.items) lines.items) }
{
    match trace(alloc, development, clients, &ran.log.labels) {
        Ok(lines) => Ok(lines),
        Err(TraceFault::OutOfMemory) => Err(Stop::OutOfMemory),
        Err(TraceFault::Mismatch) => Err(Stop::Mismatch),
    }
}

/// What is printed of a run in which each step is told.
fn trace_text(
    alloc: Global,
    development: &Development,
    clients: u32,
    ran: &Ran,
) -> Result<Vec<u8>, Stop>
    ensures { IfOk result (λ text. TracesRan (development_view development.now) clients ran.now text.items) }
{
    let lines = step_lines(alloc, development, clients, ran)?;
    let mut text = write_line(alloc, "linearizable", &[ran.log.order.len() as u64])?;
    push_ends(alloc, &mut text, &ran.ends)?;
    text.extend_from_slice(&lines)?;
    Ok(text)
}

/// What is printed of a run by a plan, each step of which is told.
fn traced_with<R: Threads + Wait + Sync>(
    rt: &R,
    alloc: Global,
    accepted: Arc<Accepted>,
    plan: &Plan,
    seed: Option<u64>,
) -> Result<Vec<u8>, Stop>
    ensures { IfOk result (λ text. TellsTrace (development_in (arc_value accepted)) (plan_of plan.now) text.items) }
{
    let ours = Arc::try_clone(&accepted)?;
    let ran = ran_with(rt, alloc, accepted, plan, seed)?;
    trace_text(alloc, ours.development(), plan.clients, &ran)
}

/// What is printed of a run by a plan, or of several.
fn text_by<R: Threads + Wait + Sync>(
    rt: &R,
    alloc: Global,
    accepted: Arc<Accepted>,
    plan: &Plan,
    turns: Turns,
) -> Result<Vec<u8>, Stop>
    ensures { IfOk result (λ text. TellsBy turns (development_in (arc_value accepted)) (plan_of plan.now) text.items) }
{
    match turns {
        Turns::Free => text_with(rt, alloc, accepted, plan, None),
        Turns::Drawn(seed) => text_with(rt, alloc, accepted, plan, Some(seed)),
        Turns::DrawnEach(first, end) => seeds_text(rt, alloc, accepted, plan, first, end),
        Turns::Traced(seed) => traced_with(rt, alloc, accepted, plan, seed),
    }
}

/// The answer of a run by a plan. If seats do not match, nothing is printed but a line on standard error.
fn answer_ran<R: Threads + Wait + Sync, E: Write>(
    rt: &R,
    alloc: Global,
    accepted: Accepted,
    plan: &Plan,
    turns: Turns,
    err: &mut E,
) -> Result<Answer, OutOfMemory>
    ensures { IfOk result (λ answer. RunsBy turns (development_in accepted) (plan_of plan.now) answer.text.items answer.status) }
{
    let accepted = Arc::new(alloc, accepted)?;
    match text_by(rt, alloc, accepted, plan, turns) {
        Ok(text) => Ok(Answer {
            text,
            status: SUCCESS,
            why: None,
        }),
        Err(Stop::OutOfMemory | Stop::NoThread) => Err(OutOfMemory),
        Err(Stop::Mismatch) => {
            let _ = writeln!(err, "lincheck: seats do not match");
            Ok(Answer {
                text: Vec::new(alloc),
                status: SEATS_DO_NOT_MATCH,
                why: None,
            })
        }
    }
}

/// The answer to the plan at a path, of an accepted development.
fn answer_planned<'a, R: Threads + Wait + Sync, F: Files, E: Write>(
    rt: &R,
    alloc: Global,
    files: &mut F,
    accepted: Accepted,
    path: &'a str,
    turns: Turns,
    err: &mut E,
) -> Result<Answer, Failure<'a>>
    ensures unread { F.CannotOpen files.old path.now → IsErr result }
    ensures answers { IfOk result (λ answer. OfFile (F.bytes_at files.old path.now) (λ file. AnswersPlan turns (development_in accepted) file answer.text.items answer.status)) }
{
    match open_plan(alloc, files, accepted.development(), path)? {
        Ok(plan) => Ok(answer_ran(rt, alloc, accepted, &plan, turns, err)?),
        Err(answer) => Ok(answer),
    }
}

/// The answer to the certificate and the plan at two paths, of a development. If the certificate is refused, the plan is not
/// opened.
fn answer_proven<'a, R: Threads + Wait + Sync, F: Files, E: Write>(
    rt: &R,
    alloc: Global,
    files: &mut F,
    development: Development,
    certificate: &'a str,
    plan: &'a str,
    turns: Turns,
    err: &mut E,
) -> Result<Answer, Failure<'a>>
    ensures unread { IsUnreadPlan (F.CannotOpen files.old) (F.bytes_at files.old) (development_view development) certificate.now plan.now → IsErr result }
    ensures answers { IfOk result (λ answer. OfFile (F.bytes_at files.old certificate.now) (λ file. AnswersProvenRun turns (development_view development) file (F.bytes_at files.old plan.now) answer.text.items answer.status)) }
{
    match accept_at(alloc, files, development, certificate)? {
        Ok(accepted) => answer_planned(rt, alloc, files, accepted, plan, turns, err),
        Err(answer) => Ok(answer),
    }
}

/// The answer of the command `run` to a development, its certificate and a plan at three paths: what has run, with the order that
/// linearizes it. Files are opened in this order, and none after a refusal.
pub fn answer_run<'a, R: Threads + Wait + Sync, F: Files, E: Write>(
    rt: &R,
    alloc: Global,
    files: &mut F,
    development: &'a str,
    certificate: &'a str,
    plan: &'a str,
    turns: Turns,
    err: &mut E,
) -> Result<Answer, Failure<'a>>
    ensures unread { IsUnread (F.CannotOpen files.old) (F.bytes_at files.old) (RunPlan development.now certificate.now plan.now turns) → IsErr result }
    ensures answers { IfOk result (λ answer. AnswersTask (F.bytes_at files.old) (RunPlan development.now certificate.now plan.now turns) answer.text.items answer.status) }
{
    match open_development(alloc, files, development)? {
        Ok(development) => {
            answer_proven(rt, alloc, files, development, certificate, plan, turns, err)
        }
        Err(answer) => Ok(answer),
    }
}
