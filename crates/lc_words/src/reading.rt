//! What the words of a command line ask for.
ghost use Rattle.std.specs.Prelude.{◌≡◌, ◌⊎◌, ℕ, List, codes, IfOk, IfErr, IsErrAnd, Some, None, option_map};
ghost use Rattle.clap.specs.Words.{found_of, kind_of, rows_of, subcommand_of, subcommand_rows_of};
ghost use Rattle.clap.specs.declared.error.kind.ErrorKind.TheVariants.{OutOfMemory};
ghost use Rattle.lc_words.specs.Commands.{program_app};
ghost use Rattle.lc_words.specs.Tasks.{CheckCertificate, CheckFormula, JudgeHistory, Task, chosen_task, path_in, setting_of, task_of, texts_of};
ghost use Rattle.lc_words.specs.Reading.{AreWrong, AskFor, AskForHelp, AsksForText, Reads, beginning_task, checking_task, drawing_task, exploring_task, is_explained, is_set, library_task, listed, listing_task, number_given, number_in, one_file_task, ordering_task, parted, proving_task, range_in, running_task, setting_by, showing_task, task_in, shown_by, text_for, turns_by, two_file_task, carrying_task, checked, completing_task};

use crate::commands::program;
use crate::request::{Asked, Chosen, LibraryText, Request, Scope, Shown, Turns};
use clap::error::ErrorKind;
use clap::{ArgMatches, Error};
use lc_base::Name;
use lc_lib_texts::Lib;
use lc_numbers::are_numbers;
use std::alloc::Global;

fn formula_request<'a>(command: &ArgMatches<'a>) -> Option<Request<'a>>
    ensures { option_map task_of result ≡ one_file_task CheckFormula (codes "FILE") (rows_of (found_of command.now)) }
{
    let file = command.get_str("FILE")?;
    Some(Request::Formula(file))
}

fn judge_request<'a>(command: &ArgMatches<'a>) -> Option<Request<'a>>
    ensures { option_map task_of result ≡ two_file_task JudgeHistory (codes "HISTORY") (rows_of (found_of command.now)) }
{
    let development = command.get_str("DEV")?;
    let history = command.get_str("HISTORY")?;
    Some(Request::Judge {
        development,
        history,
    })
}

/// How many events before a mark and behind it are drawn, if no number is given. `shown_by` in `specs/Reading.antt` has the same.
const USUAL_WIDTH: u64 = 100;

/// What is drawn of a history: a page, or what is near the entry at a place, which exclude each other, or all.
fn shown_by(html: bool, around: Option<u64>, width: Option<u64>) -> Option<Shown>
    ensures { result ≡ shown_by html around width }
{
    match (html, around, width) {
        (false, None, None) => Some(Shown::Whole),
        (true, None, None) => Some(Shown::Page),
        (false, Some(place), None) => Some(Shown::Around(place, USUAL_WIDTH)),
        (false, Some(place), Some(width)) => Some(Shown::Around(place, width)),
        _ => None,
    }
}

fn draw_request<'a>(command: &ArgMatches<'a>) -> Option<Request<'a>>
    ensures { option_map task_of result ≡ drawing_task (rows_of (found_of command.now)) }
{
    let development = command.get_str("DEV")?;
    let history = command.get_str("HISTORY")?;
    let html = is_set(command, "html");
    let around = number_given(command, "around");
    let width = number_given(command, "width");
    let shown = shown_by(html, around, width)?;
    Some(Request::Draw {
        development,
        history,
        shown,
    })
}

fn order_request<'a>(command: &ArgMatches<'a>) -> Option<Request<'a>>
    ensures { option_map task_of result ≡ ordering_task (rows_of (found_of command.now)) }
{
    let development = command.get_str("DEV")?;
    let history = command.get_str("HISTORY")?;
    let check = is_set(command, "check");
    let budget = number_given(command, "budget");
    Some(Request::Order {
        development,
        history,
        check,
        budget,
    })
}

fn complete_request<'a>(command: &ArgMatches<'a>) -> Option<Request<'a>>
    ensures { option_map task_of result ≡ completing_task (rows_of (found_of command.now)) }
{
    let short = command.get_str("SHORT")?;
    let budget = number_given(command, "budget");
    let progress = command.get_flag("progress");
    Some(Request::Complete {
        short,
        budget,
        progress,
    })
}

fn show_request<'a>(command: &ArgMatches<'a>) -> Option<Request<'a>>
    ensures { option_map task_of result ≡ showing_task (rows_of (found_of command.now)) }
{
    let development = command.get_str("DEV")?;
    let lines = is_set(command, "lines");
    Some(Request::Show { development, lines })
}

fn new_request<'a>(command: &ArgMatches<'a>) -> Option<Request<'a>>
    ensures { option_map task_of result ≡ beginning_task (rows_of (found_of command.now)) }
{
    let text = command.get_str("NAME")?;
    Name::new(text)?;
    Some(Request::New(text))
}

/// The number that a text says, if it has 64 bits.
fn number_in(text: &str) -> Option<u64>
    ensures { result ≡ number_in text.now }
{
    text.parse().ok()
}

/// Which conditions are chosen by a number, or else by a point and a kind.
fn chosen_by<'a>(
    at: Option<&'a str>,
    point: Option<&'a str>,
    kind: Option<&'a str>,
) -> Option<Chosen<'a>>
    ensures { (development : List ℕ) → option_map (chosen_task development) result ≡ listed development (path_in at.entry) (path_in point.entry) (path_in kind.entry) }
{
    match (at, point, kind) {
        (None, point, kind) => Some(Chosen::Those { point, kind }),
        (Some(text), None, None) => Some(Chosen::Number(number_in(text)?)),
        _ => None,
    }
}

fn conditions_request<'a>(command: &ArgMatches<'a>) -> Option<Request<'a>>
    ensures { option_map task_of result ≡ listing_task (rows_of (found_of command.now)) }
{
    let development = command.get_str("DEV")?;
    let at = command.get_str("at");
    let point = command.get_str("only");
    let kind = command.get_str("kind");
    let chosen = chosen_by(at, point, kind)?;
    Some(Request::Conditions {
        development,
        chosen,
    })
}

/// The number of an option, if one is given.
fn number_given(command: &ArgMatches<'_>, name: &str) -> Option<u64>
    ensures { result ≡ number_given name.now (rows_of (found_of command.now)) }
{
    number_in(command.get_str(name)?)
}

/// The check that is asked for, by workers or with a word of how far it is, which exclude each other.
fn checked<'a>(
    development: &'a str,
    certificate: &'a str,
    workers: Option<u64>,
    all: bool,
    progress: bool,
) -> Option<Request<'a>>
    ensures { option_map task_of result ≡ checked development.entry.now certificate.entry.now workers progress }
{
    match (workers, progress) {
        (Some(_), true) => None,
        _ => Some(Request::Check {
            development,
            certificate,
            workers,
            all,
            progress,
        }),
    }
}

fn check_request<'a>(command: &ArgMatches<'a>) -> Option<Request<'a>>
    ensures { option_map task_of result ≡ checking_task (rows_of (found_of command.now)) }
{
    let development = command.get_str("DEV")?;
    let certificate = command.get_str("CERT")?;
    let workers = number_given(command, "workers");
    let all = command.get_flag("all");
    let progress = is_set(command, "progress");
    checked(development, certificate, workers, all, progress)
}

fn prove_request<'a>(command: &ArgMatches<'a>) -> Option<Request<'a>>
    ensures { option_map task_of result ≡ proving_task (rows_of (found_of command.now)) }
{
    let development = command.get_str("DEV")?;
    let hints = command.get_str("hints");
    let all = command.get_flag("all");
    let progress = command.get_flag("progress");
    Some(Request::Prove {
        development,
        hints,
        all,
        progress,
    })
}

fn carry_request<'a>(command: &ArgMatches<'a>) -> Option<Request<'a>>
    ensures { option_map task_of result ≡ carrying_task (rows_of (found_of command.now)) }
{
    let old = command.get_str("OLD")?;
    let certificate = command.get_str("CERT")?;
    let new = command.get_str("NEW")?;
    let hints = command.get_str("hints");
    let progress = command.get_flag("progress");
    Some(Request::Carry {
        old,
        certificate,
        new,
        hints,
        progress,
    })
}

/// The texts before and behind the first full stop.
fn parted(text: &str) -> Option<(&str, &str)>
    ensures { option_map (λ p. (p.0.now, p.1.now)) result ≡ parted text.now }
{
    text.split_once('.')
}

/// The two numbers that a text `A..B` says.
fn range_in(text: &str) -> Option<(u64, u64)>
    ensures { result ≡ range_in text.now }
{
    let (first_text, rest) = parted(text)?;
    let (between, end_text) = parted(rest)?;
    if !between.is_empty() {
        return None;
    }
    let first = number_in(first_text)?;
    let end = number_in(end_text)?;
    Some((first, end))
}

/// Whose turn it is in a run, by a seed, or by a text with the seeds of several runs, which exclude each other; each step of one run
/// may be told.
fn turns_by(seed: Option<u64>, seeds: Option<&str>, trace: bool) -> Option<Turns>
    ensures { result ≡ turns_by seed (path_in seeds.entry) trace }
{
    match (seed, seeds, trace) {
        (None, None, false) => Some(Turns::Free),
        (Some(seed), None, false) => Some(Turns::Drawn(seed)),
        (seed, None, true) => Some(Turns::Traced(seed)),
        (None, Some(text), false) => {
            let (first, end) = range_in(text)?;
            Some(Turns::DrawnEach(first, end))
        }
        (None, Some(_), true) | (Some(_), Some(_), _) => None,
    }
}

fn run_request<'a>(command: &ArgMatches<'a>) -> Option<Request<'a>>
    ensures { option_map task_of result ≡ running_task (rows_of (found_of command.now)) }
{
    let development = command.get_str("DEV")?;
    let certificate = command.get_str("CERT")?;
    let plan = command.get_str("PLAN")?;
    let seed = number_given(command, "seed");
    let seeds = command.get_str("seeds");
    let trace = is_set(command, "trace");
    let turns = turns_by(seed, seeds, trace)?;
    Some(Request::Run {
        development,
        certificate,
        plan,
        turns,
    })
}

/// Any calls, with the numbers that a text says, if one is given and says some.
fn size_by(clients: u64, calls: u64, numbers: Option<&str>) -> Option<Scope<'_>>
    ensures { option_map setting_of result ≡ setting_by None (Some clients) (Some calls) (path_in numbers.entry) }
{
    match numbers {
        None => Some(Scope::Size {
            clients,
            calls,
            numbers,
        }),
        Some(text) => {
            if are_numbers(text) {
                Some(Scope::Size {
                    clients,
                    calls,
                    numbers,
                })
            } else {
                None
            }
        }
    }
}

/// Which calls clients make: those of a plan, or any, by how many clients there are and how many calls each makes; these exclude each
/// other.
fn scope_by<'a>(
    plan: Option<&'a str>,
    clients: Option<u64>,
    calls: Option<u64>,
    numbers: Option<&'a str>,
) -> Option<Scope<'a>>
    ensures { option_map setting_of result ≡ setting_by (path_in plan.entry) clients calls (path_in numbers.entry) }
{
    match (plan, clients, calls, numbers) {
        (Some(plan), None, None, None) => Some(Scope::Plan(plan)),
        (None, Some(clients), Some(calls), numbers) => size_by(clients, calls, numbers),
        _ => None,
    }
}

fn explore_request<'a>(command: &ArgMatches<'a>) -> Option<Request<'a>>
    ensures { option_map task_of result ≡ exploring_task (rows_of (found_of command.now)) }
{
    let development = command.get_str("DEV")?;
    let plan = command.get_str("PLAN");
    let clients = number_given(command, "clients");
    let calls = number_given(command, "calls");
    let numbers = command.get_str("numbers");
    let scope = scope_by(plan, clients, calls, numbers)?;
    let bare = is_set(command, "bare");
    let budget = number_given(command, "budget");
    Some(Request::Explore {
        development,
        scope,
        bare,
        budget,
    })
}

/// Whether a flag is set.
fn is_set(command: &ArgMatches<'_>, name: &str) -> bool
    ensures { result ≡ is_set name.now (rows_of (found_of command.now)) }
{
    match command.get_str(name) {
        Some(value) => value == "true",
        None => false,
    }
}

/// The text that the flags ask for, which exclude each other.
fn text_for(certificate: bool, hints: bool) -> Option<LibraryText>
    ensures { result ≡ text_for certificate hints }
{
    match (certificate, hints) {
        (false, false) => Some(LibraryText::Development),
        (true, false) => Some(LibraryText::Certificate),
        (false, true) => Some(LibraryText::Hints),
        (true, true) => None,
    }
}

fn library_request<'a>(command: &ArgMatches<'a>) -> Option<Request<'a>>
    ensures { option_map task_of result ≡ library_task (rows_of (found_of command.now)) }
{
    let name = command.get_str("NAME")?;
    let lib = Lib::named(name)?;
    let certificate = is_set(command, "certificate");
    let hints = is_set(command, "hints");
    let text = text_for(certificate, hints)?;
    Some(Request::Library { lib, text })
}

/// What the words ask for, if there is a command in them with all that it needs.
fn request_of<'a>(matches: &ArgMatches<'a>) -> Option<Request<'a>>
    ensures { option_map task_of result ≡ task_in (subcommand_rows_of matches.now) }
{
    let (name, command) = matches.subcommand()?;
    match name {
        "formula" => formula_request(command),
        "judge" => judge_request(command),
        "show" => show_request(command),
        "conditions" => conditions_request(command),
        "check" => check_request(command),
        "prove" => prove_request(command),
        "carry" => carry_request(command),
        "library" => library_request(command),
        "draw" => draw_request(command),
        "new" => new_request(command),
        "run" => run_request(command),
        "order" => order_request(command),
        "complete" => complete_request(command),
        "explore" => explore_request(command),
        _ => None,
    }
}

/// Whether a refusal is to be explained.
fn is_explained(matches: &ArgMatches<'_>) -> bool
    ensures { result ≡ is_explained (subcommand_rows_of matches.now) }
{
    match matches.subcommand() {
        Some((_, command)) => is_set(command, "explain"),
        None => false,
    }
}

/// Why the command `conditions` asks for nothing.
fn conditions_fault(command: &ArgMatches<'_>) -> (ErrorKind, &'static str)
    ensures { AsksForText result.0 → ⊥ }
{
    if command.get_str("only").is_some() || command.get_str("kind").is_some() {
        (
            ErrorKind::ArgumentConflict,
            "`--at` excludes `--only` and `--kind`",
        )
    } else {
        (
            ErrorKind::ValueValidation,
            "K is no number, or has more than 64 bits",
        )
    }
}

/// Why the command `library` asks for nothing.
fn library_fault(command: &ArgMatches<'_>) -> (ErrorKind, &'static str)
    ensures { AsksForText result.0 → ⊥ }
{
    if is_set(command, "certificate") && is_set(command, "hints") {
        (
            ErrorKind::ArgumentConflict,
            "`--certificate` and `--hints` exclude each other",
        )
    } else {
        (
            ErrorKind::InvalidValue,
            "NAME is none of counter, stack, lock, snapshot, combining, rendezvous, queue and pool-stack",
        )
    }
}

/// Why the command `run` asks for nothing.
fn run_fault(command: &ArgMatches<'_>) -> (ErrorKind, &'static str)
    ensures { AsksForText result.0 → ⊥ }
{
    if command.get_str("seed").is_some() {
        (
            ErrorKind::ArgumentConflict,
            "`--seed` and `--seeds` exclude each other",
        )
    } else if is_set(command, "trace") {
        (
            ErrorKind::ArgumentConflict,
            "`--trace` and `--seeds` exclude each other",
        )
    } else {
        (
            ErrorKind::ValueValidation,
            "A..B are no two numbers of 64 bits",
        )
    }
}

/// Why the command `draw` asks for nothing.
fn draw_fault(command: &ArgMatches<'_>) -> (ErrorKind, &'static str)
    ensures { AsksForText result.0 → ⊥ }
{
    if command.get_str("around").is_some() {
        (
            ErrorKind::ArgumentConflict,
            "`--html` and `--around` exclude each other",
        )
    } else {
        (
            ErrorKind::ArgumentConflict,
            "`--width` needs `--around`: the width of what is drawn",
        )
    }
}

/// Why the command `explore` asks for nothing.
fn explore_fault(command: &ArgMatches<'_>) -> (ErrorKind, &'static str)
    ensures { AsksForText result.0 → ⊥ }
{
    if command.get_str("PLAN").is_some() {
        (
            ErrorKind::ArgumentConflict,
            "PLAN excludes `--clients`, `--calls` and `--numbers`",
        )
    } else if command.get_str("clients").is_some() && command.get_str("calls").is_some() {
        (
            ErrorKind::ValueValidation,
            "A,B,.. are no numbers of 64 bits, with commas between them",
        )
    } else {
        (
            ErrorKind::MissingRequiredArgument,
            "PLAN is missing, or `--clients` and `--calls`: which calls clients make",
        )
    }
}

/// Why words in which clap finds no fault ask for nothing.
fn fault_in(matches: &ArgMatches<'_>) -> (ErrorKind, &'static str)
    ensures { AsksForText result.0 → ⊥ }
{
    match matches.subcommand() {
        Some(("conditions", command)) => conditions_fault(command),
        Some(("check", _)) => (
            ErrorKind::ArgumentConflict,
            "`--workers` and `--progress` exclude each other",
        ),
        Some(("library", command)) => library_fault(command),
        Some(("draw", command)) => draw_fault(command),
        Some(("run", command)) => run_fault(command),
        Some(("explore", command)) => explore_fault(command),
        Some(("new", _)) => (
            ErrorKind::ValueValidation,
            "NAME is no name: a letter or `_`, then letters, digits, `_`, `-` and `.`, at most 64 of them",
        ),
        _ => (ErrorKind::MissingSubcommand, "a command is missing"),
    }
}

/// Reads the words of the command line; the first is the name of the program.
///
/// An error has the text to be shown, also if help was asked for.
pub fn read_words<'a>(alloc: Global, words: &'a [String]) -> Result<Asked<'a>, Error>
    ensures reads { IfOk result (λ asked. Reads (texts_of words.entry.now) asked.request) }
    ensures explained { IfOk result (λ asked. asked.is_explained ≡ is_explained (subcommand_of program_app (texts_of words.entry.now))) }
    ensures taken { IfErr result (λ error. (task : Task) → AskFor (texts_of words.entry.now) task → kind_of error ≡ OutOfMemory) }
    ensures wrong { AreWrong (texts_of words.entry.now) → IsErrAnd result (λ error. AsksForText (kind_of error) → ⊥) }
    ensures help { AskForHelp (texts_of words.entry.now) → IsErrAnd result (λ error. (kind_of error ≡ OutOfMemory) ⊎ AsksForText (kind_of error)) }
{
    let matches = program(alloc)?.try_get_matches_from(words)?;
    match request_of(&matches) {
        Some(request) => Ok(Asked {
            request,
            is_explained: is_explained(&matches),
        }),
        None => {
            let (kind, text) = fault_in(&matches);
            let mut program = program(alloc)?;
            Err(program.error(kind, text)?)
        }
    }
}
