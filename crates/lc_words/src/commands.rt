//! The commands with their arguments, as `clap` takes them.
ghost use Rattle.std.specs.Prelude.{◌≡◌, false, IfOk};
ghost use Rattle.clap.specs.Words.{app_of, rule_of};
ghost use Rattle.clap.specs.declared.builder.command.Command.TheViews.{out-Command};
ghost use Rattle.lc_words.specs.Commands.{option_rule, program_app};
ghost use Rattle.lc_words.specs.Tables.{app_for, program_for, rule_for};

use crate::limits::{SIZE_LIMIT, WORKER_LIMIT};
use crate::texts::{
    ABOUT, CARRY, CARRY_ANSWER, CERTIFICATE_FILE, CHECK, CHECK_ALL, CHECK_ANSWER, CHECK_PROGRESS,
    COMPLETE, COMPLETE_ANSWER, COMPLETE_BUDGET, COMPLETE_PROGRESS, CONDITION_KIND,
    CONDITION_NUMBER, CONDITION_POINT, CONDITIONS, CONDITIONS_ANSWER, DEVELOPMENT, DRAW,
    DRAW_ANSWER, DRAW_AROUND, DRAW_HTML, DRAW_WIDTH, EXIT_STATUS, EXPLAIN, EXPLORE, EXPLORE_ANSWER,
    EXPLORE_BARE, EXPLORE_BUDGET, EXPLORE_CALLS, EXPLORE_CLIENTS, EXPLORE_NUMBERS, FORMULA,
    FORMULA_ANSWER, FORMULA_FILE, HINTS, JUDGE, JUDGE_ANSWER, JUDGE_DEVELOPMENT, JUDGE_HISTORY,
    LIBRARY, LIBRARY_ANSWER, LIBRARY_CERTIFICATE, LIBRARY_HINTS, NEW, NEW_ANSWER, NEW_DEVELOPMENT,
    NEW_HINTS, NEW_NAME, OBJECT, OLD, OLD_CERTIFICATE, ORDER, ORDER_ANSWER, ORDER_BUDGET,
    ORDER_CHECK, ORDER_HISTORY, PLAN_FILE, PROGRESS, PROVE, PROVE_ALL, PROVE_ANSWER, QUIET, RUN,
    RUN_ANSWER, RUN_SEED, RUN_SEEDS, RUN_TRACE, SHORT, SHOW, SHOW_ANSWER, SHOW_LINES, VERSION,
    WORKERS,
};
use clap::builder::ValueParser;
use clap::{Arg, ArgAction, Command};
use std::alloc::{AllocError, Global};

/// An argument, by its name and what the help says of it.
#[derive(Clone, Copy)]
enum Argument {
    /// A value in its place, which has to be there.
    Place(&'static str, &'static str),
    /// A value in its place, which may be left out.
    Further(&'static str, &'static str),
    /// An option with a value, which is called so in the help.
    Value(&'static str, &'static str, &'static str),
    /// An option with a number from one to another.
    Number(&'static str, &'static str, u64, u64),
    /// An option without a value.
    Flag(&'static str, &'static str),
}

/// A command, with what it says of itself when it is asked for help. Each is a static of its own: the prover gives up at one with the
/// texts of all.
struct Described {
    name: &'static str,
    about: &'static str,
    answer: &'static str,
    arguments: &'static [Argument],
}

static FORMULA_COMMAND: Described = Described {
    name: "formula",
    about: FORMULA,
    answer: FORMULA_ANSWER,
    arguments: &[
        Argument::Place("FILE", FORMULA_FILE),
        Argument::Flag("quiet", QUIET),
        Argument::Flag("explain", EXPLAIN),
    ],
};

static JUDGE_COMMAND: Described = Described {
    name: "judge",
    about: JUDGE,
    answer: JUDGE_ANSWER,
    arguments: &[
        Argument::Place("DEV", JUDGE_DEVELOPMENT),
        Argument::Place("HISTORY", JUDGE_HISTORY),
        Argument::Flag("quiet", QUIET),
        Argument::Flag("explain", EXPLAIN),
    ],
};

static SHOW_COMMAND: Described = Described {
    name: "show",
    about: SHOW,
    answer: SHOW_ANSWER,
    arguments: &[
        Argument::Place("DEV", DEVELOPMENT),
        Argument::Flag("lines", SHOW_LINES),
        Argument::Flag("quiet", QUIET),
        Argument::Flag("explain", EXPLAIN),
    ],
};

static CONDITIONS_COMMAND: Described = Described {
    name: "conditions",
    about: CONDITIONS,
    answer: CONDITIONS_ANSWER,
    arguments: &[
        Argument::Place("DEV", DEVELOPMENT),
        Argument::Value("at", "K", CONDITION_NUMBER),
        Argument::Value("only", "POINT", CONDITION_POINT),
        Argument::Value("kind", "KIND", CONDITION_KIND),
        Argument::Flag("quiet", QUIET),
        Argument::Flag("explain", EXPLAIN),
    ],
};

static CHECK_COMMAND: Described = Described {
    name: "check",
    about: CHECK,
    answer: CHECK_ANSWER,
    arguments: &[
        Argument::Place("DEV", DEVELOPMENT),
        Argument::Place("CERT", CERTIFICATE_FILE),
        Argument::Number("workers", WORKERS, 1, WORKER_LIMIT),
        Argument::Flag("all", CHECK_ALL),
        Argument::Flag("progress", CHECK_PROGRESS),
        Argument::Flag("quiet", QUIET),
        Argument::Flag("explain", EXPLAIN),
    ],
};

static PROVE_COMMAND: Described = Described {
    name: "prove",
    about: PROVE,
    answer: PROVE_ANSWER,
    arguments: &[
        Argument::Place("DEV", DEVELOPMENT),
        Argument::Value("hints", "FILE", HINTS),
        Argument::Flag("all", PROVE_ALL),
        Argument::Flag("progress", PROGRESS),
        Argument::Flag("quiet", QUIET),
        Argument::Flag("explain", EXPLAIN),
    ],
};

static CARRY_COMMAND: Described = Described {
    name: "carry",
    about: CARRY,
    answer: CARRY_ANSWER,
    arguments: &[
        Argument::Place("OLD", OLD),
        Argument::Place("CERT", OLD_CERTIFICATE),
        Argument::Place("NEW", NEW_DEVELOPMENT),
        Argument::Value("hints", "FILE", NEW_HINTS),
        Argument::Flag("progress", PROGRESS),
        Argument::Flag("quiet", QUIET),
        Argument::Flag("explain", EXPLAIN),
    ],
};

static LIBRARY_COMMAND: Described = Described {
    name: "library",
    about: LIBRARY,
    answer: LIBRARY_ANSWER,
    arguments: &[
        Argument::Place("NAME", OBJECT),
        Argument::Flag("certificate", LIBRARY_CERTIFICATE),
        Argument::Flag("hints", LIBRARY_HINTS),
    ],
};

static DRAW_COMMAND: Described = Described {
    name: "draw",
    about: DRAW,
    answer: DRAW_ANSWER,
    arguments: &[
        Argument::Place("DEV", JUDGE_DEVELOPMENT),
        Argument::Place("HISTORY", ORDER_HISTORY),
        Argument::Flag("html", DRAW_HTML),
        Argument::Number("around", DRAW_AROUND, 0, u64::MAX),
        Argument::Number("width", DRAW_WIDTH, 0, u64::MAX),
        Argument::Flag("quiet", QUIET),
        Argument::Flag("explain", EXPLAIN),
    ],
};

static NEW_COMMAND: Described = Described {
    name: "new",
    about: NEW,
    answer: NEW_ANSWER,
    arguments: &[Argument::Place("NAME", NEW_NAME)],
};

static RUN_COMMAND: Described = Described {
    name: "run",
    about: RUN,
    answer: RUN_ANSWER,
    arguments: &[
        Argument::Place("DEV", DEVELOPMENT),
        Argument::Place("CERT", CERTIFICATE_FILE),
        Argument::Place("PLAN", PLAN_FILE),
        Argument::Number("seed", RUN_SEED, 0, u64::MAX),
        Argument::Value("seeds", "A..B", RUN_SEEDS),
        Argument::Flag("trace", RUN_TRACE),
        Argument::Flag("quiet", QUIET),
        Argument::Flag("explain", EXPLAIN),
    ],
};

static ORDER_COMMAND: Described = Described {
    name: "order",
    about: ORDER,
    answer: ORDER_ANSWER,
    arguments: &[
        Argument::Place("DEV", JUDGE_DEVELOPMENT),
        Argument::Place("HISTORY", ORDER_HISTORY),
        Argument::Flag("check", ORDER_CHECK),
        Argument::Number("budget", ORDER_BUDGET, 0, u64::MAX),
        Argument::Flag("quiet", QUIET),
        Argument::Flag("explain", EXPLAIN),
    ],
};

static COMPLETE_COMMAND: Described = Described {
    name: "complete",
    about: COMPLETE,
    answer: COMPLETE_ANSWER,
    arguments: &[
        Argument::Place("SHORT", SHORT),
        Argument::Number("budget", COMPLETE_BUDGET, 0, u64::MAX),
        Argument::Flag("progress", COMPLETE_PROGRESS),
        Argument::Flag("quiet", QUIET),
        Argument::Flag("explain", EXPLAIN),
    ],
};

static EXPLORE_COMMAND: Described = Described {
    name: "explore",
    about: EXPLORE,
    answer: EXPLORE_ANSWER,
    arguments: &[
        Argument::Place("DEV", DEVELOPMENT),
        Argument::Further("PLAN", PLAN_FILE),
        Argument::Number("clients", EXPLORE_CLIENTS, 1, SIZE_LIMIT),
        Argument::Number("calls", EXPLORE_CALLS, 1, SIZE_LIMIT),
        Argument::Value("numbers", "A,B,..", EXPLORE_NUMBERS),
        Argument::Flag("bare", EXPLORE_BARE),
        Argument::Number("budget", EXPLORE_BUDGET, 0, u64::MAX),
        Argument::Flag("quiet", QUIET),
        Argument::Flag("explain", EXPLAIN),
    ],
};

/// An option with a value, which is called so in the help.
fn value_option<'a>(alloc: Global, name: &'a str, value: &'a str, help: &'a str) -> Arg<'a>
    ensures rule { rule_of result ≡ option_rule name.entry.now }
    ensures local { result.global ≡ false }
{
    Arg::new(alloc, name)
        .long(name)
        .value_name(value)
        .action(ArgAction::Set)
        .help(help)
}

/// An argument, as `clap` takes it.
fn arg_of<'a>(alloc: Global, argument: Argument) -> Arg<'a>
    ensures rule { rule_of result ≡ rule_for argument }
    ensures local { result.global ≡ false }
{
    match argument {
        Argument::Place(name, help) => Arg::new(alloc, name)
            .required(true)
            .action(ArgAction::Set)
            .help(help),
        Argument::Further(name, help) => Arg::new(alloc, name).action(ArgAction::Set).help(help),
        Argument::Value(name, value, help) => value_option(alloc, name, value, help),
        Argument::Number(name, help, least, most) => value_option(
            alloc, name, "N", help,
        ).value_parser(ValueParser::Unsigned(least, most)),
        Argument::Flag(name, help) => Arg::new(alloc, name)
            .long(name)
            .action(ArgAction::SetTrue)
            .help(help),
    }
}

/// A command with its arguments.
fn command_of<'a>(alloc: Global, described: &Described) -> Result<Command<'a>, AllocError>
    ensures app { IfOk result (λ command. app_of command ≡ app_for described.now) }
    ensures local { IfOk result (λ command. (out-Command command).has_globals ≡ false) }
{
    let mut command = Command::new(alloc, described.name)
        .about(described.about)
        .after_help(described.answer);
    for argument in described.arguments {
        command = command.arg(arg_of(alloc, *argument))?;
    }
    Ok(command)
}

/// The program with these commands.
fn program_of<'a>(alloc: Global, commands: &[&Described]) -> Result<Command<'a>, AllocError>
    ensures { IfOk result (λ command. app_of command ≡ program_for commands.now) }
{
    let mut program = Command::new(alloc, "lincheck")
        .version(VERSION)
        .about(ABOUT)
        .after_help(EXIT_STATUS)
        .subcommand_required(true);
    for described in commands {
        program = program.subcommand(command_of(alloc, described)?)?;
    }
    Ok(program)
}

/// The program with its commands.
pub(crate) fn program<'a>(alloc: Global) -> Result<Command<'a>, AllocError>
    ensures { IfOk result (λ command. app_of command ≡ program_app) }
{
    let commands = [
        &FORMULA_COMMAND,
        &JUDGE_COMMAND,
        &SHOW_COMMAND,
        &CONDITIONS_COMMAND,
        &CHECK_COMMAND,
        &PROVE_COMMAND,
        &CARRY_COMMAND,
        &LIBRARY_COMMAND,
        &DRAW_COMMAND,
        &NEW_COMMAND,
        &RUN_COMMAND,
        &ORDER_COMMAND,
        &COMPLETE_COMMAND,
        &EXPLORE_COMMAND,
    ];
    program_of(alloc, &commands)
}
