//! The commands of the command line, with their options, files and help texts.

use crate::help;
use clap::{Arg, ArgAction, Command, value_parser};
use session::STEPS_LIMIT;
use std::alloc::{AllocError, Global};

/// The longest time limit, in seconds.
const SECONDS_LIMIT: i64 = 9_000_000_000;

/// The longest grace period, in seconds.
const GRACE_LIMIT: i64 = 86_400;

/// The most workers, and the most scripts.
const MANY: i64 = 64;

/// The names of formats.
static FORMATS: [&str; 4] = ["text", "json", "jsonl", "tap"];

/// The ways to treat the standard errors of programs.
static ERRORS: [&str; 2] = ["share", "label"];

/// The value of an option or a file. Help shows it by the word given here.
#[derive(Clone, Copy)]
enum Takes {
    /// An option without a value.
    Nothing,
    /// An option with any value.
    Word(&'static str),
    /// An option with any value, which may be repeated.
    Words(&'static str),
    /// An option with a number between these bounds.
    Number(&'static str, i64, i64),
    /// An option with one of a few words.
    OneOf(&'static str),
    /// A file.
    File(&'static str),
    /// One or more files.
    Files(&'static str),
    /// A file. It ends the options: all words after it are arguments.
    Command(&'static str),
    /// The words after such a file.
    Arguments(&'static str),
}

/// An option or a file of a command.
#[derive(Clone, Copy)]
struct Offer {
    name: &'static str,
    takes: Takes,
    help: &'static str,
}

const LIMIT: Offer = Offer {
    name: "limit",
    takes: Takes::Number("S", 1, SECONDS_LIMIT),
    help: "End a script that still waits after S seconds",
};

const STEPS: Offer = Offer {
    name: "steps",
    takes: Takes::Number("N", 1, STEPS_LIMIT as i64),
    help: "End a script after N steps [default: 1000000]",
};

const ALONE_STEPS: Offer = Offer {
    name: "steps",
    takes: Takes::Number("N", 1, STEPS_LIMIT as i64),
    help: "End the script after N steps [default: 1000000000000]",
};

const VARS: Offer = Offer {
    name: "vars",
    takes: Takes::Nothing,
    help: "Show each script's global variables, in hexadecimal",
};

const REQUESTS: Offer = Offer {
    name: "requests",
    takes: Takes::Nothing,
    help: "Show each script's requests, in hexadecimal",
};

const FORMAT: Offer = Offer {
    name: "format",
    takes: Takes::OneOf("F"),
    help: "Print reports as text, json, jsonl or tap [default: text]",
};

const SUMMARY: Offer = Offer {
    name: "summary",
    takes: Takes::Nothing,
    help: "Print one line per report, and a line of counts",
};

const ESCAPE: Offer = Offer {
    name: "escape",
    takes: Takes::Nothing,
    help: "Escape characters that affect a terminal",
};

const TRANSCRIPTS: Offer = Offer {
    name: "transcripts",
    takes: Takes::Word("DIR"),
    help: "Write each transcript to a file in the folder DIR",
};

const SET: Offer = Offer {
    name: "set",
    takes: Takes::Words("NAME=VALUE"),
    help: "Set the variable NAME of scripts to VALUE",
};

const SECRET: Offer = Offer {
    name: "secret",
    takes: Takes::Words("NAME=FILE"),
    help: "Set NAME to the secret in FILE, and show NAME for it",
};

const EACH: Offer = Offer {
    name: "each",
    takes: Takes::Word("LIST"),
    help: "Run each FILE once per row of the CSV file LIST",
};

const ENV: Offer = Offer {
    name: "env",
    takes: Takes::Words("NAME=VALUE"),
    help: "Set env(NAME); NAME alone takes exprun's own value",
};

const ENV_ALL: Offer = Offer {
    name: "env-all",
    takes: Takes::Nothing,
    help: "Set env to all of exprun's own environment",
};

const HOST: Offer = Offer {
    name: "host",
    takes: Takes::Nothing,
    help: "Run each program on a terminal, as script does",
};

const NO_HOST: Offer = Offer {
    name: "no-host",
    takes: Takes::Nothing,
    help: "Run programs over pipes, as run does",
};

const SOURCES: Offer = Offer {
    name: "sources",
    takes: Takes::Files("FILE"),
    help: "The file of a script; the first is script 1",
};

const LOG: Offer = Offer {
    name: "log",
    takes: Takes::File("LOG"),
    help: "The file of the log, or /dev/stdin",
};

const CUT: Offer = Offer {
    name: "cut",
    takes: Takes::Nothing,
    help: "Read a log that was cut off up to its last whole line",
};

const ENV_NONE: Offer = Offer {
    name: "env-none",
    takes: Takes::Nothing,
    help: "Leave env empty, except for what --env sets",
};

const REPLAYED: Offer = Offer {
    name: "replay",
    takes: Takes::Word("LOG"),
    help: "Start no programs, but replay the log of an earlier run",
};

const COMMAND: Offer = Offer {
    name: "source",
    takes: Takes::Command("FILE"),
    help: "The file of the script",
};

const ARGS: Offer = Offer {
    name: "args",
    takes: Takes::Arguments("ARG"),
    help: "Its arguments, even if they begin with -",
};

const WORKERS: Offer = Offer {
    name: "workers",
    takes: Takes::Number("N", 1, MANY),
    help: "Share the scripts among N threads [default: 1]",
};

const RECORD: Offer = Offer {
    name: "record",
    takes: Takes::Word("FILE"),
    help: "Write a log of the run, which replay reads",
};

const GRACE: Offer = Offer {
    name: "grace",
    takes: Takes::Number("S", 0, GRACE_LIMIT),
    help: "Hang up programs that go on for S seconds [default: 2]",
};

const HANGUP: Offer = Offer {
    name: "hangup",
    takes: Takes::Nothing,
    help: "Also hang up programs S seconds after a close",
};

const GUARD: Offer = Offer {
    name: "guard",
    takes: Takes::Nothing,
    help: "Also hang up programs if exprun is killed",
};

const STDERR: Offer = Offer {
    name: "stderr",
    takes: Takes::OneOf("HOW"),
    help: "Share standard error with programs, or label its lines",
};

const FOLLOW: Offer = Offer {
    name: "follow",
    takes: Takes::Nothing,
    help: "Print on standard error what scripts show, as it appears",
};

const ACCOUNT: Offer = Offer {
    name: "explain",
    takes: Takes::Word("FILE"),
    help: "Write to FILE what scripts did, and what they waited for",
};

const SHOWN_SCRIPT: Offer = Offer {
    name: "script",
    takes: Takes::Number("N", 1, MANY),
    help: "Show only the events of script N, and the ticks",
};

const TOLD_SCRIPT: Offer = Offer {
    name: "script",
    takes: Takes::Number("N", 1, MANY),
    help: "Explain only script N",
};

const TIMING: Offer = Offer {
    name: "timing",
    takes: Takes::Word("TIMING"),
    help: "The timing file of a typescript",
};

const SOURCE: Offer = Offer {
    name: "source",
    takes: Takes::File("FILE"),
    help: "The file of the script",
};

const TIMELINE: Offer = Offer {
    name: "timeline",
    takes: Takes::File("TIMELINE"),
    help: "The timeline of its children, or /dev/stdin",
};

static RUN: [Offer; 23] = [
    WORKERS,
    EACH,
    LIMIT,
    STEPS,
    SET,
    SECRET,
    ENV,
    ENV_ALL,
    HOST,
    RECORD,
    GRACE,
    HANGUP,
    GUARD,
    STDERR,
    FOLLOW,
    ACCOUNT,
    VARS,
    REQUESTS,
    FORMAT,
    SUMMARY,
    ESCAPE,
    TRANSCRIPTS,
    SOURCES,
];

static REPLAY: [Offer; 17] = [
    CUT,
    EACH,
    LIMIT,
    STEPS,
    SET,
    SECRET,
    ENV,
    ENV_ALL,
    HOST,
    VARS,
    REQUESTS,
    FORMAT,
    SUMMARY,
    ESCAPE,
    TRANSCRIPTS,
    LOG,
    SOURCES,
];

static SCRIPT: [Offer; 11] = [
    LIMIT,
    ALONE_STEPS,
    SET,
    SECRET,
    ENV,
    ENV_NONE,
    NO_HOST,
    RECORD,
    REPLAYED,
    COMMAND,
    ARGS,
];

static SHOW: [Offer; 2] = [SHOWN_SCRIPT, LOG];

static EXPLAIN: [Offer; 11] = [
    TOLD_SCRIPT,
    EACH,
    LIMIT,
    STEPS,
    SET,
    SECRET,
    ENV,
    ENV_ALL,
    HOST,
    LOG,
    SOURCES,
];

static PLAN: [Offer; 10] = [
    LIMIT, STEPS, SET, SECRET, ENV, ENV_ALL, HOST, TIMING, SOURCE, TIMELINE,
];

static CHECK: [Offer; 1] = [SOURCES];

/// Returns the words that an option accepts.
fn words_of(name: &str) -> &'static [&'static str] {
    match name {
        "format" => FORMATS.as_slice(),
        _ => ERRORS.as_slice(),
    }
}

/// Returns the argument for an option or a file.
fn arg_of<'a>(alloc: Global, offer: &Offer) -> Arg<'a> {
    let arg = Arg::new(alloc, offer.name).help(offer.help);
    match offer.takes {
        Takes::Nothing => arg.long(offer.name).action(ArgAction::SetTrue),
        Takes::Word(value) => arg.long(offer.name).value_name(value),
        Takes::Words(value) => arg
            .long(offer.name)
            .value_name(value)
            .action(ArgAction::Append),
        Takes::Number(value, least, most) => arg
            .long(offer.name)
            .value_name(value)
            .value_parser(value_parser!(u64).range(least..=most)),
        Takes::OneOf(value) => arg
            .long(offer.name)
            .value_name(value)
            .value_parser(words_of(offer.name))
            .hide_possible_values(true),
        Takes::File(value) => arg.value_name(value).required(true),
        Takes::Files(value) => arg
            .value_name(value)
            .required(true)
            .num_args(1..)
            .action(ArgAction::Append),
        Takes::Command(value) => arg.value_name(value).required(true).trailing_var_arg(true),
        Takes::Arguments(value) => arg
            .value_name(value)
            .num_args(0..)
            .trailing_var_arg(true)
            .action(ArgAction::Append),
    }
}

/// Makes an argument conflict with the others that can't be given beside it.
fn alone<'a>(arg: Arg<'a>, name: &str) -> Result<Arg<'a>, AllocError> {
    match name {
        "summary" => arg.conflicts_with("format"),
        "escape" => arg.conflicts_with("format")?.conflicts_with("summary"),
        "replay" => arg.conflicts_with("record"),
        _ => Ok(arg),
    }
}

/// Returns the arguments of a command.
fn args_of<'a>(alloc: Global, offers: &[Offer]) -> Result<Vec<Arg<'a>>, AllocError> {
    let mut args = Vec::new(alloc);
    for offer in offers {
        let arg = alone(arg_of(alloc, offer), offer.name)?;
        args.push(arg)?;
    }
    Ok(args)
}

/// A command: its name, its description, and its help after the options.
struct CommandOffer {
    name: &'static str,
    about: &'static str,
    after: &'static str,
}

/// The commands, in the order of the help.
static COMMANDS: [CommandOffer; 7] = [
    CommandOffer {
        name: "run",
        about: "Runs scripts with real programs, and prints their reports",
        after: help::RUN,
    },
    CommandOffer {
        name: "script",
        about: "Runs a script as a command, as expect(1) does",
        after: help::SCRIPT,
    },
    CommandOffer {
        name: "replay",
        about: "Runs scripts over a log of a run, and prints their reports",
        after: help::REPLAY,
    },
    CommandOffer {
        name: "show",
        about: "Prints a log of a run, one line per event",
        after: help::SHOW,
    },
    CommandOffer {
        name: "explain",
        about: "Prints what scripts did over a log, and what they waited for",
        after: help::EXPLAIN,
    },
    CommandOffer {
        name: "plan",
        about: "Writes a log for replay, from a script and a timeline",
        after: help::PLAN,
    },
    CommandOffer {
        name: "check",
        about: "Finds errors in scripts without running them",
        after: help::CHECK,
    },
];

/// Returns the options and files of a command.
fn offers_of(command: &str) -> &'static [Offer] {
    match command {
        "run" => RUN.as_slice(),
        "script" => SCRIPT.as_slice(),
        "replay" => REPLAY.as_slice(),
        "show" => SHOW.as_slice(),
        "explain" => EXPLAIN.as_slice(),
        "plan" => PLAN.as_slice(),
        _ => CHECK.as_slice(),
    }
}

fn command_of<'a>(alloc: Global, offer: &CommandOffer) -> Result<Command<'a>, AllocError> {
    Command::new(alloc, offer.name)
        .about(offer.about)
        .after_help(offer.after)
        .args(args_of(alloc, offers_of(offer.name))?)
}

/// Adds the commands that the first word may mean: the one that it names, or all of them. A start
/// therefore doesn't build the others.
fn with_commands<'a>(
    alloc: Global,
    program: Command<'a>,
    first: &str,
) -> Result<Command<'a>, AllocError> {
    for offer in &COMMANDS {
        if offer.name == first {
            return program.subcommand(command_of(alloc, offer)?);
        }
    }
    let mut program = program;
    for offer in &COMMANDS {
        program = program.subcommand(command_of(alloc, offer)?)?;
    }
    Ok(program)
}

/// Returns the command line of the program, given its first word.
pub(crate) fn command<'a>(alloc: Global, first: &str) -> Result<Command<'a>, AllocError> {
    let program = Command::new(alloc, "exprun")
        .bin_name("exprun")?
        .about("Runs Expect scripts with real programs, or over a log of what programs did")
        .version(help::VERSION)
        .long_version(help::LONG_VERSION)
        .after_help(help::PROGRAM)
        .subcommand_required(true);
    with_commands(alloc, program, first)
}
