//! Reads the words of the command line.

ghost use Rattle.std.specs.Prelude.{◌≡◌, ◌≤◌, ◌*◌, codes, not, option_map, IfOk, IfSome, Some, None};
ghost use Rattle.command_line.specs.Given.{steps_given, alone_steps_given, grace_seconds, all_taken, names_of, words_told, files_told, env_told, sets_told, secrets_told, each_told, args_told, format_given, labels_given, IsFlag};

use crate::offers::command;
use crate::order::{Alone, Check, Explain, LogPlan, Order, Replay, Run, Scripts, Show, Variables};
use child_pipes::Terms;
use clap::{ArgMatches, Error};
use report_texts::{Form, Format, Shown};
use secret_words::Secrets;
use std::alloc::{AllocError, Global};
use tcl_words::{Text, Texts};

/// The most steps of a script by default.
const DEFAULT_STEPS: u64 = 1_000_000;

/// The most steps of a script that is run as a command.
const ALONE_STEPS: u64 = 1_000_000_000_000;

/// The grace period by default, in seconds.
const DEFAULT_GRACE: u64 = 2;

/// Converts seconds to milliseconds. Unspecified above 9,000,000,000 seconds.
fn milliseconds(seconds: u64) -> u64
    ensures { seconds ≤ 9000000000 → result ≡ 1000 * seconds }
{
    seconds.saturating_mul(1000)
}

/// Returns the most steps of each script, given the number on the command line.
fn steps_of(asked: Option<u64>) -> u64
    ensures { result ≡ steps_given asked }
{
    asked.unwrap_or(DEFAULT_STEPS)
}

/// Returns the time limit of each script in milliseconds, given the seconds on the command line.
fn limit_of(asked: Option<u64>) -> Option<u64>
    ensures none { asked ≡ None → result ≡ None }
    ensures some { IfSome asked (λ seconds. seconds ≤ 9000000000 → result ≡ Some (1000 * seconds)) }
{
    match asked {
        Some(seconds) => Some(milliseconds(seconds)),
        None => None,
    }
}

/// Returns the words of files, or of an option that may be repeated, in the order of the command
/// line.
fn words_of<'a>(
    alloc: Global,
    matches: &ArgMatches<'a>,
    name: &str,
) -> Result<Vec<&'a str>, AllocError>
    ensures { IfOk result (λ words. names_of words.items ≡ words_told name.now matches.now) }
{
    let mut words = Vec::new(alloc);
    if let Some(given) = matches.get_strs(name) {
        words.extend_from_slice(given)?;
    }
    Ok(words)
}

/// Returns the files of sources, in the order of the command line.
fn files_of<'a>(alloc: Global, matches: &ArgMatches<'a>) -> Result<Vec<&'a str>, AllocError>
    ensures { IfOk result (λ files. names_of files.items ≡ files_told matches.now) }
{
    words_of(alloc, matches, "sources")
}

/// Returns the words of secrets, in the order of the command line.
fn secrets_of<'a>(alloc: Global, matches: &ArgMatches<'a>) -> Result<Vec<&'a str>, AllocError>
    ensures { IfOk result (λ words. names_of words.items ≡ secrets_told matches.now) }
{
    words_of(alloc, matches, "secret")
}

/// Returns the variables of scripts at the start.
fn variables_of<'a>(alloc: Global, matches: &ArgMatches<'a>) -> Result<Variables<'a>, AllocError>
    ensures env { IfOk result (λ v. names_of v.env.items ≡ env_told matches.now) }
    ensures sets { IfOk result (λ v. names_of v.sets.items ≡ sets_told matches.now) }
    ensures secrets { IfOk result (λ v. names_of v.secrets.items ≡ secrets_told matches.now) }
{
    Ok(Variables {
        all: matches.get_flag("env-all"),
        env: words_of(alloc, matches, "env")?,
        sets: words_of(alloc, matches, "set")?,
        secrets: secrets_of(alloc, matches)?,
    })
}

/// Returns the names of files as texts.
fn texts_of(alloc: Global, files: &[&str]) -> Result<Texts, AllocError>
    ensures { IfOk result (λ texts. texts ≡ names_of files.now) }
{
    let mut texts = Texts::new(alloc);
    for file in files {
        texts.push(Text::from_slice(alloc, file.as_bytes())?)?;
    }
    Ok(texts)
}

/// Returns the format for the options given.
fn format_of(summary: bool, escape: bool, name: Option<&str>) -> Format
    ensures { result ≡ format_given summary escape (option_map (λ n. n.now) name.entry) }
{
    if summary {
        return Format::Summary;
    }
    if escape {
        return Format::Escaped;
    }
    match name {
        Some("json") => Format::Json,
        Some("jsonl") => Format::JsonLines,
        Some("tap") => Format::Tap,
        Some(_) => Format::Text,
        None => Format::Text,
    }
}

/// Returns whether programs run on terminals.
fn has_host(matches: &ArgMatches<'_>) -> bool
    ensures { IsFlag (codes "host") matches.now result }
{
    matches.get_flag("host")
}

fn scripts_of<'a>(alloc: Global, matches: &ArgMatches<'a>) -> Result<Scripts<'a>, AllocError>
    ensures files { IfOk result (λ scripts. names_of scripts.sources.items ≡ files_told matches.now) }
    ensures names { IfOk result (λ scripts. scripts.form.files ≡ files_told matches.now) }
    ensures env { IfOk result (λ scripts. names_of scripts.variables.env.items ≡ env_told matches.now) }
    ensures sets { IfOk result (λ scripts. names_of scripts.variables.sets.items ≡ sets_told matches.now) }
    ensures secrets { IfOk result (λ scripts. names_of scripts.variables.secrets.items ≡ secrets_told matches.now) }
    ensures each { IfOk result (λ scripts. option_map (λ w. w.now) scripts.each ≡ each_told matches.now) }
    ensures host { IfOk result (λ scripts. IsFlag (codes "host") matches.now scripts.host) }
{
    let files = files_of(alloc, matches)?;
    let names = texts_of(alloc, files.as_slice())?;
    Ok(Scripts {
        steps: steps_of(matches.get_one::<u64>("steps")),
        limit_ms: limit_of(matches.get_one::<u64>("limit")),
        form: Form {
            format: format_of(
                matches.get_flag("summary"),
                matches.get_flag("escape"),
                matches.get_str("format"),
            ),
            shown: Shown {
                vars: matches.get_flag("vars"),
                requests: matches.get_flag("requests"),
            },
            files: names,
            secrets: Secrets::new(alloc),
        },
        transcripts: matches.get_str("transcripts"),
        variables: variables_of(alloc, matches)?,
        host: has_host(matches),
        each: matches.get_str("each"),
        sources: files,
    })
}

/// Returns the grace period in milliseconds, given the seconds on the command line.
fn grace_of(asked: Option<u64>) -> u64
    ensures { grace_seconds asked ≤ 86400 → result ≡ 1000 * grace_seconds asked }
{
    milliseconds(asked.unwrap_or(DEFAULT_GRACE))
}

/// Converts a number from 1 to 64 to a byte.
fn byte_of(number: u64) -> u8
    ensures { number ≤ 64 → result ≡ number }
{
    u8::try_from(number).unwrap_or(1)
}

/// Returns whether the lines on standard errors are labelled, given the word of the option.
fn is_label(word: Option<&str>) -> bool
    ensures { result ≡ labels_given (option_map (λ w. w.now) word.entry) }
{
    matches!(word, Some("label"))
}

fn run_of<'a>(alloc: Global, matches: &ArgMatches<'a>) -> Result<Order<'a>, AllocError> {
    Ok(Order::Run(Run {
        scripts: scripts_of(alloc, matches)?,
        workers: matches.get_one::<u64>("workers").map_or(1, byte_of),
        record: matches.get_str("record"),
        follow: matches.get_flag("follow"),
        has_format: matches.get_str("format").is_some(),
        terms: Terms {
            grace: grace_of(matches.get_one::<u64>("grace")),
            hangs_up: matches.get_flag("hangup"),
        },
        guard: matches.get_flag("guard"),
        labels: is_label(matches.get_str("stderr")),
        explain: matches.get_str("explain"),
    }))
}

fn replay_of<'a>(alloc: Global, matches: &ArgMatches<'a>) -> Result<Order<'a>, AllocError> {
    Ok(Order::Replay(Replay {
        scripts: scripts_of(alloc, matches)?,
        log: matches.get_str("log").unwrap_or(""),
        cut: matches.get_flag("cut"),
    }))
}

fn show_of<'a>(matches: &ArgMatches<'a>) -> Order<'a> {
    Order::Show(Show {
        log: matches.get_str("log").unwrap_or(""),
        script: matches.get_one::<u64>("script").map(byte_of),
    })
}

fn explain_of<'a>(alloc: Global, matches: &ArgMatches<'a>) -> Result<Order<'a>, AllocError> {
    Ok(Order::Explain(Explain {
        scripts: scripts_of(alloc, matches)?,
        log: matches.get_str("log").unwrap_or(""),
        only: matches.get_one::<u64>("script").map(byte_of),
    }))
}

fn plan_of<'a>(alloc: Global, matches: &ArgMatches<'a>) -> Result<Order<'a>, AllocError> {
    Ok(Order::Plan(LogPlan {
        steps: steps_of(matches.get_one::<u64>("steps")),
        limit_ms: limit_of(matches.get_one::<u64>("limit")),
        variables: variables_of(alloc, matches)?,
        host: has_host(matches),
        source: matches.get_str("source").unwrap_or(""),
        timeline: matches.get_str("timeline").unwrap_or(""),
        timing: matches.get_str("timing"),
    }))
}

/// Returns the most steps of a script that is run as a command, given the number on the command
/// line.
fn alone_steps_of(asked: Option<u64>) -> u64
    ensures { result ≡ alone_steps_given asked }
{
    asked.unwrap_or(ALONE_STEPS)
}

/// Returns whether `env` first gets all of exprun's own environment: unless it is to be empty, or
/// some of it is named.
fn takes_all(none: bool, words: &[&str]) -> bool
    ensures { result ≡ all_taken none words.now }
{
    !none && words.is_empty()
}

/// Returns the variables of a script that is run as a command.
fn alone_variables_of<'a>(
    alloc: Global,
    matches: &ArgMatches<'a>,
) -> Result<Variables<'a>, AllocError>
    ensures env { IfOk result (λ v. names_of v.env.items ≡ env_told matches.now) }
    ensures sets { IfOk result (λ v. names_of v.sets.items ≡ sets_told matches.now) }
    ensures secrets { IfOk result (λ v. names_of v.secrets.items ≡ secrets_told matches.now) }
{
    let named = words_of(alloc, matches, "env")?;
    Ok(Variables {
        all: takes_all(matches.get_flag("env-none"), named.as_slice()),
        env: named,
        sets: words_of(alloc, matches, "set")?,
        secrets: secrets_of(alloc, matches)?,
    })
}

/// Returns the request to run a script as a command.
fn alone_of<'a>(alloc: Global, matches: &ArgMatches<'a>) -> Result<Alone<'a>, AllocError>
    ensures args { IfOk result (λ alone. names_of alone.args.items ≡ args_told matches.now) }
    ensures env { IfOk result (λ alone. names_of alone.variables.env.items ≡ env_told matches.now) }
    ensures sets { IfOk result (λ alone. names_of alone.variables.sets.items ≡ sets_told matches.now) }
    ensures secrets { IfOk result (λ alone. names_of alone.variables.secrets.items ≡ secrets_told matches.now) }
    ensures host { IfOk result (λ alone. IsFlag (codes "no-host") matches.now (not alone.host)) }
{
    Ok(Alone {
        steps: alone_steps_of(matches.get_one::<u64>("steps")),
        limit_ms: limit_of(matches.get_one::<u64>("limit")),
        variables: alone_variables_of(alloc, matches)?,
        host: !matches.get_flag("no-host"),
        record: matches.get_str("record"),
        log: matches.get_str("replay"),
        source: matches.get_str("source").unwrap_or(""),
        args: words_of(alloc, matches, "args")?,
    })
}

fn check_of<'a>(alloc: Global, matches: &ArgMatches<'a>) -> Result<Order<'a>, AllocError> {
    Ok(Order::Check(Check {
        sources: files_of(alloc, matches)?,
    }))
}

/// Reads the words of a command line. The first word is the name of the program. The text of an
/// error must be printed; it is a help if that was requested.
pub fn read_words<'a>(alloc: Global, words: &'a [String]) -> Result<Order<'a>, Error> {
    let first = words.get(1).map_or("", |word| word.as_str());
    let matches = command(alloc, first)?.try_get_matches_from(words)?;
    match matches.subcommand() {
        Some(("run", run)) => Ok(run_of(alloc, run)?),
        Some(("script", script)) => Ok(Order::Script(alone_of(alloc, script)?)),
        Some(("show", show)) => Ok(show_of(show)),
        Some(("plan", plan)) => Ok(plan_of(alloc, plan)?),
        Some(("check", check)) => Ok(check_of(alloc, check)?),
        Some(("explain", explain)) => Ok(explain_of(alloc, explain)?),
        Some((_, replay)) => Ok(replay_of(alloc, replay)?),
        None => Ok(replay_of(alloc, &matches)?),
    }
}
