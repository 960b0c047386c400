//! Checks the arguments of a command.

ghost use Rattle.std.specs.Prelude.{◌≡◌, take, codes, false, bytes_eq, IfOk};
ghost use Rattle.command_table.specs.Counts.{exactly};
ghost use Rattle.script_check.specs.Faults.{wrong, counted, switched, if_switched, chosen, choice_fault, flagged, fronted, last_stage, lists_fault, names_channel, channel, output_fault, fault_of};

use crate::expects::expect_fault;
use crate::placed::Placed;
use crate::problem::Problem;
use crate::stretch::{begins_with, behind};
use command_table::{
    Command, Count, Flags, Role, Stage, Switches, begins_with_minus, fits, flag_role, flags_needed,
    is, is_end, is_short, option_count, option_switches, row_of, step, switch_of, takes_value,
    words_before, words_behind,
};
use std::alloc::{AllocError, Global};
use tcl_words::Text;

/// The error in arguments, or `None`.
pub(crate) type Judged = Result<Option<Problem>, AllocError>;

/// Returns the error that a command has too few or too many arguments.
fn wrong(alloc: Global, name: &[u8]) -> Judged
    ensures { IfOk result (λ p. p ≡ wrong name.now) }
{
    Ok(Some(Problem::WrongArgs(Text::from_slice(alloc, name)?)))
}

/// Checks the number of arguments.
fn counted(alloc: Global, name: &[u8], count: Count, n: usize) -> Judged
    ensures { IfOk result (λ p. p ≡ counted name.now count n) }
{
    if fits(count, n) {
        return Ok(None);
    }
    wrong(alloc, name)
}

/// Returns the count that only n arguments fit.
fn exactly(n: usize) -> Count
    ensures { result ≡ exactly n }
{
    Count {
        least: n,
        most: Some(n),
    }
}

/// Checks flags before the last n arguments.
fn switched(alloc: Global, name: &[u8], switches: Switches, n: usize, args: &[Placed]) -> Judged
    ensures { IfOk result (λ p. p ≡ switched name.now switches n false args.now) }
{
    let mut due = false;
    let mut rest = args;
    while let [word, more @ ..] = rest {
        if due {
            due = false;
            rest = more;
            continue;
        }
        if rest.len() <= n {
            return counted(alloc, name, exactly(n), rest.len());
        }
        let Some(text) = &word.value else {
            return Ok(None);
        };
        if !begins_with_minus(text.as_slice()) {
            return wrong(alloc, name);
        }
        let Some(switch) = switch_of(switches, text.as_slice()) else {
            return Ok(Some(Problem::BadFlag(text.copied(alloc)?)));
        };
        due = takes_value(switch);
        rest = more;
    }
    counted(alloc, name, exactly(n), 0)
}

/// Checks the number of arguments, and the flags before the last of them, if the command has any.
fn if_switched(
    alloc: Global,
    name: &[u8],
    count: Count,
    args: &[Placed],
    switches: Option<Switches>,
) -> Judged
    ensures { IfOk result (λ p. p ≡ if_switched name.now count args.now switches) }
{
    let Some(switches) = switches else {
        return counted(alloc, name, count, args.len());
    };
    if !fits(count, args.len()) {
        return wrong(alloc, name);
    }
    let before = words_before(switches);
    let least = count.least.saturating_sub(before);
    let n = least.saturating_sub(flags_needed(switches));
    switched(alloc, name, switches, n, behind(args, before))
}

/// Checks an option and the arguments after it. An option that isn't literal isn't checked.
fn chosen(alloc: Global, command: Command, name: &[u8], option: &Placed, args: &[Placed]) -> Judged
    ensures { IfOk result (λ p. p ≡ chosen command name.now args.now option.now.value) }
{
    match &option.value {
        None => Ok(None),
        Some(text) => match option_count(command, text.as_slice()) {
            None => Ok(Some(Problem::BadOption(text.copied(alloc)?))),
            Some(count) => {
                let switches = option_switches(command, text.as_slice());
                if_switched(alloc, name, count, args, switches)
            }
        },
    }
}

/// Checks the arguments of a command whose first argument is an option.
fn choice_fault(alloc: Global, command: Command, name: &[u8], args: &[Placed]) -> Judged
    ensures { IfOk result (λ p. p ≡ choice_fault command name.now args.now) }
{
    match args {
        [] => wrong(alloc, name),
        [option, rest @ ..] => {
            if fits(row_of(command).count, args.len()) {
                return chosen(alloc, command, name, option, rest);
            }
            wrong(alloc, name)
        }
    }
}

/// Checks flags, and the number of arguments after them.
fn flagged(alloc: Global, name: &[u8], flags: Flags, count: Count, args: &[Placed]) -> Judged
    ensures { IfOk result (λ p. p ≡ flagged name.now flags count false args.now) }
{
    let mut due = false;
    let mut rest = args;
    while let [word, more @ ..] = rest {
        if due {
            due = false;
            rest = more;
            continue;
        }
        let Some(text) = &word.value else {
            return Ok(None);
        };
        match flag_role(flags, text.as_slice()) {
            Role::Word => return counted(alloc, name, count, rest.len()),
            Role::End => return counted(alloc, name, count, more.len()),
            Role::Alone => {}
            Role::Id => due = true,
            Role::Choice(_) => {}
            Role::Shown => {}
            Role::ShownWithValue => due = true,
            Role::Bad => return Ok(Some(Problem::BadFlag(text.copied(alloc)?))),
        }
        rest = more;
    }
    if due {
        return wrong(alloc, name);
    }
    counted(alloc, name, count, 0)
}

/// Checks flags before all other words, and the number of words after them.
fn fronted(alloc: Global, name: &[u8], switches: Switches, count: Count, args: &[Placed]) -> Judged
    ensures { IfOk result (λ p. p ≡ fronted name.now switches count false args.now) }
{
    let mut due = false;
    let mut rest = args;
    while let [word, more @ ..] = rest {
        if due {
            due = false;
            rest = more;
            continue;
        }
        let Some(text) = &word.value else {
            return Ok(None);
        };
        if !begins_with_minus(text.as_slice()) {
            return counted(alloc, name, count, rest.len());
        }
        let Some(flag) = switch_of(switches, text.as_slice()) else {
            return Ok(Some(Problem::BadFlag(text.copied(alloc)?)));
        };
        if is_end(flag) {
            return counted(alloc, name, count, more.len());
        }
        due = takes_value(flag);
        rest = more;
    }
    counted(alloc, name, count, 0)
}

/// Returns the stage after the arguments of `if`.
fn last_stage(stage: Stage, words: &[Placed]) -> Stage
    ensures { result ≡ last_stage stage words.now }
{
    let mut stage = stage;
    let mut rest = words;
    while let [word, more @ ..] = rest {
        stage = step(stage, &word.value).1;
        rest = more;
    }
    stage
}

/// Checks the number of arguments of `foreach`.
fn lists_fault(alloc: Global, name: &[u8], count: Count, n: usize) -> Judged
    ensures { IfOk result (λ p. p ≡ lists_fault name.now count n) }
{
    if fits(count, n) && n % 2 == 1 {
        Ok(None)
    } else {
        wrong(alloc, name)
    }
}

/// Returns whether a word may name a channel: a standard one, or one that `open` names.
fn names_channel(word: &[u8]) -> bool
    ensures { result ≡ names_channel word.now }
{
    is(word, b"stdout") || is(word, b"stderr") || begins_with_file(word)
}

/// Returns whether a word begins as the names of channels that `open` gives.
fn begins_with_file(word: &[u8]) -> bool
    ensures { result ≡ bytes_eq (take 4 word.now) (codes "file") }
{
    word.len() >= 4 && is(&word[..4], b"file")
}

/// Checks a word in the place of a channel.
fn channel(alloc: Global, word: &Placed) -> Judged
    ensures { IfOk result (λ p. p ≡ channel word.now.value) }
{
    let Some(text) = &word.value else {
        return Ok(None);
    };
    if names_channel(text.as_slice()) {
        return Ok(None);
    }
    if begins_with(b'-', text.as_slice()) {
        return Ok(Some(Problem::BadFlag(text.copied(alloc)?)));
    }
    Ok(Some(Problem::BadOption(text.copied(alloc)?)))
}

/// Checks `puts ?-nonewline? ?channelId? text`.
fn output_fault(alloc: Global, name: &[u8], args: &[Placed]) -> Judged
    ensures { IfOk result (λ p. p ≡ output_fault name.now args.now) }
{
    match args {
        [] => wrong(alloc, name),
        [_] => Ok(None),
        [word, _] if word.is(b"-nonewline") => Ok(None),
        [word, _] => channel(alloc, word),
        [word, other, _] if word.is(b"-nonewline") => channel(alloc, other),
        [word, _, _] if word.value.is_none() => Ok(None),
        [_, _, _] => wrong(alloc, name),
        [_, _, _, _, ..] => wrong(alloc, name),
    }
}

/// Checks the arguments of a command.
pub(crate) fn fault_of(alloc: Global, command: Command, name: &[u8], args: &[Placed]) -> Judged
    ensures { IfOk result (λ p. p ≡ fault_of command name.now args.now) }
{
    let row = row_of(command);
    match row.words {
        Stage::Test if is_short(last_stage(Stage::Test, args)) => wrong(alloc, name),
        Stage::Test => Ok(None),
        Stage::Pattern => expect_fault(alloc, args),
        Stage::Lists => lists_fault(alloc, name, row.count, args.len()),
        Stage::Choice => choice_fault(alloc, command, name, args),
        Stage::Front(switches) => fronted(alloc, name, switches, words_behind(switches), args),
        Stage::Output => output_fault(alloc, name, args),
        _ => match row.flags {
            None => if_switched(alloc, name, row.count, args, row.switches),
            Some(flags) => flagged(alloc, name, flags, row.count, args),
        },
    }
}
