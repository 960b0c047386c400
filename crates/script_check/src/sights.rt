//! Collects errors and procedure definitions from a script and the scripts nested in it.

ghost use Rattle.std.specs.Prelude.{◌≡◌, ◌++◌, IfOk, OnOk};
ghost use Rattle.std.specs.List.{flat_map};
ghost use Rattle.script_check.specs.Expects.{list_of, spread_by};
ghost use Rattle.script_check.specs.Sights.{found, doubted, found_in, parse_sight, formula_sights, judged, defined, own, command_sights, reading_sights, sights};

use crate::expects::spread;
use crate::faults::fault_of;
use crate::nested::{any_expanded, scripts_of};
use crate::placed::{Placed, Words};
use crate::problem::{Finding, Problem};
use crate::readings::{Reading, readings_in};
use crate::span::{Done, Span};
use command_table::{
    Command, Kind, Stage, TclCommand, begin, command_of, is_redefinable, row_of, step,
};
use std::alloc::{AllocError, Global};
use tcl_expr::{ExprFault, parse};
use tcl_words::Text;

/// Errors and procedure definitions, in order.
pub(crate) type Seen = Vec<Sight>;

/// An error or a definition.
#[derive(Drop)]
pub enum Sight {
    /// A procedure with this name is defined.
    Defines(Text),
    /// An error.
    Finds(Finding),
    /// An error, unless a procedure has this name.
    Unless(Text, Finding),
}

/// Appends an error.
fn push_found(at: usize, what: Problem, out: &mut Seen) -> Done
    ensures { OnOk result (out.new.items ≡ out.old.items ++ found at what) }
{
    out.push(Sight::Finds(Finding { at, what }))?;
    Ok(())
}

/// Appends an error that is none if a procedure has this name.
fn push_doubted(alloc: Global, name: &[u8], at: usize, what: Problem, out: &mut Seen) -> Done
    ensures { OnOk result (out.new.items ≡ out.old.items ++ doubted name.now at what) }
{
    let name = Text::from_slice(alloc, name)?;
    out.push(Sight::Unless(name, Finding { at, what }))?;
    Ok(())
}

/// Appends an error of the command with this name.
fn push_found_in(alloc: Global, name: &[u8], at: usize, what: Problem, out: &mut Seen) -> Done
    ensures { OnOk result (out.new.items ≡ out.old.items ++ found_in name.now at what) }
{
    if is_redefinable(name) {
        return push_doubted(alloc, name, at, what, out);
    }
    push_found(at, what, out)
}

/// Appends the error of an expression, if it has one.
fn push_parsed(alloc: Global, at: usize, word: &Placed, out: &mut Seen) -> Done
    ensures { OnOk result (out.new.items ≡ out.old.items ++ parse_sight at word.now.value) }
{
    let Some(text) = &word.value else {
        return Ok(());
    };
    match parse(alloc, text.as_slice()) {
        Ok(_) => Ok(()),
        Err(ExprFault::Memory) => Err(AllocError),
        Err(ExprFault::TooDeep) => push_found(at, Problem::DeepExpression, out),
        Err(_) => push_found(at, Problem::BadExpression(text.copied(alloc)?), out),
    }
}

/// Appends the errors of the expressions among arguments.
fn formula_sights(alloc: Global, at: usize, stage: Stage, args: &[Placed], out: &mut Seen) -> Done
    ensures { OnOk result (out.new.items ≡ out.old.items ++ formula_sights at stage args.now) }
{
    let mut stage = stage;
    let mut rest = args;
    while let [word, more @ ..] = rest {
        let (kind, next) = step(stage, &word.value);
        if let Kind::Expression = kind {
            push_parsed(alloc, at, word, out)?;
        }
        stage = next;
        rest = more;
    }
    Ok(())
}

/// Appends the errors in the arguments of a command.
fn judge(
    alloc: Global,
    at: usize,
    known: Command,
    name: &[u8],
    args: &[Placed],
    out: &mut Seen,
) -> Done
    ensures { OnOk result (out.new.items ≡ out.old.items ++ judged at known name.now args.now) }
{
    if any_expanded(args) {
        return Ok(());
    }
    match fault_of(alloc, known, name, args)? {
        Some(problem) => push_found_in(alloc, name, at, problem, out),
        None => formula_sights(alloc, at, begin(row_of(known).words, args.len()), args, out),
    }
}

/// Appends the procedure that `proc` defines.
fn push_defined(alloc: Global, command: Command, args: &[Placed], out: &mut Seen) -> Done
    ensures { OnOk result (out.new.items ≡ out.old.items ++ defined command args.now) }
{
    let Command::Tcl(TclCommand::Proc) = command else {
        return Ok(());
    };
    let [name, ..] = args else {
        return Ok(());
    };
    if let Some(text) = &name.value {
        out.push(Sight::Defines(text.copied(alloc)?))?;
    }
    Ok(())
}

/// Appends the errors and definitions of a command itself. A command whose first word isn't literal
/// isn't checked.
fn push_own(alloc: Global, at: usize, words: &[Placed], out: &mut Seen) -> Done
    ensures { OnOk result (out.new.items ≡ out.old.items ++ own at words.now) }
{
    let [first, args @ ..] = words else {
        return Ok(());
    };
    let Some(name) = &first.value else {
        return Ok(());
    };
    match command_of(name.as_slice()) {
        None => {
            let what = Problem::NoCommand(name.copied(alloc)?);
            push_doubted(alloc, name.as_slice(), at, what, out)
        }
        Some(command) => {
            judge(alloc, at, command, name.as_slice(), args, out)?;
            push_defined(alloc, command, args, out)
        }
    }
}

/// Appends the errors and definitions of scripts.
#[cycle(see)]
fn see_all(alloc: Global, source: &[u8], spans: &[Span], depth: u8, out: &mut Seen) -> Done
    ensures { OnOk result (out.new.items ≡ out.old.items ++ flat_map (sights depth source.now) spans.now) }
{
    let mut rest = spans;
    while let [span, more @ ..] = rest {
        sights(alloc, source, *span, depth, out)?;
        rest = more;
    }
    Ok(())
}

/// Appends the errors and definitions of a command and of the scripts in its words.
#[cycle(see)]
fn see_one(alloc: Global, source: &[u8], at: usize, words: Words, depth: u8, out: &mut Seen) -> Done
    ensures { OnOk result (out.new.items ≡ out.old.items ++ command_sights (sights depth source.now) source.now at (spread_by source.now words (list_of source.now words))) }
{
    let (all, broken) = spread(alloc, source, words)?;
    push_own(alloc, at, all.as_slice(), out)?;
    let scripts = scripts_of(alloc, source, all.as_slice())?;
    see_all(alloc, source, scripts.as_slice(), depth, out)?;
    if let Some(finding) = broken {
        out.push(Sight::Finds(finding))?;
    }
    Ok(())
}

/// Appends the errors and definitions of a script. `depth` is how many more scripts may nest.
#[cycle(see)]
#[tactic(auto, unfolding(crate::specs::Sights::sights))]
pub(crate) fn sights(alloc: Global, source: &[u8], span: Span, depth: u8, out: &mut Seen) -> Done
    ensures { OnOk result (out.new.items ≡ out.old.items ++ sights depth source.now span) }
{
    if depth == 0 {
        return push_found(span.from, Problem::TooDeep, out);
    }
    let readings = readings_in(alloc, source, span)?;
    see_script(alloc, source, readings, depth - 1, out)
}

/// Appends the errors and definitions of the commands that were read.
#[cycle(see)]
fn see_script(alloc: Global, source: &[u8], read: Vec<Reading>, depth: u8, out: &mut Seen) -> Done
    ensures { OnOk result (out.new.items ≡ out.old.items ++ flat_map (reading_sights (sights depth source.now) source.now) read.items) }
{
    for reading in read {
        match reading {
            Reading::Malformed(at, fault) => push_found(at, Problem::Malformed(fault), out)?,
            Reading::Command(at, words) => see_one(alloc, source, at, words, depth, out)?,
        }
    }
    Ok(())
}
