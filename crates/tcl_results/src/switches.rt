//! Reads the flags before the last arguments of a command.

ghost use Rattle.std.specs.Prelude.{◌≡◌};
ghost use Rattle.tcl_results.specs.Says.{Says};
ghost use Rattle.tcl_results.specs.Switches.{nothing, with_switch, if_switch, flag_step, flags_from, flags_of};

use crate::complaint::Complaint;
use crate::given::behind;
use crate::texts::{bad_flag, wrong};
use crate::ways::Way;
use command_table::{Switch, Switches, begins_with_minus, switch_of};
use std::alloc::Global;
use tcl_values::Value;

/// The flags of a call. The last one of `-exact`, `-glob` and `-regexp` counts.
#[derive(Clone, Copy)]
pub struct Given {
    pub all: bool,
    pub decreasing: bool,
    /// The next argument is the value of the last flag.
    pub due: bool,
    /// The index of the argument that is the value of `-index`.
    pub index: Option<usize>,
    pub inline: bool,
    pub integer: bool,
    pub nocase: bool,
    pub not: bool,
    /// The index of the argument that is the value of `-start`.
    pub start: Option<usize>,
    pub strict: bool,
    pub unique: bool,
    /// How texts are compared with a pattern.
    pub way: Way,
}

/// Returns an empty set of flags.
fn nothing() -> Given
    ensures { result ≡ nothing }
{
    Given {
        all: false,
        decreasing: false,
        due: false,
        index: None,
        inline: false,
        integer: false,
        nocase: false,
        not: false,
        start: None,
        strict: false,
        unique: false,
        way: Way::Glob,
    }
}

/// Returns the flags with one added. `next` is the index of the argument after it.
fn with_switch(switch: Switch, next: usize, given: Given) -> Given
    ensures { result ≡ with_switch switch next given }
{
    let mut given = given;
    match switch {
        Switch::All => given.all = true,
        Switch::Decreasing => given.decreasing = true,
        Switch::End => {}
        Switch::Exact => given.way = Way::Exact,
        Switch::Glob => given.way = Way::Glob,
        Switch::Index => {
            given.index = Some(next);
            given.due = true;
        }
        Switch::Indices => {}
        Switch::Inline => given.inline = true,
        Switch::Integer => given.integer = true,
        Switch::LineAnchor => {}
        Switch::Nocase => given.nocase = true,
        Switch::Nocommands => {}
        Switch::Not => given.not = true,
        Switch::Regexp => given.way = Way::Regular,
        Switch::Start => {
            given.start = Some(next);
            given.due = true;
        }
        Switch::Strict => given.strict = true,
        Switch::Unique => given.unique = true,
    }
    given
}

fn if_switch(
    alloc: Global,
    word: &[u8],
    switch: Option<Switch>,
    next: usize,
    given: Given,
) -> Result<Option<Given>, Complaint>
    ensures { Says result (if_switch word.now switch next given) }
{
    match switch {
        None => Err(Complaint::Said(bad_flag(alloc, word)?)),
        Some(switch) => Ok(Some(with_switch(switch, next, given))),
    }
}

/// Reads an argument as a flag, or as the value of the last flag. `None` if it is neither. It can
/// be a flag only if `more`. `next` is the index of the argument after it.
fn flag_step(
    alloc: Global,
    allowed: Switches,
    word: &[u8],
    more: bool,
    next: usize,
    given: Given,
) -> Result<Option<Given>, Complaint>
    ensures { Says result (flag_step allowed word.now more next given) }
{
    if given.due {
        return Ok(Some(Given {
            due: false,
            ..given
        }));
    }
    if more && begins_with_minus(word) {
        return if_switch(alloc, word, switch_of(allowed, word), next, given);
    }
    Ok(None)
}

/// Returns the flags at the front of the arguments, and how many arguments they take. At least
/// `tail` arguments follow each flag.
fn flags_from(
    alloc: Global,
    allowed: Switches,
    tail: usize,
    args: &[Value],
) -> Result<(Given, usize), Complaint>
    ensures { Says result (flags_from allowed tail nothing 0 args.now) }
{
    let mut given = nothing();
    let mut at = 0;
    let mut rest = args;
    while let [word, others @ ..] = rest {
        let more = tail < rest.len();
        match flag_step(alloc, allowed, word.as_slice(), more, at + 1, given)? {
            None => return Ok((given, at)),
            Some(next) => given = next,
        }
        at += 1;
        rest = others;
    }
    Ok((given, at))
}

/// Does the same, and requires exactly `tail` arguments after the flags. Otherwise the error is
/// `wrong # args`.
pub fn flags_of(
    alloc: Global,
    allowed: Switches,
    tail: usize,
    command: &[u8],
    args: &[Value],
) -> Result<(Given, usize), Complaint>
    ensures { Says result (flags_of allowed tail command.now args.now) }
{
    let (given, words) = flags_from(alloc, allowed, tail, args)?;
    if behind(args, words).len() == tail {
        return Ok((given, words));
    }
    Err(wrong(alloc, command))
}
