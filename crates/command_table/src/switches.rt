//! The flags of value commands. They come before the last arguments.

ghost use Rattle.std.specs.Prelude.{◌≡◌};
ghost use Rattle.command_table.specs.Switches.{case_switch, search_switch, sort_switch, place_switch, match_switch, replace_switch, switch_of, takes_value, is_end, words_before, words_behind, flags_needed};

use crate::commands::is;
use crate::counts::{Count, at_least, between};

/// A flag of a value command.
#[derive(Clone, Copy, PartialEq, Eq)]
pub enum Switch {
    All,
    Decreasing,
    /// `--`: no further argument is a flag.
    End,
    Exact,
    Glob,
    /// `-index` and an index.
    Index,
    Indices,
    Inline,
    Integer,
    LineAnchor,
    Nocase,
    Nocommands,
    Not,
    Regexp,
    /// `-start` and an index.
    Start,
    Strict,
    Unique,
}

/// The flags that a command or an option allows.
#[derive(Clone, Copy, PartialEq, Eq)]
pub enum Switches {
    /// `-nocase`
    Case,
    /// The flags of `switch`.
    Choice,
    /// The flags of `regexp`.
    Match,
    /// The flags of `regsub`.
    Replace,
    /// No flags, as of `package require`.
    Require,
    /// `-strict`
    Strict,
    /// The flags of `lsearch`.
    Search,
    /// The flags of `lsort`.
    Sort,
    /// `-nocommands`
    Substitute,
    /// No flags, as of `exp_version`.
    Version,
}

/// Returns the flag of `switch` that a word is, or `None`.
fn case_switch(word: &[u8]) -> Option<Switch>
    ensures { result ≡ case_switch word.now }
{
    if is(word, b"--") {
        Some(Switch::End)
    } else if is(word, b"-exact") {
        Some(Switch::Exact)
    } else if is(word, b"-glob") {
        Some(Switch::Glob)
    } else if is(word, b"-regexp") {
        Some(Switch::Regexp)
    } else {
        None
    }
}

/// Returns the flag of `lsearch` that a word is, or `None`.
fn search_switch(word: &[u8]) -> Option<Switch>
    ensures { result ≡ search_switch word.now }
{
    if is(word, b"-exact") {
        Some(Switch::Exact)
    } else if is(word, b"-glob") {
        Some(Switch::Glob)
    } else if is(word, b"-regexp") {
        Some(Switch::Regexp)
    } else if is(word, b"-all") {
        Some(Switch::All)
    } else if is(word, b"-inline") {
        Some(Switch::Inline)
    } else if is(word, b"-not") {
        Some(Switch::Not)
    } else if is(word, b"-nocase") {
        Some(Switch::Nocase)
    } else if is(word, b"-start") {
        Some(Switch::Start)
    } else {
        None
    }
}

/// Returns the flag of `lsort` that a word is, or `None`.
fn sort_switch(word: &[u8]) -> Option<Switch>
    ensures { result ≡ sort_switch word.now }
{
    if is(word, b"-integer") {
        Some(Switch::Integer)
    } else if is(word, b"-decreasing") {
        Some(Switch::Decreasing)
    } else if is(word, b"-unique") {
        Some(Switch::Unique)
    } else if is(word, b"-nocase") {
        Some(Switch::Nocase)
    } else if is(word, b"-index") {
        Some(Switch::Index)
    } else {
        None
    }
}

/// Returns the flag that a word is, if it changes where or how a pattern matches.
fn place_switch(word: &[u8]) -> Option<Switch>
    ensures { result ≡ place_switch word.now }
{
    if is(word, b"--") {
        Some(Switch::End)
    } else if is(word, b"-nocase") {
        Some(Switch::Nocase)
    } else if is(word, b"-lineanchor") {
        Some(Switch::LineAnchor)
    } else if is(word, b"-start") {
        Some(Switch::Start)
    } else {
        None
    }
}

/// Returns the flag of `regsub` that a word is, or `None`.
fn replace_switch(word: &[u8]) -> Option<Switch>
    ensures { result ≡ replace_switch word.now }
{
    if is(word, b"-all") {
        return Some(Switch::All);
    }
    place_switch(word)
}

/// Returns the flag of `regexp` that a word is, or `None`.
fn match_switch(word: &[u8]) -> Option<Switch>
    ensures { result ≡ match_switch word.now }
{
    if is(word, b"-inline") {
        return Some(Switch::Inline);
    }
    if is(word, b"-indices") {
        return Some(Switch::Indices);
    }
    replace_switch(word)
}

/// Returns the allowed flag that a word is, or `None`.
pub fn switch_of(allowed: Switches, word: &[u8]) -> Option<Switch>
    ensures { result ≡ switch_of allowed word.now }
{
    match allowed {
        Switches::Case => {
            if is(word, b"-nocase") {
                Some(Switch::Nocase)
            } else {
                None
            }
        }
        Switches::Choice => case_switch(word),
        Switches::Match => match_switch(word),
        Switches::Replace => replace_switch(word),
        Switches::Require => None,
        Switches::Strict => {
            if is(word, b"-strict") {
                Some(Switch::Strict)
            } else {
                None
            }
        }
        Switches::Search => search_switch(word),
        Switches::Sort => sort_switch(word),
        Switches::Substitute => {
            if is(word, b"-nocommands") {
                Some(Switch::Nocommands)
            } else {
                None
            }
        }
        Switches::Version => None,
    }
}

/// Returns whether the next word is the value of the flag.
pub fn takes_value(switch: Switch) -> bool
    ensures { result ≡ takes_value switch }
{
    match switch {
        Switch::Index | Switch::Start => true,
        _ => false,
    }
}

/// Returns whether a flag is the end of the flags.
pub fn is_end(switch: Switch) -> bool
    ensures { result ≡ is_end switch }
{
    match switch {
        Switch::End => true,
        _ => false,
    }
}

/// Returns how many words follow the flags of a command that has them before all other words.
pub fn words_behind(switches: Switches) -> Count
    ensures { result ≡ words_behind switches }
{
    match switches {
        Switches::Match => between(2, 12),
        Switches::Replace => between(3, 4),
        Switches::Require => between(1, 2),
        Switches::Version => between(0, 1),
        _ => at_least(0),
    }
}

/// Returns the number of words before the flags. `string is` has its class there.
pub fn words_before(switches: Switches) -> usize
    ensures { result ≡ words_before switches }
{
    match switches {
        Switches::Strict => 1,
        _ => 0,
    }
}

/// Returns how many flags a command needs. `subst` needs `-nocommands`.
pub fn flags_needed(switches: Switches) -> usize
    ensures { result ≡ flags_needed switches }
{
    match switches {
        Switches::Substitute => 1,
        _ => 0,
    }
}
