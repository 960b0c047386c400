//! The flags of commands.

ghost use Rattle.std.specs.Prelude.{◌≡◌};
ghost use Rattle.command_table.specs.Flags.{is_own, begins_with_minus, flag_role, other_role, spawn_role, exec_role, send_role};

use crate::commands::is;

/// The flags that only some commands have.
#[derive(Clone, Copy, PartialEq, Eq)]
pub enum Own {
    None,
    /// `-noecho` of `spawn`, and its flags about terminals and signals.
    Spawn,
    /// `-keepnewline` of `exec`, and `-ignorestderr`.
    Exec,
    /// `-s` and `-h` of `send`.
    Send,
    /// `-d` of `match_max` and `remove_nulls`.
    Default,
    /// `-continue_timer` of `exp_continue`.
    Timer,
    /// `-nowait` of `wait`.
    Wait,
}

/// The flags of a command.
#[derive(Clone, Copy, PartialEq, Eq)]
pub struct Flags {
    /// The flag of its own.
    pub own: Own,
    /// Whether it takes `-i` and a spawn id.
    pub id: bool,
    /// Whether `--` ends its flags.
    pub end: bool,
}

/// The role of an argument that may be a flag.
#[derive(Clone, Copy, PartialEq, Eq)]
pub enum Role {
    /// Not a flag.
    Word,
    /// `--`
    End,
    /// A flag without a value.
    Alone,
    /// `-i`
    Id,
    /// One of two flags of which the last counts: `-tty` (`true`) or `-notty` (`false`) of `spawn`,
    /// `-h` (`true`) or `-s` (`false`) of `send`.
    Choice(bool),
    /// A flag without a value that changes nothing: `-nottycopy` or `-nottyinit` of `spawn`, whose
    /// line shows them, or `-ignorestderr` of `exec`.
    Shown,
    /// Such a flag with a value, which is shown: `-ignore` of `spawn`.
    ShownWithValue,
    /// A flag that the command doesn't have.
    Bad,
}

/// Returns whether a word is the command's own flag.
fn is_own(own: Own, word: &[u8]) -> bool
    ensures { result ≡ is_own own word.now }
{
    match own {
        Own::None | Own::Send => false,
        Own::Spawn => is(word, b"-noecho"),
        Own::Exec => is(word, b"-keepnewline"),
        Own::Default => is(word, b"-d"),
        Own::Timer => is(word, b"-continue_timer"),
        Own::Wait => is(word, b"-nowait"),
    }
}

/// Returns whether a word begins with `-`.
pub fn begins_with_minus(word: &[u8]) -> bool
    ensures { result ≡ begins_with_minus word.now }
{
    match word {
        [] => false,
        [first, ..] => *first == b'-',
    }
}

/// Returns the role of a word that begins with `-` as a flag of `spawn`, other than `-noecho`.
fn spawn_role(word: &[u8]) -> Role
    ensures { result ≡ spawn_role word.now }
{
    if is(word, b"-tty") {
        Role::Choice(true)
    } else if is(word, b"-notty") {
        Role::Choice(false)
    } else if is(word, b"-nottycopy") || is(word, b"-nottyinit") {
        Role::Shown
    } else if is(word, b"-ignore") {
        Role::ShownWithValue
    } else {
        Role::Bad
    }
}

/// Returns the role of a word that begins with `-` as a flag of `exec`, other than `-keepnewline`.
fn exec_role(word: &[u8]) -> Role
    ensures { result ≡ exec_role word.now }
{
    if is(word, b"-ignorestderr") {
        Role::Shown
    } else {
        Role::Bad
    }
}

/// Returns the role of a word that begins with `-` as a flag of `send` alone.
fn send_role(word: &[u8]) -> Role
    ensures { result ≡ send_role word.now }
{
    if is(word, b"-h") {
        Role::Choice(true)
    } else if is(word, b"-s") {
        Role::Choice(false)
    } else {
        Role::Bad
    }
}

/// Returns the role of a word that begins with `-` and is no flag of most commands.
fn other_role(own: Own, word: &[u8]) -> Role
    ensures { result ≡ other_role own word.now }
{
    match own {
        Own::Spawn => spawn_role(word),
        Own::Exec => exec_role(word),
        Own::Send => send_role(word),
        Own::None | Own::Default | Own::Timer | Own::Wait => Role::Bad,
    }
}

/// Returns the role of an argument that may be a flag of the command.
pub fn flag_role(flags: Flags, word: &[u8]) -> Role
    ensures { result ≡ flag_role flags word.now }
{
    if !begins_with_minus(word) {
        Role::Word
    } else if flags.end && is(word, b"--") {
        Role::End
    } else if is_own(flags.own, word) {
        Role::Alone
    } else if flags.id && is(word, b"-i") {
        Role::Id
    } else {
        other_role(flags.own, word)
    }
}
